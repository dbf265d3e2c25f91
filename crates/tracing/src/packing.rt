// Refusals and traces packed into one number.
ghost use Rattle.std.specs.Prelude.{◌≡◌, ◌≤◌};
ghost use Rattle.tracing.specs.Trace.{trace_answer};
ghost use Rattle.tracing.specs.Packing.{pack_refusal, packed, pack_outcome, pack_end, end_packed};

use crate::{End, Outcome};
use tables::Refusal;

// A refusal: 2 to the power 63, and below it number, expander and phy, a byte each.
pub fn pack_refusal(r: Refusal) -> u64
    ensures { result ≡ pack_refusal r }
{
    9223372036854775808 + (r.number as u64) * 65536 + (r.expander.0 as u64) * 256 + (r.phy.0 as u64)
}

// 0 arrived, 1 NO DESTINATION, 2 BAD DESTINATION.
fn pack_outcome(o: Outcome) -> u64
    ensures { (result ≡ pack_outcome o) × (result ≤ 2) }
{
    match o {
        Outcome::Arrived => 0,
        Outcome::NoDestination => 1,
        Outcome::BadDestination => 2,
    }
}

// How a request ends: outcome, last expander, phy and count, a byte each.
pub fn pack_end(e: End) -> u64
    ensures { result ≡ pack_end e.outcome e.last.0 e.phy.0 e.count }
{
    let o = e.outcome;
    pack_outcome(o) * 16777216
        + (e.last.0 as u64) * 65536
        + (e.phy.0 as u64) * 256
        + (e.count as u64)
}

// What a trace answers: a refusal, or how the request ends.
pub(crate) fn pack_trace(answer: Result<End, Refusal>) -> u64
    ensures { result ≡ packed end_packed (trace_answer answer) }
{
    match answer {
        Err(r) => pack_refusal(r),
        Ok(e) => pack_end(e),
    }
}
