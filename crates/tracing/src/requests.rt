// Requests: causes 15 to 18, and the walk.
ghost use Rattle.std.specs.Prelude.{◌≡◌, length};
ghost use Rattle.tables.specs.WiringDefinitions.{domain_in};
ghost use Rattle.tables.specs.WiringDefinitions.{check_answer};
ghost use Rattle.tables.specs.filling.Entries.{entries};
ghost use Rattle.tracing.specs.Trace.{request, allowed, requested, traced_request, TraceDone};

use crate::End;
use crate::walks::walk;
use tables::{ExpanderNumber, IndexedRows, PhyId, Refusal};

// Whether cause 15 does not hold: the start is an expander, and the arrival phy is 255 or attached to an end
// device.
pub(crate) fn is_allowed(rows: &[u64], start: ExpanderNumber, arrival: PhyId) -> bool
    ensures { result ≡ allowed (domain_in rows.now) start.0 arrival.0 }
{
    if tables::expander_count(rows) <= start.0 {
        return false;
    }
    if arrival.0 == 255 {
        return true;
    }
    tables::phy_type(tables::phy_at(rows, start, arrival)) == 1
}

// Causes 15, 16, 18 and 17, with so many table words, bytes for their bits, and bytes for expanders passed lent.
fn check_request(
    rows: &[u64],
    words: usize,
    bits: usize,
    bytes: usize,
    start: ExpanderNumber,
    arrival: PhyId,
    s: u64,
) -> Result<(), Refusal>
    ensures { check_answer (domain_in rows.now) result ≡ requested (request start.0 arrival.0 s) (record { words = words; bits = bits }) bytes (domain_in rows.now) }
{
    if !is_allowed(rows, start, arrival) {
        return Err(tables::refused(15));
    }
    let needed = tables::needed_words(rows);
    if words < needed {
        return Err(tables::refused(16));
    }
    if bytes < tables::expander_count(rows) as usize {
        return Err(tables::refused(16));
    }
    let bytes_of_bits = tables::bytes_for(needed);
    if bits < bytes_of_bits {
        return Err(tables::refused(18));
    }
    if s == 0 {
        return Err(tables::refused(17));
    }
    Ok(())
}

// A request over rows: why it is refused, or how it ends; the expanders passed go into the lent bytes.
pub(crate) fn trace_rows(
    d: &IndexedRows,
    words: &[u64],
    bits: &[u8],
    start: ExpanderNumber,
    arrival: PhyId,
    s: u64,
    passed: &mut [u8],
) -> Result<End, Refusal>
    ensures { TraceDone
        (traced_request (domain_in d.now.rows.now) (entries words.now bits.now) (length passed.old) (request start.0 arrival.0 s))
        result passed.old passed.new }
{
    check_request(
        d.rows,
        words.len(),
        bits.len(),
        passed.len(),
        start,
        arrival,
        s,
    )?;
    Ok(walk(d, words, bits, start, arrival, s, passed))
}
