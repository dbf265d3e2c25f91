// The walk of a request, step by step.
ghost use Rattle.std.specs.Prelude.{◌≡◌, ◌≤◌, length};
ghost use Rattle.tables.specs.WiringDefinitions.{domain_in};
ghost use Rattle.tables.specs.filling.Entries.{entries, counted};
ghost use Rattle.tracing.specs.Trace.{request, traced};
ghost use Rattle.tracing.specs.Answers.{end_of, Walked};

use crate::steps::take_step;
use crate::{End, Outcome, Step};
use tables::{ExpanderNumber, IndexedRows, PhyId};

// How a walk ends.
fn ended(outcome: Outcome, last: ExpanderNumber, phy: PhyId, count: u8) -> End
    ensures { result ≡ end_of outcome last.0 phy.0 count }
{
    End {
        outcome: outcome,
        last: last,
        phy: phy,
        count: count,
    }
}

// Takes at most as many steps as there are expanders. The expanders passed go into the lent bytes.
pub(crate) fn walk(
    d: &IndexedRows,
    words: &[u64],
    bits: &[u8],
    start: ExpanderNumber,
    arrival: PhyId,
    s: u64,
    passed: &mut [u8],
) -> End
    requires { length (domain_in d.now.rows.now) ≤ length passed.old }
    ensures { Walked
        (traced (domain_in d.now.rows.now) (counted (entries words.now bits.now)) (request start.0 arrival.0 s))
        result passed.old passed.new }
{
    let n = tables::expander_count(d.rows);
    let mut i = start;
    let mut q = arrival;
    for k in 0..n {
        passed[k as usize] = i.0;
        match take_step(d, words, bits, i, q, s) {
            Step::Ended(o, p) => return ended(o, i, p, k + 1),
            Step::Onward(j, f) => {
                i = j;
                q = f;
            }
        }
    }
    ended(Outcome::NoDestination, i, PhyId(255), n)
}
