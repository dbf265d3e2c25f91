// Which expander, phy and route index a word of the tables belongs to.
ghost use Rattle.std.specs.Prelude.{◌≡◌};
ghost use Rattle.files.specs.Rows.{domain_in};
ghost use Rattle.surveys.specs.WordEntries.{word_place, SoughtAt};

use crate::Entry;
use wiring::{ExpanderNumber, PhyId, Refusal, RouteIndex};

// Word k of the tables from expander i on, where it is one of expander i's; otherwise how many words are left to go.
fn seek_at(rows: &[u64], i: ExpanderNumber, k: u64) -> Result<Entry, u64>
    ensures { SoughtAt (domain_in rows.now) i.0 k result }
{
    let n = wiring::phy_count(rows, i);
    let mut left = k;
    for p in 0..n {
        let size = tables::size_at(rows, i, PhyId(p));
        if left < size {
            return Ok(Entry {
                expander: i,
                phy: PhyId(p),
                index: RouteIndex(left as u16),
            });
        }
        left -= size;
    }
    Err(left)
}

// Which entry word k of all tables is; 15 where there is no word k.
pub(crate) fn place_of_word(rows: &[u64], k: u64) -> Result<Entry, Refusal>
    ensures { result ≡ word_place k (domain_in rows.now) }
{
    let n = wiring::expander_count(rows);
    let mut left = k;
    for i in 0..n {
        match seek_at(rows, ExpanderNumber(i), left) {
            Ok(entry) => return Ok(entry),
            Err(rest) => left = rest,
        }
    }
    Err(wiring::refused(15))
}
