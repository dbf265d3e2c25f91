// Which of steps (i) to (v) applies at an expander.
ghost use Rattle.std.specs.Prelude.{◌≡◌};
ghost use Rattle.tables.specs.WiringDefinitions.{domain_in};
ghost use Rattle.tables.specs.filling.Entries.{entries, counted};
ghost use Rattle.tracing.specs.Reasons.{because, reason, subtractive_reason, table_reason};

use crate::Reason;
use crate::steps::{came_from, pick_bearing, pick_listing, pick_subtracting};
use crate::stretches::{index_of, stretch_start};
use tables::{ExpanderNumber, PhyId, RouteIndex};

// A rule, the phy picked and the route index of the entry that matched.
fn told(rule: u8, phy: PhyId, index: u16) -> Reason
    ensures { result ≡ because rule phy.0 index }
{
    Reason {
        rule: rule,
        phy: phy,
        index: RouteIndex(index),
    }
}

// (iv), or (v).
fn subtractive_reason(rows: &[u64], i: ExpanderNumber, came: u64) -> Reason
    ensures { result ≡ subtractive_reason (domain_in rows.now) i.0 came }
{
    match pick_subtracting(rows, i) {
        Some(p) => {
            if tables::phy_address(tables::phy_at(rows, i, p)) == came {
                return told(5, PhyId(255), 65535);
            }
            told(4, p, 65535)
        }
        None => told(5, PhyId(255), 65535),
    }
}

// (iii), or what comes after.
fn table_reason(
    rows: &[u64],
    words: &[u64],
    bits: &[u8],
    i: ExpanderNumber,
    came: u64,
    s: u64,
) -> Reason
    ensures { result ≡ table_reason (domain_in rows.now) (counted (entries words.now bits.now)) i.0 came s }
{
    match pick_listing(rows, words, bits, i, s) {
        Some(p) => {
            let at = stretch_start(rows, i, p);
            told(
                3,
                p,
                index_of(words, bits, at, tables::route_indexes(rows, i), s),
            )
        }
        None => subtractive_reason(rows, i, came),
    }
}

// (i), (ii), or what comes after: why expander i does what it does with a request for address s that arrived at this phy.
pub(crate) fn reason_for(
    rows: &[u64],
    words: &[u64],
    bits: &[u8],
    i: ExpanderNumber,
    arrival: PhyId,
    s: u64,
) -> Reason
    ensures { result ≡ reason (domain_in rows.now) (counted (entries words.now bits.now)) i.0 arrival.0 s }
{
    if tables::expander_address(rows, i) == s {
        return told(1, PhyId(255), 65535);
    }
    match pick_bearing(rows, i, s) {
        Some(p) => told(2, p, 65535),
        None => table_reason(rows, words, bits, i, came_from(rows, i, arrival), s),
    }
}
