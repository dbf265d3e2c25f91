// What an expander does with a request: steps (i) to (v).
ghost use Rattle.std.specs.Prelude.{◌≡◌, cond, ◌&&◌, T, eqb};
ghost use Rattle.tables.specs.WiringDefinitions.{domain_in};
ghost use Rattle.tables.specs.WiringDefinitions.{phy_at, address_of, attached, is_subtractive, to_expander};
ghost use Rattle.tables.specs.filling.Tables.{offset};
ghost use Rattle.tables.specs.filling.Entries.{entries, counted};
ghost use Rattle.tracing.specs.Steps.{listing, came_from, move_by, arriving, step};
ghost use Rattle.tracing.specs.Answers.{ended_here, step_of, pick_answer, bearing_pick, listing_pick, subtracting_pick};
ghost use Rattle.tracing.specs.Answers.{subtractive_step, table_step, direct_step};

use crate::stretches::lists;
use crate::{Outcome, Step};
use tables::{ExpanderNumber, IndexedRows, Phy, PhyId, words_before};

// Whether it is a subtractive phy attached to an expander.
fn is_subtracting(f: Phy) -> bool
    ensures { result ≡ (to_expander f && is_subtractive f) }
{
    if tables::phy_type(f) < 2 {
        return false;
    }
    tables::phy_attribute(f) == 1
}

// Whether phy p of expander i is a table phy attached to an expander, with s in its stretch, which starts at `at`.
fn is_listing(
    rows: &[u64],
    words: &[u64],
    bits: &[u8],
    i: ExpanderNumber,
    p: PhyId,
    at: usize,
    s: u64,
) -> bool
    requires { at ≡ offset (domain_in rows.now) i.0 p.0 }
    ensures { result ≡ listing (domain_in rows.now) (counted (entries words.now bits.now)) i.0 s p.0 }
{
    let f = tables::phy_at(rows, i, p);
    if tables::phy_type(f) < 2 {
        return false;
    }
    if tables::phy_attribute(f) != 2 {
        return false;
    }
    lists(words, bits, at, tables::route_indexes(rows, i) as usize, s)
}

// (ii): the lowest attached phy that bears the address.
pub(crate) fn pick_bearing(rows: &[u64], i: ExpanderNumber, s: u64) -> Option<PhyId>
    ensures { pick_answer result ≡ bearing_pick (domain_in rows.now) i.0 s }
{
    let n = tables::phy_count(rows, i);
    for p in 0..n {
        if tables::phy_bears(s, tables::phy_at(rows, i, PhyId(p))) {
            return Some(PhyId(p));
        }
    }
    None
}

// (iii): of the table phys attached to an expander, the lowest that has the address in its own stretch.
pub(crate) fn pick_listing(
    rows: &[u64],
    words: &[u64],
    bits: &[u8],
    i: ExpanderNumber,
    s: u64,
) -> Option<PhyId>
    ensures { pick_answer result ≡ listing_pick (domain_in rows.now) (counted (entries words.now bits.now)) i.0 s }
{
    let n = tables::phy_count(rows, i);
    let mut at = words_before(rows, i);
    for p in 0..n {
        if is_listing(rows, words, bits, i, PhyId(p), at, s) {
            return Some(PhyId(p));
        }
        at += tables::size_at(rows, i, PhyId(p)) as usize;
    }
    None
}

// (iv): the lowest subtractive phy attached to an expander.
pub(crate) fn pick_subtracting(rows: &[u64], i: ExpanderNumber) -> Option<PhyId>
    ensures { pick_answer result ≡ subtracting_pick (domain_in rows.now) i.0 }
{
    let n = tables::phy_count(rows, i);
    for p in 0..n {
        if is_subtracting(tables::phy_at(rows, i, PhyId(p))) {
            return Some(PhyId(p));
        }
    }
    None
}

// The address at the arrival phy; 0 where that is 255.
pub(crate) fn came_from(rows: &[u64], i: ExpanderNumber, arrival: PhyId) -> u64
    ensures { result ≡ came_from (domain_in rows.now) i.0 arrival.0 }
{
    if arrival.0 == 255 {
        return 0;
    }
    tables::phy_address(tables::phy_at(rows, i, arrival))
}

// On over phy p of expander i, which is attached to an expander, or the end with outcome `back` where that has the address
// at the arrival phy, `came`.
fn move_unless(d: &IndexedRows, i: ExpanderNumber, p: PhyId, came: u64, back: Outcome) -> Step
    requires { T (to_expander (phy_at (domain_in d.now.rows.now) i.0 p.0)) }
    ensures { result ≡ cond (eqb (address_of (phy_at (domain_in d.now.rows.now) i.0 p.0)) came) (ended_here back) (step_of (move_by (domain_in d.now.rows.now) i.0 p.0)) }
{
    let f = tables::phy_at(d.rows, i, p);
    if tables::phy_address(f) == came {
        return Step::Ended(back, PhyId(255));
    }
    Step::Onward(
        tables::attached_expander(d.rows, d.first, i, p),
        tables::attached_phy(f),
    )
}

// (iv), or (v).
fn subtractive_step(d: &IndexedRows, i: ExpanderNumber, came: u64) -> Step
    ensures { result ≡ step_of (subtractive_step (domain_in d.now.rows.now) i.0 came) }
{
    match pick_subtracting(d.rows, i) {
        Some(p) => move_unless(d, i, p, came, Outcome::NoDestination),
        None => Step::Ended(Outcome::NoDestination, PhyId(255)),
    }
}

// (iii), or what comes after.
fn table_step(
    d: &IndexedRows,
    words: &[u64],
    bits: &[u8],
    i: ExpanderNumber,
    came: u64,
    s: u64,
) -> Step
    ensures { result ≡ step_of (table_step (domain_in d.now.rows.now) (counted (entries words.now bits.now)) i.0 came s) }
{
    match pick_listing(d.rows, words, bits, i, s) {
        Some(p) => move_unless(d, i, p, came, Outcome::BadDestination),
        None => subtractive_step(d, i, came),
    }
}

// What (ii) does with the phy it picks: phy p of expander i, which is attached.
fn arrive_unless(d: &IndexedRows, i: ExpanderNumber, p: PhyId, came: u64) -> Step
    requires { T (attached (phy_at (domain_in d.now.rows.now) i.0 p.0)) }
    ensures { result ≡ step_of (arriving (domain_in d.now.rows.now) i.0 came p.0) }
{
    let f = tables::phy_at(d.rows, i, p);
    if tables::phy_type(f) != 1 {
        return move_unless(d, i, p, came, Outcome::BadDestination);
    }
    if tables::phy_address(f) == came {
        return Step::Ended(Outcome::BadDestination, PhyId(255));
    }
    Step::Ended(Outcome::Arrived, p)
}

// (ii), or what comes after.
fn direct_step(
    d: &IndexedRows,
    words: &[u64],
    bits: &[u8],
    i: ExpanderNumber,
    came: u64,
    s: u64,
) -> Step
    ensures { result ≡ step_of (direct_step (domain_in d.now.rows.now) (counted (entries words.now bits.now)) i.0 came s) }
{
    match pick_bearing(d.rows, i, s) {
        Some(p) => arrive_unless(d, i, p, came),
        None => table_step(d, words, bits, i, came, s),
    }
}

// (i), or what comes after: what expander i does with a request for address s that arrived at this phy.
pub(crate) fn take_step(
    d: &IndexedRows,
    words: &[u64],
    bits: &[u8],
    i: ExpanderNumber,
    arrival: PhyId,
    s: u64,
) -> Step
    ensures { result ≡ step_of (step (domain_in d.now.rows.now) (counted (entries words.now bits.now)) i.0 arrival.0 s) }
{
    if tables::expander_address(d.rows, i) == s {
        return Step::Ended(Outcome::Arrived, PhyId(255));
    }
    direct_step(d, words, bits, i, came_from(d.rows, i, arrival), s)
}
