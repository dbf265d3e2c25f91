// Neighbours, and the wiring call's words: a 64-bit set for each expander.
ghost use Rattle.std.specs.Prelude.{◌≡◌, [], ◌∷◌, ◌++◌, ◌≤◌, ◌<◌, length, drop};
ghost use Rattle.files.specs.Domain.{expander_at, phy_at};
ghost use Rattle.files.specs.Rows.{domain_in};
ghost use Rattle.wiring.specs.graph.Neighbours.{neighbours, neighbour_word, neighbour_words, bits_in};
ghost use Rattle.wiring.specs.graph.CableSets.{CableSet, CableSets, Leading, LeadingPair};

use crate::graph::rounds;
use crate::index::addresses;
use crate::index::indexed_rows::IndexedRows;
use frames::{ExpanderNumber, PhyId};

// The number of the expander that phy p of expander i is attached to as a set; no number where it is attached to
// none.
fn cable_bit(d: &IndexedRows, i: ExpanderNumber, p: PhyId) -> u64
    requires { p.0 < length (expander_at (domain_in d.now.rows.now) i.0).phys }
    ensures { CableSet (domain_in d.now.rows.now) (phy_at (domain_in d.now.rows.now) i.0 p.0 ∷ []) result }
{
    if files::phy_type(files::phy_in_row(d.rows, i, p)) < 2 {
        return 0;
    }
    let m = addresses::attached_expander(d.rows, d.first, i, p).0;
    if m >= 64 {
        return 0;
    }
    1u64 << m
}

// The numbers of the expanders that expander i is attached to, as a set.
fn cable_word(d: &IndexedRows, i: ExpanderNumber) -> u64
    ensures { CableSet (domain_in d.now.rows.now) (expander_at (domain_in d.now.rows.now) i.0).phys result }
{
    let n = files::phy_count(d.rows, i);
    let mut w: u64 = 0;
    for p in 0..n {
        w = w | cable_bit(d, i, PhyId(p));
    }
    w
}

// Writes such a set for each expander.
fn put_cables(d: &IndexedRows, words: &mut [u64])
    requires { length (domain_in d.now.rows.now) ≤ length words.old }
    ensures { CableSets (domain_in d.now.rows.now) (length (domain_in d.now.rows.now)) words.new }
{
    let n = files::expander_count(d.rows);
    for i in 0..n {
        words[i as usize] = cable_word(d, ExpanderNumber(i));
    }
}

// Whether one of two expanders is attached to the other. `words` has the sets of all.
fn are_neighbours(d: &IndexedRows, words: &[u64], i: ExpanderNumber, j: ExpanderNumber) -> bool
    requires { LeadingPair (domain_in d.now.rows.now) d.now.first.now words.now i.0 j.0 }
    ensures { result ≡ neighbours (domain_in d.now.rows.now) i.0 j.0 }
{
    let a = i.0 as usize;
    let b = j.0 as usize;
    rounds::has(words[a], ExpanderNumber(d.first[b] as u8))
        | rounds::has(words[b], ExpanderNumber(d.first[a] as u8))
}

// The neighbours of expander i as a set: bit j for expander j.
fn neighbour_word(d: &IndexedRows, cables: &[u64], i: ExpanderNumber) -> u64
    requires { Leading (domain_in d.now.rows.now) d.now.first.now cables.now × (i.0 < length (domain_in d.now.rows.now)) }
    ensures { result ≡ neighbour_word (domain_in d.now.rows.now) i.0 }
{
    let n = files::expander_count(d.rows);
    let mut w: u64 = 0;
    for j in 0..n {
        if are_neighbours(d, cables, i, ExpanderNumber(j)) {
            w = w | (1u64 << j);
        }
    }
    w
}

// Writes the neighbour word of each expander, and returns how many bits are set in all. The words
// after stay.
pub(crate) fn put_neighbours(d: &IndexedRows, words: &mut [u64]) -> u64
    requires { length (domain_in d.now.rows.now) ≤ length words.old }
    ensures value { result ≡ bits_in (neighbour_words (domain_in d.now.rows.now)) }
    ensures words_after { words.new ≡ neighbour_words (domain_in d.now.rows.now) ++ drop (length (domain_in d.now.rows.now)) words.old }
{
    let mut cables = [0u64; 64];
    put_cables(d, &mut cables[..]);
    let n = files::expander_count(d.rows);
    let mut sum: u64 = 0;
    for i in 0..n {
        let w = neighbour_word(d, &cables[..], ExpanderNumber(i));
        words[i as usize] = w;
        sum += u64::count_ones(w) as u64;
    }
    sum
}
