// The own list of each expander: on a domain past causes 1 to 12, the words that it gives to every level
// list in whose levels it is.
ghost use Rattle.std.specs.Prelude.{◌≡◌, cond, [], ◌∷◌, ◌++◌, ◌+◌, ◌*◌, ◌≤◌, ◌<◌, length, take};
ghost use Rattle.files.specs.Domain.{bears};
ghost use Rattle.files.specs.Rows.{domain_in};
ghost use Rattle.tables.specs.filling.Tables.{word};
ghost use Rattle.tables.specs.lists.OwnLists.{own_words};
ghost use Rattle.tables.specs.lists.GrowingLists.{Grown};
ghost use Rattle.tables.specs.lists.PreparedLists.{OwnListsHeld, OwnListCounts, owns_by, own_list_words};

use crate::lists::counted_rows::CountedRows;
use wiring::{ExpanderNumber, IndexedRows, Phy, PhyId};

// Whether it is an attached phy that bears the address.
pub fn phy_bears(s: u64, f: Phy) -> bool
    ensures { result ≡ bears s f }
{
    if wiring::phy_type(f) == 0 {
        return false;
    }
    wiring::phy_address(f) == s
}

// The attached address, 0 where nothing is attached.
pub(crate) fn word_of(f: Phy) -> u64
    ensures { result ≡ word f }
{
    if wiring::phy_type(f) == 0 {
        return 0;
    }
    wiring::phy_address(f)
}

// Whether f, phy p of expander i, gives its word to the expander's own list. `low` has the lowest phy with its
// address.
fn is_own(low: &[u8], i: ExpanderNumber, p: PhyId, f: Phy) -> bool
    ensures { result ≡ owns_by low.now i.0 p.0 f }
{
    let attribute = wiring::phy_attribute(f);
    if attribute == 0 {
        return true;
    }
    if attribute != 2 {
        return false;
    }
    if wiring::phy_type(f) == 0 {
        return false;
    }
    wiring::lowest_phy(low, i, p) == p
}

// Writes a phy's word after the first m of `part`, where it belongs to the own list (`mine`), and yields
// how many there are then.
pub(crate) fn put_word(part: &mut [u64], m: usize, mine: bool, f: Phy) -> usize
    requires { m < length part.old }
    ensures { Grown part.old part.new result (take m part.old ++ cond mine (word f ∷ []) []) }
{
    if !mine {
        return m;
    }
    part[m] = word_of(f);
    m + 1
}

// Writes the own list of expander i, and yields its length: at most 128.
fn collect_own(d: &IndexedRows, i: ExpanderNumber, part: &mut [u64]) -> usize
    requires { 128 ≤ length part.old }
    ensures { Grown part.old part.new result (own_words (domain_in d.now.rows.now) i.0) }
{
    let n = wiring::phy_count(d.rows, i);
    let mut m: usize = 0;
    for p in 0..n {
        let f = wiring::phy_in_row(d.rows, i, PhyId(p));
        let mine = is_own(d.low, i, PhyId(p), f);
        m = put_word(part, m, mine, f);
    }
    m
}

// Writes the own lists of all expanders, each with its length before it, one every 129 words.
pub(crate) fn put_owns(d: &IndexedRows, words: &mut [u64])
    requires { own_list_words * length (domain_in d.now.rows.now) ≤ length words.old }
    ensures { OwnListsHeld (domain_in d.now.rows.now) words.new }
{
    let n = wiring::expander_count(d.rows);
    for i in 0..n {
        let a = crate::OWN_LIST_WORDS * (i as usize);
        let m = collect_own(
            d,
            ExpanderNumber(i),
            &mut words[a + 1..a + crate::OWN_LIST_WORDS],
        );
        words[a] = m as u64;
    }
}

// One more where a word belongs to the own list (`mine`).
fn counted(m: u8, mine: bool) -> u8
    requires { m < 255 }
    ensures { result ≡ m + cond mine 1 0 }
{
    if mine {
        return m + 1;
    }
    m
}

// The length of the own list of expander i, which is made as `collect_own` makes it.
fn count_own(d: &IndexedRows, i: ExpanderNumber) -> u8
    ensures { result ≡ length (own_words (domain_in d.now.rows.now) i.0) }
{
    let n = wiring::phy_count(d.rows, i);
    let mut m: u8 = 0;
    for p in 0..n {
        let f = wiring::phy_in_row(d.rows, i, PhyId(p));
        let mine = is_own(d.low, i, PhyId(p), f);
        m = counted(m, mine);
    }
    m
}

// Writes the length of each expander's own list.
pub(crate) fn put_counts(d: &IndexedRows, counts: &mut [u8])
    requires { length (domain_in d.now.rows.now) ≤ length counts.old }
    ensures { OwnListCounts (domain_in d.now.rows.now) counts.new }
{
    let n = wiring::expander_count(d.rows);
    for i in 0..n {
        counts[i as usize] = count_own(d, ExpanderNumber(i));
    }
}

// How long expander i's own list is.
pub(crate) fn own_count(d: &CountedRows, i: ExpanderNumber) -> usize
    ensures { (result ≡ length (own_words (domain_in d.now.levels.attached.rows.now) i.0)) × (result ≤ 128) }
{
    if i.0 >= wiring::expander_count(d.levels.attached.rows) {
        return 0;
    }
    d.counts[i.0 as usize] as usize
}

// The length of expander i's own list; 0 where there is no such expander.
pub(crate) fn own_length(rows: &[u64], lists: &[u64], i: ExpanderNumber) -> usize
    requires { OwnListsHeld (domain_in rows.now) lists.now }
    ensures { result ≡ length (own_words (domain_in rows.now) i.0) }
{
    if i.0 >= wiring::expander_count(rows) {
        return 0;
    }
    lists[crate::OWN_LIST_WORDS * (i.0 as usize)] as usize
}
