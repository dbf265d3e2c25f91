// All tables, one after the other in lent words: by expander and then phy.
ghost use Rattle.std.specs.Prelude.{◌≡◌, [], ◌∷◌, ◌++◌, ◌+◌, ◌*◌, ◌^◌, ◌≤◌, ◌<◌, length, take, drop};
ghost use Rattle.files.specs.Domain.{phy_at, is_table};
ghost use Rattle.wiring.specs.phys.PhyCauses.{place, places_from};
ghost use Rattle.files.specs.Rows.{domain_in};
ghost use Rattle.tables.specs.filling.Tables.{table_places, size, sizes, needed};
ghost use Rattle.tables.specs.lists.GrowingLists.{places_at, with_tables, WordsPut};
ghost use Rattle.tables.specs.lists.PreparedLists.{own_tables_of, own_tables, TableReady, TablesReady, AllReady, words_at, FillRoomFor};

use crate::filling::table_filling;
use crate::levels::attached_rows::AttachedRows;
use crate::levels::downstream_rows::DownstreamRows;
use crate::levels::order::KeptOrder;
use crate::levels::{downstream, order};
use crate::lists::own_lists;
use crate::lists::prepared_rows::PreparedRows;
use wiring::{ExpanderNumber, IndexedRows, Phy, PhyId};

// Whether phy p of expander i is a non-vacant table phy.
pub(crate) fn is_table(rows: &[u64], i: ExpanderNumber, p: PhyId) -> bool
    ensures { result ≡ is_table (phy_at (domain_in rows.now) i.0 p.0) }
{
    wiring::phy_attribute(wiring::phy_at(rows, i, p)) == 2
}

// How many tables expander i has.
fn count_at(rows: &[u64], i: ExpanderNumber) -> usize
    ensures { (result ≡ length (with_tables (domain_in rows.now) (places_at (domain_in rows.now) i.0))) × (result ≤ 128) }
{
    let n = wiring::phy_count(rows, i);
    let mut sum: usize = 0;
    for p in 0..n {
        sum += is_table(rows, i, PhyId(p)) as usize;
    }
    sum
}

// How many tables there are.
pub fn table_count(rows: &[u64]) -> usize
    ensures { (result ≡ length (table_places (domain_in rows.now))) × (result < 2 ^ 32) }
{
    let n = wiring::expander_count(rows);
    let mut sum: usize = 0;
    for i in 0..n {
        sum += count_at(rows, ExpanderNumber(i));
    }
    sum
}

// How many words the tables of expander i have. Where R is 0 its phys need no look.
fn words_at(rows: &[u64], i: ExpanderNumber) -> usize
    ensures { (result ≡ words_at (domain_in rows.now) i.0) × (result ≤ 8388608) }
{
    let size = wiring::route_indexes(rows, i) as usize;
    if size == 0 {
        return 0;
    }
    count_at(rows, i) * size
}

// How many words the tables of the expanders before i have.
pub fn words_before(rows: &[u64], i: ExpanderNumber) -> usize
    ensures { (result ≡ sizes (domain_in rows.now) (places_from 0 (take i.0 (domain_in rows.now)))) × (result ≤ 8388608 * i.0) }
{
    let mut sum: usize = 0;
    for j in 0..i.0 {
        sum += words_at(rows, ExpanderNumber(j));
    }
    sum
}

// How many words all tables need: the sum of R over non-vacant table phys.
pub fn needed_words(rows: &[u64]) -> usize
    ensures { (result ≡ needed (domain_in rows.now)) × (result < 2 ^ 32) }
{
    words_before(rows, ExpanderNumber(wiring::expander_count(rows)))
}

// Writes the table of phy p of expander i, a table phy, from `at` on, and yields the place after it. `order` has the
// expanders of the phy's levels.
fn put_table(
    d: &PreparedRows,
    order: &[u8],
    i: ExpanderNumber,
    p: PhyId,
    words: &mut [u64],
    at: usize,
) -> usize
    requires { TableReady (domain_in d.now.levels.attached.rows.now) order.now i.0 p.0 words.old at }
    ensures { WordsPut words.old words.new at result
        (own_tables_of (domain_in d.now.levels.attached.rows.now) (place i.0 p.0 ∷ [])) }
{
    let end = at + wiring::route_indexes(d.levels.attached.rows, i) as usize;
    table_filling::fill_table(d, order, i, p, &mut words[at..end]);
    end
}

// Writes the tables of expander i from `at` on, and yields the place after them. `order` is room for
// the levels of one phy.
fn put_tables(
    d: &PreparedRows,
    order: &mut [u8],
    i: ExpanderNumber,
    words: &mut [u64],
    at: usize,
) -> usize
    requires { TablesReady (domain_in d.now.levels.attached.rows.now) order.old i.0 words.old at }
    ensures { WordsPut words.old words.new at result
        (own_tables_of (domain_in d.now.levels.attached.rows.now) (places_at (domain_in d.now.levels.attached.rows.now) i.0)) }
{
    let rows = d.levels.attached.rows;
    let n = wiring::phy_count(rows, i);
    let mut to = at;
    let mut kept = KeptOrder {
        phy: PhyId(255),
        fields: Phy::Vacant(0),
        count: 0,
    };
    for p in 0..n {
        let f = wiring::phy_in_row(rows, i, PhyId(p));
        if wiring::phy_attribute(f) == 2 {
            kept = order::order_for(&d.levels, kept, i, PhyId(p), f, order);
            to = put_table(d, &order[..kept.count], i, PhyId(p), words, to);
        }
    }
    to
}

// Writes all tables from the front on, with room for own lists, for the expanders downstream of each, and for the levels
// of one phy; the words after them stay.
fn put_all_in(
    d: &IndexedRows,
    lists: &mut [u64],
    downstream: &mut [u8],
    order: &mut [u8],
    words: &mut [u64],
)
    requires { FillRoomFor (length (domain_in d.now.rows.now)) (length lists.old) (length downstream.old) (length order.old) × AllReady (domain_in d.now.rows.now) words.old }
    ensures { words.new ≡ own_tables (domain_in d.now.rows.now) ++ drop (needed (domain_in d.now.rows.now)) words.old }
{
    own_lists::put_owns(d, lists);
    let attached = AttachedRows {
        rows: d.rows,
        first: d.first,
        low: d.low,
    };
    downstream::put_downstream(&attached, downstream);
    let levels = DownstreamRows {
        attached: attached,
        downstream: &*downstream,
    };
    let prepared = PreparedRows {
        levels: levels,
        lists: &*lists,
    };
    let n = wiring::expander_count(d.rows);
    let mut to: usize = 0;
    for i in 0..n {
        to = put_tables(&prepared, order, ExpanderNumber(i), words, to);
    }
}

// Writes all tables, with room of this size: words for own lists, and bytes for the expanders downstream of each and for the
// levels of one phy.
fn put_with<const LISTS: usize, const DOWNSTREAM: usize, const ORDER: usize>(
    d: &IndexedRows,
    words: &mut [u64],
)
    requires { FillRoomFor (length (domain_in d.now.rows.now)) LISTS DOWNSTREAM ORDER × AllReady (domain_in d.now.rows.now) words.old }
    ensures { words.new ≡ own_tables (domain_in d.now.rows.now) ++ drop (needed (domain_in d.now.rows.now)) words.old }
{
    let mut lists = [0u64; LISTS];
    let mut downstream = [0u8; DOWNSTREAM];
    let mut order = [0u8; ORDER];
    put_all_in(
        d,
        &mut lists[..],
        &mut downstream[..],
        &mut order[..],
        words,
    );
}

// Writes all tables. Few expanders need little room. Words after 64 rows say nothing; that it calls itself there gives each
// room a stack frame of its own (docs/DECISIONS.md, 17).
pub(crate) fn put_all(d: &IndexedRows, words: &mut [u64])
    requires { AllReady (domain_in d.now.rows.now) words.old }
    ensures { words.new ≡ own_tables (domain_in d.now.rows.now) ++ drop (needed (domain_in d.now.rows.now)) words.old }
{
    if d.rows.len() > files::ROWS_OF_64 {
        let cut = IndexedRows {
            rows: &d.rows[..files::ROWS_OF_64],
            first: d.first,
            low: d.low,
        };
        put_all(&cut, words);
        return;
    }
    if wiring::expander_count(d.rows) <= 8 {
        put_with::<{ crate::OWN_LISTS_OF_8 }, { crate::DOWNSTREAM_OF_8 }, { crate::ORDER_OF_8 }>(
            d, words,
        );
        return;
    }
    put_with::<{ crate::OWN_LISTS_OF_64 }, { crate::DOWNSTREAM_OF_64 }, { crate::ORDER_OF_64 }>(
        d, words,
    );
}
