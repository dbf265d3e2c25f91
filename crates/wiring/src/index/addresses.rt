// Who has an address: the expander that has it, whether an end device at an earlier expander has it, and the
// lowest phy of an expander with the same attached address. Search trees of the addresses answer exactly, for
// all rows; addresses that share a key cost time alone.
ghost use Rattle.std.specs.Prelude.{◌≡◌, cond, ◌+◌, ◌-◌, ◌*◌, ◌≤◌, ◌<◌, eqb, length, get_or};
ghost use Rattle.files.specs.Domain.{number_of};
ghost use Rattle.files.specs.Rows.{domain_in};
ghost use Rattle.wiring.specs.index.SearchTree.{key_in, WalkTo};
ghost use Rattle.wiring.specs.index.AddressIndex.{slots_before, slot_of, slot_word, address_from, attached_expander, lowest_phy, tells, attached_at, EntriesKeptBut, IndexRoom, IndexPut, most_slots, PhyThere};
ghost use Rattle.wiring.specs.index.AddressIndex.{TreeRoom, Searchable, Addable, AddedTo, FirstsTo, LowsBefore, LowsTo};

use files::Phy;
use frames::{ExpanderNumber, PhyId};

// How many roots the search tree of few expanders has.
const FEW_ROOTS: usize = 256;

// How many roots the search tree of the most expanders has.
const MOST_ROOTS: usize = 8192;

// How many cells a search tree has for 2 expanders: its roots, and two for each slot.
const TREE_OF_2: usize = FEW_ROOTS + 2 * crate::SLOTS_OF_2;

// How many cells it has for 8 expanders.
const TREE_OF_8: usize = FEW_ROOTS + 2 * crate::SLOTS_OF_8;

// How many cells it has for the most expanders.
const TREE_OF_64: usize = MOST_ROOTS + 2 * crate::SLOTS_OF_64;

// How many cells the tree of one expander's phys has: a root for each, and two more.
const PHY_TREE: usize = 3 * crate::PHY_SLOTS;

// The key of an address among `size` roots.
fn key_in(s: u64, size: usize) -> usize
    requires { 0 < size }
    ensures { (result ≡ key_in size s) × (result < size) }
{
    let k = (s % 8192 + s / 8192 % 8192 + s / 67108864 % 8192) as usize;
    k & (size - 1)
}

// The word with the address of a slot.
fn slot_word(rows: &[u64], t: usize) -> u64
    requires { t < most_slots }
    ensures { result ≡ get_or rows.now (slot_word t) 0 }
{
    if t < 64 {
        return files::word_at(rows, files::ROW_WORDS * t);
    }
    let k = t - 64;
    files::word_at(rows, 2 * k + 2 + 2 * (k / 128))
}

// The cell at which the walk for address s ends, in a tree of slots from `from` on.
fn find(rows: &[u64], from: usize, cells: &[u16], size: usize, s: u64) -> usize
    requires { Searchable (domain_in rows.now) from size cells.now }
    ensures { WalkTo (address_from (domain_in rows.now) from) size cells.now s result × (result < length cells.now) }
{
    let mut bits = s;
    let mut c = key_in(s, size);
    let mut v = cells[c] as usize;
    // No iterator: each turn goes from a cell to one of the two below it.
    while v > 0 {
        if slot_word(rows, from + v - 1) == s {
            return c;
        }
        c = size + 2 * (v - 1) + (bits % 2) as usize;
        bits = bits / 2;
        v = cells[c] as usize;
    }
    c
}

// Adds slot t, whose address is s, to a tree of the slots from `from` on, and yields the lowest of them with
// this address.
fn add(rows: &[u64], from: usize, cells: &mut [u16], size: usize, t: usize, s: u64) -> usize
    requires { Addable (domain_in rows.now) from size cells.old t s }
    ensures { AddedTo (domain_in rows.now) from size cells.old cells.new t s result }
{
    let c = find(rows, from, cells, size, s);
    let v = cells[c] as usize;
    if v > 0 {
        return from + v - 1;
    }
    cells[c] = (t - from + 1) as u16;
    t
}

// Adds f, phy p of expander i, to the tree of the expander's attached phys, and writes the lowest of them with
// its address. Nothing is done where nothing is attached.
fn add_low(rows: &[u64], cells: &mut [u16], i: ExpanderNumber, p: PhyId, f: Phy, low: &mut [u8])
    requires { LowsTo (domain_in rows.now) i.0 p.0 cells.old low.old × PhyThere (domain_in rows.now) i.0 p.0 f }
    ensures { LowsTo (domain_in rows.now) i.0 (p.0 + 1) cells.new low.new × EntriesKeptBut (attached_at (domain_in rows.now)) low.old low.new }
{
    if files::phy_type(f) == 0 {
        return;
    }
    let from = crate::EXPANDER_SLOTS + crate::PHY_SLOTS * (i.0 as usize);
    let t = from + (p.0 as usize);
    let r = add(rows, from, cells, 128, t, files::phy_address(f));
    let k = crate::PHY_SLOTS * (i.0 as usize) + (p.0 as usize);
    low[k] = (r - from) as u8;
}

// Writes the lowest phy with its address for each attached phy of expander i.
fn put_low(rows: &[u64], i: ExpanderNumber, low: &mut [u8])
    requires { LowsBefore (domain_in rows.now) i.0 low.old }
    ensures { LowsBefore (domain_in rows.now) (i.0 + 1) low.new × EntriesKeptBut (attached_at (domain_in rows.now)) low.old low.new }
{
    let n = files::phy_count(rows, i);
    let mut cells = [0u16; PHY_TREE];
    for p in 0..n {
        let f = files::phy_in_row(rows, i, PhyId(p));
        add_low(rows, &mut cells[..], i, PhyId(p), f, low);
    }
}

// Adds all expanders to the tree of devices, and writes for each the first with its address.
fn put_expanders(rows: &[u64], cells: &mut [u16], size: usize, first: &mut [u16])
    requires { FirstsTo (domain_in rows.now) 0 size cells.old first.old }
    ensures { FirstsTo (domain_in rows.now) 64 size cells.new first.new × EntriesKeptBut (tells (domain_in rows.now)) first.old first.new }
{
    let n = files::expander_count(rows);
    for j in 0..n {
        let t = j as usize;
        let s = files::expander_address(rows, ExpanderNumber(j));
        first[t] = add(rows, 0, cells, size, t, s) as u16;
    }
}

// The slot in a cell of a tree; 65535 where the cell is free.
fn slot_in(cell: u16) -> u16
    ensures { result ≡ cond (eqb cell 0) 65535 (cell - 1) }
{
    if cell == 0 {
        return 65535;
    }
    cell - 1
}

// Writes who has the address of f, phy p of expander i, and adds it to the tree of devices where an end device
// is attached. Nothing is done where nothing is attached.
fn add_first(
    rows: &[u64],
    cells: &mut [u16],
    size: usize,
    i: ExpanderNumber,
    p: PhyId,
    f: Phy,
    first: &mut [u16],
)
    requires { FirstsTo (domain_in rows.now) (slot_of i.0 p.0) size cells.old first.old × PhyThere (domain_in rows.now) i.0 p.0 f }
    ensures { FirstsTo (domain_in rows.now) (slot_of i.0 (p.0 + 1)) size cells.new first.new × EntriesKeptBut (tells (domain_in rows.now)) first.old first.new }
{
    let device_type = files::phy_type(f);
    if device_type == 0 {
        return;
    }
    let t = crate::EXPANDER_SLOTS + crate::PHY_SLOTS * (i.0 as usize) + (p.0 as usize);
    let s = files::phy_address(f);
    if device_type == 1 {
        first[t] = add(rows, 0, cells, size, t, s) as u16;
        return;
    }
    let c = find(rows, 0, cells, size, s);
    first[t] = slot_in(cells[c]);
}

// Writes who has its address for each attached phy of expander i.
fn put_first(rows: &[u64], cells: &mut [u16], size: usize, i: ExpanderNumber, first: &mut [u16])
    requires { FirstsTo (domain_in rows.now) (slots_before i.0) size cells.old first.old × (i.0 < length (domain_in rows.now)) }
    ensures { FirstsTo (domain_in rows.now) (slots_before (i.0 + 1)) size cells.new first.new × EntriesKeptBut (tells (domain_in rows.now)) first.old first.new }
{
    let n = files::phy_count(rows, i);
    for p in 0..n {
        let f = files::phy_in_row(rows, i, PhyId(p));
        add_first(rows, cells, size, i, PhyId(p), f, first);
    }
}

// Writes both answers for all slots, with a tree that has room for them.
fn put_all(rows: &[u64], cells: &mut [u16], size: usize, first: &mut [u16], low: &mut [u8])
    requires { FirstsTo (domain_in rows.now) 0 size cells.old first.old × LowsBefore (domain_in rows.now) 0 low.old }
    ensures { IndexPut (domain_in rows.now) first.old low.old first.new low.new }
{
    put_expanders(rows, cells, size, first);
    let n = files::expander_count(rows);
    for i in 0..n {
        put_first(rows, cells, size, ExpanderNumber(i), first);
        put_low(rows, ExpanderNumber(i), low);
    }
}

// Writes both answers with a tree of this size: its roots, and all its cells. The tree stands in a frame of its own, so that
// the stack does not hold it after the index is made.
#[inline(never)]
fn index_with<const ROOTS: usize, const CELLS: usize>(
    rows: &[u64],
    first: &mut [u16],
    low: &mut [u8],
)
    requires { IndexRoom (domain_in rows.now) first.old low.old × TreeRoom (domain_in rows.now) ROOTS CELLS }
    ensures { IndexPut (domain_in rows.now) first.old low.old first.new low.new }
{
    let mut cells = [0u16; CELLS];
    put_all(rows, &mut cells[..], ROOTS, first, low);
}

// Writes for each slot of a domain who has its address (`first`), and for each attached phy the lowest phy of
// its expander with its address (`low`). Few expanders need a small tree. Words after 64 rows say nothing; that
// it calls itself there gives each tree a stack frame of its own (docs/DECISIONS.md, 17).
pub(crate) fn put_index(rows: &[u64], first: &mut [u16], low: &mut [u8])
    requires { IndexRoom (domain_in rows.now) first.old low.old }
    ensures { IndexPut (domain_in rows.now) first.old low.old first.new low.new }
{
    if rows.len() > files::ROWS_OF_64 {
        put_index(&rows[..files::ROWS_OF_64], first, low);
        return;
    }
    let n = files::expander_count(rows);
    if n <= 2 {
        index_with::<FEW_ROOTS, TREE_OF_2>(rows, first, low);
        return;
    }
    if n <= 8 {
        index_with::<FEW_ROOTS, TREE_OF_8>(rows, first, low);
        return;
    }
    index_with::<MOST_ROOTS, TREE_OF_64>(rows, first, low);
}

// The number of the expander that has the attached address of phy p of expander i, where the phy is attached to
// an expander; the count of expanders where there is none. 0 past the end of the entries.
pub fn attached_expander(rows: &[u64], first: &[u16], i: ExpanderNumber, p: PhyId) -> ExpanderNumber
    ensures { result.0 ≡ attached_expander (domain_in rows.now) first.now i.0 p.0 }
{
    let t = crate::EXPANDER_SLOTS + crate::PHY_SLOTS * (i.0 as usize) + (p.0 as usize);
    if t >= first.len() {
        return ExpanderNumber(0);
    }
    let v = first[t];
    if v < 64 {
        return ExpanderNumber(v as u8);
    }
    ExpanderNumber(files::expander_count(rows))
}

// The lowest phy of expander i with the attached address of its phy p, where that is attached. 0 past the end of
// the entries.
pub fn lowest_phy(low: &[u8], i: ExpanderNumber, p: PhyId) -> PhyId
    ensures { result.0 ≡ lowest_phy low.now i.0 p.0 }
{
    PhyId(files::byte_at(low, crate::PHY_SLOTS * (i.0 as usize) + (p.0 as usize)))
}

// The first expander with this address; the count of expanders where there is none.
pub fn number_of(rows: &[u64], s: u64) -> u8
    ensures { result ≡ number_of (domain_in rows.now) s }
{
    let n = files::expander_count(rows);
    for i in 0..n {
        if files::expander_address(rows, ExpanderNumber(i)) == s {
            return i;
        }
    }
    n
}
