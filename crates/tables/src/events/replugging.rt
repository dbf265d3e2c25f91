// A drive plugged into a phy or pulled from it, over rows: the domain as lent is judged, one phy is replaced, what can hold of
// the edited domain is tested, and the touched tables are written afresh.
ghost use Rattle.std.specs.Prelude.{◌≡◌, ◌≤◌, cond, eqb, length};
ghost use Rattle.wiring.specs.phys.Checks.{check_answer};
ghost use Rattle.files.specs.Domain.{phy_at};
ghost use Rattle.files.specs.Rows.{domain_in};
ghost use Rattle.files.specs.PhyReplaced.{with_words};
ghost use Rattle.wiring.specs.index.AddressIndex.{Indexed, IndexLeft};
ghost use Rattle.tables.specs.filling.Entries.{entries, room_of};
ghost use Rattle.tables.specs.filling.Tables.{needed};
ghost use Rattle.tables.specs.lists.PreparedLists.{FillRoomFor};
ghost use Rattle.tables.specs.events.ReplugCall.{pluggable, replug, replugged, retested, admitted, replug_call, rows_after, ReplugDone, ReplugRun, admitting, ReplugPrepared};

use crate::Moved;
use crate::events::{refilling, retesting};
use crate::filling::all_tables;
use crate::levels::attached_rows::AttachedRows;
use crate::levels::downstream;
use crate::levels::downstream_rows::DownstreamRows;
use crate::lists::own_lists;
use crate::lists::prepared_rows::PreparedRows;
use wiring::{ExpanderNumber, IndexedRows, Phy, PhyFields, PhyId, Refusal};

// A drive plugged into a phy, or pulled from it where its address is zero.
#[derive(Clone, Copy)]
struct Plug {
    expander: ExpanderNumber,
    phy: PhyId,
    address: u64,
}

// Whether a drive can be plugged into the phy or pulled from it: 20 does not hold.
fn is_pluggable(f: Phy) -> bool
    ensures { result ≡ pluggable f }
{
    match f {
        Phy::Vacant(_) => false,
        Phy::Present(x) => !(x.device_type >= 2),
    }
}

// The attached device type of a phy with the drive of address a: 1, or 0 where a is zero.
fn drive_type(a: u64) -> u8
    ensures { result ≡ cond (eqb a 0) 0 1 }
{
    if a == 0 {
        return 0;
    }
    1
}

// The phy with the drive of address a, or with none where a is zero.
fn replug_phy(a: u64, f: Phy) -> Phy
    ensures { result ≡ replug a f }
{
    match f {
        Phy::Vacant(r) => Phy::Vacant(r),
        Phy::Present(x) => Phy::Present(PhyFields {
            device_type: drive_type(a),
            attribute: x.attribute,
            address: a,
            attached_phy: PhyId(0),
        }),
    }
}

// 20 at phy p of expander e, then 16 and 18, where so many words and bytes are lent.
fn admit(
    rows: &[u64],
    words: usize,
    bits: usize,
    e: ExpanderNumber,
    p: PhyId,
) -> Result<(), Refusal>
    ensures { check_answer (domain_in rows.now) result ≡ admitting (record { words = words; bits = bits }) e.0 p.0 (domain_in rows.now) }
{
    if !is_pluggable(wiring::phy_at(rows, e, p)) {
        return Err(wiring::refused(20));
    }
    let needed = all_tables::needed_words(rows);
    if words < needed {
        return Err(wiring::refused(16));
    }
    if bits < wiring::bytes_for(needed) {
        return Err(wiring::refused(18));
    }
    Ok(())
}

// Replaces the phy in rows, tests what can hold of the edited domain, and writes the touched tables afresh; with own lists and the
// expanders downstream of each as they are before, and room for the levels of one phy.
fn replug_prepared<'a>(
    rows: &mut [u64],
    first: &'a [u16],
    low: &'a [u8],
    lists: &mut [u64],
    downstream: &'a [u8],
    order: &mut [u8],
    words: &mut [u64],
    bits: &mut [u8],
    x: Plug,
) -> Result<Moved, Refusal>
    requires { ReplugPrepared (domain_in rows.old) x.expander.0 x.phy.0 first.now lists.old downstream.now order.old (room_of (entries words.old bits.old)) }
    ensures { (rows.new ≡ with_words rows.old x.expander.0 x.phy.0 (replug x.address (phy_at (domain_in rows.old) x.expander.0 x.phy.0)))
        × ReplugDone (retested x.expander.0 x.address (replugged (domain_in rows.old) x.expander.0 x.phy.0 x.address)) x.expander.0 result
        (entries words.old bits.old) (entries words.new bits.new) }
{
    let n = own_lists::own_length(rows, lists, x.expander);
    let f = wiring::phy_at(rows, x.expander, x.phy);
    wiring::set_phy(rows, x.expander, x.phy, replug_phy(x.address, f));
    retesting::renew_own(rows, x.expander, lists);
    let attached = AttachedRows {
        rows: &*rows,
        first: first,
        low: low,
    };
    let levels = DownstreamRows {
        attached: attached,
        downstream: downstream,
    };
    let prepared = PreparedRows {
        levels: levels,
        lists: &*lists,
    };
    retesting::retest(&prepared, order, x.expander, x.address, n)?;
    Ok(refilling::refill_all(&prepared, order, x.expander, words, bits))
}

// Tests 14, 20, 16 and 18 and replugs a drive, with room for own lists, for the expanders downstream of each, and for the levels of one phy.
fn replug_in(
    rows: &mut [u64],
    first: &[u16],
    low: &[u8],
    lists: &mut [u64],
    downstream: &mut [u8],
    order: &mut [u8],
    words: &mut [u64],
    bits: &mut [u8],
    x: Plug,
) -> Result<Moved, Refusal>
    requires { Indexed (domain_in rows.old) first.now low.now × FillRoomFor (length (domain_in rows.old)) (length lists.old) (length downstream.old) (length order.old) }
    ensures { ReplugRun rows.old rows.new x.expander.0 x.phy.0 x.address result
        (entries words.old bits.old) (entries words.new bits.new) }
{
    let d = IndexedRows {
        rows: &*rows,
        first: first,
        low: low,
    };
    own_lists::put_owns(&d, lists);
    let attached = AttachedRows {
        rows: &*rows,
        first: first,
        low: low,
    };
    downstream::put_downstream(&attached, downstream);
    let levels = DownstreamRows {
        attached: attached,
        downstream: &*downstream,
    };
    let prepared = PreparedRows {
        levels: levels,
        lists: &*lists,
    };
    retesting::first_overlong_by(&prepared, order)?;
    admit(rows, words.len(), bits.len(), x.expander, x.phy)?;
    replug_prepared(rows, first, low, lists, downstream, order, words, bits, x)
}

// Replugs a drive in a domain past causes 7 to 12 and 23, with room of this size: words for own lists, and bytes for the
// expanders downstream of each and for the levels of one phy.
fn replug_with<const LISTS: usize, const DOWNSTREAM: usize, const ORDER: usize>(
    rows: &mut [u64],
    first: &[u16],
    low: &[u8],
    words: &mut [u64],
    bits: &mut [u8],
    x: Plug,
) -> Result<Moved, Refusal>
    requires { Indexed (domain_in rows.old) first.now low.now × FillRoomFor (length (domain_in rows.old)) LISTS DOWNSTREAM ORDER }
    ensures { ReplugRun rows.old rows.new x.expander.0 x.phy.0 x.address result
        (entries words.old bits.old) (entries words.new bits.new) }
{
    let mut lists = [0u64; LISTS];
    let mut downstream = [0u8; DOWNSTREAM];
    let mut order = [0u8; ORDER];
    replug_in(
        rows,
        first,
        low,
        &mut lists[..],
        &mut downstream[..],
        &mut order[..],
        words,
        bits,
        x,
    )
}

// Replugs a drive in a domain past causes 7 to 12 and 23. Few expanders need little room. No expander has a phy 128, nor any after it; that it calls
// itself there gives each room a stack frame of its own (docs/DECISIONS.md, 17).
fn replug_checked(
    rows: &mut [u64],
    first: &[u16],
    low: &[u8],
    words: &mut [u64],
    bits: &mut [u8],
    x: Plug,
) -> Result<Moved, Refusal>
    requires { Indexed (domain_in rows.old) first.now low.now }
    ensures { ReplugRun rows.old rows.new x.expander.0 x.phy.0 x.address result
        (entries words.old bits.old) (entries words.new bits.new) }
{
    if x.phy.0 > 128 {
        let past = Plug {
            expander: x.expander,
            phy: PhyId(128),
            address: x.address,
        };
        return replug_checked(rows, first, low, words, bits, past);
    }
    if wiring::expander_count(rows) <= 8 {
        return replug_with::<
            { crate::OWN_LISTS_OF_8 },
            { crate::DOWNSTREAM_OF_8 },
            { crate::ORDER_OF_8 },
        >(rows, first, low, words, bits, x);
    }
    replug_with::<{ crate::OWN_LISTS_OF_64 }, { crate::DOWNSTREAM_OF_64 }, { crate::ORDER_OF_64 }>(
        rows, first, low, words, bits, x,
    )
}

// A drive of address a plugged into phy p of expander e, or pulled from it where a is zero, over rows: causes 7 to 12, 23
// and 14 as `judge_rows` has them, then 20, 16 and 18, then what can hold of the edited domain. It writes afresh the tables with e
// in the order of their phy, words and bits, and answers how many these are and how many words changed. All other words and bits stay,
// and all of them where it is refused. The rows hold the edited domain once 18 is passed.
pub fn replug_rows(
    rows: &mut [u64],
    first: &mut [u16],
    low: &mut [u8],
    words: &mut [u64],
    bits: &mut [u8],
    chain: u8,
    e: ExpanderNumber,
    p: PhyId,
    a: u64,
) -> Result<Moved, Refusal>
    ensures rows_after { rows.new
        ≡ rows_after (admitted chain (length first.old) (length low.old) (room_of (entries words.old bits.old)) e.0 p.0 (domain_in rows.old))
        rows.old e.0 p.0 (replug a (phy_at (domain_in rows.old) e.0 p.0)) }
    ensures replug_done { ReplugDone (replug_call chain (length first.old) (length low.old) (room_of (entries words.old bits.old)) e.0 p.0 a (domain_in rows.old))
        e.0 result (entries words.old bits.old) (entries words.new bits.new) }
    ensures index_left { IndexLeft (domain_in rows.old) first.old low.old first.new low.new }
{
    wiring::check_domain(rows, first, low, chain)?;
    let x = Plug {
        expander: e,
        phy: p,
        address: a,
    };
    replug_checked(rows, first, low, words, bits, x)
}
