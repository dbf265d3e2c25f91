// Cause 14 by own lists: those of a table phy's order have more than R words in all.
ghost use Rattle.std.specs.Prelude.{◌≡◌, ◌≤◌, length};
ghost use mathlib.Core.List.{flat_map};
ghost use Rattle.wiring.specs.phys.Checks.{FirstOfAll, FirstOfExpander};
ghost use Rattle.files.specs.Rows.{domain_in};
ghost use Rattle.tables.specs.lists.OwnLists.{own_words};
ghost use Rattle.tables.specs.lists.PreparedLists.{own_overlong, order_bytes, OrderRoom, OverlongTestable, LevelRoomFor};

use crate::levels::attached_rows::AttachedRows;
use crate::levels::downstream_rows::DownstreamRows;
use crate::levels::{downstream, order, wide_links};
use crate::lists::counted_rows::CountedRows;
use crate::lists::own_lists;
use wiring::{ExpanderNumber, IndexedRows, Phy, PhyId, Refusal};

// How many words the own lists of these expanders have.
fn count_words(d: &CountedRows, order: &[u8]) -> usize
    requires { length order.now ≤ order_bytes }
    ensures { result ≡ length (flat_map (own_words (domain_in d.now.levels.attached.rows.now)) order.now) }
{
    let mut sum: usize = 0;
    for k in 0..order.len() {
        let i = ExpanderNumber(order[k]);
        sum += own_lists::own_count(d, i);
    }
    sum
}

// Whether f, phy p of expander i, is a table phy and the own lists of its levels have more than R words. q is a lower phy
// of its link, whose levels are the same and were not too long, or is not lower. `order` is room for the
// levels of one phy.
fn is_overlong(
    d: &CountedRows,
    i: ExpanderNumber,
    p: PhyId,
    q: PhyId,
    f: Phy,
    order: &mut [u8],
) -> bool
    requires { OverlongTestable (domain_in d.now.levels.attached.rows.now) order.old i.0 p.0 q.0 f }
    ensures { result ≡ own_overlong (domain_in d.now.levels.attached.rows.now) i.0 p.0 }
{
    if q.0 < p.0 {
        return false;
    }
    if !wide_links::is_down(&d.levels.attached, i, p, f) {
        return false;
    }
    let m = order::put_order(&d.levels, i, p, f, order);
    (wiring::route_indexes(d.levels.attached.rows, i) as usize) < count_words(d, &order[..m])
}

// The lowest such phy of expander i.
fn overlong_phy(d: &CountedRows, i: ExpanderNumber, order: &mut [u8]) -> Result<(), Refusal>
    requires { OrderRoom (domain_in d.now.levels.attached.rows.now) order.old }
    ensures { FirstOfExpander (domain_in d.now.levels.attached.rows.now) result 14 own_overlong i.0 }
{
    let attached = &d.levels.attached;
    let n = wiring::phy_count(attached.rows, i);
    for p in 0..n {
        let f = wiring::phy_in_row(attached.rows, i, PhyId(p));
        let q = wide_links::lower_phy(attached, i, PhyId(p), f);
        if is_overlong(d, i, PhyId(p), q, f, order) {
            return Err(wiring::refusal_at(14, i, PhyId(p)));
        }
    }
    Ok(())
}

// The lowest such phy, by expander and then phy.
pub(crate) fn overlong_each(d: &CountedRows, order: &mut [u8]) -> Result<(), Refusal>
    requires { OrderRoom (domain_in d.now.levels.attached.rows.now) order.old }
    ensures { FirstOfAll (domain_in d.now.levels.attached.rows.now) result 14 own_overlong }
{
    let n = wiring::expander_count(d.levels.attached.rows);
    for i in 0..n {
        overlong_phy(d, ExpanderNumber(i), order)?;
    }
    Ok(())
}

// The lowest such phy, with room for the lists of the expanders downstream of each, and for the levels of one phy.
fn overlong_in(d: &IndexedRows, downstream: &mut [u8], order: &mut [u8]) -> Result<(), Refusal>
    requires { LevelRoomFor (length (domain_in d.now.rows.now)) (length downstream.old) (length order.old) }
    ensures { FirstOfAll (domain_in d.now.rows.now) result 14 own_overlong }
{
    let mut counts = [0u8; 64];
    own_lists::put_counts(d, &mut counts[..]);
    let attached = AttachedRows {
        rows: d.rows,
        first: d.first,
        low: d.low,
    };
    downstream::put_downstream(&attached, downstream);
    let levels = DownstreamRows {
        attached: attached,
        downstream: &*downstream,
    };
    let counted = CountedRows {
        levels: levels,
        counts: &counts[..],
    };
    overlong_each(&counted, order)
}

// The lowest such phy, with room of this size: bytes for those lists, and for the levels of one phy. The room stands in a frame
// of its own, so that the stack does not hold it while tables are filled.
#[inline(never)]
fn overlong_with<const DOWNSTREAM: usize, const ORDER: usize>(
    d: &IndexedRows,
) -> Result<(), Refusal>
    requires { LevelRoomFor (length (domain_in d.now.rows.now)) DOWNSTREAM ORDER }
    ensures { FirstOfAll (domain_in d.now.rows.now) result 14 own_overlong }
{
    let mut downstream = [0u8; DOWNSTREAM];
    let mut order = [0u8; ORDER];
    overlong_in(d, &mut downstream[..], &mut order[..])
}

// The lowest such phy, by expander and then phy. Few expanders need little room.
pub(crate) fn first_overlong(d: &IndexedRows) -> Result<(), Refusal>
    ensures { FirstOfAll (domain_in d.now.rows.now) result 14 own_overlong }
{
    if wiring::expander_count(d.rows) <= 8 {
        return overlong_with::<{ crate::DOWNSTREAM_OF_8 }, { crate::ORDER_OF_8 }>(d);
    }
    overlong_with::<{ crate::DOWNSTREAM_OF_64 }, { crate::ORDER_OF_64 }>(d)
}
