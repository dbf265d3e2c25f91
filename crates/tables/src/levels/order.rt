// The order of a phy: the expanders of its levels, level by level. They stand in a queue: each is followed in
// turn, and the expanders downstream of it are added behind those that wait.
ghost use Rattle.std.specs.Prelude.{◌≡◌, [], ◌∷◌, ◌++◌, ◌+◌, ◌*◌, ◌≤◌, ◌<◌, length, take};
ghost use Rattle.files.specs.Domain.{phy_at};
ghost use Rattle.files.specs.Rows.{domain_in};
ghost use Rattle.tables.specs.levels.Levels.{downstream_of_phys};
ghost use Rattle.tables.specs.lists.GrowingLists.{Grown};
ghost use Rattle.tables.specs.lists.PreparedLists.{downstream_once, order_of, most_downstream, OrderAfter};

use crate::levels::attached_rows::AttachedRows;
use crate::levels::downstream_rows::DownstreamRows;
use crate::levels::wide_links;
use wiring::{ExpanderNumber, Phy, PhyId};

// Copies the numbers after the first m of `order`, and yields how many there are then.
// Bytes, where `copy_words` has words: one size for both would make the room for 8 expanders eight times as large.
fn append_numbers(order: &mut [u8], m: usize, more: &[u8]) -> usize
    requires { m + length more.now ≤ length order.old }
    ensures { Grown order.old order.new result (take m order.old ++ more.now) }
{
    let mut to = m;
    // No copy_from_slice: the archive would need memmove from outside, which a program without the C library does not have.
    for k in 0..more.len() {
        order[to] = more[k];
        to += 1;
    }
    to
}

// Copies the numbers of the expanders downstream of expander i there.
fn append_downstream(d: &DownstreamRows, i: ExpanderNumber, order: &mut [u8], m: usize) -> usize
    requires { m + most_downstream ≤ length order.old }
    ensures { Grown order.old order.new result (take m order.old ++ downstream_once (domain_in d.now.attached.rows.now) i.0) }
{
    if i.0 >= wiring::expander_count(d.attached.rows) {
        return m;
    }
    let a = crate::DOWNSTREAM_BYTES * (i.0 as usize);
    let from = a + 1;
    let to = from + d.downstream[a] as usize;
    append_numbers(order, m, &d.downstream[from..to])
}

// Writes the first level of f, phy p of expander i: the expander attached to it, where the levels go on there. The answer is
// how many there are.
fn first_level(d: &AttachedRows, i: ExpanderNumber, p: PhyId, f: Phy, level: &mut [u8]) -> usize
    requires { (f ≡ phy_at (domain_in d.now.rows.now) i.0 p.0) × (1 ≤ length level.old) }
    ensures { Grown level.old level.new result (downstream_of_phys (domain_in d.now.rows.now) (f ∷ [])) }
{
    if !wide_links::is_down(d, i, p, f) {
        return 0;
    }
    level[0] = wiring::attached_expander(d.rows, d.first, i, p).0;
    1
}

// Writes the order of f, phy p of expander i, and yields its length. At most 64 expanders are followed, and at most 65 are
// downstream of each.
pub(crate) fn put_order(
    d: &DownstreamRows,
    i: ExpanderNumber,
    p: PhyId,
    f: Phy,
    order: &mut [u8],
) -> usize
    requires { (f ≡ phy_at (domain_in d.now.attached.rows.now) i.0 p.0) × (most_downstream * length (domain_in d.now.attached.rows.now) < length order.old) }
    ensures { Grown order.old order.new result (order_of (domain_in d.now.attached.rows.now) f) }
{
    let turns = wiring::expander_count(d.attached.rows) as usize;
    let mut m = first_level(&d.attached, i, p, f, order);
    for k in 0..turns {
        if k >= m {
            return m;
        }
        m = append_downstream(d, ExpanderNumber(order[k]), order, m);
    }
    m
}

// Whose order stands in the room for one: a phy of an expander, and how many numbers its order has.
// The numbers themselves stand in lent room, with their count beside it, and in no Vec: no call takes heap memory.
#[derive(Clone, Copy)]
pub(crate) struct KeptOrder {
    pub(crate) phy: PhyId,
    pub(crate) fields: Phy,
    pub(crate) count: usize,
}

// Writes the order of f, phy p of expander i, and yields that it stands there. The order that stands there before, of another phy of
// the expander, is kept where f is on its link. Of a phy that is attached to no expander the order is empty.
pub(crate) fn order_for(
    d: &DownstreamRows,
    kept: KeptOrder,
    i: ExpanderNumber,
    p: PhyId,
    f: Phy,
    order: &mut [u8],
) -> KeptOrder
    requires { OrderAfter (domain_in d.now.attached.rows.now) order.old i.0 p.0 f kept }
    ensures { ((result.phy.0 ≡ p.0) × (result.fields ≡ f)) × Grown order.old order.new result.count (order_of (domain_in d.now.attached.rows.now) result.fields) }
{
    if wiring::phy_type(f) < 2 {
        return KeptOrder {
            phy: p,
            fields: f,
            count: 0,
        };
    }
    if wide_links::are_one_link(&d.attached, i, p, f, kept.phy, kept.fields) {
        return KeptOrder {
            phy: p,
            fields: f,
            count: kept.count,
        };
    }
    KeptOrder {
        phy: p,
        fields: f,
        count: put_order(d, i, p, f, order),
    }
}
