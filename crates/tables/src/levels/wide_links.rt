// Phys at which the levels go on, and those of one wide link: a lower phy of the same link for each phy, so
// that judging goes through the levels of a link once.
ghost use Rattle.std.specs.Prelude.{◌≡◌, ◌<◌, length};
ghost use Rattle.files.specs.Domain.{expander_at, phy_at};
ghost use Rattle.files.specs.Rows.{domain_in};
ghost use Rattle.tables.specs.levels.Levels.{down};
ghost use Rattle.tables.specs.lists.PreparedLists.{one_link, LowerOnLink};

use crate::levels::attached_rows::AttachedRows;
use wiring::{ExpanderNumber, Phy, PhyId};

// Whether the levels go on at f, phy p of expander i: a table phy attached to an expander, and not to a table phy.
pub(crate) fn is_down(d: &AttachedRows, i: ExpanderNumber, p: PhyId, f: Phy) -> bool
    requires { f ≡ phy_at (domain_in d.now.rows.now) i.0 p.0 }
    ensures { result ≡ down (domain_in d.now.rows.now) f }
{
    if wiring::phy_type(f) < 2 {
        return false;
    }
    if wiring::phy_attribute(f) != 2 {
        return false;
    }
    let j = wiring::attached_expander(d.rows, d.first, i, p);
    wiring::phy_attribute(wiring::phy_at(d.rows, j, wiring::attached_phy(f))) != 2
}

// Whether the levels go on at f and g, phys p and q of expander i, at the same expander.
pub(crate) fn are_one_link(
    d: &AttachedRows,
    i: ExpanderNumber,
    p: PhyId,
    f: Phy,
    q: PhyId,
    g: Phy,
) -> bool
    requires { (f ≡ phy_at (domain_in d.now.rows.now) i.0 p.0) × (g ≡ phy_at (domain_in d.now.rows.now) i.0 q.0) }
    ensures { result ≡ one_link (domain_in d.now.rows.now) f g }
{
    if wiring::phy_address(f) != wiring::phy_address(g) {
        return false;
    }
    if !is_down(d, i, p, f) {
        return false;
    }
    is_down(d, i, q, g)
}

// A lower phy on the link of f, which is phy p of expander i, or 255 where there is none: the lowest with its
// address.
pub(crate) fn lower_phy(d: &AttachedRows, i: ExpanderNumber, p: PhyId, f: Phy) -> PhyId
    requires { (f ≡ phy_at (domain_in d.now.rows.now) i.0 p.0) × (p.0 < length (expander_at (domain_in d.now.rows.now) i.0).phys) }
    ensures { LowerOnLink (domain_in d.now.rows.now) i.0 p.0 result.0 }
{
    if wiring::phy_attribute(f) != 2 {
        return PhyId(255);
    }
    let q = wiring::lowest_phy(d.low, i, p);
    if q.0 >= p.0 {
        return PhyId(255);
    }
    let g = wiring::phy_in_row(d.rows, i, q);
    if are_one_link(d, i, p, f, q, g) {
        return q;
    }
    PhyId(255)
}
