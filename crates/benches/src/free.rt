// 21: whether a named phy can take the cable.
ghost use Rattle.std.specs.Prelude.{◌≡◌};
ghost use Rattle.files.specs.Lists.{any};
ghost use Rattle.files.specs.Domain.{expander_at};
ghost use Rattle.files.specs.Rows.{domain_in};
ghost use Rattle.benches.specs.JoinCall.{upward, free};

use wiring::{ExpanderNumber, Phy, PhyId};

// Whether a phy is attached and subtractive.
fn is_upward(f: Phy) -> bool
    ensures { result ≡ upward f }
{
    (wiring::phy_type(f) != 0) & (wiring::phy_attribute(f) == 1)
}

// Whether expander i has an attached subtractive phy.
fn has_upward(rows: &[u64], i: ExpanderNumber) -> bool
    ensures { result ≡ any upward (expander_at (domain_in rows.now) i.0).phys }
{
    let n = wiring::phy_count(rows, i);
    for p in 0..n {
        if is_upward(wiring::phy_at(rows, i, PhyId(p))) {
            return true;
        }
    }
    false
}

// Whether phy p of expander i can take the cable.
pub(crate) fn is_free(rows: &[u64], i: ExpanderNumber, p: PhyId) -> bool
    ensures { result ≡ free (domain_in rows.now) i.0 p.0 }
{
    let f = wiring::phy_at(rows, i, p);
    if wiring::phy_attribute(f) != 1 {
        return false;
    }
    if wiring::phy_type(f) != 0 {
        return false;
    }
    !has_upward(rows, i)
}
