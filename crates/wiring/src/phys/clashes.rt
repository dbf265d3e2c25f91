// Cause 9: a phy and a lower phy of its expander have the same address and other attributes, or are both
// subtractive and have other addresses.
ghost use Rattle.std.specs.Prelude.{◌≡◌, take};
ghost use Rattle.files.specs.Lists.{any};
ghost use Rattle.files.specs.Domain.{expander_at};
ghost use Rattle.files.specs.Rows.{domain_in};
ghost use Rattle.wiring.specs.phys.PhyCauses.{clashing};
ghost use Rattle.wiring.specs.phys.Checks.{Testable};
ghost use Rattle.wiring.specs.phys.Clashes.{subtractive, leads_elsewhere};

use crate::index::addresses;
use crate::index::indexed_rows::IndexedRows;
use files::Phy;
use frames::{ExpanderNumber, PhyId};

// Whether it is an attached subtractive phy.
fn is_subtractive(f: Phy) -> bool
    ensures { result ≡ subtractive f }
{
    if files::phy_type(f) == 0 {
        return false;
    }
    files::phy_attribute(f) == 1
}

// Whether an attached subtractive phy of expander i below p has another address than s. No two of these clash, so the
// highest of them tells.
fn has_other_way(rows: &[u64], i: ExpanderNumber, p: PhyId, s: u64) -> bool
    requires { Testable 9 (domain_in rows.now) i.0 p.0 }
    ensures { result ≡ any (leads_elsewhere s) (take p.0 (expander_at (domain_in rows.now) i.0).phys) }
{
    for q in (0..p.0).rev() {
        let f = files::phy_in_row(rows, i, PhyId(q));
        if is_subtractive(f) {
            return files::phy_address(f) != s;
        }
    }
    false
}

// Whether cause 9 holds at phy p of expander i, where it does not hold at a lower phy of it. `low` has the lowest phy with its
// address.
pub(crate) fn is_clashing(d: &IndexedRows, i: ExpanderNumber, p: PhyId) -> bool
    requires { Testable 9 (domain_in d.now.rows.now) i.0 p.0 }
    ensures { result ≡ clashing (domain_in d.now.rows.now) i.0 p.0 }
{
    let f = files::phy_in_row(d.rows, i, p);
    let a = files::phy_attribute(f);
    if files::phy_type(f) == 0 {
        return false;
    }
    let q = addresses::lowest_phy(d.low, i, p);
    if files::phy_attribute(files::phy_in_row(d.rows, i, q)) != a {
        return true;
    }
    if a != 1 {
        return false;
    }
    has_other_way(d.rows, i, p, files::phy_address(f))
}
