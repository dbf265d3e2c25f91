// Causes 3, 4 and 6 of a domain in rows.
ghost use Rattle.std.specs.Prelude.{◌≡◌};
ghost use Rattle.files.specs.Lists.{any};
ghost use Rattle.files.specs.Domain.{expander_at};
ghost use Rattle.files.specs.Rows.{domain_in};
ghost use Rattle.forms.specs.FormCalls.{bad_phy, bad_unit, unread};

use wiring::{ExpanderNumber, Phy, PhyId, Setting};

// Whether 6 holds of a phy.
fn is_bad_phy(f: Phy) -> bool
    ensures { result ≡ bad_phy f }
{
    match f {
        Phy::Vacant(_) => false,
        Phy::Present(x) => !wiring::is_ranged(x),
    }
}

// Whether 6 holds of a phy of expander i.
fn has_bad_phy(rows: &[u64], i: ExpanderNumber) -> bool
    ensures { result ≡ any bad_phy (expander_at (domain_in rows.now) i.0).phys }
{
    let n = wiring::phy_count(rows, i);
    for p in 0..n {
        if is_bad_phy(wiring::phy_at(rows, i, PhyId(p))) {
            return true;
        }
    }
    false
}

// Whether 3, 4 or 6 holds at expander i.
fn is_bad_unit(most: Setting, rows: &[u64], i: ExpanderNumber) -> bool
    ensures { result ≡ bad_unit most (domain_in rows.now) i.0 }
{
    if !wiring::is_within(wiring::phy_count(rows, i), most.phys) {
        return true;
    }
    let s = wiring::expander_address(rows, i);
    if s == 0 {
        return true;
    }
    if wiring::number_of(rows, s) != i.0 {
        return true;
    }
    has_bad_phy(rows, i)
}

// Whether 3, 4 or 6 holds somewhere.
pub(crate) fn is_unread(most: Setting, rows: &[u64]) -> bool
    ensures { result ≡ unread most (domain_in rows.now) }
{
    let n = wiring::expander_count(rows);
    if !wiring::is_within(n, most.expanders) {
        return true;
    }
    for i in 0..n {
        if is_bad_unit(most, rows, ExpanderNumber(i)) {
            return true;
        }
    }
    false
}
