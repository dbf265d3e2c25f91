// Causes 7 to 10 at one phy, the lowest phy at which one of them holds, and causes 7 to 10 in order.
ghost use Rattle.std.specs.Prelude.{◌≡◌, ◌<◌, length};
ghost use Rattle.files.specs.Domain.{expander_at};
ghost use Rattle.files.specs.Rows.{domain_in};
ghost use Rattle.wiring.specs.phys.PhyCauses.{names, unanswered, claimed, fixed, wired_domain};
ghost use Rattle.wiring.specs.phys.Checks.{check_answer, cause_of, first_at, Testable, FirstOfAll};
ghost use Rattle.wiring.specs.phys.CauseNumbers.{phy_cause};

use crate::index::addresses;
use crate::index::indexed_rows::IndexedRows;
use crate::phys::clashes;
use files::Phy;
use frames::{ExpanderNumber, PhyId, Refusal};

// Whether f names phy p of the expander with this address.
fn is_naming(s: u64, p: PhyId, f: Phy) -> bool
    ensures { result ≡ names s p.0 f }
{
    if files::phy_type(f) < 2 {
        return false;
    }
    if files::phy_address(f) != s {
        return false;
    }
    files::attached_phy(f) == p
}

// Whether cause 7 holds: type 2 or 3 on a direct phy, or far end missing or not naming this phy back.
fn is_unanswered(d: &IndexedRows, i: ExpanderNumber, p: PhyId) -> bool
    requires { p.0 < length (expander_at (domain_in d.now.rows.now) i.0).phys }
    ensures { result ≡ unanswered (domain_in d.now.rows.now) i.0 p.0 }
{
    let f = files::phy_in_row(d.rows, i, p);
    if files::phy_type(f) < 2 {
        return false;
    }
    if files::phy_attribute(f) == 0 {
        return true;
    }
    let j = addresses::attached_expander(d.rows, d.first, i, p);
    let g = files::phy_at(d.rows, j, files::attached_phy(f));
    !is_naming(files::expander_address(d.rows, i), p, g)
}

// Whether cause 8 holds: type 1 bearing an expander's address, or that of an end device at an earlier expander.
fn is_claimed(d: &IndexedRows, i: ExpanderNumber, p: PhyId) -> bool
    requires { p.0 < length (expander_at (domain_in d.now.rows.now) i.0).phys }
    ensures { result ≡ claimed (domain_in d.now.rows.now) i.0 p.0 }
{
    if files::phy_type(files::phy_in_row(d.rows, i, p)) != 1 {
        return false;
    }
    let from = crate::EXPANDER_SLOTS + crate::PHY_SLOTS * (i.0 as usize);
    (d.first[from + p.0 as usize] as usize) < from
}

// Whether cause 10 holds: non-vacant table phy, configurable bit 0.
fn is_fixed(rows: &[u64], i: ExpanderNumber, p: PhyId) -> bool
    requires { p.0 < length (expander_at (domain_in rows.now) i.0).phys }
    ensures { result ≡ fixed (domain_in rows.now) i.0 p.0 }
{
    if files::phy_attribute(files::phy_in_row(rows, i, p)) != 2 {
        return false;
    }
    files::configurable_bit(rows, i) == 0
}

// The causes that stand at one phy.
#[derive(Clone, Copy)]
pub(crate) enum PhyCause {
    Unanswered,
    Claimed,
    Clashing,
    Fixed,
}

// The number of a cause.
fn number_of(cause: PhyCause) -> u8
    ensures { result ≡ phy_cause cause }
{
    match cause {
        PhyCause::Unanswered => 7,
        PhyCause::Claimed => 8,
        PhyCause::Clashing => 9,
        PhyCause::Fixed => 10,
    }
}

// Whether a cause holds at phy p of expander i, where it does not hold at a lower phy of it.
fn cause_holds(d: &IndexedRows, cause: PhyCause, i: ExpanderNumber, p: PhyId) -> bool
    requires { Testable (phy_cause cause) (domain_in d.now.rows.now) i.0 p.0 }
    ensures { result ≡ cause_of (phy_cause cause) (domain_in d.now.rows.now) i.0 p.0 }
{
    match cause {
        PhyCause::Unanswered => is_unanswered(d, i, p),
        PhyCause::Claimed => is_claimed(d, i, p),
        PhyCause::Clashing => clashes::is_clashing(d, i, p),
        PhyCause::Fixed => is_fixed(d.rows, i, p),
    }
}

// The lowest phy of expander i at which a cause holds.
fn first_phy(d: &IndexedRows, cause: PhyCause, i: ExpanderNumber) -> Result<(), Refusal>
    ensures { check_answer (domain_in d.now.rows.now) result ≡ first_at (phy_cause cause) (domain_in d.now.rows.now) i.0 }
{
    let n = files::phy_count(d.rows, i);
    for p in 0..n {
        if cause_holds(d, cause, i, PhyId(p)) {
            return Err(frames::refusal_at(number_of(cause), i, PhyId(p)));
        }
    }
    Ok(())
}

// The lowest phy, by expander and then phy, at which a cause holds.
pub(crate) fn first_of(d: &IndexedRows, cause: PhyCause) -> Result<(), Refusal>
    ensures { FirstOfAll (domain_in d.now.rows.now) result (phy_cause cause) (cause_of (phy_cause cause)) }
{
    let n = files::expander_count(d.rows);
    for i in 0..n {
        first_phy(d, cause, ExpanderNumber(i))?;
    }
    Ok(())
}

// Causes 7 to 10 in order, each over all rows.
pub(crate) fn check_wiring(d: &IndexedRows) -> Result<(), Refusal>
    ensures { check_answer (domain_in d.now.rows.now) result ≡ wired_domain (domain_in d.now.rows.now) }
{
    first_of(d, PhyCause::Unanswered)?;
    first_of(d, PhyCause::Claimed)?;
    first_of(d, PhyCause::Clashing)?;
    first_of(d, PhyCause::Fixed)
}
