// Causes 22 and 1 to 6 of a domain file.
ghost use Rattle.std.specs.Prelude.{◌≡◌, []};
ghost use Rattle.frames.specs.Refusals.{then};
ghost use Rattle.files.specs.File.{phy_units, expanders, domain_read};
ghost use Rattle.files.specs.Rows.{count_of};
ghost use Rattle.files.specs.UnitAnswers.{phys_next, expander_checked};

use crate::{ExpanderUnit, Parsed, Setting, settings, units};
use frames::{ExpanderNumber, PhyId, Refusal};

// The n phys of expander i, whose address is `own_address`, from offset `at` on; yields the place after them.
pub(crate) fn check_phys(
    file: &[u8],
    own_address: u64,
    i: ExpanderNumber,
    n: u8,
    at: usize,
) -> Result<usize, Refusal>
    ensures { result ≡ phys_next (phy_units file.now own_address i.0 n 0 at) }
{
    let mut next = at;
    for p in 0..n {
        let unit = units::phy_unit(file, own_address, i, PhyId(p), next)?;
        next = unit.next;
    }
    Ok(next)
}

// Expander i with its phys, at offset `at`, and the place after them.
fn check_expander(
    most: Setting,
    file: &[u8],
    used: &[u64],
    i: ExpanderNumber,
    at: usize,
) -> Result<Parsed<ExpanderUnit>, Refusal>
    ensures { result ≡ expander_checked most file.now used.now i.0 at }
{
    let unit = units::expander_unit(most, file, used, i, at)?;
    let u = unit.value;
    let next = check_phys(file, u.address, i, u.phys, unit.next)?;
    Ok(Parsed {
        value: u,
        next: next,
    })
}

// The n expanders of a file, and bytes after the last unit.
fn check_expanders(most: Setting, file: &[u8], n: u8) -> Result<u8, Refusal>
    ensures { result ≡ then (expanders most file.now n 0 2 []) count_of }
{
    // the addresses of the expanders before expander i
    let mut used = [0u64; 256];
    let mut at: usize = 2;
    for i in 0..n {
        let k = i as usize;
        let unit = check_expander(most, file, &used[..k], ExpanderNumber(i), at)?;
        used[k] = unit.value.address;
        at = unit.next;
    }
    if at == file.len() {
        return Ok(n);
    }
    Err(frames::refusal_at(1, ExpanderNumber(n), PhyId(0)))
}

// Causes 22 and 1 to 6 of a file, or how many expanders it has.
pub(crate) fn check_file(most: Setting, file: &[u8]) -> Result<u8, Refusal>
    ensures { result ≡ then (domain_read most file.now) count_of }
{
    if !settings::is_in_range(most) {
        return Err(frames::refused(22));
    }
    if file.len() < 2 {
        return Err(frames::refused(1));
    }
    if file[0] != 0x10 {
        return Err(frames::refused(2));
    }
    let count = file[1];
    if !units::is_within(count, most.expanders) {
        return Err(frames::refused(3));
    }
    check_expanders(most, file, count)
}
