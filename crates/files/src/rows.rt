// Rows: a domain as words, 258 for each expander.
ghost use Rattle.std.specs.Prelude.{◌≡◌, ◌*◌, ◌≤◌, length, replicate};
ghost use Rattle.frames.specs.Bytes.{byte};
ghost use Rattle.std.proofs.lemmas.List.Edits.{sets};
ghost use Rattle.files.specs.Rows.{phy_word, head_word, rows_of, RowsRead, row_words};
ghost use Rattle.files.specs.PhyReplaced.{PhySet};
ghost use Rattle.files.specs.SecondReading.{phy_got, next_got, phys_got, domain_got, PhysPut, RowPut};

use crate::{ExpanderUnit, Parsed, Phy, Setting, file, units, view};
use frames::{ExpanderNumber, PhyId, Refusal};

// The phy of a unit: vacant where the unit is refused.
fn phy_got(unit: Result<Parsed<Phy>, Refusal>) -> Phy
    ensures { result ≡ phy_got unit }
{
    match unit {
        Err(_) => Phy::Vacant(0),
        Ok(read) => read.value,
    }
}

// The place after a unit that starts at `at`: the same where the unit is refused.
fn next_got(unit: Result<Parsed<Phy>, Refusal>, at: usize) -> usize
    ensures { result ≡ next_got at unit }
{
    match unit {
        Err(_) => at,
        Ok(read) => read.next,
    }
}

// A phy's second word: the result of a vacant phy, or type, attribute and attached phy.
pub fn phy_word(phy: Phy) -> u64
    ensures { result ≡ phy_word phy }
{
    match phy {
        Phy::Vacant(result) => 2 * (result as u64),
        Phy::Present(f) => 1
            + 2 * (f.device_type as u64)
            + 8 * (f.attribute as u64)
            + 32 * (f.attached_phy.0 as u64),
    }
}

// An expander's second word: R, number of phys, configurable bit.
pub fn head_word(u: ExpanderUnit) -> u64
    ensures { result ≡ head_word u.route_indexes u.phys u.configurable }
{
    (u.route_indexes as u64) + 65536 * (u.phys as u64) + 16777216 * (u.configurable as u64)
}

// Zeros in every word.
pub fn clear(row: &mut [u64])
    ensures { row.new ≡ replicate (length row.old) 0 }
{
    row.fill(0);
}

// Writes the words of expander i's n phys, and yields the place after them.
fn put_phys(
    row: &mut [u64],
    file: &[u8],
    own_address: u64,
    i: ExpanderNumber,
    n: u8,
    at: usize,
) -> usize
    requires { (n ≤ 128) × (length row.old ≡ row_words) }
    ensures { PhysPut (phys_got file.now own_address i.0 n 0 at) result row.old row.new }
{
    let mut next = at;
    for p in 0..n {
        let unit = units::phy_unit(file, own_address, i, PhyId(p), next);
        let phy = phy_got(unit);
        let k = 2 + 2 * (p as usize);
        row[k] = view::phy_address(phy);
        row[k + 1] = phy_word(phy);
        next = next_got(unit, next);
    }
    next
}

// Writes the row of expander i, whose phys start at `at`, and yields the place after them.
fn put_row(row: &mut [u64], file: &[u8], u: ExpanderUnit, i: ExpanderNumber, at: usize) -> usize
    requires { (u.phys ≤ 128) × (length row.old ≡ row_words) }
    ensures { RowPut u (phys_got file.now u.address i.0 u.phys 0 at) result row.new }
{
    let w = head_word(u);
    let k = 2 + 2 * (u.phys as usize);
    clear(&mut row[k..]);
    row[0] = u.address;
    row[1] = w;
    put_phys(row, file, u.address, i, u.phys, at)
}

// Writes the rows of the n expanders of a file that passed causes 1 to 6.
fn fill_rows(rows: &mut [u64], most: Setting, file: &[u8], n: u8)
    requires { (most.phys ≤ 128) × (row_words * n ≤ length rows.old) }
    ensures { rows.new ≡ sets rows.old 0 (rows_of (domain_got most file.now n 0 2)) }
{
    // no addresses, so that none was used
    let none = [0u64; 1];
    let mut at: usize = 2;
    for i in 0..n {
        let unit = units::expander_unit(most, file, &none[..0], ExpanderNumber(i), at);
        let Ok(read) = unit else {
            return;
        };
        let a = crate::ROW_WORDS * (i as usize);
        let e = a + crate::ROW_WORDS;
        at = put_row(
            &mut rows[a..e],
            file,
            read.value,
            ExpanderNumber(i),
            read.next,
        );
    }
}

// Reads a domain file into rows: causes 22 and 1 to 6, then 16. The words after the rows stay, and all of them
// where it is refused.
pub fn read_domain(setting: Setting, file: &[u8], rows: &mut [u64]) -> Result<u8, Refusal>
    ensures { RowsRead setting file.now result rows.old rows.new }
{
    let count = file::check_file(setting, file)?;
    if rows.len() < crate::ROW_WORDS * (count as usize) {
        return Err(frames::refused(16));
    }
    fill_rows(rows, setting, file, count);
    Ok(count)
}

// Replaces phy p of expander i; where there is no such phy, nothing changes.
pub fn set_phy(rows: &mut [u64], i: ExpanderNumber, p: PhyId, phy: Phy)
    ensures { PhySet rows.old rows.new i.0 p.0 phy }
{
    if p.0 < view::phy_count(rows, i) {
        let k = crate::ROW_WORDS * (i.0 as usize) + 2 + 2 * (p.0 as usize);
        rows[k] = view::phy_address(phy);
        rows[k + 1] = phy_word(phy);
    }
}

// The number of expanders that a file states in its second byte; 0 where it is shorter.
pub fn stated_count(file: &[u8]) -> u8
    ensures { result ≡ byte file.now 1 }
{
    view::byte_at(file, 1)
}
