// Reads words into rows as a form, whatever they are.
ghost use Rattle.std.specs.Prelude.{◌≡◌, ◌+◌, ◌*◌, ◌/◌, ◌≤◌, length, get_or, take, drop};
ghost use Rattle.std.proofs.lemmas.List.Edits.{sets};
ghost use Rattle.files.specs.Rows.{phy_words, domain_in, row_words};
ghost use Rattle.forms.specs.Form.{phy_back, phys_back, count_in, expander_back, form_in};
ghost use Rattle.forms.specs.FormRows.{RowHolds};

use wiring::{ExpanderUnit, Phy, PhyFields, PhyId};

// The word at k, 0 past the end.
pub(crate) fn word_at(ws: &[u64], k: usize) -> u64
    ensures { result ≡ get_or ws.now k 0 }
{
    if k < ws.len() {
        return ws[k];
    }
    0
}

// The phy of an address and the used bits of a second word.
fn phy_back(address: u64, v: u64) -> Phy
    ensures { result ≡ phy_back address v }
{
    if v / 262144 % 2 == 1 {
        return Phy::Vacant(1);
    }
    let device_type = (v / 65536 % 4) as u8;
    let attribute = (v / 16384 % 4) as u8;
    if device_type == 0 {
        return Phy::Present(PhyFields {
            device_type: device_type,
            attribute: attribute,
            address: 0,
            attached_phy: PhyId(0),
        });
    }
    let attached_phy = (v % 256) as u8;
    Phy::Present(PhyFields {
        device_type: device_type,
        attribute: attribute,
        address: address,
        attached_phy: PhyId(attached_phy),
    })
}

// How many phys the expander has whose words start at `at`.
fn count_in(ws: &[u64], at: usize) -> u8
    requires { at ≤ 100000 }
    ensures { (result ≡ count_in (drop at ws.now)) × (result ≤ 128) }
{
    let n = word_at(ws, at + 1) / 1099511627776 % 256;
    if n > 128 {
        return 128;
    }
    n as u8
}

// How many expanders the words read as.
pub(crate) fn count_expanders(ws: &[u64]) -> u8
    ensures { (result ≡ length (form_in ws.now)) × (result ≤ 64) }
{
    let mut at: usize = 0;
    for i in 0..64 {
        if ws.len() <= at {
            return i;
        }
        at += 2 + 2 * (count_in(ws, at) as usize);
    }
    64
}

// Stores the words of the n phys whose words start at `from` in a row.
fn put_phys(row: &mut [u64], ws: &[u64], n: u8, from: usize)
    requires { (n ≤ 128) × ((length row.old ≡ row_words) × (from ≤ 100000)) }
    ensures { row.new ≡ sets row.old 2 (phy_words (phys_back n (drop from ws.now))) }
{
    for p in 0..n {
        let k = 2 * (p as usize);
        let a = word_at(ws, from + k);
        let v = word_at(ws, from + k + 1) / 35184372088832;
        let f = phy_back(a, v);
        row[2 + k] = wiring::phy_address(f);
        row[2 + k + 1] = wiring::phy_word(f);
    }
}

// Writes what a row needs of the expander whose words start at `at`, and yields the place after its phys.
fn put_row(row: &mut [u64], ws: &[u64], at: usize) -> usize
    requires { (length row.old ≡ row_words) × (at ≤ 99998) }
    ensures { RowHolds (expander_back (drop at ws.now)) row.new × (result ≡ at + (2 + 2 * count_in (drop at ws.now))) }
{
    let n = count_in(ws, at);
    let r = (word_at(ws, at + 1) / 281474976710656 % 65536) as u16;
    let u = ExpanderUnit {
        address: word_at(ws, at),
        route_indexes: r,
        phys: n,
        configurable: 1,
    };
    row[0] = u.address;
    row[1] = wiring::head_word(u);
    put_phys(row, ws, n, at + 2);
    at + (2 + 2 * (n as usize))
}

// Reads the words into the rows of the n expanders that they read as.
pub(crate) fn read_rows(ws: &[u64], rows: &mut [u64], n: u8)
    requires { (n ≡ length (form_in ws.now)) × (row_words * n ≤ length rows.old) }
    ensures { domain_in (take (row_words * n) rows.new) ≡ form_in ws.now }
{
    let mut at: usize = 0;
    for i in 0..n {
        let a = files::ROW_WORDS * (i as usize);
        let e = a + files::ROW_WORDS;
        at = put_row(&mut rows[a..e], ws, at);
    }
}
