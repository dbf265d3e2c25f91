// Compares words with the form of the domain in rows. The attached expander that a word names is looked at first: it is right where its
// address is the phy's attached address.
ghost use Rattle.std.specs.Prelude.{◌≡◌, ◌≤◌, ◌<◌};
ghost use Rattle.files.specs.Domain.{expander_at};
ghost use Rattle.files.specs.declared.Phy.TheVariants.{Present};
ghost use Rattle.files.specs.Rows.{domain_in};
ghost use Rattle.forms.specs.FormRows.{SmallPhy, right_field, right_phys, right_expanders};

use crate::{reading, writing};
use wiring::{ExpanderNumber, Phy, PhyFields, PhyId};

// Whether v is the second word of a phy with these fields.
fn is_right_present(rows: &[u64], x: PhyFields, v: u64) -> bool
    requires { SmallPhy (Present x) }
    ensures { result ≡ right_field (domain_in rows.now) (Present x) v }
{
    if x.device_type < 2 {
        return v == writing::pack(x.device_type, x.attribute, 0, x.attached_phy.0);
    }
    let n = (v / 9007199254740992 % 64) as u8;
    if wiring::expander_address(rows, ExpanderNumber(n)) != x.address {
        return false;
    }
    v == writing::pack(x.device_type, x.attribute, n, x.attached_phy.0)
}

// Whether v is the second word of a phy.
fn is_right_field(rows: &[u64], f: Phy, v: u64) -> bool
    requires { SmallPhy f }
    ensures { result ≡ right_field (domain_in rows.now) f v }
{
    match f {
        Phy::Vacant(_) => v == 9223372036854775808,
        Phy::Present(x) => is_right_present(rows, x, v),
    }
}

// Whether the words from `at` on are those of expander i's phys.
fn are_right_phys(rows: &[u64], i: ExpanderNumber, ws: &[u64], at: usize) -> bool
    requires { at ≤ 100000 }
    ensures { result ≡ right_phys (domain_in rows.now) (expander_at (domain_in rows.now) i.0).phys at ws.now }
{
    let n = wiring::phy_count(rows, i);
    let mut to = at;
    for p in 0..n {
        let f = wiring::phy_at(rows, i, PhyId(p));
        if reading::word_at(ws, to) != wiring::phy_address(f) {
            return false;
        }
        if !is_right_field(rows, f, reading::word_at(ws, to + 1)) {
            return false;
        }
        to += 2;
    }
    true
}

// Whether the words are those of the domain in rows, and no more.
pub(crate) fn are_right(rows: &[u64], ws: &[u64]) -> bool
    ensures { result ≡ right_expanders (domain_in rows.now) (domain_in rows.now) 0 ws.now }
{
    let n = wiring::expander_count(rows);
    let mut at: usize = 0;
    for i in 0..n {
        let x = ExpanderNumber(i);
        let m = wiring::phy_count(rows, x);
        if reading::word_at(ws, at) != wiring::expander_address(rows, x) {
            return false;
        }
        if reading::word_at(ws, at + 1) != writing::head_field(wiring::route_indexes(rows, x), m) {
            return false;
        }
        if !are_right_phys(rows, x, ws, at + 2) {
            return false;
        }
        at += 2 + 2 * (m as usize);
    }
    at == ws.len()
}
