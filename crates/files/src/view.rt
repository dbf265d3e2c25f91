// A domain seen in rows: any words are a domain, of at most 64 expanders with at most 128 phys each.
ghost use Rattle.std.specs.Prelude.{◌≡◌, ◌≤◌, ◌<◌, length, get_or};
ghost use Rattle.files.specs.Domain.{expander_at, phy_at, type_of, attribute_of, address_of, attached_phy_of};
ghost use Rattle.files.specs.Rows.{phy_in, phy_in_row, domain_in, HeadIn};

use crate::{Phy, PhyFields};
use frames::{ExpanderNumber, PhyId};

// The attached device type; 0 where the phy is vacant.
pub fn phy_type(f: Phy) -> u8
    ensures { result ≡ type_of f }
{
    match f {
        Phy::Vacant(_) => 0,
        Phy::Present(x) => x.device_type,
    }
}

// The routing attribute; 3 where the phy is vacant.
pub fn phy_attribute(f: Phy) -> u8
    ensures { result ≡ attribute_of f }
{
    match f {
        Phy::Vacant(_) => 3,
        Phy::Present(x) => x.attribute,
    }
}

// The attached address; 0 where the phy is vacant.
pub fn phy_address(f: Phy) -> u64
    ensures { result ≡ address_of f }
{
    match f {
        Phy::Vacant(_) => 0,
        Phy::Present(x) => x.address,
    }
}

// The attached phy identifier; 0 where the phy is vacant.
pub fn attached_phy(f: Phy) -> PhyId
    ensures { result.0 ≡ attached_phy_of f }
{
    match f {
        Phy::Vacant(_) => PhyId(0),
        Phy::Present(x) => x.attached_phy,
    }
}

// The word at k, 0 past the end.
pub fn word_at(rows: &[u64], k: usize) -> u64
    ensures { result ≡ get_or rows.now k 0 }
{
    if k < rows.len() {
        return rows[k];
    }
    0
}

// The byte at k, 0 past the end.
pub fn byte_at(bytes: &[u8], k: usize) -> u8
    ensures { result ≡ get_or bytes.now k 0 }
{
    if k < bytes.len() {
        return bytes[k];
    }
    0
}

// How many expanders there are.
pub fn expander_count(rows: &[u64]) -> u8
    ensures { (result ≡ length (domain_in rows.now)) × (result ≤ 64) }
{
    let n = rows.len() / crate::ROW_WORDS;
    if n > 64 {
        return crate::MOST_EXPANDERS;
    }
    n as u8
}

// The SAS address of expander i; 0 where there is no such expander.
pub fn expander_address(rows: &[u64], i: ExpanderNumber) -> u64
    ensures { result ≡ (expander_at (domain_in rows.now) i.0).address }
{
    if i.0 < expander_count(rows) {
        return word_at(rows, crate::ROW_WORDS * (i.0 as usize));
    }
    0
}

// The second word of expander i's row; 0 where there is no such expander.
fn head_word(rows: &[u64], i: ExpanderNumber) -> u64
    ensures { HeadIn (domain_in rows.now) i.0 result }
{
    if i.0 < expander_count(rows) {
        return word_at(rows, crate::ROW_WORDS * (i.0 as usize) + 1);
    }
    0
}

// The configurable bit of expander i; 0 where there is no such expander.
pub fn configurable_bit(rows: &[u64], i: ExpanderNumber) -> u8
    ensures { result ≡ (expander_at (domain_in rows.now) i.0).configurable }
{
    (head_word(rows, i) / 16777216 % 2) as u8
}

// How many route indexes each phy of expander i has; 0 where there is no such expander.
pub fn route_indexes(rows: &[u64], i: ExpanderNumber) -> u16
    ensures { result ≡ (expander_at (domain_in rows.now) i.0).route_indexes }
{
    (head_word(rows, i) % 65536) as u16
}

// How many phys expander i has; 0 where there is no such expander.
pub fn phy_count(rows: &[u64], i: ExpanderNumber) -> u8
    ensures { (result ≡ length (expander_at (domain_in rows.now) i.0).phys) × (result ≤ 128) }
{
    let n = head_word(rows, i) / 65536 % 256;
    if n > 128 {
        return crate::MOST_PHYS;
    }
    n as u8
}

// The phy of two words: its attached address, and its other fields.
fn phy_from(address: u64, w: u64) -> Phy
    ensures { result ≡ phy_in address w }
{
    if w % 2 == 0 {
        return Phy::Vacant((w / 2 % 256) as u8);
    }
    Phy::Present(PhyFields {
        device_type: (w / 2 % 4) as u8,
        attribute: (w / 8 % 4) as u8,
        address: address,
        attached_phy: PhyId((w / 32 % 256) as u8),
    })
}

// The phy that the two words of phy p of expander i hold: phy p of expander i, where there is such a phy. The
// number of phys is not looked at.
pub fn phy_in_row(rows: &[u64], i: ExpanderNumber, p: PhyId) -> Phy
    ensures { result ≡ phy_in_row rows.now i.0 p.0 }
{
    let k = crate::ROW_WORDS * (i.0 as usize) + 2 + 2 * (p.0 as usize);
    phy_from(word_at(rows, k), word_at(rows, k + 1))
}

// Phy p of expander i; a vacant phy with result 0 where there is no such phy.
pub fn phy_at(rows: &[u64], i: ExpanderNumber, p: PhyId) -> Phy
    ensures { result ≡ phy_at (domain_in rows.now) i.0 p.0 }
{
    if p.0 < phy_count(rows, i) {
        return phy_in_row(rows, i, p);
    }
    Phy::Vacant(0)
}
