// Writes the form of a domain in rows.
ghost use Rattle.std.specs.Prelude.{◌≡◌, ◌++◌, ◌+◌, ◌*◌, ◌≤◌, ◌<◌, length, drop};
ghost use Rattle.files.specs.Domain.{expander_at, phy_at};
ghost use Rattle.files.specs.Rows.{domain_in, most_row_words};
ghost use Rattle.wiring.specs.index.AddressIndex.{IndexedFirst};
ghost use Rattle.forms.specs.Form.{head_field, phy_field, form_phy, form_of, FormPhysPut};

use wiring::{ExpanderNumber, Phy, PhyId};

// The second word of a phy that is not vacant.
pub(crate) fn pack(device_type: u8, attribute: u8, expander: u8, attached_phy: u8) -> u64
    requires { (device_type < 4) × ((attribute < 4) × (expander ≤ 64)) }
    ensures { result ≡ phy_field 0 device_type attribute expander attached_phy }
{
    let low = (attached_phy as u64) + 256 * (expander as u64);
    let high = (attribute as u64) + 4 * (device_type as u64);
    35184372088832 * (low + 16384 * high)
}

// An expander's second word.
pub(crate) fn head_field(route_indexes: u16, phys: u8) -> u64
    ensures { result ≡ head_field route_indexes phys }
{
    1099511627776 * ((phys as u64) + 256 * (route_indexes as u64))
}

// The second word of phy p of expander i. `first` has who has which address.
fn form_phy(rows: &[u64], first: &[u16], i: ExpanderNumber, p: PhyId) -> u64
    requires { IndexedFirst (domain_in rows.now) first.now }
    ensures { result ≡ form_phy (domain_in rows.now) (phy_at (domain_in rows.now) i.0 p.0) }
{
    match wiring::phy_at(rows, i, p) {
        Phy::Vacant(_) => 9223372036854775808,
        Phy::Present(x) => {
            if x.device_type < 2 {
                return pack(x.device_type, x.attribute, 0, x.attached_phy.0);
            }
            let n = wiring::attached_expander(rows, first, i, p);
            pack(x.device_type, x.attribute, n.0, x.attached_phy.0)
        }
    }
}

// Stores the words of expander i's phys from `at` on, and yields the place after them.
fn put_phys(rows: &[u64], first: &[u16], i: ExpanderNumber, words: &mut [u64], at: usize) -> usize
    requires { IndexedFirst (domain_in rows.now) first.now × (at + 2 * length (expander_at (domain_in rows.now) i.0).phys ≤ length words.old) }
    ensures { FormPhysPut (domain_in rows.now) i.0 words.old words.new at result }
{
    let n = wiring::phy_count(rows, i);
    let mut to = at;
    for p in 0..n {
        words[to] = wiring::phy_address(wiring::phy_at(rows, i, PhyId(p)));
        words[to + 1] = form_phy(rows, first, i, PhyId(p));
        to += 2;
    }
    to
}

// How many words the form of the domain in rows has.
pub(crate) fn form_size(rows: &[u64]) -> usize
    ensures { (result ≡ length (form_of (domain_in rows.now))) × (result ≤ most_row_words) }
{
    let n = wiring::expander_count(rows);
    let mut sum: usize = 0;
    for i in 0..n {
        sum += 2 + 2 * (wiring::phy_count(rows, ExpanderNumber(i)) as usize);
    }
    sum
}

// Writes the form of the domain in rows from the front on; the words after it stay.
pub(crate) fn put_form(rows: &[u64], first: &[u16], words: &mut [u64])
    requires { IndexedFirst (domain_in rows.now) first.now × (length (form_of (domain_in rows.now)) ≤ length words.old) }
    ensures { words.new ≡ form_of (domain_in rows.now) ++ drop (length (form_of (domain_in rows.now))) words.old }
{
    let n = wiring::expander_count(rows);
    let mut to: usize = 0;
    for i in 0..n {
        let x = ExpanderNumber(i);
        words[to] = wiring::expander_address(rows, x);
        words[to + 1] = head_field(wiring::route_indexes(rows, x), wiring::phy_count(rows, x));
        to = put_phys(rows, first, x, words, to + 2);
    }
}
