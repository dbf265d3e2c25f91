// Writes a domain's card.
ghost use Rattle.std.specs.Prelude.{◌≡◌, ◌++◌, ◌+◌, ◌-◌, ◌≤◌, ◌<◌, length, drop};
ghost use Rattle.std.proofs.lemmas.List.Edits.{sets};
ghost use Rattle.frames.specs.Bits.{bits_of, bytes_for};
ghost use Rattle.files.specs.declared.Phy.TheVariants.{Present};
ghost use Rattle.files.specs.Domain.{expander_at};
ghost use Rattle.files.specs.Rows.{domain_in};
ghost use Rattle.cards.specs.Card.{phy_bits, phys_bits, head_bits, expanders_bits, phys_size, card_size, card_of, most_card_size, most_phys_size};
ghost use Rattle.cards.specs.Calls.{card_for, MadeDone};

use crate::{bits, sizes};
use wiring::{ExpanderNumber, Phy, PhyFields, PhyId, Refusal};

// A count less 1; 0 where it is 0.
fn less_one(n: u8) -> u64
    ensures { result ≡ n - 1 }
{
    if n == 0 {
        return 0;
    }
    (n - 1) as u64
}

// Puts the bits of a phy that is not vacant from bit `at` on.
fn put_present(card: &mut [u8], at: usize, x: PhyFields)
    requires { at < 1000000 }
    ensures { bits_of card.new ≡ sets (bits_of card.old) at (phy_bits (Present x)) }
{
    bits::put_bits(card, at, 1, 1);
    bits::put_bits(card, at + 1, 3, x.device_type as u64);
    bits::put_bits(card, at + 4, 2, x.attribute as u64);
    if x.device_type == 0 {
        return;
    }
    bits::put_bits(card, at + 6, 64, x.address);
    bits::put_bits(card, at + 70, 8, x.attached_phy.0 as u64);
}

// Puts a phy's bits from bit `at` on.
fn put_phy(card: &mut [u8], at: usize, f: Phy)
    requires { at < 1000000 }
    ensures { bits_of card.new ≡ sets (bits_of card.old) at (phy_bits f) }
{
    match f {
        Phy::Vacant(result) => {
            bits::put_bits(card, at, 1, 0);
            bits::put_bits(card, at + 1, 8, result as u64);
        }
        Phy::Present(x) => {
            put_present(card, at, x);
        }
    }
}

// Puts the bits of expander i's phys from bit `at` on, and yields the place after them.
fn put_phys(card: &mut [u8], at: usize, rows: &[u64], i: ExpanderNumber) -> usize
    requires { at < 900000 }
    ensures { (bits_of card.new ≡ sets (bits_of card.old) at (phys_bits (expander_at (domain_in rows.now) i.0).phys)) × ((result ≡ at + phys_size (expander_at (domain_in rows.now) i.0).phys) × (result ≤ at + most_phys_size)) }
{
    let n = wiring::phy_count(rows, i);
    let mut next = at;
    for p in 0..n {
        let f = wiring::phy_at(rows, i, PhyId(p));
        put_phy(card, next, f);
        next += sizes::phy_size(f);
    }
    next
}

// Puts the first 88 bits of expander i from bit `at` on: address, R, configurable, phys less 1.
fn put_head(card: &mut [u8], at: usize, rows: &[u64], i: ExpanderNumber)
    requires { at < 1000000 }
    ensures { bits_of card.new ≡ sets (bits_of card.old) at (head_bits (expander_at (domain_in rows.now) i.0)) }
{
    bits::put_bits(card, at, 64, wiring::expander_address(rows, i));
    bits::put_bits(card, at + 64, 16, wiring::route_indexes(rows, i) as u64);
    bits::put_bits(card, at + 80, 1, wiring::configurable_bit(rows, i) as u64);
    bits::put_bits(card, at + 81, 7, less_one(wiring::phy_count(rows, i)));
}

// Puts the bits of all expanders from bit 16 on, and yields the place after them.
fn put_expanders(card: &mut [u8], rows: &[u64]) -> usize
    ensures { (bits_of card.new ≡ sets (bits_of card.old) 16 (expanders_bits (domain_in rows.now))) × ((result ≡ card_size (domain_in rows.now)) × (result ≤ most_card_size)) }
{
    let n = wiring::expander_count(rows);
    let mut at: usize = 16;
    for i in 0..n {
        let e = ExpanderNumber(i);
        put_head(card, at, rows, e);
        at = put_phys(card, at + crate::HEAD_SIZE, rows, e);
    }
    at
}

// Writes the card of a domain at the front of bytes that have room for it. The bytes after stay.
fn put_card(card: &mut [u8], rows: &[u64])
    requires { bytes_for (card_size (domain_in rows.now)) ≤ length card.old }
    ensures { card.new ≡ card_of (domain_in rows.now) ++ drop (bytes_for (card_size (domain_in rows.now))) card.old }
{
    bits::put_bits(card, 0, 4, 2);
    bits::put_bits(card, 4, 6, less_one(wiring::expander_count(rows)));
    bits::put_bits(card, 10, 6, 0);
    let at = put_expanders(card, rows);
    bits::put_bits(card, at, (8 - at % 8) % 8, 0);
}

// The card of the domain in rows, where it fits: 16 otherwise. The bytes after it stay, and all of them where it is refused.
pub fn card_of_rows(rows: &[u64], card: &mut [u8]) -> Result<usize, Refusal>
    ensures { MadeDone (card_for (length card.old) (domain_in rows.now)) result card.old card.new }
{
    let n = (sizes::card_size(rows) + 7) / 8;
    if card.len() < n {
        return Err(wiring::refused(16));
    }
    put_card(card, rows);
    Ok(n)
}
