// Reads the numbers of a card, and tests it for 19.
ghost use Rattle.std.specs.Prelude.{◌≡◌, suc, ◌≤◌, ◌<◌, drop};
ghost use Rattle.frames.specs.Bits.{field, bits_of};
ghost use Rattle.cards.specs.Card.{card_size, phy_on, unit_on, domain_on};
ghost use Rattle.cards.specs.CardRead.{all_fine, formed};

use crate::bits;
use wiring::{ExpanderUnit, Phy, PhyFields, PhyId};

// The phy whose bits start at bit `at`. Its first bit, type and attribute stand in the first eight bits.
pub(crate) fn phy_from(card: &[u8], at: usize) -> Phy
    requires { at < 1000000 }
    ensures { result ≡ phy_on (drop at (bits_of card.now)) }
{
    let head = bits::byte_from(card, at);
    if head < 128 {
        return Phy::Vacant(bits::byte_from(card, at + 1) as u8);
    }
    let device_type = (head / 16 % 8) as u8;
    let attribute = (head / 4 % 4) as u8;
    if device_type == 0 {
        return Phy::Present(PhyFields {
            device_type: device_type,
            attribute: attribute,
            address: 0,
            attached_phy: PhyId(0),
        });
    }
    let address = bits::word_from(card, at + 6);
    let attached_phy = bits::byte_from(card, at + 70) as u8;
    Phy::Present(PhyFields {
        device_type: device_type,
        attribute: attribute,
        address: address,
        attached_phy: PhyId(attached_phy),
    })
}

// The fields of the expander whose bits start at bit `at`.
pub(crate) fn unit_from(card: &[u8], at: usize) -> ExpanderUnit
    requires { at < 1000000 }
    ensures { (result ≡ unit_on (drop at (bits_of card.now))) × (result.phys ≤ 128) }
{
    let route_indexes = bits::bits_at(card, at + 64, 16) as u16;
    let configurable = bits::bits_at(card, at + 80, 1) as u8;
    let phys = bits::bits_at(card, at + 81, 7) as u8 + 1;
    ExpanderUnit {
        address: bits::word_from(card, at),
        route_indexes: route_indexes,
        phys: phys,
        configurable: configurable,
    }
}

// How many expanders the card has.
pub(crate) fn expanders_from(card: &[u8]) -> u8
    ensures { (result ≡ suc (field 6 (drop 4 (bits_of card.now)))) × (result ≤ 64) }
{
    bits::bits_at(card, 4, 6) as u8 + 1
}

// Whether 19 does not hold of a card whose phys end at bit `at`, where `fine` says whether no vacant one's result is zero.
// Bits past the end count as 0, so the eight bits from there on are those that fill the last byte.
pub(crate) fn is_formed(card: &[u8], fine: bool, at: usize) -> bool
    requires { (at < 1000000) × ((fine ≡ all_fine (domain_on (bits_of card.now))) × (at ≡ card_size (domain_on (bits_of card.now)))) }
    ensures { result ≡ formed card.now (domain_on (bits_of card.now)) }
{
    if bits::bits_at(card, 0, 4) != 2 {
        return false;
    }
    if bits::bits_at(card, 10, 6) != 0 {
        return false;
    }
    if !fine {
        return false;
    }
    if card.len() != (at + 7) / 8 {
        return false;
    }
    bits::byte_from(card, at) == 0
}
