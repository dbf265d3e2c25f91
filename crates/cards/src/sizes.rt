// How many bits a domain takes on a card.
ghost use Rattle.std.specs.Prelude.{◌≡◌, ◌≤◌};
ghost use Rattle.files.specs.Domain.{expander_at};
ghost use Rattle.files.specs.Rows.{domain_in};
ghost use Rattle.cards.specs.Card.{phy_size, phys_size, card_size, most_card_size, most_phy_size, most_phys_size};

use wiring::{ExpanderNumber, Phy, PhyId};

// The bits of a phy.
pub(crate) fn phy_size(f: Phy) -> usize
    ensures { (result ≡ phy_size f) × (result ≤ most_phy_size) }
{
    match f {
        Phy::Vacant(_) => 9,
        Phy::Present(x) => {
            if x.device_type == 0 {
                return 6;
            }
            crate::MOST_PHY_SIZE
        }
    }
}

// The bits of expander i's phys.
fn phys_size(rows: &[u64], i: ExpanderNumber) -> usize
    ensures { (result ≡ phys_size (expander_at (domain_in rows.now) i.0).phys) × (result ≤ most_phys_size) }
{
    let n = wiring::phy_count(rows, i);
    let mut sum: usize = 0;
    for p in 0..n {
        sum += phy_size(wiring::phy_at(rows, i, PhyId(p)));
    }
    sum
}

// The bits of a domain.
pub(crate) fn card_size(rows: &[u64]) -> usize
    ensures { (result ≡ card_size (domain_in rows.now)) × (result ≤ most_card_size) }
{
    let n = wiring::expander_count(rows);
    let mut sum: usize = 16;
    for i in 0..n {
        sum += crate::HEAD_SIZE + phys_size(rows, ExpanderNumber(i));
    }
    sum
}
