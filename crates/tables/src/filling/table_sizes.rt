// How many words a table has.
ghost use Rattle.std.specs.Prelude.{◌≡◌, cond, ◌<◌};
ghost use Rattle.wiring.specs.phys.PhyCauses.{place};
ghost use Rattle.files.specs.Domain.{expander_at, is_table};
ghost use Rattle.files.specs.Rows.{domain_in};
ghost use Rattle.tables.specs.filling.Tables.{size};

use wiring::{ExpanderNumber, Phy, PhyId};

// How many words the table of a phy of expander i has; 0 where that is no table phy.
pub(crate) fn size_of(rows: &[u64], i: ExpanderNumber, f: Phy) -> u64
    ensures { (result ≡ cond (is_table f) (expander_at (domain_in rows.now) i.0).route_indexes 0) × (result < 65536) }
{
    if wiring::phy_attribute(f) != 2 {
        return 0;
    }
    wiring::route_indexes(rows, i) as u64
}

// How many words the table of phy p of expander i has; 0 where that is no table phy.
pub fn size_at(rows: &[u64], i: ExpanderNumber, p: PhyId) -> u64
    ensures { (result ≡ size (domain_in rows.now) (place i.0 p.0)) × (result < 65536) }
{
    size_of(rows, i, wiring::phy_at(rows, i, p))
}
