// The entries of routing tables, by expander, then phy, then index.
ghost use Rattle.std.specs.Prelude.{◌≡◌, ◌+◌, ◌<◌, ◌^◌, length};
ghost use Rattle.tables.specs.WiringDefinitions.{place, domain_in};
ghost use Rattle.tables.specs.filling.Tables.{size};
ghost use Rattle.listing.specs.Lines.{cursor, next_place};

use crate::Cursor;
use tables::{ExpanderNumber, PhyId, RouteIndex};

// How many entries the phy of a cursor has: none where it is no table phy.
pub(crate) fn entry_count(rows: &[u64], at: Cursor) -> u16
    ensures { result ≡ size (domain_in rows.now) (place at.expander.0 at.phy.0) }
{
    tables::size_at(rows, ExpanderNumber(at.expander.0), PhyId(at.phy.0)) as u16
}

// The next index of the same phy, with the next word.
pub(crate) fn next_index(at: Cursor) -> Cursor
    requires index_bound { at.index.0 + 1 < 2 ^ 16 }
    requires word_bound { at.word + 1 < 2 ^ 64 }
    ensures { result ≡ cursor at.expander.0 at.phy.0 (at.index.0 + 1) (at.word + 1) }
{
    Cursor {
        expander: ExpanderNumber(at.expander.0),
        phy: PhyId(at.phy.0),
        index: RouteIndex(at.index.0 + 1),
        word: at.word + 1,
    }
}

// Index 0 of the next phy, or of the next expander where this one has no more phys.
pub(crate) fn next_place(rows: &[u64], at: Cursor) -> Cursor
    requires { at.expander.0 < length (domain_in rows.now) }
    ensures { result ≡ next_place (domain_in rows.now) at }
{
    let i = ExpanderNumber(at.expander.0);
    if at.phy.0 < tables::phy_count(rows, i) {
        return Cursor {
            expander: i,
            phy: PhyId(at.phy.0 + 1),
            index: RouteIndex(0),
            word: at.word,
        };
    }
    Cursor {
        expander: ExpanderNumber(at.expander.0 + 1),
        phy: PhyId(0),
        index: RouteIndex(0),
        word: at.word,
    }
}
