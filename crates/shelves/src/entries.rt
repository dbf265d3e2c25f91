// What a shelf holds, entry by entry. An entry exists where a request for it would be answered 00h.
ghost use Rattle.std.specs.Prelude.{◌≡◌};
ghost use Rattle.shelves.specs.Shelf.{entry_at, disabled_at};

use crate::{Shelf, loading};
use frames::{PhyId, RouteIndex};

// The address of an entry, 0 where there is none.
pub fn entry_at(shelf: Shelf, phy: PhyId, index: RouteIndex) -> u64
    ensures { result ≡ entry_at shelf phy.0 index.0 }
{
    let kinds = shelf.kinds;
    let result = loading::result_of(shelf.phys, shelf.route_indexes, kinds, phy, index);
    if result != 0 {
        return 0;
    }
    let at = loading::place_of(phy, index);
    shelf.entries[at]
}

// 1 where an entry is disabled, 0 where it is not, 2 where there is none.
pub fn disabled_at(shelf: Shelf, phy: PhyId, index: RouteIndex) -> u8
    ensures { result ≡ disabled_at shelf phy.0 index.0 }
{
    let kinds = shelf.kinds;
    let result = loading::result_of(shelf.phys, shelf.route_indexes, kinds, phy, index);
    if result != 0 {
        return 2;
    }
    let at = loading::place_of(phy, index);
    if shelf.disabled[at] == 0 {
        return 0;
    }
    1
}
