// What a shelf does with a frame.
ghost use Rattle.std.specs.Prelude.{◌≡◌, ◌<◌, min};
ghost use Rattle.frames.specs.Refusals.{good};
ghost use Rattle.shelves.specs.PlainTable.{result_of};
ghost use Rattle.shelves.specs.Shelf.{kind_in, place, bit_of, loaded, after_read, stepped};

use crate::{Shelf, Stepped, making};
use frames::{PhyId, Route, RouteIndex};

// n, but at most as much as there is room for.
fn at_most(room: u32, n: u32) -> u32
    ensures { result ≡ min room n }
{
    if n < room {
        return n;
    }
    room
}

// The function result: 10h no such phy, 16h a vacant one, 11h no table phy or an index not below R, else 00h.
pub(crate) fn result_of(
    phys: u32,
    route_indexes: u32,
    kinds: [u8; crate::SHELF_PHYS],
    phy: PhyId,
    index: RouteIndex,
) -> u8
    ensures { result ≡ result_of (min 16 phys) (min 64 route_indexes) (kind_in kinds) phy.0 index.0 }
{
    let p = phy.0 as u32;
    let k = index.0 as u32;
    let count = at_most(16, phys);
    let end = at_most(64, route_indexes);
    if count <= p {
        return 0x10;
    }
    let kind = kinds[p as usize];
    if kind == 0 {
        return 0x16;
    }
    if kind != 1 {
        return 0x11;
    }
    if end <= k {
        return 0x11;
    }
    0x00
}

// Which entry it is: 64 for each phy.
pub(crate) fn place_of(phy: PhyId, index: RouteIndex) -> usize
    ensures { result ≡ place phy.0 index.0 }
{
    (phy.0 as usize) * crate::SHELF_INDEXES + (index.0 as usize)
}

// The byte of a disable bit.
fn bit_of(disabled: bool) -> u8
    ensures { result ≡ bit_of disabled }
{
    if disabled {
        return 1;
    }
    0
}

// The entry and its disable bit replaced.
fn replace(shelf: Shelf, q: Route) -> Shelf
    requires { (q.phy.0 < 16) × (q.index.0 < 64) }
    ensures { result ≡ loaded shelf q }
{
    let mut next = shelf;
    let at = place_of(q.phy, q.index);
    let bit = bit_of(q.disabled);
    next.entries[at] = q.address;
    next.disabled[at] = bit;
    next
}

// A request that the reader yields.
fn load(shelf: Shelf, q: Route) -> Stepped
    ensures { result ≡ after_read shelf (good q) }
{
    let kinds = shelf.kinds;
    let result = result_of(shelf.phys, shelf.route_indexes, kinds, q.phy, q.index);
    let answer = Ok(result);
    if result != 0 {
        return making::stepped_to(shelf, answer);
    }
    making::stepped_to(replace(shelf, q), answer)
}

// A frame.
pub(crate) fn step(shelf: Shelf, frame: &[u8]) -> Stepped
    ensures { result ≡ stepped shelf frame.now }
{
    let read = frames::read_route(frame);
    match read {
        Err(r) => making::stepped_to(shelf, Err(r)),
        Ok(q) => load(shelf, q),
    }
}
