// A software shelf: an expander without cables that answers CONFIGURE ROUTE INFORMATION requests, and holds what they
// load.
#![tactic(auto)]

mod entries;
mod loading;
mod making;

pub use entries::{disabled_at, entry_at};

// What users of a shelf need of a frame.
ghost use Rattle.shelves.specs.Shelf.{Done, stepped, made};

pub use frames::{PhyId, Refusal, RouteIndex};

// The most phys of a shelf. Where a number is compared as a `u8`, `u16` or `u32`, it stands itself.
pub(crate) const SHELF_PHYS: usize = 16;

// The most route indexes of a shelf's phy.
pub(crate) const SHELF_INDEXES: usize = 64;

// How many entries a shelf has.
pub(crate) const SHELF_ENTRIES: usize = SHELF_PHYS * SHELF_INDEXES;

// A shelf has at most 16 phys and 64 route indexes: 64 entries for each phy, and for each entry a byte that is 0 where it
// is not disabled; each phy's kind (0 vacant, 1 table, 2 other); how many route indexes each phy has (R); and how many
// phys there are. Every byte belongs to a field, and whatever stands there is a shelf: phys past 16 and route indexes past
// 64 do not exist.
// Bytes and words beside each other, and no enum or Vec: C lends a shelf in this layout.
#[repr(C)]
#[derive(Clone, Copy)]
pub struct Shelf {
    pub entries: [u64; crate::SHELF_ENTRIES],
    pub disabled: [u8; crate::SHELF_ENTRIES],
    pub kinds: [u8; crate::SHELF_PHYS],
    pub route_indexes: u32,
    pub phys: u32,
}

// A shelf, and what it answered: a refusal, or a function result.
#[derive(Clone, Copy)]
pub struct Stepped {
    pub shelf: Shelf,
    pub answer: Result<u8, Refusal>,
}

// Obeys one frame: the reader's refusal (1, 2, 15), or a function result (10h, 16h, 11h, in this order, else 00h). With
// 00h one entry and its disable bit are replaced where they are; anything else changes nothing.
pub fn obey(shelf: &mut Shelf, frame: &[u8]) -> Result<u8, Refusal>
    ensures { Done (stepped shelf.old frame.now) result shelf.new }
{
    let next = loading::step(*shelf, frame);
    *shelf = next.shelf;
    next.answer
}

// Makes a fresh shelf, all entries zero and disabled, and answers 00h. It is told 1 to 16 phys, R up to 64, and one kind
// for each phy. Told anything else it answers 3, and what was there stays.
pub fn fresh(shelf: &mut Shelf, phys: u8, route_indexes: u16, kinds: &[u8]) -> Result<u8, Refusal>
    ensures { Done (made shelf.old phys route_indexes kinds.now) result shelf.new }
{
    let next = making::make(*shelf, phys, route_indexes, kinds);
    *shelf = next.shelf;
    next.answer
}
