// The text of routing tables: a line for each table word, the line of totals, the refusal line, and the
// line for an input that is too long.
#![tactic(auto)]

mod entries;
mod lines;
mod text;

pub use lines::{put_chunk, start};
use tables::{ExpanderNumber, PhyId, RouteIndex};
pub use text::{refused, too_long, totals};

// What the program uses of the layers below.
pub use tables::{
    Counted, PHYS_OF_64, ROW_WORDS, ROWS_OF_64, Refusal, SLOTS_OF_64, give_rows, read_domain,
    widest,
};

// How many bytes there are for one line.
pub const LINE_BYTES: usize = 80;

// How many bytes there are for a chunk of lines.
pub const CHUNK_BYTES: usize = 65536;

// Where a listing goes on: an entry of a routing table, and the number of its word.
#[derive(Clone, Copy)]
pub struct Cursor {
    pub expander: ExpanderNumber,
    pub phy: PhyId,
    pub index: RouteIndex,
    pub word: usize,
}

// What putting a chunk of lines answers: where the listing goes on, and the place after the text.
#[derive(Clone, Copy)]
pub struct Chunk {
    pub next: Cursor,
    pub end: usize,
}
