// What the tables of an accepted file are, without writing them: how many tables and words, and which entry a word is.
#![tactic(auto)]

mod calls;
mod word_places;

pub use calls::{needed, word_place};
use wiring::{ExpanderNumber, PhyId, RouteIndex};

// An entry of a table: its expander, phy and route index.
#[derive(Clone, Copy)]
pub struct Entry {
    pub expander: ExpanderNumber,
    pub phy: PhyId,
    pub index: RouteIndex,
}
