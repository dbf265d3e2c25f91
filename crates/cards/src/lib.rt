// Rig cards: a domain as a row of bits. Cards of files, and files of cards.
#![tactic(auto)]

mod bits;
mod card_call;
mod card_rows;
mod card_writing;
mod file_call;
mod file_writing;
mod reading;
mod short_frames;
mod sizes;

pub use card_call::card_of_file;
pub use card_writing::card_of_rows;
pub use file_call::file_of_card;
pub use file_writing::file_of_rows;
use wiring::Refusal;

// How many bits an expander takes before its phys: address, R, configurable and phys less 1.
pub(crate) const HEAD_SIZE: usize = 88;

// How many bits a phy takes at most: one with something attached.
pub(crate) const MOST_PHY_SIZE: usize = 78;

// What a walk through an expander's phys on a card finds: the bit after them, whether no vacant one's result is zero, and how
// many come before the first of which 6 holds.
#[derive(Clone, Copy)]
pub struct PhysWalk {
    pub next: usize,
    pub fine: bool,
    pub ranged: u8,
}

// What a walk through a card finds: the bit after its phys, whether no vacant one's result is zero, and the first of 3, 4 and 6.
#[derive(Clone, Copy)]
pub struct CardWalk {
    pub at: usize,
    pub fine: bool,
    pub check: Result<(), Refusal>,
}
