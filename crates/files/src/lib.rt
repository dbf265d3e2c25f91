// Reads a domain file into rows, and shows rows as a domain.
#![tactic(auto)]

mod file;
mod rows;
mod settings;
mod units;
mod view;

use frames::PhyId;
pub use rows::{clear, head_word, phy_word, read_domain, set_phy, stated_count};
pub use settings::{is_in_range, widest};
pub use units::{is_ranged, is_within, test_unit};
pub use view::{
    attached_phy, byte_at, configurable_bit, expander_address, expander_count, phy_address, phy_at,
    phy_attribute, phy_count, phy_in_row, phy_type, route_indexes, word_at,
};

// The most expanders of a domain. Where a count is compared as a `usize` or `u64`, the number itself stands.
pub const MOST_EXPANDERS: u8 = 64;

// The most phys of an expander.
pub const MOST_PHYS: u8 = 128;

// The longest chain that a setting may allow.
pub const LONGEST_CHAIN: u8 = 64;

// How many words the row of one expander has: its address, a word with R, phy count and configurable bit, and two words for
// each of 128 phys.
pub const ROW_WORDS: usize = 258;

// How many words the rows of 2 expanders have.
pub const ROWS_OF_2: usize = 2 * ROW_WORDS;

// How many words the rows of 8 expanders have.
pub const ROWS_OF_8: usize = 8 * ROW_WORDS;

// How many words the rows of the most expanders have.
pub const ROWS_OF_64: usize = 64 * ROW_WORDS;

// A course's setting: the most expanders of a domain, the most phys of an expander, and the longest chain
// in expanders.
#[derive(Clone, Copy)]
pub struct Setting {
    pub expanders: u8,
    pub phys: u8,
    pub chain: u8,
}

// The fields of a phy that is not vacant: attached device type, routing attribute, attached
// address, attached phy identifier.
// Type and attribute are codes and no enums, as in `Discover`: the theorems on units and rows speak of the numbers.
#[derive(Clone, Copy)]
pub struct PhyFields {
    pub device_type: u8,
    pub attribute: u8,
    pub address: u64,
    pub attached_phy: PhyId,
}

// A vacant phy keeps its function result.
#[derive(Clone, Copy)]
pub enum Phy {
    Vacant(u8),
    Present(PhyFields),
}

// The fields of an expander's unit: address, route indexes R, number of phys, configurable bit.
#[derive(Clone, Copy)]
pub struct ExpanderUnit {
    pub address: u64,
    pub route_indexes: u16,
    pub phys: u8,
    pub configurable: u8,
}

// What was read of a file, and the place after it.
#[derive(Clone, Copy)]
pub struct Parsed<T> {
    pub value: T,
    pub next: usize,
}
