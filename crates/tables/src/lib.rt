// Level lists, routing tables, the judging call and the table call.
#![tactic(auto)]

mod calls;
pub mod events;
pub mod filling;
pub mod levels;
pub mod lists;

pub use calls::{give_rows, give_tables, judge, judge_rows};
pub use events::replugging::replug_rows;
pub use filling::all_tables::{needed_words, table_count, words_before};
pub use filling::table_sizes::size_at;
pub use lists::own_lists::phy_bears;

// What the layers above use of the layers below.
pub use files::{ROW_WORDS, ROWS_OF_2, ROWS_OF_8, ROWS_OF_64};
pub use wiring::{
    Discover, Discovered, ExpanderNumber, General, GeneralSas2, IndexedRows, LongGeneral,
    PHYS_OF_2, PHYS_OF_8, PHYS_OF_64, Phy, PhyId, Refusal, Route, RouteIndex, SLOTS_OF_2,
    SLOTS_OF_8, SLOTS_OF_64, Setting, attached_expander, attached_phy, bit_at, bytes_for,
    expander_address, expander_count, mark_zeros, phy_address, phy_at, phy_attribute, phy_count,
    phy_type, put_route, read_discover, read_domain, read_general, read_general_sas2, read_route,
    refused, route_indexes, stated_count, widest, wire,
};

// How many words an own list has with its length before it: at most 128, and one.
pub(crate) const OWN_LIST_WORDS: usize = 129;

// How many words the own lists of 8 expanders have.
pub(crate) const OWN_LISTS_OF_8: usize = 8 * OWN_LIST_WORDS;

// How many words the own lists of the most expanders have.
pub(crate) const OWN_LISTS_OF_64: usize = 64 * OWN_LIST_WORDS;

// How many expanders are at most downstream of one: 64, and their count for an address that no expander has.
pub(crate) const MOST_DOWNSTREAM: usize = 65;

// How many bytes their list has with its length before it.
pub(crate) const DOWNSTREAM_BYTES: usize = MOST_DOWNSTREAM + 1;

// How many bytes those lists of 8 expanders have.
pub(crate) const DOWNSTREAM_OF_8: usize = 8 * DOWNSTREAM_BYTES;

// How many bytes those lists of the most expanders have.
pub(crate) const DOWNSTREAM_OF_64: usize = 64 * DOWNSTREAM_BYTES;

// How many bytes the order of a phy takes at most where there are 8 expanders: each adds those downstream of it, and the first level has one.
pub(crate) const ORDER_OF_8: usize = 8 * MOST_DOWNSTREAM + 1;

// How many bytes the order of a phy takes at most.
pub(crate) const ORDER_OF_64: usize = 64 * MOST_DOWNSTREAM + 1;

// How many tables a domain has, and how many words.
#[derive(Clone, Copy)]
pub struct Counted {
    pub table_count: u32,
    pub word_count: u32,
}

// How many tables a drive plugged or pulled touches, and how many words it changes.
#[derive(Clone, Copy)]
pub struct Moved {
    pub table_count: u32,
    pub word_count: u32,
}
