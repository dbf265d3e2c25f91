// Judges the wiring of a domain in rows.
#![tactic(auto)]

pub mod graph;
pub mod index;
pub mod phys;
mod wiring_call;

pub use graph::domain_checks::check_domain;
pub use index::addresses::{attached_expander, lowest_phy, number_of};
pub use index::indexed_rows::IndexedRows;
pub use wiring_call::wire;

// What the layers above use of files.
pub use files::{
    ExpanderUnit, Parsed, Phy, PhyFields, Setting, attached_phy, clear, configurable_bit,
    expander_address, expander_count, head_word, is_in_range, is_ranged, is_within, phy_address,
    phy_at, phy_attribute, phy_count, phy_in_row, phy_type, phy_word, read_domain, route_indexes,
    set_phy, stated_count, test_unit, widest,
};

// What the layers above use of frames.
pub use frames::{
    Discover, Discovered, ExpanderNumber, General, GeneralSas2, LongGeneral, PhyId, Refusal, Route,
    RouteIndex, address_at, bit_at, byte_at, bytes_for, mark_zeros, put_address, put_route,
    read_discover, read_general, read_general_sas2, read_route, refusal_at, refused, with_bit,
};

// How many slots of the index of addresses are expanders'.
pub(crate) const EXPANDER_SLOTS: usize = 64;

// How many slots the phys of one expander have.
pub(crate) const PHY_SLOTS: usize = 128;

// How many slots there are where there are 2 expanders.
pub const SLOTS_OF_2: usize = EXPANDER_SLOTS + 2 * PHY_SLOTS;

// How many slots there are where there are 8 expanders.
pub const SLOTS_OF_8: usize = EXPANDER_SLOTS + 8 * PHY_SLOTS;

// How many slots there are in all.
pub const SLOTS_OF_64: usize = EXPANDER_SLOTS + 64 * PHY_SLOTS;

// How many phys 2 expanders have at most.
pub const PHYS_OF_2: usize = 2 * PHY_SLOTS;

// How many phys 8 expanders have at most.
pub const PHYS_OF_8: usize = 8 * PHY_SLOTS;

// How many phys there are at most.
pub const PHYS_OF_64: usize = 64 * PHY_SLOTS;
