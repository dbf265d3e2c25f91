// Where the frames of a domain file stand.
#![tactic(auto)]

mod places;

pub use places::{expander_offset, phy_offset};
