// The levels of a table phy.
pub(crate) mod attached_rows;
pub(crate) mod downstream;
pub(crate) mod downstream_rows;
pub(crate) mod order;
pub(crate) mod wide_links;
