// Two rigs on one bench: the file of two domains joined by one cable.
#![tactic(auto)]

mod bench_rows;
mod calls;
mod free;
mod repeats;
mod sides;
mod writing;

pub use calls::join;

// How many expanders one of the two files has, and whether its named phy can take the cable.
#[derive(Clone, Copy)]
pub(crate) struct SideFound {
    pub(crate) count: u8,
    pub(crate) free: bool,
}

// How many expanders the two files have.
#[derive(Clone, Copy)]
pub(crate) struct Counts {
    pub(crate) one: u8,
    pub(crate) other: u8,
}
