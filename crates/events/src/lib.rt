// Drives plugged and pulled: events that edit a domain file and its tables.
#![tactic(auto)]

mod calls;
mod writing;

pub use calls::apply_event;
use tables::{ExpanderNumber, PhyId};

// An event names an expander, a phy and the address of a drive; address zero pulls the drive.
#[derive(Clone, Copy)]
pub struct Event {
    pub expander: ExpanderNumber,
    pub phy: PhyId,
    pub address: u64,
}
