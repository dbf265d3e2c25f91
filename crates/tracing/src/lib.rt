// Connection requests, traced over lent table words.
#![tactic(auto)]

mod calls;
mod packing;
mod reasons;
mod request_lists;
mod requests;
mod step_call;
mod steps;
mod stretches;
mod walks;

pub use calls::{request_rows, trace};
pub use packing::{pack_end, pack_refusal};
pub use request_lists::trace_list;
pub use step_call::explain_step;

// What the layer above uses of the layers below.
pub use tables::{
    Counted, Discover, Discovered, ExpanderNumber, General, GeneralSas2, LongGeneral, PhyId,
    Refusal, Route, RouteIndex, Setting, give_tables, judge, put_route, read_discover,
    read_general, read_general_sas2, read_route, wire,
};

// What an expander does with a request: it ends there, with its outcome and phy (255 unless arrived at an end device), or goes
// on to an expander with its arrival phy.
#[derive(Clone, Copy)]
pub enum Step {
    Ended(Outcome, PhyId),
    Onward(ExpanderNumber, PhyId),
}

// Why an expander does what it does: the rule, 1 to 5 for (i) to (v), the phy picked (255 where there is none), and the
// route index of the entry that matched (65535 where there is none).
// The rule is a number and no enum: `because` and `done_by` have the number, and C reads it.
#[derive(Clone, Copy)]
pub struct Reason {
    pub rule: u8,
    pub phy: PhyId,
    pub index: RouteIndex,
}

// What the call on one expander's step tells: the reason, and the step.
#[derive(Clone, Copy)]
pub struct Told {
    pub reason: Reason,
    pub step: Step,
}

// The outcome of a request: arrived, NO DESTINATION, BAD DESTINATION.
#[derive(Clone, Copy)]
pub enum Outcome {
    Arrived,
    NoDestination,
    BadDestination,
}

// How a request ends: outcome, last expander, phy (255 unless arrived at an end device), and the
// count of expanders passed.
#[derive(Clone, Copy)]
pub struct End {
    pub outcome: Outcome,
    pub last: ExpanderNumber,
    pub phy: PhyId,
    pub count: u8,
}
