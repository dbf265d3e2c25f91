// The compact form of an accepted domain: decode once, trace many.
#![tactic(auto)]

mod comparing;
mod form_opening;
mod list_calls;
mod making;
mod reading;
mod table_calls;
mod testing;
mod trace_calls;
mod writing;

pub use list_calls::form_list;
pub use making::make_form;
pub use table_calls::form_tables;
pub use trace_calls::form_trace;

// How many expanders the domain of a form has, and how many words the form.
#[derive(Clone, Copy)]
pub struct FormCounts {
    pub expander_count: u8,
    pub word_count: u32,
}
