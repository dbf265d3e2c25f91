// Makes an exercise from its solution: a rig whose one table is a given list of words.
#![tactic(auto)]

mod making;
mod rows;
mod words;

pub use making::make;
