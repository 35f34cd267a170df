// Transition tables with values, and one build for every machine.
#![tactic(auto)]

pub mod grid;
pub mod laws;
pub mod table;
