// Drafts: automata whose codes are values of one kind, and the calls that make them.
#![tactic(auto)]

pub mod calls;
pub mod draft;
pub mod faults;
pub mod laws;
