// Nondeterministic automata with codes: sign lists, sets of states, and what an automaton holds.
#![tactic(auto)]

pub mod arrow;
pub mod automaton;
pub mod faults;
pub mod laws;
pub mod places;
mod row;
pub mod sets;
pub mod signs;
