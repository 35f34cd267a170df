// Deterministic machines whose states have values: what they are, and what it is to be built from one.
#![tactic(auto)]

pub mod laws;
pub mod machine;
