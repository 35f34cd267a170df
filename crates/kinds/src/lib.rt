// Kinds of value: which byte codes stand for a value, and how two values are joined.
#![tactic(auto)]

pub mod kind;
pub mod laws;
pub mod marks;
pub mod rank;
pub mod yes_no;
