// Press, once and verdict: the smallest table of a draft or of a machine, and the law that says so.
#![tactic(auto)]

pub mod faults;
pub mod judging;
pub mod laws;
pub mod once;
pub mod press;
pub mod verdict;
