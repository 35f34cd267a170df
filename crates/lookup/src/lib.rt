// Tables in use: what a table says of a text, and of its front parts.
#![tactic(auto)]

pub mod faults;
pub mod letters;
pub mod longest;
pub mod value;
