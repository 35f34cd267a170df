// Byte strings cut at a separator, decimal numbers read, and written forms.
#![tactic(auto)]

pub mod cutting;
pub mod numbers;
pub mod writing;
pub mod written;
