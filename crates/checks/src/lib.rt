// Tests of the libraries, and what they are tried on.
#![tactic(auto)]

#[cfg(test)]
mod drafts_tests;
pub mod further;
#[cfg(test)]
mod kinds_tests;
#[cfg(test)]
mod text_tests;
#[cfg(test)]
mod write_tests;
