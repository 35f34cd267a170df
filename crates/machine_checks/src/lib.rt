// Tests of machines, rolls, tables, build, press and lookup, and a machine written outside the libraries.
#![tactic(auto)]

#[cfg(test)]
mod build_tests;
pub mod counter;
#[cfg(test)]
mod lookup_tests;
#[cfg(test)]
mod press_tests;
