// Worked cases: drafts that are written out, each with what a press, a build in one way, a verdict on
// each of its states and texts read through its table come to.
#![tactic(auto)]

pub mod laws;
