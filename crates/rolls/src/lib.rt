// Rolls: different entries of any one type, kept in memory that the caller lends.
#![tactic(auto)]

pub mod fault;
mod lend;
pub mod roll;
pub mod state;
