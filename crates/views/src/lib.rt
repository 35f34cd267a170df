#![tactic(auto)]

pub mod backward_draft;
pub mod backward_table;
pub mod colouring;
pub mod forward_draft;
pub(crate) mod joins;
pub mod laws;
pub mod states;
pub mod table_machine;
