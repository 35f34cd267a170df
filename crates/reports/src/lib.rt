// What the programs `press` and `scan` print, as functions of their input.
#![tactic(auto)]

pub mod appending;
pub mod pressed;
pub mod report;
pub mod scan_text;
pub mod table_text;
