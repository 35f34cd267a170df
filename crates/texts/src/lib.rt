// Draft text: a draft as lines of fields, read and written.
#![tactic(auto)]

pub mod any;
pub mod faults;
pub mod laws;
pub mod letters;
pub mod reading;
pub mod records;
pub mod tidying;
pub mod writing;
