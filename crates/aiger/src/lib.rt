// ASCII AIGER files, in and out of lent areas: what a user calls.
#![tactic(auto)]

pub use aiger_read::{Counts, Refused, read};
pub use aiger_write::write;
