// Plan sheets on disk, out of and into a build's areas: what a user calls.
#![tactic(auto)]

pub use sheet_read::{Contents, read};
pub use sheet_write::write;
