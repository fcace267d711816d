// The text of an ASCII AIGER file, line by line: numbers and words from a place on, the header, what one line says.
#![tactic(auto)]

pub mod cursor;
pub mod head;
pub mod header;
pub mod rows;
