// An ASCII AIGER file judged whole: its lines, what they define and use, the first bad one.
#![tactic(auto)]

pub mod file;
pub mod lines;
pub mod passes;
