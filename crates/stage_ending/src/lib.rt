// Rules 9 to 11, each after the plan and the counts that the rule before leaves.
#![tactic(auto)]

pub mod close;
pub mod last;
pub mod rest;
mod words;
