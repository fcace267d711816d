// Rules 2 to 7: the plan of a stage.
#![tactic(auto)]

pub mod filling;
mod lean;
