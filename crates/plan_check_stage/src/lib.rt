// One stage of a plan made elsewhere: its cells, its end, and the pins that its words hold.
#![tactic(auto)]

pub mod ending;
pub mod marks;
pub mod right;
