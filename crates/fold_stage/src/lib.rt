// One stage of a fold: what it loads, its bits from level 0 up, and what the next stage loads.
#![tactic(auto)]

pub mod bits;
pub mod loads;
