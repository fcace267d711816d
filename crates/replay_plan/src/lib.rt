// The run of a whole plan: its tape is made once, and each line of a recording is a clock.
#![tactic(auto)]

pub mod bytes;
pub mod runs;
pub mod tape;
