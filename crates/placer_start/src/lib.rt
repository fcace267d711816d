// What a build does between the checks and its first stage, in an area of m = N + 1 pins that is 0 throughout.
#![tactic(auto)]

ghost use Rattle.std.specs.Prelude.{◌+◌, ◌*◌, length};
ghost use Rattle.rules.specs.Records.{groups_of};
ghost use Rattle.columns.specs.Fields.{RECORDS};
ghost use Rattle.placer_start.specs.Opening.{BeginAt, Begins};

use given::mark_given;
use reservation::reserve;
use waiting::wait_all;

pub mod given;
pub mod reservation;
pub mod waiting;

// How many words are set aside, and how many pins wait.
#[derive(Clone, Copy)]
pub struct Opening {
    pub words: usize,
    pub waiting: usize,
}

// The reservation first: where it is over, nothing else is needed. That is refusal 6.
pub fn begin(
    given: &[u32],
    records: &[u32],
    work: &mut [u32],
    m: usize,
    limit: usize,
) -> Option<Opening>
    requires { BeginAt m given.now records.now work.old }
    ensures { Begins m limit (16 * m + RECORDS + 8 * length records.now) given.now (groups_of records.now) work.old result work.new }
{
    let words = reserve(records, work, m, limit)?;
    mark_given(given, work, m);
    let waiting = wait_all(records, work, m);
    Some(Opening { words, waiting })
}
