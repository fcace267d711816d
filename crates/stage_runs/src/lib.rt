// Rule 8: the waiting pins in the tree, needed, untouched; the sparse runs of level 1, which the needed waiting pins fill, and their words.
// m = N + 1; n pins wait; the words go behind `at`, where there is `room` for so many.
#![tactic(auto)]

ghost use Rattle.rules.specs.Cells.{row_at};
ghost use Rattle.rules.specs.Inside.Some.{Some, Every};
ghost use Rattle.stage_runs.specs.Ran.{EndAt, Ran};

use cells::Height;
use classes::split_waiting;
use puts::put_runs;
use stage_sparse::{Runs, sparse_runs};

mod classes;
mod puts;

// What rule 8 leaves: is no waiting pin untouched, how many pins are realised, how many words written.
#[derive(Clone, Copy)]
pub struct Spent {
    pub last: bool,
    pub real: usize,
    pub words: usize,
}

// Rule 8.
pub fn write_runs(
    gates: &[u32],
    stage: &mut [u32],
    work: &mut [u32],
    words: &mut [u32],
    m: usize,
    height: Height,
    n: usize,
    at: usize,
    room: usize,
) -> Spent
    requires { Some (λ C. EndAt C m height.0 (row_at height.0 1) n at room gates.now stage.old work.old words.old) }
    ensures { Every (λ C. EndAt C m height.0 (row_at height.0 1) n at room gates.now stage.old work.old words.old) (λ C. Ran C m at room gates.now stage.old work.old words.old result stage.new work.new words.new) }
{
    let half = height.level_one_size();
    let split = split_waiting(work, m, n);
    let k = split.needed;
    let last = !split.untouched;
    let Runs { records, len } = sparse_runs(stage, half);
    let runs = &records[..len];
    let put = put_runs(gates, stage, work, words, m, half, k, last, at, room, runs);
    Spent {
        last,
        real: put.puts.real,
        words: put.words,
    }
}
