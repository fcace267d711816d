// Rules 8 to 11 in order after the loop of rules 2 to 7, with tests 7 and 8. m = N + 1; o pins are listed, n wait, q are needed; the words go behind `at`, where there is `room` for so many.
ghost use Rattle.std.specs.Prelude.{◌≡◌};
ghost use Rattle.stage_tally.specs.Spending.{room, Counted};
ghost use Rattle.rules.specs.Cells.{row_at};
ghost use Rattle.rules.specs.Inside.Some.{Some, Every};
ghost use Rattle.stage_walk.specs.Stands.{SomePlan, EveryPlan};
ghost use Rattle.stage.specs.Stopped.{refusal_of};
ghost use Rattle.stage.specs.Finish.{FinishAt, Finished, RestingAt, LastingAt, Lasting, Ends};

use cells::Height;
use columns::{FILLED, ONES, tail_get};
use refusals::Refusal;
use stage_ending::close::close_stage;
use stage_ending::last::{Kept, last_words};
use stage_ending::rest::fill_rest;
use stage_runs::{Spent, write_runs};
use stage_tally::{Tally, is_over, left, spend};

// A whole stage: how many words it has, how many pins wait then and how many cells those kept filled.
#[derive(Clone, Copy)]
pub struct Outcome {
    pub words: usize,
    pub waiting: usize,
    pub cells: usize,
}

// What stops a stage.
#[derive(Clone, Copy)]
pub enum Stopped {
    // Test 7: the words wanted.
    OverWords(usize),
    // Test 8: the level-1 cells filled and the needed pins left, where rule 9 starts.
    NoCell(usize, usize),
}

impl From<Stopped> for Refusal {
    ghost from_gives = { λ s r. r ≡ refusal_of s };

    fn from(s: Stopped) -> Refusal {
        match s {
            Stopped::OverWords(_) => Refusal::OverWords,
            Stopped::NoCell(_, _) => Refusal::NoCell,
        }
    }
}

// Rule 10 where nothing is untouched.
fn write_last(
    stage: &[u32],
    work: &mut [u32],
    words: &mut [u32],
    m: usize,
    height: Height,
    o: usize,
    n: usize,
    at: usize,
    room: usize,
    s: Spent,
) -> Kept
    requires { SomePlan (λ C pl. LastingAt C pl m height.0 (row_at height.0 1) o n at room s stage.now work.old words.old) }
    ensures { EveryPlan (λ C pl. LastingAt C pl m height.0 (row_at height.0 1) o n at room s stage.now work.old words.old) (λ C pl. Lasting C pl m at room s stage.now work.old words.old result work.new words.new) }
{
    let kept = Kept {
        real: s.real,
        words: s.words,
    };
    if s.last {
        last_words(stage, work, words, m, height, n, at, room, kept)
    } else {
        kept
    }
}

// Rules 10 and 11.
fn finish_last(
    stage: &[u32],
    work: &mut [u32],
    words: &mut [u32],
    m: usize,
    height: Height,
    o: usize,
    n: usize,
    at: usize,
    room: usize,
    s: Spent,
) -> Result<Outcome, Stopped>
    requires { SomePlan (λ C pl. LastingAt C pl m height.0 (row_at height.0 1) o n at room s stage.now work.old words.old) }
    ensures { EveryPlan (λ C pl. LastingAt C pl m height.0 (row_at height.0 1) o n at room s stage.now work.old words.old) (λ C pl. Ends C pl m at room s stage.now work.old words.old result stage.now work.new words.new) }
{
    let kept = write_last(stage, work, words, m, height, o, n, at, room, s);
    let cells = tail_get(work, m, FILLED);
    let left = close_stage(work, m, o, n, kept.real);
    Ok(Outcome {
        words: kept.words,
        waiting: left,
        cells,
    })
}

// Rule 9, test 8 and the rest. `many` level-1 cells and needed pins together there were before rule 8.
fn finish_rest(
    gates: &[u32],
    stage: &mut [u32],
    work: &mut [u32],
    words: &mut [u32],
    m: usize,
    height: Height,
    o: usize,
    n: usize,
    q: usize,
    many: usize,
    at: usize,
    room: usize,
    s: Spent,
) -> Result<Outcome, Stopped>
    requires { SomePlan (λ C pl. RestingAt C pl m height.0 (row_at height.0 1) o n q many at room s gates.now stage.old work.old words.old) }
    ensures { EveryPlan (λ C pl. RestingAt C pl m height.0 (row_at height.0 1) o n q many at room s gates.now stage.old work.old words.old) (λ C pl. Ends C pl m at room s stage.old work.old words.old result stage.new work.new words.new) }
{
    let ones = tail_get(work, m, ONES);
    if !fill_rest(gates, stage, work, m, height.level_one_size(), q) {
        return Err(Stopped::NoCell(ones, many - ones));
    }
    finish_last(stage, work, words, m, height, o, n, at, room, s)
}

// Rules 8 to 11. Test 7 asks the tally with the runs' words.
pub fn finish(
    gates: &[u32],
    stage: &mut [u32],
    work: &mut [u32],
    words: &mut [u32],
    m: usize,
    height: Height,
    o: usize,
    n: usize,
    q: usize,
    tally: Tally,
) -> Result<Outcome, Stopped>
    requires { Counted tally × Some (λ C. FinishAt C m height.0 (row_at height.0 1) o n q tally.spent (room tally) gates.now stage.old work.old words.old) }
    ensures { Every (λ C. FinishAt C m height.0 (row_at height.0 1) o n q tally.spent (room tally) gates.now stage.old work.old words.old) (λ C. Finished C m tally.spent (room tally) stage.old stage.old work.old words.old result stage.new work.new words.new) }
{
    let at = tally.spent;
    let room = left(tally);
    let many = tail_get(work, m, ONES) + q;
    let s = write_runs(gates, stage, work, words, m, height, n, at, room);
    if is_over(spend(tally, s.words)) {
        return Err(Stopped::OverWords(s.words));
    }
    finish_rest(
        gates, stage, work, words, m, height, o, n, q, many, at, room, s,
    )
}
