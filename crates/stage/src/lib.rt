// One stage: rules 1 to 11.
#![tactic(auto)]

ghost use Rattle.rules.specs.Cells.{row_at};
ghost use Rattle.stage_tally.specs.Spending.{room, Counted};
ghost use Rattle.rules.specs.Inside.Some.{Some, Every};
ghost use Rattle.stage.specs.Stage.{StageAt, Staged};

use cells::Height;
use finish::finish;
use stage_loop::filling::fill_tree;
use stage_prepare::{forget, prepare};
use stage_tally::Tally;

mod finish;

pub use finish::{Outcome, Stopped};

// Builds a stage for n waiting pins in `stage`, which is empty; its words go behind those spent, as many as the tally leaves. m = N + 1.
pub fn build_one_stage(
    gates: &[u32],
    stage: &mut [u32],
    work: &mut [u32],
    words: &mut [u32],
    m: usize,
    height: Height,
    n: usize,
    tally: Tally,
) -> Result<Outcome, Stopped>
    requires { Counted tally × Some (λ C. StageAt C m height.0 (row_at height.0 1) n tally.spent (room tally) gates.now stage.old work.old words.old) }
    ensures { Every (λ C. StageAt C m height.0 (row_at height.0 1) n tally.spent (room tally) gates.now stage.old work.old words.old) (λ C. Staged C m tally.spent (room tally) stage.old work.old words.old result stage.new work.new words.new) }
{
    let walk = prepare(gates, work, m, n, height);
    let listed = walk.listed;
    let q = fill_tree(gates, stage, work, m, n, listed, walk.top, height);
    let r = finish(gates, stage, work, words, m, height, listed, n, q, tally);
    forget(work, m, walk.levels);
    r
}
