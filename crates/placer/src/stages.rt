// Stage after stage, until no pin waits or one is refused.
ghost use Rattle.stage_tally.specs.Spending.{room, Counted};
ghost use Rattle.rules.specs.Cells.{row_at};
ghost use Rattle.rules.specs.Inside.Some.{Some, Every};
ghost use Rattle.placer.specs.Stages.{OneAt, One, StagesAt, Ran};

use crate::{Built, Refused};
use cells::Height;
use refusals::Refusal;
use stage::{Outcome, Stopped, build_one_stage};
use stage_tally::{Tally, spend};

// Stage k + 1, in its own part of the plan, for n waiting pins and the words that the tally leaves.
pub fn next_stage(
    gates: &[u32],
    plan: &mut [u32],
    words: &mut [u32],
    counts: &mut [u32],
    work: &mut [u32],
    m: usize,
    height: Height,
    k: usize,
    n: usize,
    tally: Tally,
) -> Result<Outcome, Stopped>
    requires { Counted tally × Some (λ C. OneAt C m height.0 (row_at height.0 1) k n tally.spent (room tally) gates.now plan.old words.old counts.old work.old) }
    ensures { Every (λ C. OneAt C m height.0 (row_at height.0 1) k n tally.spent (room tally) gates.now plan.old words.old counts.old work.old) (λ C. One C m k tally.spent plan.old words.old counts.old work.old result plan.new words.new counts.new work.new) }
{
    let size = 4 * height.level_one_size();
    let a = k * size;
    let e = a + size;
    let s = build_one_stage(gates, &mut plan[a..e], work, words, m, height, n, tally)?;
    counts[k] = s.words as u32;
    Ok(s)
}

// The stages from the first on, for n waiting pins: one tally over them all, of which `room` words are not reserved.
pub fn stages(
    gates: &[u32],
    plan: &mut [u32],
    words: &mut [u32],
    counts: &mut [u32],
    work: &mut [u32],
    m: usize,
    height: Height,
    rooms: usize,
    n: usize,
    room: usize,
) -> Result<Built, Refused>
    requires { Some (λ C. StagesAt C m height.0 (row_at height.0 1) rooms 0 0 n room gates.now plan.old words.old counts.old work.old) }
    ensures { Every (λ C. StagesAt C m height.0 (row_at height.0 1) rooms 0 0 n room gates.now plan.old words.old counts.old work.old) (λ C. Ran C plan.old words.old counts.old work.old result plan.new words.new counts.new work.new) }
{
    let limit = words.len();
    let mut tally = Tally {
        spent: 0,
        reserved: limit - room,
        limit,
    };
    let mut k = 0;
    let mut left = n;
    let mut cells = 0;
    // It counts no index: it ends where no pin waits.
    while left > 0 {
        if k == rooms {
            return Err(Refused {
                why: Refusal::NoRoom,
                stage: k + 1,
            });
        }
        let s = match next_stage(gates, plan, words, counts, work, m, height, k, left, tally) {
            Ok(s) => s,
            Err(stopped) => {
                return Err(Refused {
                    why: Refusal::from(stopped),
                    stage: k + 1,
                });
            }
        };
        tally = spend(tally, s.words);
        left = s.waiting;
        cells += s.cells;
        k += 1;
    }
    Ok(Built {
        stages: k,
        words: tally.spent,
        cells,
    })
}
