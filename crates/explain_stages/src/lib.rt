// The stages of a build, with a line for each pin taken back and one for a stage that is refused.
#![tactic(auto)]

ghost use Rattle.std.specs.Prelude.{◌≡◌};
ghost use Rattle.stage_tally.specs.Spending.{room, Counted};
ghost use Rattle.rules.specs.Cells.{row_at};
ghost use Rattle.rules.specs.Inside.Some.{Some, Every};
ghost use Rattle.explain_lines.specs.Lines.{six};
ghost use Rattle.explain_stages.specs.Over.{OverAt, over_six};
ghost use Rattle.explain_stages.specs.Telling.{TellAt, Tells, AllAt, AllTold};

use cells::Height;
use explain_lines::{Line, copy_notes, put_line};
use placer::stages::next_stage;
use placer::{Built, Refused};
use refusals::Refusal;
use stage::{Outcome, Stopped};
use stage_tally::{Tally, left, spend};

// What a stage came to, and how many lines there are behind it.
#[derive(Clone, Copy)]
pub struct Step {
    pub outcome: Result<Outcome, Stopped>,
    pub lines: usize,
}

// The build's answer, and how many lines explain it.
#[derive(Clone, Copy)]
pub struct Explanation {
    pub answer: Result<Built, Refused>,
    pub lines: usize,
}

// The line of a stage that was stopped, before which `room` words were left.
fn over_line(height: Height, stage: u32, room: usize, stopped: Stopped) -> Line
    requires { OverAt height.0 room stopped }
    ensures { six result ≡ over_six height.0 stage room stopped }
{
    match stopped {
        Stopped::OverWords(words) => Line(
            Refusal::OverWords.number(),
            stage,
            room as u32,
            words as u32,
            0,
            0,
        ),
        Stopped::NoCell(cells, waiting) => {
            let most = height.level_one_size() - 1;
            Line(
                Refusal::NoCell.number(),
                stage,
                most as u32,
                (cells + waiting) as u32,
                cells as u32,
                waiting as u32,
            )
        }
    }
}

// Stage k + 1 for n waiting pins, behind `lines` lines.
fn tell_stage(
    gates: &[u32],
    plan: &mut [u32],
    words: &mut [u32],
    counts: &mut [u32],
    work: &mut [u32],
    list: &mut [u32],
    m: usize,
    height: Height,
    k: usize,
    n: usize,
    tally: Tally,
    lines: usize,
) -> Step
    requires { Counted tally × Some (λ C. TellAt C m height.0 (row_at height.0 1) k n tally.spent (room tally) lines gates.now plan.old words.old counts.old work.old) }
    ensures { Every (λ C. TellAt C m height.0 (row_at height.0 1) k n tally.spent (room tally) lines gates.now plan.old words.old counts.old work.old) (λ C. Tells C m k tally.spent lines plan.old words.old counts.old work.old list.old result plan.new words.new counts.new work.new list.new) }
{
    let outcome = next_stage(gates, plan, words, counts, work, m, height, k, n, tally);
    let stage = (k + 1) as u32;
    let told = copy_notes(work, m, stage, list, lines);
    match outcome {
        Ok(_) => Step {
            outcome,
            lines: told,
        },
        Err(stopped) => {
            put_line(list, told, over_line(height, stage, left(tally), stopped));
            Step {
                outcome,
                lines: told + 1,
            }
        }
    }
}

// The stages from the first on, for n waiting pins: one tally over them all, of which `room` words are not reserved.
pub fn tell(
    gates: &[u32],
    plan: &mut [u32],
    words: &mut [u32],
    counts: &mut [u32],
    work: &mut [u32],
    list: &mut [u32],
    m: usize,
    height: Height,
    rooms: usize,
    n: usize,
    room: usize,
) -> Explanation
    requires { Some (λ C. AllAt C m height.0 (row_at height.0 1) rooms 0 0 n room 0 list.old gates.now plan.old words.old counts.old work.old list.old) }
    ensures { Every (λ C. AllAt C m height.0 (row_at height.0 1) rooms 0 0 n room 0 list.old gates.now plan.old words.old counts.old work.old list.old) (λ C. AllTold C plan.old words.old counts.old work.old list.old result plan.new words.new counts.new work.new list.new) }
{
    let limit = words.len();
    let mut tally = Tally {
        spent: 0,
        reserved: limit - room,
        limit,
    };
    let mut k = 0;
    let mut left = n;
    let mut cells = 0;
    let mut lines = 0;
    // It ends where no pin waits, not after so many stages, so k is counted beside it.
    while left > 0 {
        if k == rooms {
            return Explanation {
                answer: Err(Refused {
                    why: Refusal::NoRoom,
                    stage: k + 1,
                }),
                lines,
            };
        }
        let step = tell_stage(
            gates, plan, words, counts, work, list, m, height, k, left, tally, lines,
        );
        lines = step.lines;
        match step.outcome {
            Err(stopped) => {
                return Explanation {
                    answer: Err(Refused {
                        why: Refusal::from(stopped),
                        stage: k + 1,
                    }),
                    lines,
                };
            }
            Ok(s) => {
                tally = spend(tally, s.words);
                left = s.waiting;
                cells += s.cells;
            }
        }
        k += 1;
    }
    Explanation {
        answer: Ok(Built {
            stages: k,
            words: tally.spent,
            cells,
        }),
        lines,
    }
}
