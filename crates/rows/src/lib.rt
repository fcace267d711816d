// The row of a level in a lent plan. It takes any numbers: where there is no such row, the part is empty.
#![tactic(auto)]

ghost use Rattle.std.specs.Prelude.{◌≡◌};
ghost use Rattle.rules.specs.Cells.{has_row, row_of};
ghost use Rattle.rows.specs.Spans.{span_of};

use cells::{Height, has_level};

// From start up to end.
#[derive(Clone, Copy)]
struct Span {
    start: usize,
    end: usize,
}

// Is there such a row in a plan of so many numbers? Stages count from 1.
fn has_row(height: u32, stage: usize, level: u32, size: usize) -> bool
    ensures { result ≡ has_row height stage level size }
{
    if stage == 0 {
        return false;
    }
    if has_level(height, level) {
        stage <= Height(height).rooms(size)
    } else {
        false
    }
}

// Where it stands.
fn row_span(height: u32, stage: usize, level: u32, size: usize) -> Span
    ensures { result ≡ span_of height stage level size }
{
    if has_row(height, stage, level, size) {
        let cells = Height(height).row_at(level);
        let start = (stage - 1) * Height(height).stage_size() + cells;
        Span {
            start,
            end: start + cells,
        }
    } else {
        Span { start: 0, end: 0 }
    }
}

// One level's row of the caller's plan.
pub fn row(plan: &[u32], height: u32, stage: usize, level: u32) -> &[u32]
    ensures { result.now ≡ row_of height stage level plan.now }
{
    let part = row_span(height, stage, level, plan.len());
    let start = part.start;
    let end = part.end;
    &plan[start..end]
}

// The same, to be written. The plan is lent on with the part, so no clause can speak of it at exit.
pub fn row_mut(plan: &mut [u32], height: u32, stage: usize, level: u32) -> &mut [u32]
    ensures { result.now ≡ row_of height stage level plan.old }
{
    let span = row_span(height, stage, level, plan.len());
    let start = span.start;
    let end = span.end;
    &mut plan[start..end]
}
