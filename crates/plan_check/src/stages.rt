// Stage after stage. `given` and `written` have a mark a pin, `looks` one for each pin that the stage before holds above level 0.
ghost use Rattle.std.specs.Prelude.{◌+◌, ◌^◌};
ghost use Rattle.rules.specs.Graph.{graph_of};
ghost use Rattle.plan_check_stage.specs.Cells.{StageHere};
ghost use Rattle.plan_check.specs.Stages.{StageSays, StepSays, TurnAt, Forgets, Held, FirstAt, FirstSays, LastAt, LastSays, MarkedAt, MarkedSays, PlanAt, PlanSays};

use crate::ends::all_written;
use cells::Height;
use graph::wide;
use placer_start::reservation::{Count, over, set_aside};
use plan_check_stage::ending::{end_right, mark_words};
use plan_check_stage::marks::mark_cells;
use plan_check_stage::right::first_wrong;

// Where the first fault is.
#[derive(Clone, Copy)]
pub struct Place {
    pub stage: usize,
    pub position: usize,
}

// The fault of stage k, which may write `room` words more.
fn stage_place(
    height: Height,
    gates: &[u32],
    given: &[u8],
    looks: &[u8],
    k: usize,
    cells: &[u32],
    words: &[u32],
    count: usize,
    room: usize,
) -> Result<(), Place>
    requires { StageHere height.0 cells.now }
    ensures { StageSays height.0 (graph_of gates.now) given.now looks.now k cells.now words.now count room result }
{
    if let Some(position) = first_wrong(height, gates, given, looks, k == 1, cells) {
        return Err(Place { stage: k, position });
    }
    if end_right(height, cells, words, count, room) {
        Ok(())
    } else {
        Err(Place {
            stage: k,
            position: 0,
        })
    }
}

// The same, with marks of the pins that its words hold, if it has none.
fn stage_step(
    height: Height,
    gates: &[u32],
    given: &[u8],
    looks: &[u8],
    k: usize,
    cells: &[u32],
    words: &[u32],
    count: usize,
    room: usize,
    written: &mut [u8],
) -> Result<(), Place>
    requires { StageHere height.0 cells.now }
    ensures { StepSays height.0 (graph_of gates.now) given.now looks.now k cells.now words.now count room written.old written.new result }
{
    stage_place(height, gates, given, looks, k, cells, words, count, room)?;
    mark_words(cells, words, count, written);
    Ok(())
}

// The loads of the stage at `at` lose their marks.
fn forget(height: Height, plan: &[u32], at: usize, looks: &mut [u8])
    requires { TurnAt height.0 plan.now at looks.old }
    ensures { Forgets looks.new }
{
    if at == 0 {
        return;
    }
    let last = at - height.stage_size();
    let a = last + 1;
    let e = last + height.width();
    mark_cells(&plan[a..e], looks, 0);
}

// Those of the next get them.
fn turn(height: Height, plan: &[u32], at: usize, looks: &mut [u8])
    requires { TurnAt height.0 plan.now at looks.old }
    ensures { Held height.0 plan.now (at + 2 ^ (height.0 + 1)) looks.new }
{
    forget(height, plan, at, looks);
    let a = at + 1;
    let e = at + height.width();
    mark_cells(&plan[a..e], looks, 1);
}

// The first fault of the stages, and marks of what they write.
fn first_place(
    height: Height,
    gates: &[u32],
    given: &[u8],
    plan: &[u32],
    words: &[u32],
    counts: &[u32],
    stages: usize,
    room: usize,
    looks: &mut [u8],
    written: &mut [u8],
) -> Result<(), Place>
    requires { FirstAt height.0 gates.now plan.now counts.now stages looks.old written.old }
    ensures { FirstSays height.0 (graph_of gates.now) given.now plan.now words.now counts.now stages room written.new result }
{
    let size = height.stage_size();
    let mut at = 0;
    let mut from = 0;
    let mut left = room;
    for k in 0..stages {
        let count = wide(counts[k]);
        let end = at + size;
        stage_step(
            height,
            gates,
            given,
            looks,
            k + 1,
            &plan[at..end],
            &words[from..],
            count,
            left,
            written,
        )?;
        turn(height, plan, at, looks);
        at = end;
        from += count;
        left -= count;
    }
    Ok(())
}

// Last of all: the reservation fits, and every endpoint is written.
fn last_place(height: Height, records: &[u32], count: Count, written: &[u8]) -> Result<(), Place>
    requires { LastAt height.0 records.now count }
    ensures { LastSays height.0 records.now written.now result }
{
    if over(count, height.word_limit()) || !all_written(records, written) {
        return Err(Place {
            stage: 0,
            position: 0,
        });
    }
    Ok(())
}

// The same with the given pins' marks, in areas of zeros.
fn marked_place(
    height: Height,
    gates: &[u32],
    given: &[u8],
    records: &[u32],
    plan: &[u32],
    words: &[u32],
    counts: &[u32],
    stages: usize,
    count: Count,
    looks: &mut [u8],
    written: &mut [u8],
) -> Result<(), Place>
    requires { MarkedAt height.0 gates.now records.now plan.now counts.now stages count looks.old written.old }
    ensures { MarkedSays height.0 gates.now given.now records.now plan.now words.now counts.now stages result }
{
    let room = height.word_limit().saturating_sub(set_aside(count));
    first_place(
        height, gates, given, plan, words, counts, stages, room, looks, written,
    )?;
    last_place(height, records, count, written)
}

// The first fault of a plan: 192 kB of stack.
pub fn plan_place(
    height: Height,
    gates: &[u32],
    given: &[u32],
    records: &[u32],
    plan: &[u32],
    words: &[u32],
    counts: &[u32],
    stages: usize,
    count: Count,
) -> Result<(), Place>
    requires { PlanAt height.0 gates.now given.now records.now plan.now counts.now stages count }
    ensures { PlanSays height.0 gates.now given.now records.now plan.now words.now counts.now stages result }
{
    let mut pins: [u8; 65536] = [0; 65536];
    let mut looks: [u8; 65536] = [0; 65536];
    let mut written: [u8; 65536] = [0; 65536];
    mark_cells(given, &mut pins, 1);
    marked_place(
        height,
        gates,
        &pins,
        records,
        plan,
        words,
        counts,
        stages,
        count,
        &mut looks,
        &mut written,
    )
}
