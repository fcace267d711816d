// The tape of a plan, stage after stage. `looks` has the slots that the stage at hand loads, a number a pin.
ghost use Rattle.std.specs.Prelude.{◌≤◌, length};
ghost use Rattle.fold.specs.Stages.{stage_from};
ghost use Rattle.replay_form.specs.Tape.{first_slot};
ghost use Rattle.replay_tape.specs.Sources.{load_in};
ghost use Rattle.replay_tape.specs.Plans.{FirstSlots, OneIn, NextIn, Next, Step, PlanIn, StepIn, PlanMade};

use crate::stages::make_stage;
use cells::Height;
use fold_stage::loads::{forget, remember};

// Stage 1 finds each pin in the pin's own slot.
fn first_slots(looks: &mut [u32])
    requires { length looks.old ≤ 65536 }
    ensures { FirstSlots looks.old looks.new }
{
    for p in 0..looks.len() {
        looks[p] = p as u32;
    }
}

// Stage 1, and what stage 2 loads.
fn make_first(
    height: Height,
    cells: &[u32],
    slots: &mut [u32],
    looks: &mut [u32],
    tape: &mut [u32],
    pins: usize,
) -> usize
    requires { OneIn height.0 pins cells.now slots.old looks.old tape.old }
    ensures { Next height.0 pins cells.now (first_slot pins) 0 tape.old slots.new looks.new tape.new result }
{
    first_slots(looks);
    let count = make_stage(height, cells, looks, slots, tape, pins, 0);
    looks.fill(0);
    remember(height, cells, slots, looks);
    count
}

// A later stage, and what the next one loads. Only pins of the stage before have loaded anything.
fn make_next(
    height: Height,
    before: &[u32],
    cells: &[u32],
    slots: &mut [u32],
    looks: &mut [u32],
    tape: &mut [u32],
    pins: usize,
    entries: usize,
) -> usize
    requires { NextIn height.0 pins before.now cells.now entries slots.old looks.old tape.old }
    ensures { Next height.0 pins cells.now (load_in looks.old) entries tape.old slots.new looks.new tape.new result }
{
    let count = make_stage(height, cells, looks, slots, tape, pins, entries);
    forget(height, before, looks);
    remember(height, cells, slots, looks);
    count
}

// The stage at `at` of the plan, which is not the first.
fn make_at(
    height: Height,
    plan: &[u32],
    slots: &mut [u32],
    looks: &mut [u32],
    tape: &mut [u32],
    pins: usize,
    at: usize,
    entries: usize,
) -> usize
    requires { StepIn height.0 pins plan.now at entries slots.old looks.old tape.old }
    ensures { Step height.0 pins (stage_from height.0 at plan.now) (load_in looks.old) at entries slots.old tape.old slots.new looks.new tape.new result }
{
    let size = height.stage_size();
    let last = at - size;
    let end = at + size;
    make_next(
        height,
        &plan[last..at],
        &plan[at..end],
        &mut slots[at..end],
        looks,
        tape,
        pins,
        entries,
    )
}

// All stages. Returns how many entries there are.
pub fn make_plan(
    height: Height,
    plan: &[u32],
    slots: &mut [u32],
    looks: &mut [u32],
    tape: &mut [u32],
    pins: usize,
) -> usize
    requires { PlanIn height.0 pins plan.now slots.old looks.old tape.old }
    ensures { PlanMade height.0 pins plan.now slots.old looks.old tape.old slots.new looks.new tape.new result }
{
    if plan.len() == 0 {
        return 0;
    }
    let size = height.stage_size();
    let mut count = make_first(
        height,
        &plan[0..size],
        &mut slots[0..size],
        looks,
        tape,
        pins,
    );
    for at in (size..plan.len()).step_by(size) {
        count = make_at(height, plan, slots, looks, tape, pins, at, count);
    }
    count
}
