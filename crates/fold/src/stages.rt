// Stage after stage. `looks` has what the stage at hand loads: a number for each pin that a cell may hold.
ghost use Rattle.std.specs.Prelude.{◌≡◌, length, replicate};
ghost use Rattle.rules.specs.Lists.{laid_over};
ghost use Rattle.rules.specs.Graph.{own_bit};
ghost use Rattle.rules.specs.Coded.{cell_bits, fold_cells};
ghost use Rattle.fold_stage.specs.Bits.{UpAt};
ghost use Rattle.fold_stage.specs.Loads.{held};
ghost use Rattle.fold.specs.Stages.{OneAt, NextAt, Folds, PlanAt, StepAt, stage_from, Steps};

use cells::Height;
use fold_stage::bits::fold_up;
use fold_stage::loads::{forget, load_first, load_next, remember};

// The bits of stage 1.
fn first_stage(height: Height, cells: &[u32], own: &[u32], bits: &mut [u32])
    requires { UpAt height.0 cells.now bits.old }
    ensures { bits.new ≡ cell_bits height.0 cells.now (own_bit own.now) }
{
    load_first(height, cells, own, bits);
    fold_up(height, cells, bits);
}

// The bits of a later stage.
fn next_stage(height: Height, cells: &[u32], looks: &[u32], bits: &mut [u32])
    requires { UpAt height.0 cells.now bits.old }
    ensures { bits.new ≡ cell_bits height.0 cells.now (held looks.now) }
{
    load_next(height, cells, looks, bits);
    fold_up(height, cells, bits);
}

// Stage 1, and what stage 2 loads.
fn fold_first(height: Height, cells: &[u32], own: &[u32], res: &mut [u32], looks: &mut [u32])
    requires { OneAt height.0 cells.now res.old looks.old }
    ensures { Folds height.0 (own_bit own.now) cells.now res.new looks.old looks.new }
{
    first_stage(height, cells, own, res);
    looks.fill(0);
    remember(height, cells, res, looks);
}

// A later stage, and what the next one loads. Only pins of the stage before have loaded anything.
fn fold_next(height: Height, before: &[u32], cells: &[u32], res: &mut [u32], looks: &mut [u32])
    requires { NextAt height.0 before.now cells.now res.old looks.old }
    ensures { Folds height.0 (held looks.old) cells.now res.new looks.old looks.new }
{
    next_stage(height, cells, looks, res);
    forget(height, before, looks);
    remember(height, cells, res, looks);
}

// The stage at `at` of the plan, which is not the first.
fn fold_at(height: Height, plan: &[u32], res: &mut [u32], looks: &mut [u32], at: usize)
    requires { StepAt height.0 plan.now at res.old looks.old }
    ensures { Steps height.0 (held looks.old) (stage_from height.0 at plan.now) at res.old res.new looks.old looks.new }
{
    let size = height.stage_size();
    let last = at - size;
    let end = at + size;
    fold_next(
        height,
        &plan[last..at],
        &plan[at..end],
        &mut res[at..end],
        looks,
    );
}

fn fold_stages(height: Height, plan: &[u32], own: &[u32], res: &mut [u32], looks: &mut [u32])
    requires plan_at { PlanAt height.0 plan.now res.old }
    requires looks_len { length looks.old ≡ 65536 }
    ensures { res.new ≡ laid_over (fold_cells height.0 plan.now own.now) res.old }
{
    if plan.len() == 0 {
        return;
    }
    let size = height.stage_size();
    fold_first(height, &plan[0..size], own, &mut res[0..size], looks);
    for at in (size..plan.len()).step_by(size) {
        fold_at(height, plan, res, looks, at);
    }
}

// All stages, and 0 in the numbers by pin.
pub fn fold_plan(height: Height, plan: &[u32], own: &[u32], res: &mut [u32], looks: &mut [u32])
    requires plan_at { PlanAt height.0 plan.now res.old }
    requires looks_len { length looks.old ≡ 65536 }
    ensures folded { res.new ≡ laid_over (fold_cells height.0 plan.now own.now) res.old }
    ensures cleared { looks.new ≡ replicate (length looks.old) 0 }
{
    fold_stages(height, plan, own, res, looks);
    looks.fill(0);
}
