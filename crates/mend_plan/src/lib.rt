// The stages of a plan are mended in place, one after the other.
#![tactic(auto)]

ghost use Rattle.rules.specs.Graph.{graph_of};
ghost use Rattle.mend_plan.specs.Plans.{OneAt, OneSays, AllAt, AllSays, PlanAt, PlanSays};

use cells::Height;
use mend_levels::find_levels;
use mend_stage::mend_stage;
use plan_check_stage::marks::mark_cells;

// A stage. Then the pins that it holds above level 0 are stopped at too.
fn mend_one(
    height: Height,
    gates: &[u32],
    cells: &mut [u32],
    stop: &mut [u8],
    levels: &mut [u32],
    fixed: &mut [u32],
)
    requires { OneAt height.0 gates.now cells.old stop.old levels.old fixed.old }
    ensures { OneSays height.0 (graph_of gates.now) cells.old cells.new stop.old stop.new }
{
    find_levels(height, gates, stop, levels);
    mend_stage(height, gates, levels, cells, fixed);
    let end = height.width();
    mark_cells(&cells[1..end], stop, 1);
}

fn mend_all(
    height: Height,
    gates: &[u32],
    plan: &mut [u32],
    n: usize,
    stop: &mut [u8],
    levels: &mut [u32],
    fixed: &mut [u32],
)
    requires { AllAt height.0 gates.now plan.old n stop.old levels.old fixed.old }
    ensures { AllSays height.0 (graph_of gates.now) plan.old n stop.old plan.new }
{
    let size = height.stage_size();
    let mut at = 0;
    for _ in 0..n {
        let end = at + size;
        mend_one(height, gates, &mut plan[at..end], stop, levels, fixed);
        at = end;
    }
}

// The first n stages of a plan: 384 kB of stack.
pub fn mend_plan(height: Height, gates: &[u32], given: &[u32], plan: &mut [u32], n: usize)
    requires { PlanAt height.0 gates.now given.now plan.old n }
    ensures { PlanSays height.0 gates.now given.now plan.old n plan.new }
{
    let mut stop: [u8; 65536] = [0; 65536];
    let mut levels: [u32; 65536] = [0; 65536];
    let mut fixed: [u32; 16384] = [0; 16384];
    let size = height.stage_size();
    mark_cells(given, &mut stop, 1);
    mend_all(
        height,
        gates,
        plan,
        n,
        &mut stop,
        &mut levels,
        &mut fixed[0..size],
    );
}
