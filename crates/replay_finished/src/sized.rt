// The sizes of the lent areas, compared as true numbers: what an area needs is taken off step by step.
ghost use Rattle.std.specs.Prelude.{◌≡◌, ◌&&◌};
ghost use Rattle.rules.specs.Cells.{is_height};
ghost use Rattle.replay_finished.specs.Calls.{slots_fit, finished_sized};

use cells::Height;
use graph::pin_count;
use plan_check::plan_fits;
use replay::lent::lists_sized;

// The literals of slots are below this.
const LITERALS: usize = 4294967296;

// Do the slots' literals fit in 32 bits, and has the work area a right size?
fn slots_fit(gates: &[u32], records: &[u32], used: usize, work: usize) -> bool
    ensures { result ≡ slots_fit gates.now records.now used work }
{
    let pins = pin_count(gates);
    if LITERALS < used {
        return false;
    }
    if LITERALS - used < 2 * pins {
        return false;
    }
    if work < pins {
        return false;
    }
    records.len() <= work - pins
}

// Have all areas a right size?
pub fn finished_sized(
    height: u32,
    gates: &[u32],
    records: &[u32],
    plan: usize,
    counts: usize,
    stages: usize,
    work: usize,
    tape: usize,
    slots: usize,
    bits: usize,
) -> bool
    ensures { result ≡ (is_height height && finished_sized height gates.now records.now plan counts stages work tape slots bits) }
{
    if !plan_fits(height, plan, counts, stages) {
        return false;
    }
    let used = stages * Height(height).stage_size();
    slots_fit(gates, records, used, work) && lists_sized(gates, records, used, tape, slots, bits)
}
