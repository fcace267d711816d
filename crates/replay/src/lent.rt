// The sizes of the lent areas, compared as true numbers: what an area needs is taken off step by step.
ghost use Rattle.std.specs.Prelude.{◌≡◌, ◌&&◌};
ghost use Rattle.rules.specs.Cells.{is_height};
ghost use Rattle.replay_form.specs.Calls.{replay_sized};
ghost use Rattle.replay.specs.Sizes.{lists_sized};

use graph::pin_count;
use sizes::areas_sized;

// Have tape, slots and bits a right size?
pub fn lists_sized(
    gates: &[u32],
    records: &[u32],
    plan: usize,
    tape: usize,
    slots: usize,
    bits: usize,
) -> bool
    ensures { result ≡ lists_sized gates.now records.now plan tape slots bits }
{
    if tape < plan {
        return false;
    }
    if slots < plan {
        return false;
    }
    if slots - plan < records.len() {
        return false;
    }
    let pins = pin_count(gates);
    if bits < pins {
        return false;
    }
    plan / 2 <= bits - pins
}

// Have all areas a right size?
pub fn replay_sized(
    height: u32,
    gates: &[u32],
    records: &[u32],
    plan: usize,
    words: usize,
    counts: usize,
    work: usize,
    tape: usize,
    slots: usize,
    bits: usize,
) -> bool
    ensures { result ≡ (is_height height && replay_sized height gates.now records.now plan words counts work tape slots bits) }
{
    areas_sized(
        height,
        gates.len(),
        records.len(),
        plan,
        words,
        counts,
        work,
    ) && lists_sized(gates, records, plan, tape, slots, bits)
}
