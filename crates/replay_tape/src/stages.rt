// The tape of one stage, from its cells: `looks` has the slot that each pin loads.
ghost use Rattle.fold_stage.specs.Bits.{UpAt};
ghost use Rattle.replay_tape.specs.Stages.{RowLoaded, AndAt, Ands, StageIn, StageOut};

use crate::sources::{loaded, put, source_above};
use cell::Cell;
use cells::Height;

// The slots of level 0.
fn load_cells(height: Height, cells: &[u32], looks: &[u32], slots: &mut [u32])
    requires { UpAt height.0 cells.now slots.old }
    ensures { RowLoaded height.0 cells.now looks.now slots.old slots.new }
{
    for q in height.width()..cells.len() {
        slots[q] = loaded(looks, Cell(cells[q]).pin());
    }
}

// The slots above level 0, and the entries. Lower cells stand at higher positions. Returns how many entries there are.
fn and_cells(
    height: Height,
    cells: &[u32],
    slots: &mut [u32],
    tape: &mut [u32],
    pins: usize,
    entries: usize,
) -> usize
    requires { AndAt height.0 pins entries cells.now slots.old tape.old }
    ensures { Ands height.0 pins cells.now entries slots.old tape.old slots.new tape.new result }
{
    let mut count = entries;
    for p in (1..height.width()).rev() {
        let source = source_above(cells, slots, p);
        count = put(slots, tape, p, pins, count, source);
    }
    slots[0] = 0;
    count
}

// One stage. Returns how many entries there are.
pub fn make_stage(
    height: Height,
    cells: &[u32],
    looks: &[u32],
    slots: &mut [u32],
    tape: &mut [u32],
    pins: usize,
    entries: usize,
) -> usize
    requires { StageIn height.0 pins entries cells.now looks.now slots.old tape.old }
    ensures { StageOut height.0 pins cells.now looks.now entries slots.old tape.old slots.new tape.new result }
{
    load_cells(height, cells, looks, slots);
    and_cells(height, cells, slots, tape, pins, entries)
}
