// One cell of a stage: the slot or the entry that has its bit.
ghost use Rattle.std.specs.Prelude.{◌≡◌, ◌<◌};
ghost use Rattle.replay_form.specs.Tape.{and_source};
ghost use Rattle.replay_tape.specs.Sources.{load_in, source_for, AboveAt, SourceIs, PutAt, Puts};

use cell::Cell;
use graph::Pin;
use positions::{first_lower, second_lower};

#[derive(Clone, Copy)]
pub enum Source {
    Old(u32),
    New(u32, u32),
}

// The slot that a pin loads. A pin past the numbers, as the empty mark, loads slot 0.
pub fn loaded(looks: &[u32], p: Pin) -> u32
    ensures { result ≡ load_in looks.now p.0 }
{
    let i = p.index();
    if i < looks.len() { looks[i] } else { 0 }
}

// An entry over two slots, inverted as a cell says.
fn and_source(cell: Cell, first: u32, second: u32) -> Source
    requires first_bound { first < 2147483648 }
    requires second_bound { second < 2147483648 }
    ensures { source_for result ≡ and_source cell.0 first second }
{
    let i = cell.first_inversion();
    let j = cell.second_inversion();
    Source::New(2 * first + i, 2 * second + j)
}

// The cell at position p, above level 0, by the slots of its lower cells.
pub fn source_above(cells: &[u32], slots: &[u32], p: usize) -> Source
    requires { AboveAt cells.now slots.now p }
    ensures { SourceIs cells.now slots.now p (source_for result) }
{
    let held = Cell(cells[p]);
    if held.is_empty() {
        return Source::Old(0);
    }
    let a = first_lower(p as u32);
    if !held.ands() {
        return Source::Old(slots[a]);
    }
    let b = second_lower(p as u32);
    if Cell(cells[a]).is_empty() || Cell(cells[b]).is_empty() {
        return Source::Old(0);
    }
    and_source(held, slots[a], slots[b])
}

// The slot of position p, and its entry if it has one. Returns how many entries there are.
pub fn put(
    slots: &mut [u32],
    tape: &mut [u32],
    p: usize,
    pins: usize,
    entries: usize,
    source: Source,
) -> usize
    requires { PutAt slots.old tape.old p pins entries }
    ensures { Puts slots.old tape.old p pins entries (source_for source) slots.new tape.new result }
{
    match source {
        Source::Old(s) => {
            slots[p] = s;
            entries
        }
        Source::New(a, b) => {
            slots[p] = (pins + entries) as u32;
            tape[2 * entries] = a;
            tape[2 * entries + 1] = b;
            entries + 1
        }
    }
}
