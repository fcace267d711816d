// One stage is mended in place, from the top down, by the levels of all pins.
#![tactic(auto)]

ghost use Rattle.std.specs.Prelude.{◌≡◌, ◌<◌, get_or, set};
ghost use Rattle.rules.specs.Graph.{leaf, graph_of};
ghost use Rattle.mending.specs.Mend.{same, pin_for, mended, fixing};
ghost use Rattle.mend_stage.specs.Stages.{deed_for, deed_pin, DeedAt, DeedSays, StageAt, StageSays};

use cell::Cell;
use cells::Height;
use graph::{EMPTY, Literal, Node, Pin, inversion_of, node_at, pin_count, pin_of};
use mend_levels::level_at;
use positions::{first_lower, level_of, second_lower};

// What becomes of a cell: it is kept whole, stands at level 0, copies, or ANDs as its gate says.
#[derive(Clone, Copy)]
pub enum Deed {
    Kept,
    Stands(Pin),
    Copies(Pin),
    Joins(Pin, Literal, Literal),
}

// A cell's pin: what a cell above fixed for it, else its own.
fn pin_for(cell: Cell, fixed: Pin) -> Pin
    ensures { result.0 ≡ pin_for cell.0 fixed.0 }
{
    if fixed.0 == EMPTY {
        return cell.pin();
    }
    fixed
}

// A pin at a cell of its own level.
fn at_level(gates: &[u32], level: u32, pin: Pin) -> Deed
    ensures { deed_for result ≡ same level (get_or (graph_of gates.now) pin.0 leaf) pin.0 }
{
    if level == 0 {
        return Deed::Stands(pin);
    }
    match node_at(gates, pin) {
        Node::Leaf => Deed::Kept,
        Node::Gate(a, b) => Deed::Joins(pin, a, b),
    }
}

// A pin at position p.
fn deed_of(height: Height, gates: &[u32], levels: &[u32], p: u32, pin: Pin) -> Deed
    requires { DeedAt gates.now }
    ensures { DeedSays height.0 (graph_of gates.now) levels.now p pin.0 result }
{
    let n = pin.index();
    if n == 0 || pin_count(gates) <= n {
        return Deed::Kept;
    }
    let h = level_of(height.0, p);
    let l = level_at(levels, pin);
    if l < h {
        return Deed::Copies(pin);
    }
    if h < l {
        return Deed::Kept;
    }
    at_level(gates, h, pin)
}

// The cell that comes of it.
fn mended_cell(deed: Deed, cell: Cell) -> Cell
    requires { deed_pin (deed_for deed) < 65536 }
    ensures { result.0 ≡ mended (deed_for deed) cell.0 }
{
    match deed {
        Deed::Kept => cell,
        Deed::Stands(n) | Deed::Copies(n) => Cell::plain(n),
        Deed::Joins(n, a, b) => Cell::and_of(n, inversion_of(a), inversion_of(b)),
    }
}

// A pin is fixed at a position, if there is one.
fn fix_at(fixed: &mut [u32], i: usize, pin: Pin)
    ensures { fixed.new ≡ set fixed.old i pin.0 }
{
    if i < fixed.len() {
        fixed[i] = pin.0;
    }
}

// What the cell at position p fixes of the cells under it.
fn fix(deed: Deed, fixed: &mut [u32], p: u32)
    ensures { fixed.new ≡ fixing p (deed_for deed) fixed.old }
{
    match deed {
        Deed::Kept | Deed::Stands(_) => {}
        Deed::Copies(n) => fix_at(fixed, first_lower(p), n),
        Deed::Joins(_, a, b) => {
            fix_at(fixed, first_lower(p), pin_of(a));
            fix_at(fixed, second_lower(p), pin_of(b));
        }
    }
}

// Positions rise, so that a cell is fixed before it is met. `fixed` has a number a position, whatever it holds.
pub fn mend_stage(
    height: Height,
    gates: &[u32],
    levels: &[u32],
    cells: &mut [u32],
    fixed: &mut [u32],
)
    requires { StageAt height.0 gates.now cells.old fixed.old }
    ensures { StageSays height.0 (graph_of gates.now) levels.now cells.old cells.new }
{
    fixed.fill(EMPTY);
    for p in 1..cells.len() {
        let cell = Cell(cells[p]);
        let pin = pin_for(cell, Pin(fixed[p]));
        let deed = deed_of(height, gates, levels, p as u32, pin);
        cells[p] = mended_cell(deed, cell).0;
        fix(deed, fixed, p as u32);
    }
}
