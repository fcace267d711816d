// The cells of a stage, each by itself and its lower cells. The given pins have marks, and so has what a later stage may load.
ghost use Rattle.std.specs.Prelude.{◌≡◌, ◌<◌};
ghost use Rattle.rules.specs.Graph.{graph_of};
ghost use Rattle.rules.specs.Coded.{cell_pin};
ghost use Rattle.rules.specs.Faults as rules;
ghost use Rattle.rules.specs.Fold.{is_leaf};
ghost use Rattle.graph.specs.Values.{node_for};
ghost use Rattle.plan_check_stage.specs.Cells.{Above, Loadable, Loads, CellHere, CellRight, StageHere, FirstWrong};

use crate::marks::has_mark;
use cell::Cell;
use cells::Height;
use graph::{Node, Pin, inversion_of, node_at, pin_count, pin_of};
use positions::{first_lower, second_lower};

// Does a cell of a gate's pin AND as the gate says, over lower cells of these pins? Its operands stand in the gate's order.
fn splits(node: Node, cell: Cell, first: Pin, second: Pin) -> bool
    requires { cell_pin cell.0 < 65536 }
    ensures { result ≡ rules.splits (node_for node) (cell_pin cell.0) cell.0 first.0 second.0 }
{
    match node {
        Node::Leaf => false,
        Node::Gate(a, b) => {
            let right = Cell::and_of(cell.pin(), inversion_of(a), inversion_of(b));
            if cell.0 != right.0 {
                return false;
            }
            first.0 == pin_of(a).0 && second.0 == pin_of(b).0
        }
    }
}

// A cell above level 0: one that is its pin alone copies, any other ANDs.
fn right_above(gates: &[u32], given: &[u8], cell: Cell, first: Pin, second: Pin) -> bool
    requires { cell_pin cell.0 < 65536 }
    ensures { Above (graph_of gates.now) given.now cell.0 first.0 second.0 result }
{
    let pin = cell.pin();
    if cell.0 == pin.0 {
        return first.0 == pin.0;
    }
    !has_mark(given, pin) && splits(node_at(gates, pin), cell, first, second)
}

fn is_leaf(gates: &[u32], pin: Pin) -> bool
    ensures { Loadable (graph_of gates.now) pin.0 result }
{
    matches!(node_at(gates, pin), Node::Leaf)
}

// May a pin be loaded, in stage 1 or in a later one?
fn may_load(gates: &[u32], given: &[u8], looks: &[u8], first: bool, pin: Pin) -> bool
    ensures { Loads (graph_of gates.now) given.now looks.now first pin.0 result }
{
    if first {
        has_mark(given, pin) || is_leaf(gates, pin)
    } else {
        has_mark(looks, pin)
    }
}

// Is the cell at position p right, if it is filled?
fn right_at(
    height: Height,
    gates: &[u32],
    given: &[u8],
    looks: &[u8],
    first: bool,
    cells: &[u32],
    p: usize,
) -> bool
    requires { CellHere height.0 cells.now p }
    ensures { CellRight height.0 (graph_of gates.now) given.now looks.now first cells.now p result }
{
    let cell = Cell(cells[p]);
    if cell.is_empty() {
        return true;
    }
    let pin = cell.pin();
    let i = pin.index();
    if i == 0 || pin_count(gates) <= i {
        return false;
    }
    if p < height.width() {
        let x = first_lower(p as u32);
        let y = second_lower(p as u32);
        return right_above(
            gates,
            given,
            cell,
            Cell(cells[x]).pin(),
            Cell(cells[y]).pin(),
        );
    }
    cell.0 == pin.0 && may_load(gates, given, looks, first, pin)
}

// The first position of a stage whose cell is not right.
pub fn first_wrong(
    height: Height,
    gates: &[u32],
    given: &[u8],
    looks: &[u8],
    first: bool,
    cells: &[u32],
) -> Option<usize>
    requires { StageHere height.0 cells.now }
    ensures { FirstWrong height.0 (graph_of gates.now) given.now looks.now first cells.now result }
{
    for p in 1..cells.len() {
        if !right_at(height, gates, given, looks, first, cells, p) {
            return Some(p);
        }
    }
    None
}
