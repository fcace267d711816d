// A stage's plan of pins becomes cells with their inversions, in place.
#![tactic(auto)]

ghost use Rattle.std.specs.Prelude.{◌≡◌, ◌+◌, ◌≤◌, ◌<◌, length};
ghost use Rattle.rules.specs.Graph.{graph_of};
ghost use Rattle.rules.specs.Coded.{and_cell, coded_at, coded};
ghost use Rattle.rules.specs.Inside.Some.{Some, Every};
ghost use Rattle.graph.specs.Values.{node_for};
ghost use Rattle.coding.specs.Stages.{StageAt, CellAt, PartAt, coded_to, Blank, PlanAt, coded_plan};

use cell::Cell;
use cells::Height;
use graph::{EMPTY, Node, Pin, inversion_of, node_at};
use positions::first_lower;

// The cell of a pin that ANDs as its node says.
fn and_cell(pin: Pin, node: Node) -> Cell
    requires { pin.0 < 65536 }
    ensures { result.0 ≡ and_cell pin.0 (node_for node) }
{
    match node {
        Node::Leaf => Cell::and_of(pin, 0, 0),
        Node::Gate(a, b) => Cell::and_of(pin, inversion_of(a), inversion_of(b)),
    }
}

// The cell at position p, which holds a pin still, as its first lower cell does.
fn coded_cell(height: Height, cells: &[u32], gates: &[u32], p: u32) -> Cell
    requires { CellAt height.0 cells.now p }
    ensures { result.0 ≡ coded_at height.0 (graph_of gates.now) cells.now p }
{
    let i = p as usize;
    let held = cells[i];
    if held == EMPTY {
        return Cell::empty();
    }
    if height.width() <= i {
        return Cell::plain(Pin(held));
    }
    let a = first_lower(p);
    if cells[a] == held {
        return Cell::plain(Pin(held));
    }
    and_cell(Pin(held), node_at(gates, Pin(held)))
}

// Are the eight cells from p on empty? Counted without a branch, since most of a tree is.
fn blank(cells: &[u32], p: usize) -> bool
    requires { p + 8 ≤ length cells.now }
    ensures { Blank cells.now p result }
{
    let mut n: u32 = 0;
    for i in 0..8 {
        if cells[p + i] == EMPTY {
            n += 1;
        }
    }
    n == 8
}

// The positions from `from` to `to`, rising: lower cells stand higher, so they are still pins when they are looked at. By their places,
// since a cell's code reads another cell of the stage.
fn code_part(height: Height, cells: &mut [u32], gates: &[u32], from: usize, to: usize)
    requires { Some (λ pl. PartAt height.0 (graph_of gates.now) from to cells.old pl) }
    ensures { Every (λ pl. PartAt height.0 (graph_of gates.now) from to cells.old pl) (λ pl. cells.new ≡ coded_to height.0 (graph_of gates.now) pl to) }
{
    for p in from..to {
        cells[p] = coded_cell(height, cells, gates, p as u32).0;
    }
}

// A stage. Level 0 holds loads, which are pins already.
pub fn code_stage(height: Height, cells: &mut [u32], gates: &[u32])
    requires { StageAt height.0 cells.old }
    ensures { cells.new ≡ coded height.0 (graph_of gates.now) cells.old }
{
    for p in (0..height.width()).step_by(8) {
        if !blank(cells, p) {
            code_part(height, cells, gates, p, p + 8);
        }
    }
}

// The first n stages of a plan.
pub fn code_plan(height: Height, plan: &mut [u32], gates: &[u32], n: usize)
    requires { PlanAt height.0 n plan.old }
    ensures { plan.new ≡ coded_plan n height.0 (graph_of gates.now) plan.old }
{
    let size = height.stage_size();
    for k in 0..n {
        let at = k * size;
        code_stage(height, &mut plan[at..at + size], gates);
    }
}
