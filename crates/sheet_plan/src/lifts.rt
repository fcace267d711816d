// Which pins the graph can code: those in it, and above level 0 no leaf whose first lower cell does not hold it.
ghost use Rattle.std.specs.Prelude.{◌≡◌, not};
ghost use Rattle.rules.specs.Graph.{graph_of};
ghost use Rattle.rules.specs.Fold.{is_leaf};
ghost use Rattle.graph.specs.Values.{node_for};
ghost use Rattle.sheet_form.specs.Lifting.{lifts_at, stage_lifts};
ghost use Rattle.sheet_plan.specs.Plans.{LiftAt, StageAt};

use cells::{Height, wide};
use graph::{EMPTY, Node, Pin, node_at, pin_count};
use positions::first_lower;

fn is_gate(node: Node) -> bool
    ensures { result ≡ not (is_leaf (node_for node)) }
{
    match node {
        Node::Leaf => false,
        Node::Gate(a, b) => true,
    }
}

fn lifts_at(height: Height, cells: &[u32], gates: &[u32], p: u32) -> bool
    requires { LiftAt height.0 cells.now p }
    ensures { result ≡ lifts_at height.0 (graph_of gates.now) cells.now p }
{
    let i = p as usize;
    let held = cells[i];
    if held == EMPTY {
        return true;
    }
    if pin_count(gates) <= wide(held) {
        return false;
    }
    if height.width() <= i {
        return true;
    }
    let a = first_lower(p);
    if cells[a] == held {
        return true;
    }
    is_gate(node_at(gates, Pin(held)))
}

// Every position of a stage of pins.
pub fn stage_lifts(height: Height, cells: &[u32], gates: &[u32]) -> bool
    requires { StageAt height.0 cells.now }
    ensures { result ≡ stage_lifts height.0 (graph_of gates.now) cells.now }
{
    for p in 0..cells.len() {
        if !lifts_at(height, cells, gates, p as u32) {
            return false;
        }
    }
    true
}
