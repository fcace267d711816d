// The leaves of a line: those that are not driven, in pin order. `marks` has a number for each pin, not 0 where it is driven.
ghost use Rattle.std.specs.Prelude.{◌≡◌, ◌<◌, length};
ghost use Rattle.rules.specs.Graph.{graph_of, pin_count};
ghost use Rattle.replay_run.specs.Leaves.{line_leaf, LeafPut, LeavesIn, LeavesPut, Marked};

use crate::slots::put_inside;
use graph::{Node, Pin, node_at, pin_count, wide};

// Does a line have a bit for pin p?
pub fn line_leaf(gates: &[u32], marks: &[u8], p: usize) -> bool
    requires p_in_bounds { p < length marks.now }
    requires p_bound { p < pin_count gates.now }
    requires p_bound_2 { p < 65536 }
    ensures { result ≡ line_leaf (graph_of gates.now) marks.now p }
{
    if p == 0 || marks[p] != 0 {
        return false;
    }
    matches!(node_at(gates, Pin(p as u32)), Node::Leaf)
}

// Pin p as the n-th leaf, if it is one. Returns how many there are.
fn put_leaf(leaf: bool, leaves: &mut [u32], n: usize, p: usize) -> usize
    requires n_in_bounds { n < length leaves.old }
    requires p_bound { p < 65536 }
    ensures { LeafPut leaf n p leaves.old leaves.new result }
{
    if leaf {
        leaves[n] = p as u32;
        n + 1
    } else {
        n
    }
}

// Those of a graph. Returns how many there are.
pub fn put_leaves(gates: &[u32], marks: &[u8], leaves: &mut [u32]) -> usize
    requires { LeavesIn gates.now marks.now leaves.old }
    ensures { LeavesPut gates.now marks.now leaves.old leaves.new result }
{
    let pins = pin_count(gates);
    let mut n = 0;
    for p in 0..pins {
        let leaf = line_leaf(gates, marks, p);
        n = put_leaf(leaf, leaves, n, p);
    }
    n
}

// Driven pins become 1.
pub fn mark_driven(driven: &[u32], marks: &mut [u8])
    ensures { Marked driven.now marks.old marks.new }
{
    for i in (0..driven.len()).rev() {
        put_inside(marks, wide(driven[i]), 1);
    }
}
