// Check 19, with a mark a pin.
ghost use Rattle.std.specs.Prelude.{◌≤◌, length};
ghost use Rattle.rules.specs.Graph.{graph_of, pin_count};
ghost use Rattle.replay_checks.specs.Values.{MarksAt, LeavesMarked};

use graph::{pin_count, wide};
use replay_run::leaves::line_leaf;

// Is every driven pin a leaf, and driven once? Then each has the mark 1. From the last down, so that a mark says: driven further on.
pub fn mark_leaves(gates: &[u32], driven: &[u32], marks: &mut [u8]) -> bool
    requires { MarksAt gates.now marks.old }
    ensures { LeavesMarked (graph_of gates.now) driven.now marks.old marks.new result }
{
    let pins = pin_count(gates);
    for i in (0..driven.len()).rev() {
        let p = wide(driven[i]);
        if pins <= p || !line_leaf(gates, marks, p) {
            return false;
        }
        marks[p] = 1;
    }
    true
}
