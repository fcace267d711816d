// The level of every pin, stopping at marked pins. Levels above K are told as K + 1: no cell of a stage tells them apart.
#![tactic(auto)]

ghost use Rattle.std.specs.Prelude.{◌≡◌, min, max, suc, get_or};
ghost use Rattle.rules.specs.Graph.{graph_of};
ghost use Rattle.mend_levels.specs.Levels.{level_by, PassAt, Passed, LevelsAt, Levelled};

use cells::Height;
use graph::{Node, Pin, node_at, pin_count, pin_of};
use plan_check_stage::marks::has_mark;

// The level of a pin by the levels so far.
pub fn level_at(levels: &[u32], p: Pin) -> u32
    ensures { result ≡ get_or levels.now p.0 0 }
{
    levels.get(p.index()).copied().unwrap_or(0)
}

// One more than the greater of two, but no more than `cap`.
fn above(a: u32, b: u32, cap: u32) -> u32
    ensures { result ≡ min (suc (max a b)) cap }
{
    a.max(b).saturating_add(1).min(cap)
}

// Pin p's level by those of its operands: 0 for a leaf and for a pin to stop at.
fn level_by(gates: &[u32], stop: &[u8], levels: &[u32], p: Pin, cap: u32) -> u32
    ensures { result ≡ level_by (graph_of gates.now) stop.now levels.now cap p.0 }
{
    if has_mark(stop, p) {
        return 0;
    }
    match node_at(gates, p) {
        Node::Leaf => 0,
        Node::Gate(a, b) => above(
            level_at(levels, pin_of(a)),
            level_at(levels, pin_of(b)),
            cap,
        ),
    }
}

// Every pin's level by those so far, in place. Does any change?
fn pass(gates: &[u32], stop: &[u8], levels: &mut [u32], cap: u32) -> bool
    requires { PassAt gates.now levels.old }
    ensures { Passed (graph_of gates.now) stop.now cap levels.old levels.new result }
{
    let m = pin_count(gates);
    let mut changed = false;
    for p in 0..m {
        let v = level_by(gates, stop, levels, Pin(p as u32), cap);
        if levels[p] != v {
            levels[p] = v;
            changed = true;
        }
    }
    changed
}

// Passes until nothing changes: two where every operand stands before its gate, and never more than K + 1.
pub fn find_levels(height: Height, gates: &[u32], stop: &[u8], levels: &mut [u32])
    requires { LevelsAt height.0 gates.now levels.old }
    ensures { Levelled height.0 (graph_of gates.now) stop.now levels.old levels.new }
{
    let cap = height.0 + 1;
    levels.fill(0);
    for _ in 0..cap {
        if !pass(gates, stop, levels, cap) {
            return;
        }
    }
}
