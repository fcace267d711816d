// Which jobs a file holds: flip-flops with enable literal 1 and outputs behind them, which the checks let pass, with as many different leaves.
ghost use Rattle.std.specs.Prelude.{◌≡◌, ◌≤◌, length, drop, replicate};
ghost use Rattle.rules.specs.Graph.{graph_of, pin_count};
ghost use Rattle.aiger_form.specs.Aag.{is_leaf_pin};
ghost use Rattle.aiger_write.specs.Answers.{netlist_of};
ghost use Rattle.aiger_write.specs.Jobs.{flip_at, output_at, outputs_only, shaped, Marked, Judged};

use checks::refusal;
use graph::{Node, Pin, node_at, pin_count};

// Does a flip-flop with enable literal 1 stand at an index?
fn flip_at(records: &[u32], at: usize) -> bool
    requires { at ≤ length records.now }
    ensures { result ≡ flip_at (drop at records.now) }
{
    3 <= records.len() - at && records[at] == 2 && records[at + 1] == 1
}

// Are these a kind and a number, of an output?
fn is_output(pair: &[u32]) -> bool
    ensures { result ≡ output_at pair.now }
{
    2 <= pair.len() && pair[0] == 1
}

// Are there only outputs from an index on?
fn outputs_only(records: &[u32], from: usize) -> bool
    requires { from ≤ length records.now }
    ensures { result ≡ outputs_only (drop from records.now) }
{
    // Not `starts`: it ends at a record that is not whole, and does not say so.
    for pair in records[from..].chunks(2) {
        if !is_output(pair) {
            return false;
        }
    }
    true
}

// Are the records n such flip-flops, and outputs behind them?
fn shaped(records: &[u32], n: usize) -> bool
    ensures { result ≡ shaped n records.now }
{
    for i in 0..n {
        if !flip_at(records, 3 * i) {
            return false;
        }
    }
    outputs_only(records, 3 * n)
}

pub fn is_leaf_pin(gates: &[u32], pin: Pin) -> bool
    ensures { result ≡ is_leaf_pin (graph_of gates.now) pin.0 }
{
    let p = pin.index();
    match node_at(gates, pin) {
        Node::Leaf => 0 < p && p < pin_count(gates),
        Node::Gate(_, _) => false,
    }
}

// A mark for each latch's pin; false where one is no leaf, or has a mark already.
fn mark_latches(gates: &[u32], latches: &[u32], marks: &mut [u8]) -> bool
    requires { pin_count gates.now ≤ length marks.old }
    ensures { Marked (graph_of gates.now) latches.now marks.old result marks.new }
{
    for l in latches {
        let pin = Pin(*l);
        if !is_leaf_pin(gates, pin) {
            return false;
        }
        let p = pin.index();
        if marks[p] != 0 {
            return false;
        }
        marks[p] = 1;
    }
    true
}

// Does a file hold the job? If so, the latches' pins are marked.
pub fn judge(
    gates: &[u32],
    given: &[u32],
    records: &[u32],
    latches: &[u32],
    marks: &mut [u8],
) -> bool
    requires { marks.old ≡ replicate 65536 0 }
    ensures { Judged given.now (netlist_of gates.now records.now latches.now) marks.old result marks.new }
{
    if given.len() != 0 || refusal(6, true, gates, given, records).is_err() {
        return false;
    }
    shaped(records, latches.len()) && mark_latches(gates, latches, marks)
}
