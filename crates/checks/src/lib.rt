// The checks 1, 2, 3, 23, 4, 5, in their order. Each reads its input once, but for the search for a loop, which graphs in order don't need.
#![tactic(auto)]

ghost use Rattle.std.specs.Prelude.{◌≡◌, true, [], ◌∷◌, drop};
ghost use Rattle.rules.specs.Graph.{graph_of, pin_count};
ghost use Rattle.rules.specs.Records.{whole_at};
ghost use Rattle.rules.specs.Checks.{work_size, areas_sized, nodes_right, records_right, given_right, refusal_of};
ghost use Rattle.graph.specs.Values.{node_for};
ghost use Rattle.checks.specs.Values.{operand_right, graph_sized, graph_refusal, Rising, Says};
ghost use Rattle.records.specs.Values.{record_right};

use cells::is_height;
use graph::{Literal, Node, Pin, node_of, pin_count, pin_of, wide};
use graph_loops::loop_pin;
use records::{endpoint, size_at};
use refusals::Refusal;
use sizes::areas_sized;

// May a literal be an operand among so many pins?
fn operand_right(pins: usize, l: Literal) -> bool
    ensures { result ≡ operand_right pins l.0 }
{
    let q = pin_of(l).index();
    if q == 0 {
        return false;
    }
    q < pins
}

fn node_right(pins: usize, p: usize, node: Node) -> bool
    ensures { result ≡ nodes_right pins p (node_for node ∷ []) }
{
    match node {
        Node::Leaf => true,
        Node::Gate(a, b) => {
            if p == 0 {
                return false;
            }
            operand_right(pins, a) && operand_right(pins, b)
        }
    }
}

// The first pin that has an operand which isn't above 0 and below it, or N + 1.
fn first_forward(gates: &[u32]) -> usize
    ensures { Rising gates.now result }
{
    let pins = pin_count(gates);
    for p in 0..pins {
        if !node_right(p, p, node_of(gates[2 * p], gates[2 * p + 1])) {
            return p;
        }
    }
    pins
}

// Are the nodes right, those before pin `from` being so?
fn nodes_right(gates: &[u32], from: usize) -> bool
    requires { Rising gates.now from }
    ensures { result ≡ nodes_right (pin_count gates.now) 0 (graph_of gates.now) }
{
    let pins = pin_count(gates);
    for p in from..pins {
        if !node_right(pins, p, node_of(gates[2 * p], gates[2 * p + 1])) {
            return false;
        }
    }
    true
}

// Is the graph's size right?
fn graph_sized(gates: &[u32]) -> bool
    ensures { result ≡ graph_sized gates.now }
{
    if gates.len() % 2 != 0 {
        return false;
    }
    let pins = pin_count(gates);
    if pins == 0 {
        return false;
    }
    pins <= 65536
}

// The first of 3 and 23 that applies. Where every operand is below its gate, which is looked at first, there is no loop to be searched for.
fn graph_refusal(gates: &[u32]) -> Result<(), Refusal>
    ensures { Says (graph_refusal gates.now) gates.now result }
{
    if !graph_sized(gates) {
        return Err(Refusal::WrongGraph);
    }
    let from = first_forward(gates);
    if from == pin_count(gates) {
        return Ok(());
    }
    if !nodes_right(gates, from) {
        return Err(Refusal::WrongGraph);
    }
    match loop_pin(gates) {
        None => Ok(()),
        Some(pin) => Err(Refusal::Loop(pin)),
    }
}

// Does the whole record at an index name pins below `pins` only?
fn record_right(pins: usize, records: &[u32], at: usize) -> bool
    requires { whole_at (drop at records.now) ≡ true }
    ensures { result ≡ record_right pins (drop at records.now) }
{
    let size = size_at(records, at);
    for i in 0..size {
        if pins <= endpoint(records, at, i).index() {
            return false;
        }
    }
    true
}

fn records_right(pins: usize, records: &[u32]) -> bool
    ensures { result ≡ records_right pins records.now }
{
    if 65536 < records.len() {
        return false;
    }
    let mut at = 0;
    // No `starts`: it ends at a record that is not whole, and does not say so.
    while at < records.len() {
        let size = size_at(records, at);
        if size == 0 {
            return false;
        }
        if !record_right(pins, records, at) {
            return false;
        }
        at += 1 + size;
    }
    true
}

pub fn given_right(pins: usize, given: &[u32]) -> bool
    ensures { result ≡ given_right pins given.now }
{
    given.iter().all(|&p| wide(p) < pins)
}

// The first of 1, 2, 3, 23, 4, 5 that applies; `sized` says whether every lent area has a right size.
pub fn refusal(
    height: u32,
    sized: bool,
    gates: &[u32],
    given: &[u32],
    records: &[u32],
) -> Result<(), Refusal>
    ensures { Says (refusal_of height sized gates.now given.now records.now) gates.now result }
{
    if !is_height(height) {
        return Err(Refusal::NoHeight);
    }
    if !sized {
        return Err(Refusal::WrongSize);
    }
    graph_refusal(gates)?;
    let pins = pin_count(gates);
    if !records_right(pins, records) {
        return Err(Refusal::WrongRecord);
    }
    if !given_right(pins, given) {
        return Err(Refusal::WrongGiven);
    }
    Ok(())
}

// The checks of a build, whose areas have these lengths.
pub fn check(
    height: u32,
    gates: &[u32],
    given: &[u32],
    records: &[u32],
    plan: usize,
    words: usize,
    counts: usize,
    work: usize,
) -> Result<(), Refusal>
    ensures { Says (refusal_of height (areas_sized height (work_size gates.now records.now) plan words counts work) gates.now given.now records.now) gates.now result }
{
    let sized = areas_sized(
        height,
        gates.len(),
        records.len(),
        plan,
        words,
        counts,
        work,
    );
    refusal(height, sized, gates, given, records)
}
