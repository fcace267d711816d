// The graph's own values, pin by pin, for comparison.
use graph::{Literal, Node, Pin, inversion_of, node_at, pin_of};
use try_cases::item;

fn own(bits: &[u32], p: usize) -> bool {
    p != 0 && item(bits, p) != 0
}

fn literal(values: &[u32], l: Literal) -> bool {
    let one = item(values, pin_of(l).0 as usize) == 1;
    if inversion_of(l) == 0 { one } else { !one }
}

fn driven(values: &[u32], bits: &[u32], p: usize, node: Node) -> bool {
    match node {
        Node::Leaf => own(bits, p),
        Node::Gate(a, b) => literal(values, a) && literal(values, b),
    }
}

fn value(gates: &[u32], given: &[u32], bits: &[u32], values: &[u32], p: usize) -> bool {
    if 65535 < p {
        return false;
    }
    let n = p as u32;
    if given.contains(&n) {
        return own(bits, p);
    }
    driven(values, bits, p, node_at(gates, Pin(n)))
}

// By pin, operands first.
pub fn set_values(gates: &[u32], given: &[u32], bits: &[u32], values: &mut [u32]) {
    for p in 0..values.len() {
        values[p] = u32::from(value(gates, given, bits, values, p));
    }
}
