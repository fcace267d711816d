// Pins, literals and the gates of a lent graph. Every exported function takes any numbers and slices.
#![tactic(auto)]

ghost use Rattle.std.specs.Prelude.{◌≡◌, get_or};
ghost use Rattle.rules.specs.Graph.{leaf, pin_of, inversion_of, node_of, graph_of, pin_count};
ghost use Rattle.graph.specs.Values.{made_literal, node_for};

pub use cells::wide;

#[derive(Clone, Copy)]
pub struct Pin(pub u32);

impl Pin {
    // The number as an index: the one way out of a pin, but for being stored.
    pub fn index(self) -> usize
        ensures { result ≡ self.0 }
    {
        wide(self.0)
    }
}

// A pin, inverted or not.
#[derive(Clone, Copy)]
pub struct Literal(pub u32);

// What drives a pin: nothing here, or a gate of two literals.
#[derive(Clone, Copy)]
pub enum Node {
    Leaf,
    Gate(Literal, Literal),
}

pub const EMPTY: u32 = 4294967295;

pub fn pin_of(l: Literal) -> Pin
    ensures { result.0 ≡ pin_of l.0 }
{
    Pin(l.0 / 2)
}

pub fn inversion_of(l: Literal) -> u32
    ensures { result ≡ inversion_of l.0 }
{
    l.0 % 2
}

pub fn literal_of(pin: Pin, inversion: u32) -> Option<Literal>
    ensures { result ≡ made_literal pin.0 inversion }
{
    let p = pin.0;
    if 2147483647 < p || 1 < inversion {
        return None;
    }
    Some(Literal(2 * p + inversion))
}

// The pins of a lent graph, pin 0 among them.
pub fn pin_count(gates: &[u32]) -> usize
    ensures { result ≡ pin_count gates.now }
{
    gates.len() / 2
}

// What two numbers of a lent graph say of their pin.
pub fn node_of(a: u32, b: u32) -> Node
    ensures { node_for result ≡ node_of a b }
{
    if a == EMPTY {
        if b == EMPTY {
            return Node::Leaf;
        }
    }
    Node::Gate(Literal(a), Literal(b))
}

// The pin of the literal at an index of a lent graph; pin 0 past its end.
pub fn operand(gates: &[u32], at: usize) -> Pin
    ensures { result.0 ≡ pin_of (get_or gates.now at 0) }
{
    if gates.len() <= at {
        return Pin(0);
    }
    pin_of(Literal(gates[at]))
}

// What drives a pin of a lent graph. A pin above N is a leaf.
pub fn node_at(gates: &[u32], pin: Pin) -> Node
    ensures { node_for result ≡ get_or (graph_of gates.now) pin.0 leaf }
{
    let p = pin.index();
    if pin_count(gates) <= p {
        return Node::Leaf;
    }
    node_of(gates[2 * p], gates[2 * p + 1])
}
