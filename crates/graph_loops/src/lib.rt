// Loops among the gates of a lent graph. A number a pin, found by Pearce's search for components, is a hint: where it nowhere falls from a pin
// to its operands, which is tested, a pin from which it rises to every operand is on no loop. The other pins have a mark.
#![tactic(auto)]

ghost use Rattle.std.specs.Prelude.{◌≡◌, [], ◌∷◌, true, ◌||◌, ℕ, ◌+◌, ◌<◌, ◌≤◌, length, get_or, replicate};
ghost use Rattle.rules.specs.Loops.{on_loop, loop_pin};
ghost use Rattle.rules.specs.Graph.{graph_of, pin_of, pin_count, below};
ghost use Rattle.graph_loops.specs.Answers.{loop_for};
ghost use Rattle.graph_loops.specs.Marks.{Kept, Inside, Rises, Step, Follows, Spread};

use graph::{Literal, Node, Pin, node_at, pin_count, pin_of, wide};

// A number a pin, or a list of pins.
type Numbers = [u32; 65536];

// A number of a list, 0 past its end.
fn at(list: &Numbers, i: u32) -> u32 {
    list.get(wide(i)).copied().unwrap_or(0)
}

fn put(list: &mut Numbers, i: u32, v: u32) {
    if let Some(x) = list.get_mut(wide(i)) {
        *x = v;
    }
}

// The place n from the end of a list.
fn back(n: u32) -> u32 {
    65535u32.saturating_sub(n)
}

// The search for components: a number a pin, and a list of pins. How far it is: the pins on the way down, which stand from the list's front on;
// those held for a component, from its end on; the next number of a pin and of a component; the next pin to start from.
#[derive(Drop)]
struct Descent<'a> {
    low: &'a mut Numbers,
    list: &'a mut Numbers,
    way: u32,
    held: u32,
    number: u32,
    part: u32,
    next: Pin,
}

impl Descent<'_> {
    // A pin goes on the way: 8 times the pin, with 1 more for each operand that was looked at, and 4 more where the pin is not the first of
    // its component.
    fn enter(&mut self, p: Pin) {
        put(self.low, p.0, self.number);
        put(self.list, self.way, p.0 % 65536 * 8);
        self.way = self.way.saturating_add(1);
        self.number = self.number.saturating_add(1);
    }

    // The held pins of the component of its first pin p get its number.
    fn close(&mut self, p: Pin) {
        let first = at(self.low, p.0);
        self.way = self.way.saturating_sub(1);
        self.number = self.number.saturating_sub(1);
        for n in (0..self.held).rev() {
            let q = at(self.list, back(n));
            if at(self.low, q) < first {
                break;
            }
            put(self.low, q, self.part);
            self.number = self.number.saturating_sub(1);
            self.held = n;
        }
        put(self.low, p.0, self.part);
        self.part = self.part.saturating_sub(1);
    }

    // The last pin p on the way is done, and the first of its component or not.
    fn leave(&mut self, p: Pin, first: bool) {
        if first {
            self.close(p);
        } else {
            put(self.list, back(self.held), p.0);
            self.way = self.way.saturating_sub(1);
            self.held = self.held.saturating_add(1);
        }
    }

    // One step at the last pin on the way: its next operand, or its end.
    fn step(&mut self, gates: &[u32]) {
        let k = self.way.saturating_sub(1);
        let f = at(self.list, k) % 524288;
        let p = Pin(f / 8);
        let t = f % 4;
        let is_first = f % 8 < 4;
        if 1 < t {
            self.leave(p, is_first);
            return;
        }
        let Some(&l) = gates.get(2 * p.index() + wide(t)) else {
            put(self.list, k, f + 1);
            return;
        };
        let q = pin_of(Literal(l));
        match self.low.get(q.index()) {
            Some(&0) => self.enter(q),
            Some(&a) if a < at(self.low, p.0) => {
                put(self.low, p.0, a);
                put(self.list, k, if is_first { f + 5 } else { f + 1 });
            }
            _ => put(self.list, k, f + 1),
        }
    }

    // The next pin to start from, where it has no number.
    fn start(&mut self) {
        let p = self.next;
        self.next = Pin(p.0.saturating_add(1));
        if at(self.low, p.0) == 0 {
            self.enter(p);
        }
    }
}

// A number a pin, in at most 5 steps a pin: no smaller for its operands, and the same only for those of its component. A hint, of which nothing
// is promised.
fn components(gates: &[u32], low: &mut Numbers, list: &mut Numbers) {
    let pins = pin_count(gates);
    let mut descent = Descent {
        low,
        list,
        way: 0,
        held: 0,
        number: 1,
        part: 4294967295,
        next: Pin(0),
    };
    for _ in 0..524288 {
        if descent.way != 0 {
            descent.step(gates);
        } else if descent.next.index() < pins {
            descent.start();
        } else {
            return;
        }
    }
}

// Is the number of a literal's pin at least `more` above `own`?
fn rises_to(low: &Numbers, own: u32, more: usize, l: Literal) -> bool
    requires { more ≤ 1 }
    ensures { result ≡ true → own + more ≤ get_or low.now (pin_of l.0) 0 }
{
    let q = pin_of(l).index();
    if 65535 < q {
        return false;
    }
    let other = low[q];
    wide(own) + more <= wide(other)
}

// Is the number of each operand of pin p at least `more` above its own?
fn rises(gates: &[u32], low: &Numbers, p: Pin, more: usize) -> bool
    requires p_bound { p.0 < 65536 }
    requires more_bound { more ≤ 1 }
    ensures { result ≡ true → Rises gates.now low.now more p.0 }
{
    let own = low[p.index()];
    match node_at(gates, p) {
        Node::Leaf => true,
        Node::Gate(a, b) => { rises_to(low, own, more, a) && rises_to(low, own, more, b) }
    }
}

// Falls the number nowhere?
fn all_rise(gates: &[u32], low: &Numbers) -> bool
    requires { Inside gates.now }
    ensures { result ≡ true → (p : ℕ) → p < pin_count gates.now → Rises gates.now low.now 0 p }
{
    let pins = pin_count(gates);
    for p in 0..pins {
        if !rises(gates, low, Pin(p as u32), 0) {
            return false;
        }
    }
    true
}

// Pins from which it rises to every operand lose their mark.
fn unmark(gates: &[u32], low: &Numbers, marks: &mut [u8])
    requires inside { Inside gates.now }
    requires by_index { (p : ℕ) → p < pin_count gates.now → Rises gates.now low.now 0 p }
    requires kept { Kept gates.now marks.old }
    ensures { Kept gates.now marks.new }
{
    let pins = pin_count(gates);
    for p in 0..pins {
        if rises(gates, low, Pin(p as u32), 1) {
            marks[p] = 0;
        }
    }
}

// The pin of a literal is reached. Returns whether it was not before.
fn reach_one(seen: &mut [u8], l: Literal) -> bool
    ensures { Step seen.old seen.new (pin_of l.0 ∷ []) result }
{
    let q = pin_of(l).index();
    if seen.len() <= q {
        return false;
    }
    if seen[q] != 0 {
        return false;
    }
    seen[q] = 1;
    true
}

// The operands of a pin are reached. Returns whether one was not before.
fn reach(gates: &[u32], seen: &mut [u8], pin: Pin) -> bool
    ensures { Step seen.old seen.new (below (graph_of gates.now) [] pin.0) result }
{
    match node_at(gates, pin) {
        Node::Leaf => false,
        Node::Gate(a, b) => {
            let x = reach_one(seen, a);
            let y = reach_one(seen, b);
            x || y
        }
    }
}

// The operands of pin p are reached where it is. Returns whether one was not before.
fn reach_from(gates: &[u32], seen: &mut [u8], p: Pin) -> bool
    requires { p.0 < length seen.old }
    ensures { Follows gates.now p.0 seen.old seen.new result }
{
    if seen[p.index()] == 0 {
        return false;
    }
    reach(gates, seen, p)
}

// The operands of every reached pin are reached. Returns whether one was not before.
fn reach_more(gates: &[u32], seen: &mut [u8]) -> bool
    requires inside { Inside gates.now }
    requires gates_in_bounds { pin_count gates.now ≤ length seen.old }
    ensures { Spread gates.now (pin_count gates.now) seen.old seen.new result }
{
    let pins = pin_count(gates);
    let mut any = false;
    for p in 0..pins {
        any |= reach_from(gates, seen, Pin(p as u32));
    }
    any
}

// Pin p behind a list of n pins, unless it is reached.
fn listed(seen: &[u8], list: &mut Numbers, n: u32, p: Pin) -> u32 {
    let i = p.index();
    if seen.get(i) != Some(&0) {
        return n;
    }
    put(list, n, p.0);
    n.saturating_add(1)
}

// The operands of pin p that are not reached, behind a list of n pins. A hint, of which nothing is promised.
fn queue(gates: &[u32], seen: &[u8], list: &mut Numbers, n: u32, p: Pin) -> u32 {
    match node_at(gates, p) {
        Node::Leaf => n,
        Node::Gate(a, b) => {
            let x = pin_of(a);
            let y = pin_of(b);
            let k = listed(seen, list, n, x);
            if x.index() == y.index() {
                return k;
            }
            listed(seen, list, k, y)
        }
    }
}

// The operands of the listed pins are reached where those are, and listed. Returns whether one was not reached before.
fn reach_along(gates: &[u32], seen: &mut [u8], list: &mut Numbers, n: u32) -> bool
    requires inside { Inside gates.now }
    requires gates_in_bounds { pin_count gates.now ≤ length seen.old }
    ensures { Spread gates.now 0 seen.old seen.new result }
{
    let pins = pin_count(gates);
    let mut any = false;
    let mut k = n;
    for i in 0..65536 {
        if k <= i {
            return any;
        }
        let p = Pin(at(list, i));
        k = queue(gates, seen, list, k, p);
        if p.index() < pins {
            any |= reach_from(gates, seen, p);
        }
    }
    any
}

// The same, in an array of zeros.
fn spread(gates: &[u32], seen: &mut [u8], list: &mut Numbers, pin: Pin) -> bool
    requires inside { Inside gates.now }
    requires pin_bound { pin.0 < 65536 }
    requires seen_value { seen.old ≡ replicate 65536 0 }
    ensures { result ≡ on_loop (graph_of gates.now) pin.0 }
{
    let n = queue(gates, seen, list, 0, pin);
    reach(gates, seen, pin);
    reach_along(gates, seen, list, n);
    // It counts no index: it ends where nothing more is reached.
    while reach_more(gates, seen) {}
    seen[pin.index()] != 0
}

// Is a pin on a loop? The arrays are the function's own.
fn on_loop(gates: &[u32], pin: Pin) -> bool
    requires inside { Inside gates.now }
    requires pin_bound { pin.0 < 65536 }
    ensures { result ≡ on_loop (graph_of gates.now) pin.0 }
{
    let mut seen: [u8; 65536] = [0; 65536];
    let mut list: Numbers = [0; 65536];
    spread(gates, &mut seen, &mut list, pin)
}

// May pin p be on a loop, by its mark, and is it?
fn is_looped(gates: &[u32], marks: &[u8], p: Pin) -> bool
    requires inside { Inside gates.now }
    requires kept { Kept gates.now marks.now }
    requires p_bound { p.0 < pin_count gates.now }
    ensures { result ≡ on_loop (graph_of gates.now) p.0 }
{
    if marks[p.index()] == 0 {
        return false;
    }
    on_loop(gates, p)
}

// The smallest pin on a loop, where every pin on a loop has a mark.
fn search(gates: &[u32], marks: &[u8]) -> Option<Pin>
    requires inside { Inside gates.now }
    requires kept { Kept gates.now marks.now }
    ensures { loop_for result ≡ loop_pin (graph_of gates.now) }
{
    let pins = pin_count(gates);
    for p in 0..pins {
        if is_looped(gates, marks, Pin(p as u32)) {
            return Some(Pin(p as u32));
        }
    }
    None
}

// The same with marks of its own, by the hint of components, if one may be tried, else with a mark on every pin. It calls itself, and not as
// the last thing that it does, so that the compiler keeps the arrays' frame out of its callers, who seldom need it: 576 kB, and 320 kB for a search.
fn found(gates: &[u32], hints: usize) -> Option<Pin>
    requires { Inside gates.now }
    ensures { loop_for result ≡ loop_pin (graph_of gates.now) }
{
    let mut low: Numbers = [0; 65536];
    let mut list: Numbers = [0; 65536];
    let mut marks: [u8; 65536] = [1; 65536];
    if hints == 0 {
        return search(gates, &marks);
    }
    components(gates, &mut low, &mut list);
    if all_rise(gates, &low) {
        unmark(gates, &low, &mut marks);
        return search(gates, &marks);
    }
    let p = found(gates, 0)?;
    if p.index() < pin_count(gates) {
        Some(p)
    } else {
        None
    }
}

// The smallest pin on a loop. Nothing lent is changed.
pub fn loop_pin(gates: &[u32]) -> Option<Pin>
    requires { Inside gates.now }
    ensures { loop_for result ≡ loop_pin (graph_of gates.now) }
{
    found(gates, 1)
}
