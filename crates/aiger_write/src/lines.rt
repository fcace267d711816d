// The lines of an AIGER file, each laid behind the cursor `at`. A pin that is a latch's has a mark.
ghost use Rattle.std.specs.Prelude.{◌≡◌, [], ◌∷◌, ◌*◌, ◌<◌, ◌≤◌, length};
ghost use Rattle.rules.specs.Lists.{count, gather, up_to};
ghost use Rattle.rules.specs.Graph.{pin_count, literal_of};
ghost use Rattle.rules.specs.Listing.{spaced};
ghost use Rattle.listing_lines.specs.Laid.{Laid};
ghost use Rattle.aiger_write.specs.Lines.{is_input, is_gate, row_text, input_text, latch_text, output_text, gate_text, head_text, file_text, Pins, Outputs, Sized};

use crate::jobs::is_leaf_pin;
use cells::wide;
use graph::{Literal, Node, Pin, node_at, pin_count};
use listing_lines::spaced;
use listing_lines::text::{put_decimal, put_text};

// Is a pin a leaf that no flip-flop drives?
fn is_input(gates: &[u32], marks: &[u8], pin: Pin) -> bool
    requires { pin.0 < length marks.now }
    ensures { result ≡ is_input gates.now marks.now pin.0 }
{
    is_leaf_pin(gates, pin) && marks[pin.index()] == 0
}

fn count_inputs(gates: &[u32], marks: &[u8]) -> usize
    requires { Pins gates.now marks.now }
    ensures { result ≡ count (is_input gates.now marks.now) (up_to (pin_count gates.now) 0) }
{
    let pins = pin_count(gates);
    let mut n = 0;
    for p in 0..pins {
        if is_input(gates, marks, Pin(p as u32)) {
            n += 1;
        }
    }
    n
}

fn is_gate(gates: &[u32], pin: Pin) -> bool
    ensures { result ≡ is_gate gates.now pin.0 }
{
    match node_at(gates, pin) {
        Node::Leaf => false,
        Node::Gate(_, _) => true,
    }
}

fn count_gates(gates: &[u32]) -> usize
    requires { pin_count gates.now ≤ 65536 }
    ensures { result ≡ count (is_gate gates.now) (up_to (pin_count gates.now) 0) }
{
    let pins = pin_count(gates);
    let mut n = 0;
    for p in 0..pins {
        if is_gate(gates, Pin(p as u32)) {
            n += 1;
        }
    }
    n
}

fn spaced_one(out: &mut [u8], limit: usize, at: usize, n: usize) -> usize
    ensures { Laid limit at (spaced (n ∷ [])) out.old result out.new }
{
    let a = put_text(out, limit, at, b" ");
    put_decimal(out, limit, a, n)
}

// `aag M I L O A`
fn head(out: &mut [u8], limit: usize, m: usize, i: usize, l: usize, o: usize, a: usize) -> usize
    ensures { Laid limit 0 (head_text m i l o a) out.old result out.new }
{
    let p = put_text(out, limit, 0, b"aag");
    let q = spaced_one(out, limit, p, m);
    let r = spaced_one(out, limit, q, i);
    let s = spaced_one(out, limit, r, l);
    let t = spaced_one(out, limit, s, o);
    let u = spaced_one(out, limit, t, a);
    put_text(out, limit, u, b"\n")
}

// A pin's literal, and numbers behind it.
fn pin_line(out: &mut [u8], limit: usize, at: usize, pin: Pin, rest: &[u32]) -> usize
    ensures { Laid limit at (row_text (literal_of pin.0 0 ∷ rest.now)) out.old result out.new }
{
    let a = put_decimal(out, limit, at, 2 * pin.index());
    let b = spaced(out, limit, a, rest);
    put_text(out, limit, b, b"\n")
}

fn input_line(
    out: &mut [u8],
    limit: usize,
    at: usize,
    gates: &[u32],
    marks: &[u8],
    pin: Pin,
) -> usize
    requires { pin.0 < length marks.now }
    ensures { Laid limit at (input_text gates.now marks.now pin.0) out.old result out.new }
{
    if !is_input(gates, marks, pin) {
        return at;
    }
    pin_line(out, limit, at, pin, &gates[0..0])
}

fn input_lines(out: &mut [u8], limit: usize, at: usize, gates: &[u32], marks: &[u8]) -> usize
    requires { Pins gates.now marks.now }
    ensures { Laid limit at (gather (input_text gates.now marks.now) (up_to (pin_count gates.now) 0)) out.old result out.new }
{
    let pins = pin_count(gates);
    let mut now = at;
    for p in 0..pins {
        now = input_line(out, limit, now, gates, marks, Pin(p as u32));
    }
    now
}

// Each latch with its data literal, which stands last in its record of three numbers.
fn latch_lines(out: &mut [u8], limit: usize, at: usize, records: &[u32], latches: &[u32]) -> usize
    requires { 3 * length latches.now ≤ length records.now }
    ensures { Laid limit at (gather (latch_text latches.now records.now) (up_to (length latches.now) 0)) out.old result out.new }
{
    let mut now = at;
    for i in 0..latches.len() {
        let next = 3 * i + 2;
        now = pin_line(out, limit, now, Pin(latches[i]), &records[next..next + 1]);
    }
    now
}

fn output_line(out: &mut [u8], limit: usize, at: usize, literal: Literal) -> usize
    ensures { Laid limit at (row_text (literal.0 ∷ [])) out.old result out.new }
{
    let a = put_decimal(out, limit, at, wide(literal.0));
    put_text(out, limit, a, b"\n")
}

// The outputs, two numbers each, from an index on.
fn output_lines(
    out: &mut [u8],
    limit: usize,
    at: usize,
    records: &[u32],
    from: usize,
    n: usize,
) -> usize
    requires { Outputs records.now from n }
    ensures { Laid limit at (gather (output_text records.now from) (up_to n 0)) out.old result out.new }
{
    let mut now = at;
    for i in 0..n {
        now = output_line(out, limit, now, Literal(records[from + 2 * i + 1]));
    }
    now
}

fn gate_line(out: &mut [u8], limit: usize, at: usize, gates: &[u32], pin: Pin) -> usize
    requires { pin.0 < pin_count gates.now }
    ensures { Laid limit at (gate_text gates.now pin.0) out.old result out.new }
{
    if !is_gate(gates, pin) {
        return at;
    }
    let a = 2 * pin.index();
    pin_line(out, limit, at, pin, &gates[a..a + 2])
}

fn gate_lines(out: &mut [u8], limit: usize, at: usize, gates: &[u32]) -> usize
    requires { pin_count gates.now ≤ 65536 }
    ensures { Laid limit at (gather (gate_text gates.now) (up_to (pin_count gates.now) 0)) out.old result out.new }
{
    let pins = pin_count(gates);
    let mut now = at;
    for p in 0..pins {
        now = gate_line(out, limit, now, gates, Pin(p as u32));
    }
    now
}

// The file.
pub fn whole(
    out: &mut [u8],
    limit: usize,
    gates: &[u32],
    records: &[u32],
    latches: &[u32],
    marks: &[u8],
) -> usize
    requires { Sized gates.now records.now latches.now marks.now }
    ensures { Laid limit 0 (file_text gates.now records.now latches.now marks.now) out.old result out.new }
{
    let inputs = count_inputs(gates, marks);
    let ands = count_gates(gates);
    let from = 3 * latches.len();
    let outs = (records.len() - from) / 2;
    let a = head(
        out,
        limit,
        pin_count(gates) - 1,
        inputs,
        latches.len(),
        outs,
        ands,
    );
    let b = input_lines(out, limit, a, gates, marks);
    let d = latch_lines(out, limit, b, records, latches);
    let e = output_lines(out, limit, d, records, from, outs);
    gate_lines(out, limit, e, gates)
}
