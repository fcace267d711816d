// Passes over the lines behind the header, with a map of 65,536 variables from `lo` on.
ghost use Rattle.std.specs.Prelude.{◌≡◌, [], ◌∷◌, ltb, ◌<◌, length};
ghost use Rattle.rules.specs.Graph.{pin_of};
ghost use Rattle.aiger_form.specs.Aag.{body_size, uses};
ghost use Rattle.aiger_rows.specs.Rows.{said, head_of};
ghost use Rattle.aiger_text.specs.Lines.{Short};
ghost use Rattle.aiger_text.specs.Passes.{breadth, area, store_item, Marked, Passed, noted, Ready, Swept, Known, Set, Used};
ghost use Rattle.aiger_text.specs.Whole.{Begun, Place, First};

use crate::lines::{Step, line_at};
use aiger_rows::head::Head;
use aiger_rows::header::{Section, section_of};
use aiger_rows::rows::Row;
use graph::{Literal, pin_of};

// Mark the pin of a literal, if the window holds it; was it not marked?
fn mark(map: &mut [u8], lo: usize, l: Literal) -> bool
    requires { length map.old ≡ breadth }
    ensures { Marked lo (pin_of l.0) map.old map.new result }
{
    let v = pin_of(l).index();
    if v < lo || map.len() <= v - lo {
        return true;
    }
    let k = v - lo;
    let old = map[k];
    map[k] = 1;
    old == 0
}

// Mark what a line defines; is its text right, and was that not marked?
fn mark_row(map: &mut [u8], lo: usize, x: Option<Row>) -> bool
    requires { length map.old ≡ breadth }
    ensures { Passed lo (said x) map.old map.new result }
{
    let Some(row) = x else {
        return false;
    };
    match row {
        Row::Symbol => true,
        Row::Output(_) => true,
        Row::Input(l) => mark(map, lo, l),
        Row::Latch(l, _, _) => mark(map, lo, l),
        Row::Gate(l, _, _) => mark(map, lo, l),
    }
}

// A gate's literals go to the two numbers of its pin.
fn store_row(gates: &mut [u32], x: Option<Row>)
    requires { length gates.old ≡ area }
    ensures { gates.new ≡ store_item (said x) gates.old }
{
    let Some(row) = x else {
        return;
    };
    match row {
        Row::Gate(l, a, b) => {
            let p = pin_of(l).index();
            if p < 65536 {
                gates[2 * p] = a.0;
                gates[2 * p + 1] = b.0;
            }
        }
        _ => {}
    }
}

// The first place again, after one more line.
fn noted(good: bool, first: usize, at: usize) -> usize
    ensures { result ≡ noted good first at }
{
    if good { first } else { first.min(at) }
}

// Is the i-th line one of those that the header counts?
fn in_body(i: usize, h: Head) -> bool
    ensures { result ≡ ltb i (body_size (head_of h)) }
{
    match section_of(i, h) {
        Section::Symbols => false,
        _ => true,
    }
}

// With i whole lines and no `c`, are lines missing, or does the file end in the middle of one?
fn is_short(bytes: &[u8], i: usize, h: Head) -> bool
    requires { 0 < length bytes.now }
    ensures { Short (head_of h) i bytes.now result }
{
    in_body(i, h) || bytes[bytes.len() - 1] != b'\n'
}

// What a pass finds: the first bad line or the length, and whether the file is cut.
#[derive(Clone, Copy)]
pub struct Sweep {
    pub first: usize,
    pub cut: bool,
}

// The first line that is bad by its text or defines again what the window holds; the map then holds what all lines define, and the area
// the gates.
fn mark_lines(
    bytes: &[u8],
    start: usize,
    h: Head,
    lo: usize,
    map: &mut [u8],
    gates: &mut [u32],
) -> Sweep
    requires { Ready start lo bytes.now map.old gates.old }
    ensures { Swept (head_of h) start lo bytes.now map.old map.new gates.old gates.new result }
{
    let mut at = start;
    let mut i = 0;
    let mut first = bytes.len();
    // A walk by the length of the line that it reads.
    loop {
        match line_at(bytes, at, i, h) {
            Step::Last => {
                return Sweep {
                    first,
                    cut: is_short(bytes, i, h),
                };
            }
            Step::Stop => {
                return Sweep { first, cut: false };
            }
            Step::Line(x, e) => {
                store_row(gates, x);
                let good = mark_row(map, lo, x);
                first = noted(good, first, at);
                at = e + 1;
                i += 1;
            }
        }
    }
}

// Is the pin of a literal marked, if the window holds it, or the constant?
fn known(map: &[u8], lo: usize, l: Literal) -> bool
    requires { length map.now ≡ breadth }
    ensures { Known lo (pin_of l.0 ∷ []) map.now result }
{
    let v = pin_of(l).index();
    if v == 0 || v < lo || map.len() <= v - lo {
        return true;
    }
    map[v - lo] != 0
}

fn known_row(map: &[u8], lo: usize, x: Option<Row>) -> bool
    requires { length map.now ≡ breadth }
    ensures { Known lo (uses (said x)) map.now result }
{
    let Some(row) = x else {
        return true;
    };
    match row {
        Row::Symbol => true,
        Row::Input(_) => true,
        Row::Output(l) => known(map, lo, l),
        Row::Latch(_, next, _) => known(map, lo, next),
        Row::Gate(_, a, b) => known(map, lo, a) && known(map, lo, b),
    }
}

// The first line that uses a variable of the window that is not marked, or the length.
fn use_lines(bytes: &[u8], start: usize, h: Head, lo: usize, map: &[u8]) -> usize
    requires { Set start bytes.now map.now }
    ensures { Used (head_of h) start lo bytes.now map.now result }
{
    let mut at = start;
    let mut i = 0;
    // A walk by the length of the line that it reads.
    loop {
        match line_at(bytes, at, i, h) {
            Step::Last => {
                return bytes.len();
            }
            Step::Stop => {
                return bytes.len();
            }
            Step::Line(x, e) => {
                if !known_row(map, lo, x) {
                    return at;
                }
                at = e + 1;
                i += 1;
            }
        }
    }
}

// The first line that is bad for the variables of the window; of a cut file the uses are not judged.
fn place_in(
    bytes: &[u8],
    start: usize,
    h: Head,
    lo: usize,
    map: &mut [u8],
    gates: &mut [u32],
) -> Sweep
    requires { Begun start bytes.now map.old gates.old }
    ensures { Place (head_of h) start lo bytes.now map.old map.new gates.old gates.new result }
{
    map.fill(0);
    let s = mark_lines(bytes, start, h, lo, map, gates);
    if s.cut {
        return s;
    }
    let b = use_lines(bytes, start, h, lo, map);
    Sweep {
        first: s.first.min(b),
        cut: false,
    }
}

// The first bad line of a file, or the length. The area then holds the gates, where there are at most 65,536 variables.
pub fn first_place(bytes: &[u8], start: usize, h: Head, map: &mut [u8], gates: &mut [u32]) -> Sweep
    requires { Begun start bytes.now map.old gates.old }
    ensures { First (head_of h) start bytes.now map.old map.new gates.old gates.new result }
{
    let s = place_in(bytes, start, h, 0, map, gates);
    let mut first = s.first;
    for w in 1..h.variables / 65536 + 1 {
        let a = place_in(bytes, start, h, 65536 * w, map, gates);
        first = first.min(a.first);
    }
    Sweep { first, cut: s.cut }
}
