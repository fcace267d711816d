// What one line says, by its text alone.
ghost use Rattle.std.specs.Prelude.{◌≡◌, ◌&&◌, true, false, MatchOption};
ghost use Rattle.rules.specs.Lists.{same_list};
ghost use Rattle.rules.specs.Listing.{text};
ghost use Rattle.aiger_form.specs.Aag.{or_bad, is_literal, is_variable, input_item, latch_item, output_item, gate_line, gate_item, line_item, symbol_count, symbol_item};
ghost use Rattle.aiger_rows.specs.Rows.{said, reset_in, head_of, item_at, Stops};

use crate::cursor::{number, numbers, until};
use crate::head::Head;
use crate::header::{Section, section_among, section_of};
use graph::Literal;

// A symbol, or a line of a section with its literals. A latch's reset is 0, 1 or the latch.
#[derive(Clone, Copy)]
pub enum Row {
    Symbol,
    Input(Literal),
    Latch(Literal, Literal, u32),
    Output(Literal),
    Gate(Literal, Literal, Literal),
}

// A number as a literal, if it is in range.
#[tactic(auto, using(std::proofs::lemmas::Bool::Decides::nat_tests), unfolding(aiger_form::specs::Aag::is_literal))]
fn literal(l: usize, h: Head) -> Option<Literal>
    ensures { MatchOption result (is_literal h.variables l ≡ false) (λ x. (is_literal h.variables l ≡ true) × (x.0 ≡ l)) }
{
    if l <= 2 * h.variables + 1 {
        Some(Literal(l as u32))
    } else {
        None
    }
}

// The same, if it is what a line may define.
#[tactic(auto, using(std::proofs::lemmas::Bool::Decides::nat_tests), unfolding(aiger_form::specs::Aag::is_variable, rules::specs::Graph::inversion_of))]
fn variable(l: usize, h: Head) -> Option<Literal>
    ensures { MatchOption result (is_variable h.variables l ≡ false) (λ x. (is_variable h.variables l ≡ true) × (x.0 ≡ l)) }
{
    if l % 2 == 0 && 0 < l {
        literal(l, h)
    } else {
        None
    }
}

// Is a latch's reset, the third number where there is one, 0, 1 or the latch?
#[tactic(auto, using(std::proofs::lemmas::Bool::Decides::nat_tests), unfolding(crate::specs::Rows::reset_in))]
fn is_reset(count: usize, a: usize, c: usize) -> bool
    ensures { result ≡ reset_in count a c }
{
    count == 2 || count == 3 && (c <= 1 || c == a)
}

fn input_row(line: &[u8], h: Head) -> Option<Row>
    ensures { said result ≡ line_item (input_item h.variables) line.now }
{
    let n = numbers(line)?;
    if n.count != 1 {
        return None;
    }
    Some(Row::Input(variable(n.values[0], h)?))
}

fn latch_row(line: &[u8], h: Head) -> Option<Row>
    ensures { said result ≡ line_item (latch_item h.variables) line.now }
{
    let n = numbers(line)?;
    let v = n.values;
    if !is_reset(n.count, v[0], v[2]) {
        return None;
    }
    let latch = variable(v[0], h)?;
    let next = literal(v[1], h)?;
    Some(Row::Latch(latch, next, v[2] as u32))
}

fn output_row(line: &[u8], h: Head) -> Option<Row>
    ensures { said result ≡ line_item (output_item h.variables) line.now }
{
    let n = numbers(line)?;
    if n.count != 1 {
        return None;
    }
    Some(Row::Output(literal(n.values[0], h)?))
}

// The row of a gate's three numbers.
pub fn gate_of(a: usize, b: usize, c: usize, h: Head) -> Option<Row>
    ensures { said result ≡ or_bad (is_variable h.variables a && is_literal h.variables b && is_literal h.variables c) (gate_line a b c) }
{
    let gate = variable(a, h)?;
    let first = literal(b, h)?;
    let second = literal(c, h)?;
    Some(Row::Gate(gate, first, second))
}

fn gate_row(line: &[u8], h: Head) -> Option<Row>
    ensures { said result ≡ line_item (gate_item h.variables) line.now }
{
    let n = numbers(line)?;
    let v = n.values;
    if n.count != 3 {
        return None;
    }
    gate_of(v[0], v[1], v[2], h)
}

// How many there are of what a symbol's letter names.
#[tactic(auto, using(std::proofs::lemmas::Bool::Decides::nat_tests), unfolding(aiger_form::specs::Aag::symbol_count))]
fn symbol_count(letter: u8, h: Head) -> usize
    ensures { result ≡ symbol_count (head_of h) letter }
{
    match letter {
        b'i' => h.inputs,
        b'l' => h.latches,
        b'o' => h.outputs,
        _ => 0,
    }
}

fn symbol_row(line: &[u8], h: Head) -> Option<Row>
    ensures { said result ≡ symbol_item (head_of h) line.now }
{
    if line.len() == 0 {
        return None;
    }
    let e = until(line, 1, b' ');
    if line.len() <= e {
        return None;
    }
    let x = number(&line[1..e])?;
    if x < symbol_count(line[0], h) {
        Some(Row::Symbol)
    } else {
        None
    }
}

fn is_comment(line: &[u8]) -> bool
    ensures { result ≡ same_list line.now (text "c") }
{
    line.len() == 1 && line[0] == b'c'
}

// The i-th line behind the header, from 0 on; nothing where its text is bad.
pub fn row_at(line: &[u8], i: usize, h: Head) -> Option<Row>
    ensures { said result ≡ item_at (head_of h) i line.now }
{
    match section_of(i, h) {
        Section::Inputs => input_row(line, h),
        Section::Latches => latch_row(line, h),
        Section::Outputs => output_row(line, h),
        Section::Gates => gate_row(line, h),
        Section::Symbols => symbol_row(line, h),
    }
}

// Does the i-th line behind a header that says so many of each end all: a `c` behind the gates?
pub fn stops_at(
    line: &[u8],
    i: usize,
    inputs: usize,
    latches: usize,
    outputs: usize,
    gates: usize,
) -> bool
    ensures { Stops inputs latches outputs gates i line.now result }
{
    match section_among(i, inputs, latches, outputs, gates) {
        Section::Symbols => is_comment(line),
        _ => false,
    }
}
