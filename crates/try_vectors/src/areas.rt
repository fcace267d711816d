// What is handed over and lent in a build and a merge alike.
use cell::Cell;
pub use graph::EMPTY;
use std::io;
use try_cases::{front, item, narrow, number, part, set, tell};

// What the areas hold before.
pub const OLD: u32 = 7;

// How both heads begin.
pub const BODY: usize = 0;

pub const HEIGHT: usize = 1;

const GATES: usize = 2;

const GIVEN: usize = 3;

const RECORDS: usize = 4;

// How their own parts begin: what is lent and counted, what the Rust answers.
pub const PLAN: usize = 0;

pub const LIMIT: usize = 1;

pub const ROOMS: usize = 2;

pub const WORK: usize = 3;

pub const NUMBER: usize = 4;

pub const STAGES: usize = 5;

pub const WORDS: usize = 6;

pub const STAGE: usize = 7;

// What stands behind the first n numbers.
pub fn behind(bytes: &[u8], n: usize) -> &[u8] {
    bytes.get(n.saturating_mul(2)..).unwrap_or(&[])
}

// The body's numbers, as many as there is room for.
pub fn put(body: &[u8], xs: &mut [u32]) {
    for (i, x) in xs.iter_mut().enumerate() {
        *x = narrow(body, i);
    }
}

// A leaf's two literals are recorded as 0.
fn mark_leaves(xs: &mut [u32]) {
    for x in xs.iter_mut() {
        if *x == 0 {
            *x = EMPTY;
        }
    }
}

// Gates, given pins and records, one behind the other.
pub fn put_input(head: &[u8], body: &[u8], input: &mut [u32]) {
    put(body, input);
    mark_leaves(front(input, number(head, GATES)));
}

pub fn gates<'a>(head: &[u8], input: &'a [u32]) -> &'a [u32] {
    part(input, 0, number(head, GATES))
}

pub fn given<'a>(head: &[u8], input: &'a [u32]) -> &'a [u32] {
    part(input, number(head, GATES), number(head, GIVEN))
}

fn records_at(head: &[u8]) -> usize {
    number(head, GATES) + number(head, GIVEN)
}

pub fn records<'a>(head: &[u8], input: &'a [u32]) -> &'a [u32] {
    part(input, records_at(head), number(head, RECORDS))
}

// The body behind the input.
pub fn rest<'a>(head: &[u8], body: &'a [u8]) -> &'a [u8] {
    behind(body, records_at(head).saturating_add(number(head, RECORDS)))
}

// Number i of an area that holds n numbers of `bytes`, then x up to the size that it is counted at, then what it held before.
fn right(bytes: &[u8], n: usize, x: u32, size: usize, i: usize) -> u32 {
    if i < n {
        return narrow(bytes, i);
    }
    if i < size { x } else { OLD }
}

// Whether an area holds just that; if not, its name is printed.
pub fn holds(
    rt: &impl Print,
    xs: &[u32],
    bytes: &[u8],
    n: usize,
    x: u32,
    size: usize,
    name: usize,
) -> io::Result<bool> {
    for (i, held) in xs.iter().enumerate() {
        if *held != right(bytes, n, x, size, i) {
            tell(rt, b"area A differs\n", &[name])?;
            return Ok(false);
        }
    }
    Ok(true)
}

// The pin of a cell, which is what the Rust has of it; an empty one stays the empty mark.
fn pin_at(plan: &[u32], position: usize) -> u32 {
    Cell(item(plan, position)).pin().0
}

// Whether the plan has n cells, each a position and a pin. Those are emptied.
pub fn take_cells(cells: &[u8], n: usize, plan: &mut [u32]) -> bool {
    for i in 0..n {
        let at = i.wrapping_mul(2);
        let position = number(cells, at);
        if pin_at(plan, position) != narrow(cells, at.wrapping_add(1)) {
            return false;
        }
        set(plan, position, EMPTY);
    }
    true
}

// Makes the numbers from one index up to another x.
pub fn open(xs: &mut [u32], from: usize, to: usize, x: u32) {
    for i in from..to {
        set(xs, i, x);
    }
}

// Whether an area holds x up to the size that it is counted at.
pub fn cleared(
    rt: &impl Print,
    xs: &[u32],
    own: &[u8],
    counted: usize,
    x: u32,
) -> io::Result<bool> {
    holds(rt, xs, own, 0, x, number(own, counted), counted)
}

// Whether the answer's first numbers are those recorded.
pub fn answered(own: &[u8], refusal: u32, stages: usize, words: usize, stage: usize) -> bool {
    refusal == narrow(own, NUMBER)
        && stages == number(own, STAGES)
        && words == number(own, WORDS)
        && stage == number(own, STAGE)
}
