// Functions of lists, whose lengths stand before them. Each prints what is answered.
use crate::numbers::say;
use graph::{Node, Pin};
use std::io;
use try_cases::text::{narrow, number, piece, put};
use try_cases::{item, part, set};

pub fn call(rt: &impl Print, function: usize, numbers: &[u8], line: &[u8]) -> io::Result<()> {
    match function {
        8 => row(rt, numbers),
        9 => row_write(rt, numbers),
        10 => node(rt, numbers, line),
        11 => record(rt, numbers, line),
        _ => with_gates(rt, numbers, line),
    }
}

fn listed(xs: &[u32]) -> &[u32] {
    part(xs, 1, item(xs, 0) as usize)
}

// A plan of two rooms of height 6, whose numbers are their indices where a row begins.
fn row(rt: &impl Print, numbers: &[u8]) -> io::Result<()> {
    let mut plan = [0u32; 256];
    set(&mut plan, 1, 1);
    set(&mut plan, 64, 64);
    set(&mut plan, 128, 128);
    set(&mut plan, 160, 160);
    set(&mut plan, 192, 192);
    row_of(rt, numbers, part(&plan, 0, number(numbers, 4)))
}

// Height, stage, level and the plan's length: the row's length and first number, 0 if it is empty.
fn row_of(rt: &impl Print, numbers: &[u8], plan: &[u32]) -> io::Result<()> {
    let own = rows::row(
        plan,
        narrow(numbers, 1),
        number(numbers, 2),
        narrow(numbers, 3),
    );
    say(rt, own.len())?;
    say(rt, item(own, 0))
}

// The first cell of a row is set: what the plan holds there and beside it.
fn row_write(rt: &impl Print, numbers: &[u8]) -> io::Result<()> {
    let mut plan = [0u32; 256];
    set(
        rows::row_mut(
            &mut plan,
            narrow(numbers, 1),
            number(numbers, 2),
            narrow(numbers, 3),
        ),
        0,
        7,
    );
    say(rt, item(&plan, 159))?;
    say(rt, item(&plan, 160))?;
    say(rt, item(&plan, 161))
}

// A pin and the gates.
fn node(rt: &impl Print, numbers: &[u8], line: &[u8]) -> io::Result<()> {
    let mut gates = [0u32; 8];
    put(piece(line, b';', 3), &mut gates);
    tell_node(rt, graph::node_at(listed(&gates), Pin(narrow(numbers, 1))))
}

fn tell_node(rt: &impl Print, node: Node) -> io::Result<()> {
    match node {
        Node::Leaf => Ok(()),
        Node::Gate(a, b) => {
            say(rt, a.0)?;
            say(rt, b.0)
        }
    }
}

// Where a record stands, which of its pins, and the records.
fn record(rt: &impl Print, numbers: &[u8], line: &[u8]) -> io::Result<()> {
    let mut records = [0u32; 93];
    put(piece(line, b';', 3), &mut records);
    tell_record(rt, listed(&records), number(numbers, 1), number(numbers, 2))
}

fn tell_record(rt: &impl Print, records: &[u32], at: usize, i: usize) -> io::Result<()> {
    say(rt, records::size_at(records, at))?;
    say(rt, records::endpoint(records, at, i).0)
}

// The height, the lengths of plan, words, counts and work area; gates, given pins and records.
fn with_gates(rt: &impl Print, numbers: &[u8], line: &[u8]) -> io::Result<()> {
    let mut gates = [0u32; 131075];
    put(piece(line, b';', 3), &mut gates);
    with_records(rt, numbers, line, listed(&gates))
}

fn with_records(rt: &impl Print, numbers: &[u8], line: &[u8], gates: &[u32]) -> io::Result<()> {
    let mut given = [0u32; 4];
    let mut records = [0u32; 65539];
    put(piece(line, b';', 4), &mut given);
    put(piece(line, b';', 5), &mut records);
    check(rt, numbers, gates, listed(&given), listed(&records))
}

fn check(
    rt: &impl Print,
    numbers: &[u8],
    gates: &[u32],
    given: &[u32],
    records: &[u32],
) -> io::Result<()> {
    let checked = checks::check(
        narrow(numbers, 1),
        gates,
        given,
        records,
        number(numbers, 2),
        number(numbers, 3),
        number(numbers, 4),
        number(numbers, 5),
    );
    match checked {
        Ok(()) => say(rt, 0u32),
        Err(why) => say(rt, why.number()),
    }
}
