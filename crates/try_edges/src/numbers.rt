// Functions of numbers. Each prints what is answered.
use cells::Height;
use graph::{Literal, Pin};
use std::fmt::Display;
use std::io;
use try_cases::text::{narrow, number};

pub fn say<T: Display + Drop>(rt: &impl Print, n: T) -> io::Result<()> {
    print!(rt; " {n}")
}

pub fn call(rt: &impl Print, function: usize, numbers: &[u8]) -> io::Result<()> {
    let x = narrow(numbers, 1);
    match function {
        1 => height(rt, x),
        2 => position(rt, x),
        3 => cell(rt, numbers),
        4 => literal(rt, Pin(x), narrow(numbers, 2)),
        5 => say(rt, records::size_of(records::kind_of(x))),
        6 => area(rt, numbers),
        _ => sized(rt, numbers),
    }
}

// A height's own number or 0, and what it carries.
fn height(rt: &impl Print, k: u32) -> io::Result<()> {
    match Height::new(k) {
        Some(h) => say(rt, h.0)?,
        None => say(rt, 0u32)?,
    }
    height_sizes(rt, Height(k))
}

fn height_sizes(rt: &impl Print, h: Height) -> io::Result<()> {
    say(rt, h.width())?;
    say(rt, h.level_one_size())?;
    say(rt, h.word_limit())?;
    say(rt, h.stage_size())?;
    say(rt, h.rooms(1000))
}

// A position, its row, its level at height 6, its cell and the two lower cells.
fn position(rt: &impl Print, p: u32) -> io::Result<()> {
    say(rt, p)?;
    say(rt, positions::row_start(p))?;
    say(rt, positions::level_of(6, p))?;
    say(rt, positions::cell_of(p))?;
    say(rt, positions::first_lower(p))?;
    say(rt, positions::second_lower(p))
}

// Height, level, index.
fn cell(rt: &impl Print, numbers: &[u8]) -> io::Result<()> {
    say(
        rt,
        cells::position(narrow(numbers, 1), narrow(numbers, 2), narrow(numbers, 3)),
    )
}

fn literal(rt: &impl Print, pin: Pin, inversion: u32) -> io::Result<()> {
    match graph::literal_of(pin, inversion) {
        Some(l) => parts(rt, l),
        None => Ok(()),
    }
}

fn parts(rt: &impl Print, l: Literal) -> io::Result<()> {
    say(rt, l.0)?;
    say(rt, graph::pin_of(l).0)?;
    say(rt, graph::inversion_of(l))
}

// The lengths of gates, records and work area.
fn area(rt: &impl Print, numbers: &[u8]) -> io::Result<()> {
    left(
        rt,
        sizes::work_left(number(numbers, 1), number(numbers, 2), number(numbers, 3)),
    )
}

// What is left of a work area, and whether 8 numbers are.
fn left(rt: &impl Print, left: Option<usize>) -> io::Result<()> {
    if let Some(n) = left {
        say(rt, n)?;
    }
    say(rt, u8::from(sizes::take_eights(left, 1).is_some()))
}

// The height, and the lengths of plan, words, counts and work area of a build for one pin and one output.
fn sized(rt: &impl Print, numbers: &[u8]) -> io::Result<()> {
    let sized = sizes::areas_sized(
        narrow(numbers, 1),
        4,
        2,
        number(numbers, 2),
        number(numbers, 3),
        number(numbers, 4),
        number(numbers, 5),
    );
    say(rt, u8::from(sized))
}
