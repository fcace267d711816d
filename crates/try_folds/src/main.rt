// Folds the bench examples' plans of cells for all leaf bits (31 leaves: 64 patterns), and compares every filled cell with its pin's own value in the graph.
// Then plans that no placer makes, and refusals. stdin has them, a line each; README.md says how.
#![tactic(auto)]

mod bits;
mod values;

use bits::set_bits;
use cell::Cell;
use fold::fold;
use graph::EMPTY;
use std::io;
use try_cases::text::{each_line, narrow, number, piece, put};
use try_cases::{add, front, item, part, read_full, set, tell};
use values::set_values;

// What result and work hold before a fold.
const OLD: u32 = 7;

// What a line asks for: the height, how many numbers of plan, bits, result and work are lent, the patterns of bits from the first up to the last
// and whether one bit is alone in them, the position whose bit is counted, from where on result is compared, and whether the positions are shown.
#[derive(Clone, Copy)]
struct Case {
    height: u32,
    plan: usize,
    bits: usize,
    res: usize,
    work: usize,
    first: usize,
    last: usize,
    alone: bool,
    at: usize,
    from: usize,
    shown: bool,
}

impl Case {
    fn read(numbers: &[u8]) -> Case {
        Case {
            height: narrow(numbers, 0),
            plan: number(numbers, 1),
            bits: number(numbers, 2),
            res: number(numbers, 3),
            work: number(numbers, 4),
            first: number(numbers, 5),
            last: number(numbers, 6),
            alone: number(numbers, 7) == 1,
            at: number(numbers, 8),
            from: number(numbers, 9),
            shown: number(numbers, 10) == 1,
        }
    }
}

// What is counted, each by the capital that stands for it in the text: folds, filled cells, of those whose bit is their pin's value, bits at the
// position asked for, numbers of work that are 0, numbers of result from the case's place on and of work that are as before the fold, the refusal,
// the numbers of result and work.
const FOLDS: usize = 0;

const CELLS: usize = 1;

const RIGHT: usize = 2;

const ONES: usize = 3;

const ZEROS: usize = 4;

const UNTOUCHED: usize = 5;

const REFUSAL: usize = 6;

const LENGTH: usize = 7;

fn main(rt: HostRuntime) -> io::Result<()> {
    let mut text = [0u8; 65536];
    let n = read_full(&mut rt.reader(), &mut text)?;
    each_line(&text[..n], |line| run(&rt, line))
}

// A line's pieces: a name, numbers, the plan's cells, the graph, and what is told behind the name.
fn run(rt: &impl Print, line: &[u8]) -> io::Result<()> {
    let case = Case::read(piece(line, b';', 1));
    let cells = piece(line, b';', 2);
    let mut plan = [EMPTY; 16384];
    put_cells(cells, &mut plan);
    let mut graph = [0u32; 80];
    put(piece(line, b';', 3), &mut graph);
    rt.write_all(piece(line, b';', 0))?;
    let mut tally = [0usize; 8];
    add(&mut tally, CELLS, number(cells, 0));
    for pattern in case.first..case.last {
        fold_one(
            rt,
            case,
            &graph,
            part(&plan, 0, case.plan),
            pattern,
            &mut tally,
        )?;
    }
    tell(rt, piece(line, b';', 4), &tally)?;
    rt.write_all(b"\n")
}

// How many cells are filled, then position and cell in turn.
fn put_cells(cells: &[u8], plan: &mut [u32]) {
    let mut at: usize = 1;
    for _ in 0..number(cells, 0) {
        set(plan, number(cells, at), narrow(cells, at.wrapping_add(1)));
        at = at.wrapping_add(2);
    }
}

fn fold_one(
    rt: &impl Print,
    case: Case,
    graph: &[u32],
    plan: &[u32],
    pattern: usize,
    tally: &mut [usize],
) -> io::Result<()> {
    let mut bits = [1u32; 32];
    let mut values = [0u32; 32];
    set_bits(&mut bits, pattern, case.alone);
    set_values(gates(graph), given(graph), &bits, &mut values);
    let mut area = [OLD; 16400];
    let mut work = [OLD; 65540];
    let answer = fold(
        case.height,
        plan,
        part(&bits, 0, case.bits),
        front(&mut area, case.res),
        front(&mut work, case.work),
    );
    if let Err(why) = answer {
        add(tally, REFUSAL, why.number() as usize);
    }
    look(rt, case, plan, part(&area, 0, case.res), &values, tally)?;
    look_work(part(&work, 0, case.work), tally);
    Ok(())
}

// The lengths of gates and given pins, then these.
fn gates(graph: &[u32]) -> &[u32] {
    part(graph, 2, item(graph, 0) as usize)
}

fn given(graph: &[u32]) -> &[u32] {
    part(graph, 2 + item(graph, 0) as usize, item(graph, 1) as usize)
}

// What is seen of one fold in its result.
fn look(
    rt: &impl Print,
    case: Case,
    plan: &[u32],
    res: &[u32],
    values: &[u32],
    tally: &mut [usize],
) -> io::Result<()> {
    add(tally, FOLDS, 1);
    add(tally, RIGHT, right(plan, res, values));
    add(tally, ONES, item(res, case.at) as usize);
    add(tally, UNTOUCHED, count(res, case.from, OLD));
    add(tally, LENGTH, res.len());
    if case.shown {
        tell_ones(rt, plan, res)?;
    }
    Ok(())
}

// And in its work area.
fn look_work(work: &[u32], tally: &mut [usize]) {
    add(tally, ZEROS, count(work, 0, 0));
    add(tally, UNTOUCHED, count(work, 0, OLD));
    add(tally, LENGTH, work.len());
}

fn is_right(plan: &[u32], res: &[u32], values: &[u32], p: usize) -> bool {
    let cell = Cell(item(plan, p));
    !cell.is_empty() && item(res, p) == item(values, cell.pin().0 as usize)
}

// The filled cells whose bit is their pin's value.
fn right(plan: &[u32], res: &[u32], values: &[u32]) -> usize {
    (0..plan.len())
        .filter(|p| is_right(plan, res, values, *p))
        .count()
}

// How often a number stands in a slice from an index on.
fn count(xs: &[u32], from: usize, x: u32) -> usize {
    let mut n: usize = 0;
    // By index: a filter over the iterator takes three times the instructions.
    for i in from..xs.len() {
        if xs[i] == x {
            n = n.wrapping_add(1);
        }
    }
    n
}

// The positions whose bit is 1.
fn tell_ones(rt: &impl Print, plan: &[u32], res: &[u32]) -> io::Result<()> {
    for (p, bit) in res.iter().take(plan.len()).enumerate() {
        if *bit == 1 {
            print!(rt; " {p}")?;
        }
    }
    Ok(())
}
