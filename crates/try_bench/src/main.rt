// The scope document's bench examples marked "run only", and the first one: the builds' answers and what stands in their areas, of a cell its pin.
#![tactic(auto)]

use cell::Cell;
use graph::EMPTY;
use placer::{Built, Refused, build};
use std::io;

fn main(rt: HostRuntime) -> io::Result<()> {
    first(&rt)?;
    one_leaf(&rt)?;
    memories_64(&rt)?;
    memories_65(&rt)
}

// The number, stages and words, the refused stage, and the filled cells.
fn tell(rt: &impl Print, built: Result<Built, Refused>) -> io::Result<()> {
    match built {
        Ok(b) => println!(rt; " 0 {} {} 0 {}", b.stages, b.words, b.cells),
        Err(e) => {
            let number = e.why.number();
            println!(rt; " {number} 0 0 {} 0", e.stage)
        }
    }
}

// The positions that are filled, with their pins.
fn filled(rt: &impl Print, plan: &[u32]) -> io::Result<()> {
    for (p, cell) in plan.iter().enumerate() {
        let cell = Cell(*cell);
        if !cell.is_empty() {
            println!(rt; " {p} {}", cell.pin().0)?;
        }
    }
    Ok(())
}

fn all(rt: &impl Print, words: &[u32]) -> io::Result<()> {
    for word in words {
        print!(rt; " {word}")?;
    }
    println!(rt; "")
}

// Height 6: pins 1 to 4 are leaves, 5 = (2, 4), 6 = (6, 9), 7 = (10, 12), output 14.
fn first(rt: &impl Print) -> io::Result<()> {
    rt.write_all(b"height 6, output 14:")?;
    let gates: [u32; 16] = [
        EMPTY, EMPTY, EMPTY, EMPTY, EMPTY, EMPTY, EMPTY, EMPTY, EMPTY, EMPTY, 2, 4, 6, 9, 10, 12,
    ];
    let given: [u32; 0] = [];
    let records: [u32; 2] = [1, 14];
    let mut plan: [u32; 128] = [0; 128];
    let mut words: [u32; 2] = [0; 2];
    let mut counts: [u32; 1] = [0; 1];
    let mut work: [u32; 656] = [0; 656];
    let answer = build(
        6,
        &gates,
        &given,
        &records,
        &mut plan,
        &mut words,
        &mut counts,
        &mut work,
    );
    tell(rt, answer)?;
    filled(rt, &plan)?;
    all(rt, &words)
}

// Height 13: pin 1 is a leaf, output 2.
fn one_leaf(rt: &impl Print) -> io::Result<()> {
    rt.write_all(b"height 13, one leaf:")?;
    let gates: [u32; 4] = [EMPTY; 4];
    let given: [u32; 0] = [];
    let records: [u32; 2] = [1, 2];
    let mut plan: [u32; 16384] = [0; 16384];
    let mut words: [u32; 256] = [0; 256];
    let mut counts: [u32; 1] = [0; 1];
    let mut work: [u32; 560] = [0; 560];
    let answer = build(
        13,
        &gates,
        &given,
        &records,
        &mut plan,
        &mut words,
        &mut counts,
        &mut work,
    );
    tell(rt, answer)?;
    filled(rt, &plan)?;
    all(rt, &words)
}

// A memory's kind at every 92nd number.
fn set_kinds(records: &mut [u32]) {
    for at in (0..records.len()).step_by(92) {
        records[at] = 3;
    }
}

fn memories(rt: &impl Print, records: &mut [u32]) -> io::Result<()> {
    set_kinds(records);
    let gates: [u32; 2] = [EMPTY; 2];
    let given: [u32; 0] = [];
    let mut plan: [u32; 16384] = [0; 16384];
    let mut words: [u32; 256] = [0; 256];
    let mut counts: [u32; 1] = [0; 1];
    let mut work: [u32; 48368] = [0; 48368];
    let answer = build(
        13,
        &gates,
        &given,
        records,
        &mut plan,
        &mut words,
        &mut counts,
        &mut work,
    );
    tell(rt, answer)
}

// Height 13: 64 memories, all of whose literals are the constant.
fn memories_64(rt: &impl Print) -> io::Result<()> {
    rt.write_all(b"height 13, 64 memories:")?;
    let mut records: [u32; 5888] = [0; 5888];
    memories(rt, &mut records)
}

fn memories_65(rt: &impl Print) -> io::Result<()> {
    rt.write_all(b"height 13, 65 memories:")?;
    let mut records: [u32; 5980] = [0; 5980];
    memories(rt, &mut records)
}
