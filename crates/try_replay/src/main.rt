// Replays recordings, and compares every bit that comes out with the graph run another way. With no arguments: 200 small machines, drawn at
// random. With an AIGER file and a recording, a line of 0 and 1 a clock: the outputs' bits, a line a clock, and the end bits.
#![tactic(auto)]

mod files;
mod lent;
mod machines;
mod plain;

use files::replay_file;
use lent::replayed;
use machines::{Chance, draw_bits, draw_gates, draw_records, free_leaves};
use plain::differing;
use std::{env, io};
use try_cases::{front, part};

const MACHINES: u32 = 200;

const LINES: usize = 16;

fn main(rt: HostRuntime) -> io::Result<()> {
    let mut args = env::args(&rt)?;
    let name = args.nth(1);
    match (name, args.next()) {
        (Some(name), Some(recording)) => replay_file(&rt, name.as_str(), recording.as_str()),
        _ => draw_all(&rt),
    }
}

// What was replayed, refused, and compared.
#[derive(Clone, Copy, Default)]
struct Totals {
    replayed: usize,
    refused: usize,
    flips: usize,
    bits: usize,
    wrong: usize,
}

fn draw_all(rt: &impl Print) -> io::Result<()> {
    let mut chance = Chance { seed: 2024 };
    let mut totals = Totals::default();
    for _ in 0..MACHINES {
        chance = chance.next();
        machine(chance, &mut totals);
    }
    println!(rt; "machines replayed: {}", totals.replayed)?;
    println!(rt; "refused: {}", totals.refused)?;
    println!(rt; "flip-flops: {}", totals.flips)?;
    println!(rt; "bits compared: {}", totals.bits)?;
    println!(rt; "bits that differ: {}", totals.wrong)
}

// A machine of 4 to 39 pins, up to eight records.
fn machine(from: Chance, totals: &mut Totals) {
    let mut chance = from;
    let mut gates: [u32; 80] = [0; 80];
    let mut records: [u32; 32] = [0; 32];
    let mut driven: [u32; 32] = [0; 32];
    let pins = 5 + chance.below(35) % 64;
    draw_gates(&mut gates, pins, &mut chance);
    let gates = part(&gates, 0, 2 * pins as usize);
    let n = 1 + chance.next().below(8) % 8;
    let drawn = draw_records(gates, &mut records, &mut driven, n, &mut chance);
    run(
        gates,
        part(&records, 0, drawn.records),
        part(&driven, 0, drawn.flips),
        chance,
        totals,
    );
}

fn run(gates: &[u32], records: &[u32], driven: &[u32], from: Chance, totals: &mut Totals) {
    let mut chance = from;
    let mut starts: [u8; 32] = [0; 32];
    let mut lines: [u8; 640] = [0; 640];
    let start = front(&mut starts, driven.len());
    draw_bits(start, &mut chance);
    let recording = front(&mut lines, free_leaves(gates, driven.len()) % 64 * LINES);
    draw_bits(recording, &mut chance);
    compare(gates, records, driven, start, recording, totals);
}

// At height 8.
fn compare(
    gates: &[u32],
    records: &[u32],
    driven: &[u32],
    start: &[u8],
    recording: &[u8],
    totals: &mut Totals,
) {
    let mut out: [u8; 512] = [7; 512];
    let mut end: [u8; 32] = [7; 32];
    let replayed = replayed(
        8, gates, records, driven, start, LINES, recording, &mut out, &mut end,
    );
    if replayed.is_err() {
        totals.refused = totals.refused.wrapping_add(1);
        return;
    }
    let seen = differing(gates, records, driven, start, LINES, recording, &out, &end);
    totals.replayed = totals.replayed.wrapping_add(1);
    totals.flips = totals.flips.wrapping_add(driven.len());
    totals.bits = totals.bits.wrapping_add(seen.at);
    totals.wrong = totals.wrong.wrapping_add(seen.wrong);
}
