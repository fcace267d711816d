// An AIGER file and a recording from two files.
use crate::lent::replayed;
use crate::plain::{FLIP_FLOP, differing};
use aiger::read;
use records::starts;
use refusals::Refusal;
use std::fs::File;
use std::io;
use std::rt::Files;
use try_cases::{item, part, read_full};

fn text(rt: &(impl Files + Eprint + Alloc), name: &str, bytes: &mut [u8]) -> io::Result<usize> {
    match File::open(rt, name) {
        Ok(mut file) => read_full(&mut file, bytes),
        Err(error) => {
            fail(rt, name, error)?;
            Ok(0)
        }
    }
}

// Writes a line to standard error: what failed, and the system's text, without the number that std puts behind it.
fn fail(rt: &(impl Eprint + Alloc), what: &str, error: io::Error) -> io::Result<()> {
    let said = format!(in rt.alloc(); "{error}")?;
    match said.as_str().split_once(" (os error ") {
        None => eprintln!(rt; "{what}: {said}"),
        Some((why, _)) => eprintln!(rt; "{what}: {why}"),
    }
}

// How many lines a recording has, and how many bits.
#[derive(Clone, Copy)]
struct Recorded {
    lines: usize,
    bits: usize,
}

// Each 0 and 1 is a bit, each line feed ends a line.
fn record(text: &[u8], bits: &mut [u8]) -> Recorded {
    let mut r = Recorded { lines: 0, bits: 0 };
    for b in text {
        if *b == b'\n' {
            r.lines = r.lines.wrapping_add(1);
        } else if r.bits < bits.len() {
            bits[r.bits] = u8::from(*b != b'0');
            r.bits += 1;
        }
    }
    r
}

pub fn replay_file(
    rt: &(impl Files + Print + Eprint + Alloc),
    name: &str,
    recording: &str,
) -> io::Result<()> {
    let mut file: [u8; 16384] = [0; 16384];
    let n = text(rt, name, &mut file)?;
    let mut lines: [u8; 16384] = [0; 16384];
    let m = text(rt, recording, &mut lines)?;
    let mut bits: [u8; 16384] = [0; 16384];
    let r = record(part(&lines, 0, m), &mut bits);
    read_file(rt, part(&file, 0, n), r.lines, part(&bits, 0, r.bits))
}

fn read_file(rt: &impl Print, bytes: &[u8], lines: usize, recording: &[u8]) -> io::Result<()> {
    let mut gates: [u32; 1024] = [0; 1024];
    let mut records: [u32; 256] = [0; 256];
    let mut latches: [u32; 64] = [0; 64];
    match read(bytes, &mut gates, &mut records, &mut latches) {
        Ok(n) => run(
            rt,
            part(&gates, 0, n.gates),
            part(&records, 0, n.records),
            part(&latches, 0, n.latches),
            lines,
            recording,
        ),
        Err(e) => refused(rt, e.why),
    }
}

fn refused(rt: &impl Print, why: Refusal) -> io::Result<()> {
    let number = why.number();
    println!(rt; "refused {number}")
}

// All flip-flops start at 0, as the file says. At height 10.
fn run(
    rt: &impl Print,
    gates: &[u32],
    records: &[u32],
    driven: &[u32],
    lines: usize,
    recording: &[u8],
) -> io::Result<()> {
    let starts: [u8; 64] = [0; 64];
    let start = part(&starts, 0, driven.len());
    let mut out: [u8; 65536] = [7; 65536];
    let mut end: [u8; 64] = [7; 64];
    if let Err(e) = replayed(
        10, gates, records, driven, start, lines, recording, &mut out, &mut end,
    ) {
        return refused(rt, e.why);
    }
    let seen = differing(gates, records, driven, start, lines, recording, &out, &end);
    print(rt, records, &out, lines)?;
    rt.write_all(b"end ")?;
    show(rt, part(&end, 0, driven.len()))?;
    println!(rt; "\nbits that differ: {}", seen.wrong)
}

fn show(rt: &impl Print, bits: &[u8]) -> io::Result<()> {
    for b in bits {
        rt.print(u8::from(*b != 0))?;
    }
    Ok(())
}

// The outputs' bits, which stand behind two of each flip-flop, a line a clock.
fn print(rt: &impl Print, records: &[u32], out: &[u8], lines: usize) -> io::Result<()> {
    let mut from = 0;
    for _ in 0..lines {
        from = print_line(rt, records, out, from)?;
    }
    Ok(())
}

fn print_line(rt: &impl Print, records: &[u32], out: &[u8], from: usize) -> io::Result<usize> {
    let mut k = from;
    for at in starts(records) {
        if item(records, at) == FLIP_FLOP {
            k = k.wrapping_add(2);
        } else {
            show(rt, part(out, k, 1))?;
            k = k.wrapping_add(1);
        }
    }
    rt.write_all(b"\n")?;
    Ok(k)
}
