// Lists the plan of the AIGER file on standard input, at height 10. One that is not read prints the number, place and pin that it is refused with.
#![tactic(auto)]

use aiger::read;
use listing::{listing, refused};
use placer::build;
use std::io;
use try_cases::{part, read_full};

const HEIGHT: u32 = 10;

fn main(rt: HostRuntime) -> io::Result<()> {
    let mut bytes: [u8; 65536] = [0; 65536];
    let n = read_full(&mut rt.reader(), &mut bytes)?;
    list(&rt, &bytes[..n])
}

fn list(rt: &impl Print, bytes: &[u8]) -> io::Result<()> {
    let mut gates: [u32; 2048] = [0; 2048];
    let mut records: [u32; 1024] = [0; 1024];
    let mut latches: [u32; 256] = [0; 256];
    match read(bytes, &mut gates, &mut records, &mut latches) {
        Ok(n) => place(rt, part(&gates, 0, n.gates), part(&records, 0, n.records)),
        Err(e) => {
            let number = e.why.number();
            let at = e.at;
            let pin = e.why.pin().0;
            println!(rt; "refused {number} place {at} pin {pin}")
        }
    }
}

// Eight rooms; work for as many gates and records as are read.
fn place(rt: &impl Print, gates: &[u32], records: &[u32]) -> io::Result<()> {
    let given: [u32; 0] = [];
    let mut plan: [u32; 16384] = [0; 16384];
    let mut words: [u32; 32] = [0; 32];
    let mut counts: [u32; 8] = [0; 8];
    let mut work: [u32; 25088] = [0; 25088];
    let built = build(
        HEIGHT,
        gates,
        &given,
        records,
        &mut plan,
        &mut words,
        &mut counts,
        &mut work,
    );
    let mut text: [u8; 131072] = [0; 131072];
    let written = match built {
        Ok(b) => listing(HEIGHT, b.stages, &plan, &words, &counts, &mut text),
        Err(e) => refused(e.why.number(), e.stage, e.why.pin(), &mut text),
    };
    rt.write_all(part(&text, 0, written.unwrap_or(0)))
}
