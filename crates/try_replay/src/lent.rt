// A replay in areas of its own: for up to height 10 with eight rooms, 511 pins and 256 record numbers.
use placer::{Built, Refused};
use replay::replay;

pub fn replayed(
    height: u32,
    gates: &[u32],
    records: &[u32],
    driven: &[u32],
    start: &[u8],
    lines: usize,
    recording: &[u8],
    out: &mut [u8],
    end: &mut [u8],
) -> Result<Built, Refused> {
    let given: [u32; 0] = [];
    let mut plan: [u32; 16384] = [0; 16384];
    let mut words: [u32; 32] = [0; 32];
    let mut counts: [u32; 32] = [0; 32];
    let mut work: [u32; 10752] = [0; 10752];
    let mut tape: [u32; 16384] = [0; 16384];
    let mut slots: [u32; 16640] = [0; 16640];
    let mut bits: [u8; 8704] = [0; 8704];
    replay(
        height,
        gates,
        &given,
        records,
        driven,
        start,
        lines,
        recording,
        out,
        end,
        &mut plan,
        &mut words,
        &mut counts,
        &mut work,
        &mut tape,
        &mut slots,
        &mut bits,
    )
}
