// Replays recorded builds and merges of the published Rust, as far as it decides them, then of the Rust with one line changed, and compares the answers
// and every number of what is lent, those past what an area is counted at too. README.md says what stands in stdin and how it was made.
#![tactic(auto)]

mod areas;
mod builds;
mod merges;
mod tally;

use areas::{BODY, HEIGHT};
use std::io;
use std::io::Read;
use tally::{Kind, agreed, differed};
use try_cases::{number, read_full};

fn main(rt: HostRuntime) -> io::Result<()> {
    let mut from = rt.reader();
    println!(rt; "recorded builds of the published code")?;
    replay_all(&rt, &mut from, Kind::Build)?;
    println!(rt; "recorded builds of the code with one line changed")?;
    replay_all(&rt, &mut from, Kind::Build)?;
    println!(rt; "recorded merges of the published code")?;
    replay_all(&rt, &mut from, Kind::Merge)?;
    println!(rt; "recorded merges of the code with one line changed")?;
    replay_all(&rt, &mut from, Kind::Merge)
}

// Until a head of zeros, which has nothing behind it.
fn replay_all<R: Read>(rt: &impl Print, from: &mut R, kind: Kind) -> io::Result<()> {
    let mut tally = [0usize; 24];
    for _ in 0..u64::MAX {
        if !replay(rt, from, kind, &mut tally)? {
            break;
        }
    }
    match kind {
        Kind::Build => builds::tell_all(rt, &tally),
        Kind::Merge => merges::tell_all(rt, &tally),
    }
}

// Whether stdin has n more bytes, and the area room for them.
fn read<R: Read>(from: &mut R, area: &mut [u8], n: usize) -> io::Result<bool> {
    if n > area.len() {
        return Ok(false);
    }
    Ok(read_full(from, &mut area[0..n])? == n)
}

// The next build or merge of stdin. Whether there was one.
fn replay<R: Read>(
    rt: &impl Print,
    from: &mut R,
    kind: Kind,
    tally: &mut [usize; 24],
) -> io::Result<bool> {
    let mut head = [0u8; 40];
    if !read(from, &mut head, kind.head_size())? || number(&head, HEIGHT) == 0 {
        return Ok(false);
    }
    if agrees(rt, from, kind, &head)? {
        agreed(kind, &head, tally);
    } else {
        differed(rt, tally)?;
    }
    Ok(true)
}

// Whether the library leaves what the Rust answers.
fn agrees<R: Read>(rt: &impl Print, from: &mut R, kind: Kind, head: &[u8]) -> io::Result<bool> {
    let mut body = [0u8; 12288];
    if !read(from, &mut body, 2 * number(head, BODY))? {
        return Ok(false);
    }
    match kind {
        Kind::Build => builds::agrees(rt, head, &body),
        Kind::Merge => merges::agrees(rt, head, &body),
    }
}
