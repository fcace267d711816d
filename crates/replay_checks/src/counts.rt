// What records have: memories, flip-flops, and the bits that they hand out.
ghost use Rattle.std.specs.Prelude.{◌≡◌, ◌+◌, ◌<◌};
ghost use Rattle.rules.specs.Records.{groups_of};
ghost use Rattle.replay_checks.specs.Values.{Readable, Counted, one_if};

use records::{size_at, starts};

#[derive(Clone, Copy)]
pub struct Counts {
    pub memories: usize,
    pub flips: usize,
    pub bits: usize,
}

// One more where a kind is the one asked for.
fn more_if(n: usize, kind: u32, asked: u32) -> usize
    requires { n < 65536 }
    ensures { result ≡ n + one_if kind asked }
{
    if kind == asked { n + 1 } else { n }
}

pub fn count(records: &[u32]) -> Counts
    requires { Readable records.now }
    ensures { Counted (groups_of records.now) result }
{
    let mut memories = 0;
    let mut flips = 0;
    let mut bits = 0;
    for at in starts(records) {
        let kind = records[at];
        memories = more_if(memories, kind, 3);
        flips = more_if(flips, kind, 2);
        bits += size_at(records, at);
    }
    Counts {
        memories,
        flips,
        bits,
    }
}
