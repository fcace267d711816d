// The distinct activations of each chain. One of the four residues of 4 at a time has a stamp for each quotient, so that a stamp a pin is enough.
ghost use Rattle.std.specs.Prelude.{◌≡◌};
ghost use Rattle.rules.specs.Inside.Some.{Some, Every};
ghost use Rattle.reservation_count.specs.Walks.{StampAt, Stamped, WalkAt, Walked, AllAt, AllWalked, SumAt, Summed};

use crate::chains::code_at;
use graph::wide;

// A stamp at an index. Returns 0 if it stood there, else 1.
fn stamp(stamps: &mut [u32], k: usize, id: u32) -> usize
    requires { StampAt stamps.old k }
    ensures { Stamped stamps.old k id stamps.new result }
{
    let old = stamps[k];
    stamps[k] = id;
    usize::from(old != id)
}

// The distinct activations with residue r in the chain from `head`. No stamp is `id` yet.
fn walk(records: &[u32], links: &[u32], stamps: &mut [u32], head: usize, r: usize, id: u32) -> usize
    requires { Some (λ cs. WalkAt records.now links.now stamps.old head id cs) }
    ensures { Every (λ cs. WalkAt records.now links.now stamps.old head id cs) (λ cs. Walked head r id cs stamps.old stamps.new result) }
{
    let mut n = 0;
    let mut h = head;
    // A chain: each place names the next.
    while h != 0 {
        let at = h - 1;
        let code = code_at(records, at);
        h = wide(links[at]);
        if code % 4 == r {
            n += stamp(stamps, code / 4, id);
        }
    }
    n
}

// All of them. Every stamp is at most `base`.
fn walk_all(records: &[u32], links: &[u32], stamps: &mut [u32], head: usize, base: u32) -> usize
    requires { Some (λ cs. AllAt records.now links.now stamps.old head base cs) }
    ensures { Every (λ cs. AllAt records.now links.now stamps.old head base cs) (λ cs. AllWalked head base cs stamps.old stamps.new result) }
{
    let mut n = 0;
    for r in 0..4 {
        n += walk(records, links, stamps, head, r, base + 1 + r as u32);
    }
    n
}

// Activations beyond the first, over all pins.
pub fn sum_all(records: &[u32], heads: &[u32], links: &[u32], stamps: &mut [u32]) -> usize
    requires { SumAt records.now heads.now links.now stamps.old }
    ensures { Summed records.now stamps.old stamps.new result }
{
    let mut d = 0;
    for (p, h) in heads.iter().enumerate() {
        let n = walk_all(records, links, stamps, wide(*h), 4 * p as u32);
        d += n.saturating_sub(1);
    }
    d
}
