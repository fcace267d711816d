// Rules 2 to 7: level after level, the ranked pins of the level go into its lowest empty cells while level 1 keeps room. The needed
// pins are counted again only where an earlier count leaves no room: placing never adds one, so that the k pins noted in STACK stand for the
// order.
ghost use Rattle.std.specs.Prelude.{◌+◌, ◌*◌, ◌<◌};
ghost use Rattle.rules.specs.Inside.Some.{Some, Every};
ghost use Rattle.stage_loop.specs.Loop.{SettleAt, Settled, TryAt, Tried, Next, Turned, At, Ended, LeanAt, Leaned};

use columns::{CELLS, ENDS, RANKED, STACK, STARTS, is_in, number_at, pin_at};
use graph::Pin;
use stage_needed::counted;
use stage_notes::note_back;
use stage_tree::{first_empty, place_pin, room, take_back};

// What stays the same while a stage is filled: m = N + 1, n pins wait, k are noted, level 1 has `half` cells.
#[derive(Clone, Copy)]
pub struct Sizes {
    pub m: usize,
    pub n: usize,
    pub k: usize,
    pub half: usize,
}

// There is no room for the needed pins, which are so many.
#[derive(Clone, Copy)]
struct NoRoom(usize);

// Rule 7. Returns a number that the needed pins don't exceed.
fn settle(
    gates: &[u32],
    stage: &[u32],
    work: &mut [u32],
    s: Sizes,
    most: usize,
) -> Result<usize, NoRoom>
    requires { Some (λ C. SettleAt C s.m s.n s.k s.half most gates.now stage.now work.old) }
    ensures { Every (λ C. SettleAt C s.m s.n s.k s.half most gates.now stage.now work.old) (λ C. Settled C s.m most stage.now work.old work.new result) }
{
    if room(work, s.m, s.half, most) {
        return Ok(most);
    }
    let count = counted(gates, work, s.m, s.n, STACK, s.k);
    if room(work, s.m, s.half, count) {
        return Ok(count);
    }
    Err(NoRoom(count))
}

// Places pin p at the cell c, and notes it and takes it back if that leaves no room.
fn attempt(
    gates: &[u32],
    stage: &mut [u32],
    work: &mut [u32],
    s: Sizes,
    h: usize,
    w: usize,
    c: usize,
    p: Pin,
    most: usize,
) -> Result<usize, NoRoom>
    requires { Some (λ C. TryAt C s.m s.n s.k h w s.half c p.0 most gates.now stage.old work.old) }
    ensures { Every (λ C. TryAt C s.m s.n s.k h w s.half c p.0 most gates.now stage.old work.old) (λ C. Tried C s.m h c p.0 most stage.old work.old stage.new work.new result) }
{
    place_pin(gates, stage, work, s.m, h, w, c, p);
    let bound = settle(gates, stage, work, s, most);
    if let Err(full) = bound {
        note_back(work, s.m, h, p, full.0);
        take_back(stage, work, s.m, h, w, c);
    }
    bound
}

// One turn at level l + 1: the candidate at i of e. The row's cells before `from` are filled. Leaves the bound, and where the level's next
// search starts; or the level has ended.
fn turn(
    gates: &[u32],
    stage: &mut [u32],
    work: &mut [u32],
    s: Sizes,
    l: usize,
    w: usize,
    i: usize,
    e: usize,
    most: usize,
    from: usize,
) -> Option<(usize, usize)>
    requires { Some (λ C. Next C s.m s.n s.k l w s.half gates.now stage.old work.old i e most from) }
    ensures { Every (λ C. Next C s.m s.n s.k l w s.half gates.now stage.old work.old i e most from) (λ C. Turned C s.m s.n s.k l w s.half gates.now stage.old work.old i e most stage.new work.new result) }
{
    let p = pin_at(work, s.m, i, RANKED);
    if is_in(work, s.m, p, CELLS) {
        return Some((most, from));
    }
    let end = 2 * w;
    let c = first_empty(stage, from, end);
    if c >= end {
        return None;
    }
    match attempt(gates, stage, work, s, l + 1, w, c, p, most) {
        Err(_) => None,
        Ok(bound) => {
            let next = c + 1;
            Some((bound, next))
        }
    }
}

// The candidates of level l + 1 from `start` to e, one after the other; the last bound.
fn sweep(
    gates: &[u32],
    stage: &mut [u32],
    work: &mut [u32],
    s: Sizes,
    l: usize,
    w: usize,
    start: usize,
    e: usize,
    most: usize,
) -> usize
    requires { Some (λ C. At C s.m s.n s.k l w s.half gates.now stage.old work.old start e most) }
    ensures { Every (λ C. At C s.m s.n s.k l w s.half gates.now stage.old work.old start e most) (λ C. Ended C s.m l stage.old work.old start e most stage.new work.new result) }
{
    let mut b = most;
    let mut from = w;
    for i in start..e {
        match turn(gates, stage, work, s, l, w, i, e, b, from) {
            None => return b,
            Some((bound, next)) => {
                b = bound;
                from = next;
            }
        }
    }
    b
}

// From level top + 1 down to level 2.
pub fn lean(
    gates: &[u32],
    stage: &mut [u32],
    work: &mut [u32],
    s: Sizes,
    top: usize,
    width: usize,
    most: usize,
)
    requires { Some (λ C. LeanAt C s.m s.n s.k top width s.half gates.now stage.old work.old most) }
    ensures { Every (λ C. LeanAt C s.m s.n s.k top width s.half gates.now stage.old work.old most) (λ C. Leaned C s.m top stage.old work.old most stage.new work.new) }
{
    let mut w = width;
    let mut b = most;
    for l in (1..=top).rev() {
        let start = number_at(work, s.m, l + 1, STARTS);
        let e = number_at(work, s.m, l + 1, ENDS);
        b = sweep(gates, stage, work, s, l, w, start, e, b);
        w = 2 * w;
    }
}
