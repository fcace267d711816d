// Placing a pin in the tree with all that it pulls in below, and taking it back. Cells above level 0 are counted by pin; the filled
// cells of level 1, the distinct pins above level 0 and the filled cells of all levels are kept as numbers. m = N + 1, and w is where the
// row of the cell c begins.
#![tactic(auto)]

ghost use Rattle.std.specs.Prelude.{◌≡◌, ◌+◌};
ghost use Rattle.rules.specs.Inside.Some.{Some, Every};
ghost use Rattle.stage_tree.specs.Counts.{CountAt, UncountAt, OneMore, RoomAt, room_in};
ghost use Rattle.stage_tree.specs.Bits.{FillAt, Filled, EmptyAt, Emptied, BitAt, SplitAt, BitPlaced, BackAt, BitPurged, PlaceAt, Placed, PurgeAt, Purged};
ghost use Rattle.stage_tree.specs.Search.{SearchAt, First};

use columns::{CELLS, FILLED, LEVEL, ONES, PINS, get, tail_get, tail_set};
use graph::{EMPTY, Pin, operand};

// The lowest empty cell from a to e, e if there is none.
pub fn first_empty(stage: &[u32], a: usize, e: usize) -> usize
    requires { SearchAt stage.now a e }
    ensures { First stage.now a e result }
{
    for c in a..e {
        if stage[c] == EMPTY {
            return c;
        }
    }
    e
}

// Is there room at level 1, of `half` cells, for b needed pins?
pub fn room(work: &[u32], m: usize, half: usize, b: usize) -> bool
    requires { RoomAt m b work.now }
    ensures { result ≡ room_in m half b work.now }
{
    let ones = tail_get(work, m, ONES);
    let pins = tail_get(work, m, PINS);
    b + ones.max(pins) < half
}

// One more cell above level 0 holds pin p.
fn count_pin(work: &mut [u32], m: usize, p: Pin)
    requires { CountAt m p.0 work.old }
    ensures { OneMore m p.0 work.old work.new }
{
    let at = CELLS * m + p.index();
    let n = work[at];
    work[at] = n + 1;
    if n != 0 {
        return;
    }
    let pins = 16 * m + PINS;
    work[pins] += 1;
}

// One cell fewer does.
fn uncount_pin(work: &mut [u32], m: usize, p: Pin)
    requires { UncountAt m p.0 work.old }
    ensures { OneMore m p.0 work.new work.old }
{
    let at = CELLS * m + p.index();
    let n = work[at] - 1;
    work[at] = n;
    if n != 0 {
        return;
    }
    let pins = 16 * m + PINS;
    work[pins] -= 1;
}

// Pin p into the cell c of level h.
fn fill_cell(stage: &mut [u32], work: &mut [u32], m: usize, h: usize, c: usize, p: Pin)
    requires { Some (λ C. FillAt C m h c p.0 stage.old work.old) }
    ensures { Every (λ C. FillAt C m h c p.0 stage.old work.old) (λ C. Filled C m c p.0 stage.old work.old stage.new work.new) }
{
    stage[c] = p.0;
    if h == 0 { // level 0 is not counted
        return;
    }
    count_pin(work, m, p);
    if h != 1 { // level 1 is counted apart
        return;
    }
    let ones = 16 * m + ONES;
    work[ones] += 1;
}

// Pin p out of the cell c of level h.
fn empty_cell(stage: &mut [u32], work: &mut [u32], m: usize, h: usize, c: usize, p: Pin)
    requires { Some (λ C. EmptyAt C m h c p.0 stage.old work.old) }
    ensures { Every (λ C. EmptyAt C m h c p.0 stage.old work.old) (λ C. Emptied C m c stage.old work.old stage.new work.new) }
{
    stage[c] = EMPTY;
    if h == 0 {
        return;
    }
    uncount_pin(work, m, p);
    if h != 1 {
        return;
    }
    let ones = 16 * m + ONES;
    work[ones] -= 1;
}

// Rule 5: places pin p at the cell c of level h. Returns how many cells it filled, at every level down to 0.
#[cycle(place_bit_split_gate)]
fn place_bit(
    gates: &[u32],
    stage: &mut [u32],
    work: &mut [u32],
    m: usize,
    h: usize,
    w: usize,
    c: usize,
    p: Pin,
) -> usize
    requires { Some (λ C. BitAt C m h w c p.0 gates.now stage.old work.old) }
    ensures { Every (λ C. BitAt C m h w c p.0 gates.now stage.old work.old) (λ C. BitPlaced C m h w c p.0 result stage.old work.old stage.new work.new) }
{
    fill_cell(stage, work, m, h, c, p);
    if h == 0 {
        return 1;
    }
    if get(work, m, p, LEVEL) < h {
        return 1 + place_bit(gates, stage, work, m, h - 1, 2 * w, c + w, p);
    }
    1 + split_gate(gates, stage, work, m, h, w, c, p)
}

// Places the operands of the gate p, which stands at c, at the two lower cells. Returns how many cells they filled.
#[cycle(place_bit_split_gate)]
fn split_gate(
    gates: &[u32],
    stage: &mut [u32],
    work: &mut [u32],
    m: usize,
    h: usize,
    w: usize,
    c: usize,
    p: Pin,
) -> usize
    requires { Some (λ C. SplitAt C m h w c p.0 gates.now stage.old work.old) }
    ensures { Every (λ C. SplitAt C m h w c p.0 gates.now stage.old work.old) (λ C. BitPlaced C m h w c p.0 (1 + result) stage.old work.old stage.new work.new) }
{
    let at = 2 * p.index();
    let a = operand(gates, at);
    let b = operand(gates, at + 1);
    let next = h - 1;
    let low = 2 * w;
    let first = place_bit(gates, stage, work, m, next, low, c + w, a);
    let second = place_bit(gates, stage, work, m, next, low, c + low, b);
    first + second
}

// Rule 7: takes back what stands at the cell c of level h, with everything under it. Returns how many cells it emptied.
fn purge_bit(stage: &mut [u32], work: &mut [u32], m: usize, h: usize, w: usize, c: usize) -> usize
    requires { Some (λ C. BackAt C m h w c stage.old work.old) }
    ensures { Every (λ C. BackAt C m h w c stage.old work.old) (λ C. BitPurged C m h w c result stage.old work.old stage.new work.new) }
{
    let v = stage[c];
    if v == EMPTY {
        return 0;
    }
    empty_cell(stage, work, m, h, c, Pin(v));
    if h == 0 {
        return 1;
    }
    let next = h - 1;
    let low = 2 * w;
    let first = purge_bit(stage, work, m, next, low, c + w);
    let second = purge_bit(stage, work, m, next, low, c + low);
    1 + first + second
}

// Places pin p at the cell c of level h, and adds what that filled to the stage's filled cells.
pub fn place_pin(
    gates: &[u32],
    stage: &mut [u32],
    work: &mut [u32],
    m: usize,
    h: usize,
    w: usize,
    c: usize,
    p: Pin,
)
    requires { Some (λ C. PlaceAt C m h w c p.0 gates.now stage.old work.old) }
    ensures { Every (λ C. PlaceAt C m h w c p.0 gates.now stage.old work.old) (λ C. Placed C m h w c p.0 stage.old work.old stage.new work.new) }
{
    let n = place_bit(gates, stage, work, m, h, w, c, p);
    let total = tail_get(work, m, FILLED);
    tail_set(work, m, FILLED, (total + n) as u32);
}

// Takes back what stands at the cell c, and what that emptied from the stage's filled cells.
pub fn take_back(stage: &mut [u32], work: &mut [u32], m: usize, h: usize, w: usize, c: usize)
    requires { Some (λ C. PurgeAt C m h w c stage.old work.old) }
    ensures { Every (λ C. PurgeAt C m h w c stage.old work.old) (λ C. Purged C m h w c stage.old work.old stage.new work.new) }
{
    let n = purge_bit(stage, work, m, h, w, c);
    let total = tail_get(work, m, FILLED);
    tail_set(work, m, FILLED, (total - n) as u32);
}
