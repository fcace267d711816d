// Rule 9 and test 8: the needed pins that rule 8 left, in the lowest empty cells of level 1. m = N + 1, and level 1 has `half` cells from position `half` on.
ghost use Rattle.rules.specs.Inside.Some.{Some, Every};
ghost use Rattle.stage_ending.specs.Rest.{PinAt, Pinned, RestAt, Rested, Filled};

use columns::{CELLS, MARK, NEEDED, is_in, pin_at};
use graph::Pin;
use stage_tree::{first_empty, place_pin};

// Needed pin p, unless it is realised or in the tree, into the lowest empty cell; those before `from` are filled. Returns where the next
// search starts: behind 2 * half if there is no cell.
fn put_pin(
    gates: &[u32],
    stage: &mut [u32],
    work: &mut [u32],
    m: usize,
    half: usize,
    from: usize,
    p: Pin,
) -> usize
    requires { Some (λ C. PinAt C m half from p.0 gates.now stage.old work.old) }
    ensures { Every (λ C. PinAt C m half from p.0 gates.now stage.old work.old) (λ C. Pinned C m half p.0 gates.now stage.old work.old result stage.new work.new) }
{
    if is_in(work, m, p, MARK) {
        return from;
    }
    if is_in(work, m, p, CELLS) {
        return from;
    }
    let c = first_empty(stage, from, 2 * half);
    if 2 * half <= c {
        return c + 1;
    }
    place_pin(gates, stage, work, m, 1, half, c, p);
    c + 1
}

// The n needed pins in order. Is there a cell for each?
fn put_rest(
    gates: &[u32],
    stage: &mut [u32],
    work: &mut [u32],
    m: usize,
    half: usize,
    n: usize,
) -> bool
    requires { Some (λ C. RestAt C m half n gates.now stage.old work.old) }
    ensures { Every (λ C. RestAt C m half n gates.now stage.old work.old) (λ C. Rested C m n gates.now stage.old work.old result stage.new work.new) }
{
    let mut from = half;
    for i in 0..n {
        let p = pin_at(work, m, i, NEEDED);
        from = put_pin(gates, stage, work, m, half, from, p);
        if 2 * half < from {
            return false;
        }
    }
    true
}

// Rule 9 for q needed pins. Does level 1 have a cell for each, and one that stays empty?
pub fn fill_rest(
    gates: &[u32],
    stage: &mut [u32],
    work: &mut [u32],
    m: usize,
    half: usize,
    q: usize,
) -> bool
    requires { Some (λ C. RestAt C m half q gates.now stage.old work.old) }
    ensures { Every (λ C. RestAt C m half q gates.now stage.old work.old) (λ C. Filled C m q gates.now stage.old work.old result stage.new work.new) }
{
    put_rest(gates, stage, work, m, half, q) && first_empty(stage, half, 2 * half) < 2 * half
}
