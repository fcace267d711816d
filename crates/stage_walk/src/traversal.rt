// Rule 1. The deep recursion is a stack of pins and phases in the work area.
ghost use Rattle.std.specs.Prelude.{◌≡◌, ◌+◌, ◌*◌, ◌<◌, length, set};
ghost use Rattle.columns.specs.Fields.{ORDER, LISTED, STACK, PHASE};
ghost use Rattle.rules.specs.Graph.{below};
ghost use Rattle.rules.specs.Inside.Some.{Some, Every};
ghost use Rattle.stage_walk.specs.Machine.{Going, NextAt, Went, Stepped, VisitAt, Visited, TraverseAt, GoOnAt, WentOn, Traversed};
ghost use Rattle.stage_walk.specs.Nexts.{leads};

use super::followed;
use columns::{
    LISTED, ORDER, PHASE, STACK, WAITING, is_in, number_at, pin_at, push, put_number, set_field,
};
use graph::{Pin, operand};

// How many items the stack has, and how many pins are listed.
#[derive(Clone, Copy)]
pub struct At {
    pub depth: usize,
    pub listed: usize,
}

// Pin p behind the order of n pins.
fn list(work: &mut [u32], m: usize, n: usize, p: Pin)
    requires n_in_bounds { ORDER * m + n < length work.old }
    requires p_in_bounds { LISTED * m + p.0 < length work.old }
    ensures { work.new ≡ set (set work.old (ORDER * m + n) p.0) (LISTED * m + p.0) 1 }
{
    push(work, m, n, ORDER, p);
    set_field(work, m, p, LISTED, 1);
}

// Pin q, to be visited, at place `at` of the stack.
fn enter(work: &mut [u32], m: usize, at: usize, q: Pin)
    requires { PHASE * m + at < length work.old }
    ensures { work.new ≡ set (set work.old (STACK * m + at) q.0) (PHASE * m + at) 0 }
{
    push(work, m, at, STACK, q);
    put_number(work, m, at, PHASE, 0);
}

// The item at `top` goes to phase k, and pin q is put on it.
fn descend(work: &mut [u32], m: usize, top: usize, k: usize, q: Pin)
    requires top_in_bounds { PHASE * m + (top + 1) < length work.old }
    requires k_bound { k < 4294967296 }
    ensures { work.new ≡ set (set (set work.old (PHASE * m + top) k) (STACK * m + (top + 1)) q.0) (PHASE * m + (top + 1)) 0 }
{
    put_number(work, m, top, PHASE, k);
    enter(work, m, top + 1, q);
}

// The pin that is followed from pin p as the k-th. Past phase 0 p is known to be a gate that is followed.
fn next_of(gates: &[u32], work: &[u32], m: usize, p: Pin, k: usize) -> Option<Pin>
    requires { Some (λ C. NextAt C m gates.now work.now p.0 k) }
    ensures { Every (λ C. NextAt C m gates.now work.now p.0 k) (λ C. leads m (below C.X.g C.X.done p.0) k result) }
{
    if k == 0 {
        let (first, _) = followed(gates, work, m, p)?;
        return Some(first);
    }
    if k >= 2 {
        return None;
    }
    Some(operand(gates, 2 * p.index() + 1))
}

// A step of the item at `top`.
fn step(gates: &[u32], work: &mut [u32], m: usize, top: usize, n: usize) -> At
    requires { Some (λ C. Going C m gates.now work.old (top + 1) n) }
    ensures { Every (λ C. Going C m gates.now work.old (top + 1) n) (λ C. Stepped C m gates.now work.old (top + 1) n work.new result.depth result.listed) }
{
    let p = pin_at(work, m, top, STACK);
    let k = number_at(work, m, top, PHASE);
    match next_of(gates, work, m, p, k) {
        None => {
            list(work, m, n, p);
            At {
                depth: top,
                listed: n + 1,
            }
        }
        Some(q) => {
            if is_in(work, m, q, LISTED) {
                put_number(work, m, top, PHASE, k + 1);
                return At {
                    depth: top + 1,
                    listed: n,
                };
            }
            descend(work, m, top, k + 1, q);
            At {
                depth: top + 2,
                listed: n,
            }
        }
    }
}

// Steps until the stack is empty. Returns how many pins are listed.
fn run(gates: &[u32], work: &mut [u32], m: usize, items: usize, n: usize) -> usize
    requires { Some (λ C. Going C m gates.now work.old items n) }
    ensures { Every (λ C. Going C m gates.now work.old items n) (λ C. Went C m gates.now work.old items n work.new 0 result) }
{
    let mut at = At {
        depth: items,
        listed: n,
    };
    // It counts no index: the stack grows and shrinks.
    while at.depth > 0 {
        at = step(gates, work, m, at.depth - 1, at.listed);
    }
    at.listed
}

// Lists pin p after all below it, if it is not listed. Returns how many pins are listed.
fn visit(gates: &[u32], work: &mut [u32], m: usize, n: usize, p: Pin) -> usize
    requires { Some (λ C. VisitAt C m gates.now work.old n p.0) }
    ensures { Every (λ C. VisitAt C m gates.now work.old n p.0) (λ C. Visited C m gates.now work.old n p.0 work.new result) }
{
    if is_in(work, m, p, LISTED) {
        return n;
    }
    enter(work, m, 0, p);
    run(gates, work, m, 1, n)
}

// The traversal goes on: the waiting pins from `from` to n, behind the pins that those before `from` list. Returns how many pins the order has.
pub fn traverse_on(
    gates: &[u32],
    work: &mut [u32],
    m: usize,
    n: usize,
    from: usize,
    before: usize,
) -> usize
    requires { Some (λ C. GoOnAt C m n from before gates.now work.old) }
    ensures { Every (λ C. GoOnAt C m n from before gates.now work.old) (λ C. WentOn C m work.old work.new result) }
{
    let mut listed = before;
    for i in from..n {
        let p = pin_at(work, m, i, WAITING);
        listed = visit(gates, work, m, listed, p);
    }
    listed
}

// The traversal from the n waiting pins, with no pin listed before. Returns how many pins the order has.
pub fn traverse(gates: &[u32], work: &mut [u32], m: usize, n: usize) -> usize
    requires { Some (λ C. TraverseAt C m n gates.now work.old) }
    ensures { Every (λ C. TraverseAt C m n gates.now work.old) (λ C. Traversed C m work.old work.new result) }
{
    traverse_on(gates, work, m, n, 0, 0)
}
