// Rule 11: what is realised, and what is left to wait.
ghost use Rattle.std.specs.Prelude.{◌<◌, [], ◌∷◌};
ghost use Rattle.columns.specs.Lists.{list};
ghost use Rattle.columns.specs.Fields as fields;
ghost use Rattle.stage_ending.specs.Close.{RetireAt, Retired, PinAt, Wiped, Unlisted, Swept, LeaveAt, Left, OneAt, One, RealiseAt, Realised, CloseAt, Closed};

use columns::{
    CELLS, DONE, LEVEL, LISTED, MARK, ORDER, REVERSE, SPARE, STACK, WAITING, enlist, fill_tail,
    get, pin_at, set_field, swap_out,
};
use graph::Pin;

// The count and the marks of pin p go.
fn wipe(work: &mut [u32], m: usize, p: Pin)
    requires { PinAt m p.0 work.old }
    ensures { Wiped m (p.0 ∷ []) work.old work.new }
{
    set_field(work, m, p, CELLS, 0);
    set_field(work, m, p, MARK, 0);
    set_field(work, m, p, SPARE, 0);
}

// Pin p is realised if a cell above level 0 holds it, and the stage forgets it.
fn retire(work: &mut [u32], m: usize, p: Pin)
    requires { PinAt m p.0 work.old }
    ensures { Retired m (p.0 ∷ []) work.old work.new }
{
    if get(work, m, p, CELLS) != 0 {
        set_field(work, m, p, DONE, 1);
    }
    wipe(work, m, p);
}

// Pin p is no longer listed, and has no level or reverse level.
fn unlist(work: &mut [u32], m: usize, p: Pin)
    requires { PinAt m p.0 work.old }
    ensures { Unlisted m (p.0 ∷ []) work.old work.new }
{
    set_field(work, m, p, LISTED, 0);
    set_field(work, m, p, LEVEL, 0);
    set_field(work, m, p, REVERSE, 0);
}

// The k pins of the order, in one pass.
fn retire_all(work: &mut [u32], m: usize, k: usize)
    requires { RetireAt m k work.old }
    ensures { Swept m (list fields.ORDER m k work.old) work.old work.new }
{
    for i in 0..k {
        let p = pin_at(work, m, i, ORDER);
        retire(work, m, p);
        unlist(work, m, p);
    }
}

// The r realised endpoints leave the n waiting pins, in the order they were first realised. Returns how many wait.
fn leave_all(work: &mut [u32], m: usize, n: usize, r: usize) -> usize
    requires { LeaveAt m n r work.old }
    ensures { Left m n r work.old work.new result }
{
    let mut left = n;
    for i in 0..r {
        let p = pin_at(work, m, i, STACK);
        left = swap_out(work, m, left, p);
    }
    left
}

// Pin p, which waits, goes behind the r realised ones if it is not marked in SPARE.
fn realise(work: &mut [u32], m: usize, r: usize, p: Pin) -> usize
    requires { OneAt m r p.0 work.old }
    ensures { One m r p.0 work.old work.new result }
{
    if get(work, m, p, SPARE) != 0 {
        return r;
    }
    enlist(work, m, r, STACK, MARK, p)
}

// The waiting pins that are not marked in SPARE, which are in the tree, go behind the r realised ones. Returns how many are realised.
pub fn realise_all(work: &mut [u32], m: usize, n: usize, r: usize) -> usize
    requires { RealiseAt m n r work.old }
    ensures { Realised m n r work.old work.new result }
{
    let mut real = r;
    for i in 0..n {
        let p = pin_at(work, m, i, WAITING);
        real = realise(work, m, real, p);
    }
    real
}

// Rule 11 for o pins in the order and r realised endpoints, and what the next stage finds empty. Returns how many wait.
pub fn close_stage(work: &mut [u32], m: usize, o: usize, n: usize, r: usize) -> usize
    requires { CloseAt m o n r work.old }
    ensures { Closed m o n r work.old work.new result }
{
    let left = leave_all(work, m, n, r);
    retire_all(work, m, o);
    fill_tail(work, m, 259, 0);
    left
}
