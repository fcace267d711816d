// Rule 8: the waiting pins split into tree, needed and untouched.
ghost use Rattle.std.specs.Prelude.{◌<◌};
ghost use Rattle.stage_runs.specs.Classes.{ClassAt, Classed, SplitAt, Classes};

use columns::{CELLS, LEVEL, PHASE, SPARE, WAITING, enlist, get, pin_at};
use graph::Pin;

// How many waiting pins are needed, and whether one is untouched.
#[derive(Clone, Copy)]
pub struct Split {
    pub needed: usize,
    pub untouched: bool,
}

// Pin p, which waits: if it is not in the tree, it is needed at level 0 or 1, else untouched.
fn class(work: &mut [u32], m: usize, p: Pin, s: Split) -> Split
    requires { ClassAt m s.needed p.0 work.old }
    ensures { Classed m s.needed s.untouched p.0 work.old work.new result.needed result.untouched }
{
    if get(work, m, p, CELLS) != 0 {
        return s;
    }
    if 1 < get(work, m, p, LEVEL) {
        return Split {
            untouched: true,
            ..s
        };
    }
    Split {
        needed: enlist(work, m, s.needed, PHASE, SPARE, p),
        ..s
    }
}

// The n waiting pins in list order: the needed ones go to PHASE, marked in SPARE.
pub fn split_waiting(work: &mut [u32], m: usize, n: usize) -> Split
    requires { SplitAt m n work.old }
    ensures { Classes m n work.old work.new result.needed result.untouched }
{
    let mut s = Split {
        needed: 0,
        untouched: false,
    };
    for i in 0..n {
        let p = pin_at(work, m, i, WAITING);
        s = class(work, m, p, s);
    }
    s
}
