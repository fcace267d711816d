// What a stage starts from: the walks of rules 1 to 3, then the level lists, ranked.
#![tactic(auto)]

ghost use Rattle.rules.specs.Inside.Some.{Some, Every};
ghost use Rattle.stage_prepare.specs.Prepared.{PrepareAt, Prepared, ForgetAt, Forgot};

use cells::{Height, wide};
use columns::{ENDS, STARTS, clear_front};
use ranking::level_lists;
use stage_levels::{levels, reverse_levels};
use stage_walk::traversal::traverse;

pub mod ranking;

// How many pins the traversal listed, the greatest level, and a level from which on there are no lists.
#[derive(Clone, Copy)]
pub struct Walk {
    pub listed: usize,
    pub top: usize,
    pub levels: usize,
}

// All that a stage starts from, with n pins waiting: order, levels, reverse levels, the lists of levels 2 to K.
pub fn prepare(gates: &[u32], work: &mut [u32], m: usize, n: usize, height: Height) -> Walk
    requires { Some (λ C. PrepareAt C m n height.0 gates.now work.old) }
    ensures { Every (λ C. PrepareAt C m n height.0 gates.now work.old) (λ C. Prepared C m n gates.now work.old work.new result.listed result.top result.levels) }
{
    let k = traverse(gates, work, m, n);
    let top = levels(gates, work, m, k);
    reverse_levels(gates, work, m, n, k);
    let levels = level_lists(work, m, k, wide(height.0));
    Walk {
        listed: k,
        top,
        levels,
    }
}

// No level has a list any more.
pub fn forget(work: &mut [u32], m: usize, levels: usize)
    requires { ForgetAt m levels work.old }
    ensures { Forgot m work.old work.new }
{
    clear_front(work, m, levels, STARTS);
    clear_front(work, m, levels, ENDS);
}
