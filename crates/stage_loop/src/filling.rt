// Rules 2 to 7 on an empty stage: where the loop starts, and the needed pins of the plan that it leaves.
ghost use Rattle.std.specs.Prelude.{◌≡◌, min};
ghost use Rattle.rules.specs.Cells.{row_at};
ghost use Rattle.rules.specs.Inside.Some.{Some, Every};
ghost use Rattle.stage_loop.specs.Filling.{RowAt, GrowAt, Grown, FillAt, FilledTree};

use crate::lean::{Sizes, lean};
use cells::{Height, wide};
use columns::STACK;
use stage_needed::{counted, needed, note};

// Rule 2: the level to start at.
fn start_level(top: usize, height: Height) -> usize
    ensures { result ≡ min top height.0 }
{
    let most = wide(height.0);
    if most < top {
        return most;
    }
    top
}

// Where the row of a level begins.
fn row_at(height: Height, h: usize) -> usize
    requires { RowAt height.0 h }
    ensures { result ≡ row_at height.0 h }
{
    height.row_at(h as u32)
}

// From level h of an empty stage down, 2 at least. Returns how many pins are noted.
fn grow(
    gates: &[u32],
    stage: &mut [u32],
    work: &mut [u32],
    m: usize,
    n: usize,
    k: usize,
    h: usize,
    height: Height,
) -> usize
    requires { Some (λ C. GrowAt C m n k h height.0 gates.now stage.old work.old) }
    ensures { Every (λ C. GrowAt C m n k h height.0 gates.now stage.old work.old) (λ C. Grown C m work.old result stage.new work.new) }
{
    let c = note(gates, work, m, n, k);
    let w = row_at(height, h);
    let s = Sizes {
        m,
        n,
        k: c.noted,
        half: height.level_one_size(),
    };
    lean(gates, stage, work, s, h - 1, w, c.needed);
    c.noted
}

// The plan of the tree, with n pins waiting, k listed and `top` the greatest level. Returns how many pins are needed then. Levels 1 and 0
// have no turn of their own.
pub fn fill_tree(
    gates: &[u32],
    stage: &mut [u32],
    work: &mut [u32],
    m: usize,
    n: usize,
    k: usize,
    top: usize,
    height: Height,
) -> usize
    requires { Some (λ C. FillAt C m n k top height.0 gates.now stage.old work.old) }
    ensures { Every (λ C. FillAt C m n k top height.0 gates.now stage.old work.old) (λ C. FilledTree C m gates.now stage.old work.old result stage.new work.new) }
{
    let h = start_level(top, height);
    if h < 2 {
        return needed(gates, work, m, n, k);
    }
    let s = grow(gates, stage, work, m, n, k, h, height);
    counted(gates, work, m, n, STACK, s)
}
