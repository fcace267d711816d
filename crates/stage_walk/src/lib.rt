// Rule 1's traversal over the work area. A walk finds its columns empty and is linear in the traversal.
#![tactic(auto)]

ghost use Rattle.std.specs.Prelude.{◌≡◌, ◌<◌, get_or};
ghost use Rattle.rules.specs.Graph.{below};
ghost use Rattle.rules.specs.Inside.Some.{Some, Every};
ghost use Rattle.stage_walk.specs.Stands.{Reads};
ghost use Rattle.stage_walk.specs.Nexts.{follows};

use columns::{DONE, is_in};
use graph::{EMPTY, Pin, operand};

pub mod traversal;

// The two pins that are followed from pin p: the operands of a gate that is neither given nor realised.
pub fn followed(gates: &[u32], work: &[u32], m: usize, p: Pin) -> Option<(Pin, Pin)>
    requires some { Some (λ C. Reads C m gates.now work.now) }
    requires p_lt_m { p.0 < m }
    ensures { Every (λ C. Reads C m gates.now work.now) (λ C. follows (below C.X.g C.X.done p.0) result) }
{
    if is_in(work, m, p, DONE) {
        return None;
    }
    let at = 2 * p.index();
    if gates[at] == EMPTY {
        return None;
    }
    Some((operand(gates, at), operand(gates, at + 1)))
}
