// The entry of a fold.
ghost use Rattle.std.specs.Prelude.{◌≡◌};
ghost use Rattle.entries.specs.Entry.{entry};
ghost use Rattle.entries.specs.Fold.{lent_to, plan_folded};

use crate::answers::{WRONG_SIZE, tell};
use columns::wide;
use fold::fold;

// As `fold::fold`, with the number in the first number of `answer`. Returns the number. Where `answer` is empty that is 2, and nothing is
// changed.
#[unsafe(no_mangle)]
pub extern "C" fn fold_plan(
    height: u32,
    plan: &[u32],
    bits: &[u32],
    res: &mut [u32],
    work: &mut [u32],
    answer: &mut [usize],
) -> u32
    ensures { entry result (lent_to res.new work.new) answer.new ≡ plan_folded height plan.now bits.now (lent_to res.old work.old) answer.old }
{
    if answer.len() < 1 {
        return WRONG_SIZE;
    }
    let number = match fold(height, plan, bits, res, work) {
        Ok(()) => 0,
        Err(why) => why.number(),
    };
    tell(&[wide(number)], answer);
    number
}
