// Folding a plan of cells with their inversions: the plan and a bit a pin to one bit a position. It takes any numbers and slices.
#![tactic(auto)]

mod stages;

ghost use Rattle.std.specs.Prelude.{◌≡◌};
ghost use Rattle.rules.specs.Coded.{fold_refusal, folder};
ghost use Rattle.refusals.specs.Numbers.{number_said};
ghost use Rattle.fold.specs.Answers.{outcome};

use cells::{Height, is_height};
use refusals::Refusal;
use sizes::plan_sized;
use stages::fold_plan;

// The first of 1 and 2 that applies.
fn check(height: u32, plan: usize, res: usize, work: usize) -> Result<(), Refusal>
    ensures { number_said result ≡ fold_refusal height plan res work }
{
    if !is_height(height) {
        return Err(Refusal::NoHeight);
    }
    if !plan_sized(height, plan) {
        return Err(Refusal::WrongSize);
    }
    if res < plan || work < 65536 {
        return Err(Refusal::WrongSize);
    }
    Ok(())
}

// One bit a position for every stage of a plan, in the front of `result`; the first 65,536 numbers of `work`, one for each pin that a cell may
// hold, are 0 afterwards. A refusal changes nothing.
pub fn fold(
    height: u32,
    plan: &[u32],
    bits: &[u32],
    res: &mut [u32],
    work: &mut [u32],
) -> Result<(), Refusal>
    ensures { outcome result res.new work.new ≡ folder height plan.now bits.now res.old work.old }
{
    check(height, plan.len(), res.len(), work.len())?;
    fold_plan(Height(height), plan, bits, res, &mut work[0..65536]);
    Ok(())
}
