// The lent areas, each at its counted size: plan and words become empty marks, counts and work 0.
ghost use Rattle.placer.specs.Build.{Emptied, Tidied};

use graph::EMPTY;

pub fn empty_all(plan: &mut [u32], words: &mut [u32], counts: &mut [u32], work: &mut [u32])
    ensures { Emptied plan.old words.old counts.old work.old plan.new words.new counts.new work.new }
{
    plan.fill(EMPTY);
    words.fill(EMPTY);
    counts.fill(0);
    work.fill(0);
}

// What a build leaves: a whole plan stays, a refused one goes.
pub fn tidy(whole: bool, plan: &mut [u32], words: &mut [u32], counts: &mut [u32], work: &mut [u32])
    ensures { Tidied whole plan.old words.old counts.old work.old plan.new words.new counts.new work.new }
{
    if whole {
        work.fill(0);
    } else {
        empty_all(plan, words, counts, work);
    }
}
