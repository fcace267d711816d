// The entry of a build.
ghost use Rattle.std.specs.Prelude.{◌≡◌};
ghost use Rattle.placer.specs.Answers.{areas};
ghost use Rattle.entries.specs.Entry.{entry};
ghost use Rattle.entries.specs.Rule.{rule_for};
ghost use Rattle.entries.specs.Build.{built, built_by};

use crate::answers::{WRONG_SIZE, tell, tell_built};
use crate::rule_number::rule_refusal;
use columns::wide;
use placer::build;

fn enter(
    height: u32,
    gates: &[u32],
    given: &[u32],
    records: &[u32],
    plan: &mut [u32],
    words: &mut [u32],
    counts: &mut [u32],
    work: &mut [u32],
    answer: &mut [usize],
) -> u32
    ensures { entry result (areas plan.new words.new counts.new work.new) answer.new ≡ built height gates.now given.now records.now (areas plan.old words.old counts.old work.old) answer.old }
{
    if answer.len() < 6 {
        return WRONG_SIZE;
    }
    let built = build(height, gates, given, records, plan, words, counts, work);
    tell_built(built, answer)
}

// As `build`, with the answer in the first six numbers of `answer`. Returns the number. Where `answer` is shorter that is 2, and nothing is changed. The
// word rule is 0; 1, the old one, gives 25 before anything else, any other number 2. C's header has the same without a rule.
#[unsafe(no_mangle)]
pub extern "C" fn placer_build_by(
    rule: u32,
    height: u32,
    gates: &[u32],
    given: &[u32],
    records: &[u32],
    plan: &mut [u32],
    words: &mut [u32],
    counts: &mut [u32],
    work: &mut [u32],
    answer: &mut [usize],
) -> u32
    ensures { entry result (areas plan.new words.new counts.new work.new) answer.new ≡ built_by (rule_for rule) height gates.now given.now records.now (areas plan.old words.old counts.old work.old) answer.old }
{
    match rule_refusal(rule) {
        Err(why) => {
            let number = why.number();
            tell(&[wide(number), 0, 0, 0, 0, 0], answer);
            number
        }
        Ok(()) => enter(
            height, gates, given, records, plan, words, counts, work, answer,
        ),
    }
}
