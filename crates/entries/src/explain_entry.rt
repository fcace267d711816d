// The entry of an explanation.
ghost use Rattle.std.specs.Prelude.{◌≡◌};
ghost use Rattle.entries.specs.Entry.{entry};
ghost use Rattle.entries.specs.Rule.{rule_for};
ghost use Rattle.entries.specs.Explain.{lent_to, build_explained, build_explained_by};

use crate::answers::{WRONG_SIZE, tell};
use crate::rule_number::rule_refusal;
use columns::wide;
use explain::explain;

fn enter(
    height: u32,
    gates: &[u32],
    given: &[u32],
    records: &[u32],
    plan: &mut [u32],
    words: &mut [u32],
    counts: &mut [u32],
    work: &mut [u32],
    list: &mut [u32],
    answer: &mut [usize],
) -> u32
    ensures { entry result (lent_to plan.new words.new counts.new work.new list.new) answer.new ≡ build_explained height gates.now given.now records.now (lent_to plan.old words.old counts.old work.old list.old) answer.old }
{
    if answer.len() < 7 {
        return WRONG_SIZE;
    }
    let e = explain(
        height, gates, given, records, plan, words, counts, work, list,
    );
    match e.answer {
        Ok(a) => {
            tell(&[0, a.stages, a.words, 0, 0, a.cells, e.lines], answer);
            0
        }
        Err(r) => {
            let number = r.why.number();
            tell(
                &[wide(number), 0, 0, r.stage, r.why.pin().index(), 0, e.lines],
                answer,
            );
            number
        }
    }
}

// As `explain`, with the build's answer and the lines in the first seven numbers of `answer`. Returns the number. Where `answer` is shorter that is 2, and
// nothing is changed. The word rule is as for `placer_build_by`. C's header has the same without a rule.
#[unsafe(no_mangle)]
pub extern "C" fn explain_build_by(
    rule: u32,
    height: u32,
    gates: &[u32],
    given: &[u32],
    records: &[u32],
    plan: &mut [u32],
    words: &mut [u32],
    counts: &mut [u32],
    work: &mut [u32],
    list: &mut [u32],
    answer: &mut [usize],
) -> u32
    ensures { entry result (lent_to plan.new words.new counts.new work.new list.new) answer.new ≡ build_explained_by (rule_for rule) height gates.now given.now records.now (lent_to plan.old words.old counts.old work.old list.old) answer.old }
{
    match rule_refusal(rule) {
        Err(why) => {
            let number = why.number();
            tell(&[wide(number), 0, 0, 0, 0, 0, 0], answer);
            number
        }
        Ok(()) => enter(
            height, gates, given, records, plan, words, counts, work, list, answer,
        ),
    }
}
