// The entry of a merge.
ghost use Rattle.std.specs.Prelude.{◌≡◌};
ghost use Rattle.entries.specs.Entry.{entry};
ghost use Rattle.entries.specs.Rule.{rule_for};
ghost use Rattle.entries.specs.Merge.{lent, merged, merged_by};

use crate::answers::{WRONG_SIZE, tell};
use crate::rule_number::rule_refusal;
use columns::wide;
use merge::merge;

fn enter(
    height: u32,
    gates: &[u32],
    given: &[u32],
    records: &[u32],
    indices: &mut [u32],
    lengths: &mut [u32],
    stages: &mut [u32],
    extra: usize,
    plan: &mut [u32],
    words: &mut [u32],
    counts: &mut [u32],
    work: &mut [u32],
    answer: &mut [usize],
) -> u32
    ensures { entry result (lent indices.new lengths.new stages.new plan.new words.new counts.new work.new) answer.new ≡ merged height gates.now given.now records.now extra (lent indices.old lengths.old stages.old plan.old words.old counts.old work.old) answer.old }
{
    if answer.len() < 9 {
        return WRONG_SIZE;
    }
    let merged = merge(
        height, gates, given, records, indices, lengths, stages, extra, plan, words, counts, work,
    );
    match merged {
        Ok(m) => {
            tell(
                &[
                    0,
                    m.stages,
                    m.words,
                    0,
                    m.partitions,
                    m.trials,
                    0,
                    0,
                    m.cells,
                ],
                answer,
            );
            0
        }
        Err(r) => {
            let number = r.why.number();
            tell(
                &[
                    wide(number),
                    0,
                    0,
                    r.stage,
                    0,
                    0,
                    r.part,
                    r.why.pin().index(),
                    0,
                ],
                answer,
            );
            number
        }
    }
}

// As `merge`, with the answer in the first nine numbers of `answer`. Returns the number. Where `answer` is shorter that is 2, and nothing is changed. The
// word rule is as for `placer_build_by`. C's header has the same without a rule.
#[unsafe(no_mangle)]
pub extern "C" fn merge_partitions_by(
    rule: u32,
    height: u32,
    gates: &[u32],
    given: &[u32],
    records: &[u32],
    indices: &mut [u32],
    lengths: &mut [u32],
    stages: &mut [u32],
    extra: usize,
    plan: &mut [u32],
    words: &mut [u32],
    counts: &mut [u32],
    work: &mut [u32],
    answer: &mut [usize],
) -> u32
    ensures { entry result (lent indices.new lengths.new stages.new plan.new words.new counts.new work.new) answer.new ≡ merged_by (rule_for rule) height gates.now given.now records.now extra (lent indices.old lengths.old stages.old plan.old words.old counts.old work.old) answer.old }
{
    match rule_refusal(rule) {
        Err(why) => {
            let number = why.number();
            tell(&[wide(number), 0, 0, 0, 0, 0, 0, 0, 0], answer);
            number
        }
        Ok(()) => enter(
            height, gates, given, records, indices, lengths, stages, extra, plan, words, counts,
            work, answer,
        ),
    }
}
