// The entries of plans made elsewhere: the check, a replay over one that is handed in, and the mending of a damaged one.
ghost use Rattle.std.specs.Prelude.{◌≡◌};
ghost use Rattle.replay.specs.Answers.{job};
ghost use Rattle.replay_finished.specs.Answers.{handed, lent};
ghost use Rattle.entries.specs.Entry.{entry};
ghost use Rattle.entries.specs.Plans.{mend_to, plan_checked, plan_replayed, plan_mended};

use crate::answers::{WRONG_SIZE, tell, tell_checked};
use columns::wide;

// As `plan_check::check_plan`, with number, stage, position and pin in the first four numbers of `answer`. Returns the number. Where `answer` is
// shorter that is 2, and nothing is changed.
#[unsafe(no_mangle)]
pub extern "C" fn check_plan(
    height: u32,
    gates: &[u32],
    given: &[u32],
    records: &[u32],
    plan: &[u32],
    words: &[u32],
    counts: &[u32],
    stages: usize,
    answer: &mut [usize],
) -> u32
    ensures { entry result tt answer.new ≡ plan_checked height gates.now given.now records.now plan.now words.now counts.now stages answer.old }
{
    if answer.len() < 4 {
        return WRONG_SIZE;
    }
    let checked = plan_check::check_plan(
        height, gates, given, records, plan, words, counts, stages,
    );
    tell_checked(checked, answer)
}

// As `replay_finished::replay_plan`, with the same four numbers. Returns the number. Where `answer` is shorter that is 2, and nothing is changed.
#[unsafe(no_mangle)]
pub extern "C" fn replay_plan(
    height: u32,
    gates: &[u32],
    given: &[u32],
    records: &[u32],
    driven: &[u32],
    start: &[u8],
    lines: usize,
    recording: &[u8],
    out: &mut [u8],
    end: &mut [u8],
    plan: &[u32],
    words: &[u32],
    counts: &[u32],
    stages: usize,
    work: &mut [u32],
    tape: &mut [u32],
    slots: &mut [u32],
    bits: &mut [u8],
    answer: &mut [usize],
) -> u32
    ensures { entry result (lent work.new tape.new slots.new bits.new out.new end.new) answer.new ≡ plan_replayed (job height gates.now given.now records.now driven.now start.now lines recording.now) (handed plan.now words.now counts.now stages) (lent work.old tape.old slots.old bits.old out.old end.old) answer.old }
{
    if answer.len() < 4 {
        return WRONG_SIZE;
    }
    let checked = replay_finished::replay_plan(
        height, gates, given, records, driven, start, lines, recording, out, end, plan, words,
        counts, stages, work, tape, slots, bits,
    );
    tell_checked(checked, answer)
}

// As `mend::mend`, with number, stage, position, pin and count in the first five numbers of `answer`. Returns the number. Where `answer` is shorter that
// is 2, and nothing is changed.
#[unsafe(no_mangle)]
pub extern "C" fn mend_plan(
    height: u32,
    gates: &[u32],
    given: &[u32],
    records: &[u32],
    plan: &mut [u32],
    words: &[u32],
    counts: &[u32],
    stages: usize,
    list: &mut [u32],
    work: &mut [u32],
    answer: &mut [usize],
) -> u32
    ensures { entry result (mend_to plan.new list.new work.new) answer.new ≡ plan_mended height gates.now given.now records.now words.now counts.now stages (mend_to plan.old list.old work.old) answer.old }
{
    if answer.len() < 5 {
        return WRONG_SIZE;
    }
    let mended = mend::mend(
        height, gates, given, records, plan, words, counts, stages, list, work,
    );
    match mended {
        Ok(count) => {
            tell(&[0, 0, 0, 0, count], answer);
            0
        }
        Err(r) => {
            let number = r.why.number();
            tell(
                &[wide(number), r.stage, r.position, r.why.pin().index(), 0],
                answer,
            );
            number
        }
    }
}
