// The entry of a replay.
ghost use Rattle.std.specs.Prelude.{◌≡◌};
ghost use Rattle.replay.specs.Answers.{job, lent};
ghost use Rattle.entries.specs.Entry.{entry};
ghost use Rattle.entries.specs.Replay.{recording_replayed};

use crate::answers::{WRONG_SIZE, tell_built};
use replay::replay;

// As `replay::replay`, with the answer in the first six numbers of `answer`, as of a build. Returns the number. Where `answer` is shorter that is
// 2, and nothing is changed.
#[unsafe(no_mangle)]
pub extern "C" fn replay_recording(
    height: u32,
    gates: &[u32],
    given: &[u32],
    records: &[u32],
    driven: &[u32],
    start: &[u8],
    lines: usize,
    recording: &[u8],
    out: &mut [u8],
    end: &mut [u8],
    plan: &mut [u32],
    words: &mut [u32],
    counts: &mut [u32],
    work: &mut [u32],
    tape: &mut [u32],
    slots: &mut [u32],
    bits: &mut [u8],
    answer: &mut [usize],
) -> u32
    ensures { entry result (lent plan.new words.new counts.new work.new tape.new slots.new bits.new out.new end.new) answer.new ≡ recording_replayed (job height gates.now given.now records.now driven.now start.now lines recording.now) (lent plan.old words.old counts.old work.old tape.old slots.old bits.old out.old end.old) answer.old }
{
    if answer.len() < 6 {
        return WRONG_SIZE;
    }
    let built = replay(
        height, gates, given, records, driven, start, lines, recording, out, end, plan, words,
        counts, work, tape, slots, bits,
    );
    tell_built(built, answer)
}
