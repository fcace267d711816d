// What follows a build: a whole plan is run, and the areas for it are cleared.
ghost use Rattle.std.specs.Prelude.{◌≡◌, length, replicate};
ghost use Rattle.replay.specs.Answers.{FinishIn, Finished};

use cells::Height;
use replay_plan::bytes::clear_bytes;
use replay_plan::runs::run_plan;

fn clear_lists(tape: &mut [u32], slots: &mut [u32], bits: &mut [u8])
    ensures tape { tape.new ≡ replicate (length tape.old) 0 }
    ensures slots { slots.new ≡ replicate (length slots.old) 0 }
    ensures bits { bits.new ≡ replicate (length bits.old) 0 }
{
    tape.fill(0);
    slots.fill(0);
    clear_bytes(bits);
}

pub fn finish(
    whole: bool,
    height: Height,
    gates: &[u32],
    records: &[u32],
    driven: &[u32],
    starting: &[u8],
    lines: usize,
    recording: &[u8],
    plan: &[u32],
    words: &[u32],
    counts: &[u32],
    total: usize,
    work: &mut [u32],
    tape: &mut [u32],
    slots: &mut [u32],
    bits: &mut [u8],
    out: &mut [u8],
    end: &mut [u8],
)
    requires { FinishIn whole height.0 gates.now records.now driven.now starting.now lines recording.now plan.now words.now counts.now total work.old tape.old slots.old bits.old out.old end.old }
    ensures { Finished whole gates.now records.now driven.now starting.now lines recording.now work.old tape.old slots.old bits.old out.old end.old work.new tape.new slots.new bits.new out.new end.new }
{
    if !whole {
        clear_lists(tape, slots, bits);
        return;
    }
    run_plan(
        height, gates, records, driven, starting, lines, recording, plan, words, counts, total,
        work, tape, slots, bits, out, end,
    );
    work.fill(0);
    clear_lists(tape, slots, bits);
}
