// Replay of a recording: the plan of a graph's records is built, and run line by line.
#![tactic(auto)]

pub mod finish;
pub mod lent;

ghost use Rattle.std.specs.Prelude.{◌≡◌};
ghost use Rattle.rules.specs.Traversal.{needed_runs};
ghost use Rattle.replay_form.specs.Calls.{replay};
ghost use Rattle.placer.specs.Answers.{told};
ghost use Rattle.replay.specs.Answers.{job, lent, outcome, BuiltIn};

use cells::Height;
use checks::refusal;
use columns::RECORDS;
use finish::finish;
use graph::pin_count;
use lent::replay_sized;
use placer::{Built, Refused, build};
use replay_checks::later_refusal;

// What a build has laid; nothing where it is refused.
fn laid(built: Result<Built, Refused>) -> Built
    ensures stages { result.stages ≡ (told built).stages }
    ensures words { result.words ≡ (told built).words }
{
    match built {
        Ok(built) => built,
        Err(_) => Built {
            stages: 0,
            words: 0,
            cells: 0,
        },
    }
}

// The job that passed the checks: the build, and the run of a whole plan, in the parts of the areas that count.
fn build_and_run(
    height: u32,
    gates: &[u32],
    given: &[u32],
    records: &[u32],
    driven: &[u32],
    starting: &[u8],
    lines: usize,
    recording: &[u8],
    out: &mut [u8],
    end: &mut [u8],
    plan: &mut [u32],
    words: &mut [u32],
    counts: &mut [u32],
    work: &mut [u32],
    tape: &mut [u32],
    slots: &mut [u32],
    bits: &mut [u8],
) -> Result<Built, Refused>
    requires { BuiltIn height gates.now given.now records.now driven.now starting.now lines recording.now plan.old words.old counts.old work.old tape.old slots.old bits.old out.old end.old }
    ensures { outcome result plan.new words.new counts.new work.new tape.new slots.new bits.new out.new end.new ≡ replay needed_runs (job height gates.now given.now records.now driven.now starting.now lines recording.now) (lent plan.old words.old counts.old work.old tape.old slots.old bits.old out.old end.old) }
{
    let built = build(height, gates, given, records, plan, words, counts, work);
    let plan_laid = laid(built);
    let stages = plan_laid.stages;
    let used = stages * Height(height).stage_size();
    let pins = pin_count(gates);
    let size = plan.len();
    let need = 16 * pins + 8 * records.len() + RECORDS;
    let held = size + records.len();
    let last = pins + size / 2;
    let flops = starting.len();
    finish(
        built.is_ok(),
        Height(height),
        gates,
        records,
        driven,
        starting,
        lines,
        recording,
        &plan[0..used],
        words,
        &counts[0..stages],
        plan_laid.words,
        &mut work[0..need],
        &mut tape[0..size],
        &mut slots[0..held],
        &mut bits[0..last],
        out,
        &mut end[0..flops],
    );
    built
}

// Builds the plan of a graph's records, and runs it over the lines of a recording: the bits of each clock go to `out`, one clock after the
// other, and those of the flip-flops after the last to `end`. Flip-flop i drives the leaf `driven[i]` and starts with `starting[i]`. A bit is a
// byte, 0 or not 0 going in, 0 or 1 coming out. Plan, words and counts hold what was built; work, tape, slots and bits are scratch.
pub fn replay(
    height: u32,
    gates: &[u32],
    given: &[u32],
    records: &[u32],
    driven: &[u32],
    starting: &[u8],
    lines: usize,
    recording: &[u8],
    out: &mut [u8],
    end: &mut [u8],
    plan: &mut [u32],
    words: &mut [u32],
    counts: &mut [u32],
    work: &mut [u32],
    tape: &mut [u32],
    slots: &mut [u32],
    bits: &mut [u8],
) -> Result<Built, Refused>
    ensures { outcome result plan.new words.new counts.new work.new tape.new slots.new bits.new out.new end.new ≡ replay needed_runs (job height gates.now given.now records.now driven.now starting.now lines recording.now) (lent plan.old words.old counts.old work.old tape.old slots.old bits.old out.old end.old) }
{
    let sized = replay_sized(
        height,
        gates,
        records,
        plan.len(),
        words.len(),
        counts.len(),
        work.len(),
        tape.len(),
        slots.len(),
        bits.len(),
    );
    refusal(height, sized, gates, given, records)?;
    later_refusal(
        gates,
        given,
        records,
        driven,
        starting.len(),
        lines,
        recording.len(),
        out.len(),
        end.len(),
    )?;
    build_and_run(
        height, gates, given, records, driven, starting, lines, recording, out, end, plan, words,
        counts, work, tape, slots, bits,
    )
}
