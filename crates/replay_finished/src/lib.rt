// Replay over a finished plan: one that is handed in, checked against its graph, and run line by line.
#![tactic(auto)]

mod run;
mod sized;

ghost use Rattle.std.specs.Prelude.{◌≡◌};
ghost use Rattle.replay.specs.Answers.{job};
ghost use Rattle.replay_finished.specs.Calls.{finished_replay};
ghost use Rattle.replay_finished.specs.Answers.{handed, lent, outcome};

use checks::refusal;
use plan_check::{Refused, check_plan};
use replay_checks::later_refusal;
use run::run_accepted;
use sized::finished_sized;

// As `replay::replay`, but over a plan that is handed in, with its words and counts: so many of its stages. A plan that the check of plans refuses
// is not run. Work, tape, slots and bits are scratch.
pub fn replay_plan(
    height: u32,
    gates: &[u32],
    given: &[u32],
    records: &[u32],
    driven: &[u32],
    starting: &[u8],
    lines: usize,
    recording: &[u8],
    out: &mut [u8],
    end: &mut [u8],
    plan: &[u32],
    words: &[u32],
    counts: &[u32],
    stages: usize,
    work: &mut [u32],
    tape: &mut [u32],
    slots: &mut [u32],
    bits: &mut [u8],
) -> Result<(), Refused>
    ensures { outcome result work.new tape.new slots.new bits.new out.new end.new ≡ finished_replay (job height gates.now given.now records.now driven.now starting.now lines recording.now) (handed plan.now words.now counts.now stages) (lent work.old tape.old slots.old bits.old out.old end.old) }
{
    let sized = finished_sized(
        height,
        gates,
        records,
        plan.len(),
        counts.len(),
        stages,
        work.len(),
        tape.len(),
        slots.len(),
        bits.len(),
    );
    refusal(height, sized, gates, given, records)?;
    later_refusal(
        gates,
        given,
        records,
        driven,
        starting.len(),
        lines,
        recording.len(),
        out.len(),
        end.len(),
    )?;
    check_plan(height, gates, given, records, plan, words, counts, stages)?;
    run_accepted(
        height, gates, given, records, driven, starting, lines, recording, out, end, plan, words,
        counts, stages, work, tape, slots, bits,
    );
    Ok(())
}
