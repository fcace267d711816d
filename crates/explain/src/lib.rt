// Why a job was refused: the job is built, and a line of six numbers is written for each pin taken back, then one for a refusal with 6, 7 or 8.
#![tactic(auto)]

ghost use Rattle.std.specs.Prelude.{◌≡◌, length};
ghost use Rattle.rules.specs.Graph.{graph_of};
ghost use Rattle.rules.specs.Traversal.{needed_runs};
ghost use Rattle.rules.specs.Build.{answer_of};
ghost use Rattle.placer.specs.Answers.{areas};
ghost use Rattle.placer.specs.Build.{PlaceAt};
ghost use Rattle.why_form.specs.Why.{why_of, explainer};
ghost use Rattle.explain.specs.Call.{Measured, Ends};
ghost use Rattle.explain.specs.Answers.{explained};

use cells::{Height, wide};
use checks::check;
use coding::code_plan;
use columns::RECORDS;
use explain_build::lay;
pub use explain_stages::Explanation;
use graph::pin_count;
use placer::Refused;
use placer::areas::empty_all;
use refusals::Refusal;

// Are the lines more than the list holds? With room for K - 1 lines a room and one more they never are; with less they are counted first. The list
// stays as it is, whatever the other areas hold then.
fn too_short(
    height: Height,
    gates: &[u32],
    given: &[u32],
    records: &[u32],
    plan: &mut [u32],
    words: &mut [u32],
    counts: &mut [u32],
    work: &mut [u32],
    list: &mut [u32],
) -> bool
    requires { PlaceAt height.0 gates.now given.now records.now plan.old words.old counts.old work.old }
    ensures { Measured (why_of needed_runs height.0 gates.now given.now records.now (length plan.old)) plan.old words.old counts.old work.old list.old result plan.new words.new counts.new work.new list.new }
{
    let size = list.len();
    let rooms = counts.len();
    let levels = wide(height.0) - 1;
    if 6 * (rooms * levels + 1) <= size {
        return false;
    }
    let e = lay(
        height,
        gates,
        given,
        records,
        plan,
        words,
        counts,
        work,
        &mut list[0..0],
    );
    size < 6 * e.lines
}

// The whole explanation of records that passed the checks, in areas of exactly their counted sizes.
fn place(
    height: Height,
    gates: &[u32],
    given: &[u32],
    records: &[u32],
    plan: &mut [u32],
    words: &mut [u32],
    counts: &mut [u32],
    work: &mut [u32],
    list: &mut [u32],
) -> Explanation
    requires { PlaceAt height.0 gates.now given.now records.now plan.old words.old counts.old work.old }
    ensures { Ends (graph_of gates.now) (answer_of needed_runs height.0 gates.now given.now records.now (length plan.old)) (why_of needed_runs height.0 gates.now given.now records.now (length plan.old)) height.0 plan.old words.old counts.old work.old list.old result plan.new words.new counts.new work.new list.new }
{
    let short = too_short(
        height, gates, given, records, plan, words, counts, work, list,
    );
    if short {
        empty_all(plan, words, counts, work);
        return Explanation {
            answer: Err(Refused::from(Refusal::ShortLines)),
            lines: 0,
        };
    }
    let e = lay(
        height, gates, given, records, plan, words, counts, work, list,
    );
    if let Ok(built) = e.answer {
        code_plan(height, plan, gates, built.stages);
    }
    e
}

// Builds a job, and explains the answer in the list. Plan, words and counts hold what was built, and work is scratch.
pub fn explain(
    height: u32,
    gates: &[u32],
    given: &[u32],
    records: &[u32],
    plan: &mut [u32],
    words: &mut [u32],
    counts: &mut [u32],
    work: &mut [u32],
    list: &mut [u32],
) -> Explanation
    ensures { explained result plan.new words.new counts.new work.new list.new ≡ explainer needed_runs height gates.now given.now records.now list.old (areas plan.old words.old counts.old work.old) }
{
    let checked = check(
        height,
        gates,
        given,
        records,
        plan.len(),
        words.len(),
        counts.len(),
        work.len(),
    );
    if let Err(why) = checked {
        return Explanation {
            answer: Err(Refused::from(why)),
            lines: 0,
        };
    }
    let limit = Height(height).word_limit();
    let rooms = Height(height).rooms(plan.len());
    let need = 16 * pin_count(gates) + 8 * records.len() + RECORDS;
    place(
        Height(height),
        gates,
        given,
        records,
        plan,
        &mut words[0..limit],
        &mut counts[0..rooms],
        &mut work[0..need],
        list,
    )
}
