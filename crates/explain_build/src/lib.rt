// The build of an explanation: the reservation with its line, or the stages with theirs, in areas that are emptied before and tidied after.
#![tactic(auto)]

ghost use Rattle.std.specs.Prelude.{length};
ghost use Rattle.rules.specs.Build.{answer_of};
ghost use Rattle.rules.specs.Traversal.{needed_runs};
ghost use Rattle.placer.specs.Build.{PlaceAt, TryAt};
ghost use Rattle.why_form.specs.Why.{why_of};
ghost use Rattle.explain_build.specs.Call.{Attempted, Explained};

use cells::Height;
use explain_stages::{Explanation, tell};
use graph::pin_count;
use placer::Refused;
use placer::areas::{empty_all, tidy};
use placer_start::begin;
use refusals::Refusal;
use six::tell_six;

mod six;

// The reservation and the stages, in empty areas.
fn attempt(
    height: Height,
    gates: &[u32],
    given: &[u32],
    records: &[u32],
    plan: &mut [u32],
    words: &mut [u32],
    counts: &mut [u32],
    work: &mut [u32],
    list: &mut [u32],
) -> Explanation
    requires { TryAt height.0 gates.now given.now records.now plan.old words.old counts.old work.old }
    ensures { Attempted (answer_of needed_runs height.0 gates.now given.now records.now (length plan.old)) (why_of needed_runs height.0 gates.now given.now records.now (length plan.old)) plan.old words.old counts.old work.old list.old result plan.new words.new counts.new work.new list.new }
{
    let m = pin_count(gates);
    let rooms = counts.len();
    let limit = words.len();
    let Some(opening) = begin(given, records, work, m, limit) else {
        tell_six(gates, records, limit, list);
        return Explanation {
            answer: Err(Refused::from(Refusal::OverReserved)),
            lines: 1,
        };
    };
    let room = limit - opening.words;
    tell(
        gates,
        plan,
        words,
        counts,
        work,
        list,
        m,
        height,
        rooms,
        opening.waiting,
        room,
    )
}

// The build of records that passed the checks, in areas of exactly their counted sizes: stages of pins, and as many lines as fit the list.
pub fn lay(
    height: Height,
    gates: &[u32],
    given: &[u32],
    records: &[u32],
    plan: &mut [u32],
    words: &mut [u32],
    counts: &mut [u32],
    work: &mut [u32],
    list: &mut [u32],
) -> Explanation
    requires { PlaceAt height.0 gates.now given.now records.now plan.old words.old counts.old work.old }
    ensures { Explained (answer_of needed_runs height.0 gates.now given.now records.now (length plan.old)) (why_of needed_runs height.0 gates.now given.now records.now (length plan.old)) plan.old words.old counts.old work.old list.old result plan.new words.new counts.new work.new list.new }
{
    empty_all(plan, words, counts, work);
    let e = attempt(
        height, gates, given, records, plan, words, counts, work, list,
    );
    tidy(e.answer.is_ok(), plan, words, counts, work);
    e
}
