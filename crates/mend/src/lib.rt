// Mends a damaged plan: what the check accepts stays as it is, any other plan is rebuilt by its graph and its given pins, and every change is listed.
#![tactic(auto)]

ghost use Rattle.std.specs.Prelude.{◌≡◌, ◌&&◌, length};
ghost use Rattle.rules.specs.Cells.{is_height};
ghost use Rattle.mending.specs.Call.{mender};
ghost use Rattle.mend.specs.Calls.{mend_fits, outcome, SettleAt, Settles, JudgeAt, Rebuilds, Judges, MendAt, Mends};

use cells::Height;
use checks::refusal;
use mend_list::{count_changes, write_changes};
use mend_plan::mend_plan;
use merge_slots::copy;
use placer_start::reservation::Count;
use plan_check::room::counted;
use plan_check::stages::plan_place;
use plan_check::{Refused, plan_fits};
use refusals::Refusal;

// The most rooms whose numbers a list can hold.
const MOST_ROOMS: usize = 4294967295;

// As for a check of the plan; the work area has room for a copy of the plan, and the number of its last room fits a number of the list.
fn sized(height: u32, plan: usize, counts: usize, work: usize, stages: usize) -> bool
    ensures { result ≡ is_height height && mend_fits height plan counts work stages }
{
    if !plan_fits(height, plan, counts, stages) || work < plan {
        return false;
    }
    Height(height).rooms(plan) <= MOST_ROOMS
}

// A mended plan without fault takes the plan's place, if the list has room for the changes.
fn settle(
    height: Height,
    plan: &mut [u32],
    made: &[u32],
    list: &mut [u32],
) -> Result<usize, Refused>
    requires { SettleAt height.0 plan.old made.now }
    ensures { Settles height.0 plan.old made.now list.old plan.new list.new result }
{
    let n = count_changes(plan, made);
    if list.len() / 4 < n {
        return Err(Refused::from(Refusal::ShortList));
    }
    write_changes(height, plan, made, list);
    copy(plan, made);
    Ok(n)
}

// A plan with a fault. `made` has its size, whatever it holds.
fn rebuild(
    height: Height,
    gates: &[u32],
    given: &[u32],
    records: &[u32],
    plan: &mut [u32],
    words: &[u32],
    counts: &[u32],
    stages: usize,
    count: Count,
    list: &mut [u32],
    made: &mut [u32],
) -> Result<usize, Refused>
    requires { JudgeAt height.0 gates.now given.now records.now plan.old counts.now stages count made.old }
    ensures { Rebuilds height.0 gates.now given.now records.now plan.old words.now counts.now stages list.old plan.new list.new result }
{
    copy(made, plan);
    mend_plan(height, gates, given, made, stages);
    match plan_place(
        height, gates, given, records, made, words, counts, stages, count,
    ) {
        Ok(()) => settle(height, plan, made, list),
        Err(place) => Err(Refused::from(place)),
    }
}

// A plan that passed the checks of its input.
fn judge(
    height: Height,
    gates: &[u32],
    given: &[u32],
    records: &[u32],
    plan: &mut [u32],
    words: &[u32],
    counts: &[u32],
    stages: usize,
    count: Count,
    list: &mut [u32],
    made: &mut [u32],
) -> Result<usize, Refused>
    requires { JudgeAt height.0 gates.now given.now records.now plan.old counts.now stages count made.old }
    ensures { Judges height.0 gates.now given.now records.now plan.old words.now counts.now stages list.old plan.new list.new result }
{
    match plan_place(
        height, gates, given, records, plan, words, counts, stages, count,
    ) {
        Ok(()) => Ok(0),
        Err(_) => rebuild(
            height, gates, given, records, plan, words, counts, stages, count, list, made,
        ),
    }
}

// The same in a part of the work area, which is 0 afterwards.
fn mend_in(
    height: Height,
    gates: &[u32],
    given: &[u32],
    records: &[u32],
    plan: &mut [u32],
    words: &[u32],
    counts: &[u32],
    stages: usize,
    list: &mut [u32],
    made: &mut [u32],
) -> Result<usize, Refused>
    requires { MendAt height.0 gates.now given.now records.now plan.old counts.now stages made.old }
    ensures { Mends height.0 gates.now given.now records.now plan.old words.now counts.now stages list.old made.old plan.new list.new made.new result }
{
    let count = counted(gates, records);
    let answer = judge(
        height, gates, given, records, plan, words, counts, stages, count, list, made,
    );
    made.fill(0);
    answer
}

// So many stages of a plan, with their words and counts; a word that isn't there is no word. Answers the number of changes; refused with the first of
// 1, 2, 3, 23, 4, 5 that applies, with 23 the smallest pin on any loop; else with 22, with the place of the mended plan's first fault; else with 24,
// where the list is too short. Of the work area as many numbers count as the plan has. The
// list gets four numbers a change: stage, position, old cell, new cell.
pub fn mend(
    height: u32,
    gates: &[u32],
    given: &[u32],
    records: &[u32],
    plan: &mut [u32],
    words: &[u32],
    counts: &[u32],
    stages: usize,
    list: &mut [u32],
    work: &mut [u32],
) -> Result<usize, Refused>
    ensures { outcome result plan.new list.new work.new ≡ mender height (length plan.old) (mend_fits height (length plan.old) (length counts.now) (length work.old) stages) gates.now given.now records.now plan.old words.now counts.now list.old work.old stages }
{
    let need = plan.len();
    let sized = sized(height, need, counts.len(), work.len(), stages);
    refusal(height, sized, gates, given, records)?;
    mend_in(
        Height(height),
        gates,
        given,
        records,
        plan,
        words,
        counts,
        stages,
        list,
        &mut work[0..need],
    )
}
