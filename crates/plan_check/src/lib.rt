// Checks a plan made elsewhere against its graph: the first fault by stage and position. It takes any numbers and slices, and changes none:
// marks stand in arrays of its own.
#![tactic(auto)]

mod ends;
pub mod room;
pub mod stages;

ghost use Rattle.std.specs.Prelude.{◌≡◌, ◌&&◌};
ghost use Rattle.rules.specs.Cells.{is_height};
ghost use Rattle.refusals.specs.declared.Refusal.TheVariants.{WrongPlan};
ghost use Rattle.plan_check.specs.Answers.{plan_fits, plan_checker, outcome};

use cells::Height;
use checks::refusal;
use refusals::Refusal;
use room::counted;
use sizes::plan_sized;
use stages::{Place, plan_place};

// Why a plan is refused; with 22 the first fault's place: its stage from 1 and its position, or stage 0, position 0 for the reservation or a missing
// endpoint.
#[derive(Clone, Copy)]
pub struct Refused {
    pub why: Refusal,
    pub stage: usize,
    pub position: usize,
}

impl From<Refusal> for Refused {
    ghost from_gives = { λ why r. r ≡ record { why = why; stage = 0; position = 0 } };

    fn from(why: Refusal) -> Refused {
        Refused {
            why,
            stage: 0,
            position: 0,
        }
    }
}

impl From<Place> for Refused {
    ghost from_gives = { λ place r. r ≡ record { why = WrongPlan; stage = place.stage; position = place.position } };

    fn from(place: Place) -> Refused {
        Refused {
            why: Refusal::WrongPlan,
            stage: place.stage,
            position: place.position,
        }
    }
}

// Is the plan a whole multiple of a stage, and are so many stages and counts there?
pub fn plan_fits(height: u32, plan: usize, counts: usize, stages: usize) -> bool
    ensures { result ≡ is_height height && plan_fits height plan counts stages }
{
    if !plan_sized(height, plan) || Height(height).rooms(plan) < stages {
        return false;
    }
    stages <= counts
}

// So many stages of a plan, with their words and counts. A word that isn't there is no word. Refused with the first of 1, 2, 3, 23, 4, 5 that applies,
// with 23 the smallest pin on any loop; else with 22.
pub fn check_plan(
    height: u32,
    gates: &[u32],
    given: &[u32],
    records: &[u32],
    plan: &[u32],
    words: &[u32],
    counts: &[u32],
    stages: usize,
) -> Result<(), Refused>
    ensures { outcome result ≡ plan_checker height gates.now given.now records.now plan.now words.now counts.now stages }
{
    let sized = plan_fits(height, plan.len(), counts.len(), stages);
    let checked = refusal(height, sized, gates, given, records);
    if let Err(why) = checked {
        return Err(Refused::from(why));
    }
    let count = counted(gates, records);
    plan_place(
        Height(height),
        gates,
        given,
        records,
        plan,
        words,
        counts,
        stages,
        count,
    )?;
    Ok(())
}
