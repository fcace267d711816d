// The placer: the checks 1 to 5 and 23, the reservation, then stage after stage until no pin waits.
#![tactic(auto)]

ghost use Rattle.std.specs.Prelude.{◌≡◌, length};
ghost use Rattle.rules.specs.Graph.{graph_of};
ghost use Rattle.rules.specs.Build.{placer, answer_of};
ghost use Rattle.rules.specs.Traversal.{needed_runs};
ghost use Rattle.placer.specs.Answers.{areas, outcome};
ghost use Rattle.placer.specs.Build.{PlaceAt, TryAt, Tried, Laid, Placed};

use areas::{empty_all, tidy};
use cells::Height;
use checks::check;
use coding::code_plan;
use columns::RECORDS;
use graph::pin_count;
use placer_start::begin;
use refusals::Refusal;
use stages::stages;

pub mod areas;
pub mod stages;

// A whole plan: its stages and words, and the cells that its pins fill.
#[derive(Clone, Copy)]
pub struct Built {
    pub stages: usize,
    pub words: usize,
    pub cells: usize,
}

// Why a build is refused, and the refused stage from 1; 0 where it is refused before its first stage.
#[derive(Clone, Copy)]
pub struct Refused {
    pub why: Refusal,
    pub stage: usize,
}

impl From<Refusal> for Refused {
    ghost from_gives = { λ why r. r ≡ record { why = why; stage = 0 } };

    fn from(why: Refusal) -> Refused {
        Refused { why, stage: 0 }
    }
}

// The reservation and the stages, in empty areas.
fn attempt(
    height: Height,
    gates: &[u32],
    given: &[u32],
    records: &[u32],
    plan: &mut [u32],
    words: &mut [u32],
    counts: &mut [u32],
    work: &mut [u32],
) -> Result<Built, Refused>
    requires { TryAt height.0 gates.now given.now records.now plan.old words.old counts.old work.old }
    ensures { Tried (answer_of needed_runs height.0 gates.now given.now records.now (length plan.old)) plan.old words.old counts.old work.old result plan.new words.new counts.new work.new }
{
    let m = pin_count(gates);
    let rooms = counts.len();
    let limit = words.len();
    let Some(opening) = begin(given, records, work, m, limit) else {
        return Err(Refused::from(Refusal::OverReserved));
    };
    let room = limit - opening.words;
    stages(
        gates,
        plan,
        words,
        counts,
        work,
        m,
        height,
        rooms,
        opening.waiting,
        room,
    )
}

// The build of records that passed the checks, in areas of exactly their counted sizes: stages of pins.
fn lay(
    height: Height,
    gates: &[u32],
    given: &[u32],
    records: &[u32],
    plan: &mut [u32],
    words: &mut [u32],
    counts: &mut [u32],
    work: &mut [u32],
) -> Result<Built, Refused>
    requires { PlaceAt height.0 gates.now given.now records.now plan.old words.old counts.old work.old }
    ensures { Laid (answer_of needed_runs height.0 gates.now given.now records.now (length plan.old)) plan.old words.old counts.old work.old result plan.new words.new counts.new work.new }
{
    empty_all(plan, words, counts, work);
    let laid = attempt(height, gates, given, records, plan, words, counts, work);
    tidy(laid.is_ok(), plan, words, counts, work);
    laid
}

// The same as cells with their inversions.
fn place(
    height: Height,
    gates: &[u32],
    given: &[u32],
    records: &[u32],
    plan: &mut [u32],
    words: &mut [u32],
    counts: &mut [u32],
    work: &mut [u32],
) -> Result<Built, Refused>
    requires { PlaceAt height.0 gates.now given.now records.now plan.old words.old counts.old work.old }
    ensures { Placed (graph_of gates.now) (answer_of needed_runs height.0 gates.now given.now records.now (length plan.old)) height.0 plan.old words.old counts.old work.old result plan.new words.new counts.new work.new }
{
    let built = lay(height, gates, given, records, plan, words, counts, work)?;
    code_plan(height, plan, gates, built.stages);
    Ok(built)
}

// Lays the gates under the records' endpoints into stages of a tree of this height. Plan, words and counts hold what
// was built, and work is scratch.
pub fn build(
    height: u32,
    gates: &[u32],
    given: &[u32],
    records: &[u32],
    plan: &mut [u32],
    words: &mut [u32],
    counts: &mut [u32],
    work: &mut [u32],
) -> Result<Built, Refused>
    ensures { outcome result plan.new words.new counts.new work.new ≡ placer needed_runs height gates.now given.now records.now (areas plan.old words.old counts.old work.old) }
{
    let checked = check(
        height,
        gates,
        given,
        records,
        plan.len(),
        words.len(),
        counts.len(),
        work.len(),
    );
    if let Err(why) = checked {
        return Err(Refused::from(why));
    }
    let limit = Height(height).word_limit();
    let rooms = Height(height).rooms(plan.len());
    let need = 16 * pin_count(gates) + 8 * records.len() + RECORDS;
    place(
        Height(height),
        gates,
        given,
        records,
        plan,
        &mut words[0..limit],
        &mut counts[0..rooms],
        &mut work[0..need],
    )
}
