// The walk through stages.
ghost use Rattle.std.specs.Prelude.{◌≡◌, ◌+◌, ◌^◌, ◌≤◌, length};
ghost use Rattle.std.proofs.lemmas.List.Edits.{sets};
ghost use Rattle.sheet_read.specs.Stages.{CountedAt, CountedTook, StageAt, StageTook, StagesAt, StagesTook};
ghost use Rattle.sheet_form.specs.Kinds.{number_for};
ghost use Rattle.sheet_read.specs.Steps.{TookAs};

use crate::steps::{Step, read_words, store};
use bits::field;
use cells::wide;
use sheet_plan::{Kind, read_plan};

// Where the walk stands: a bit, how many stages it has behind it, and how many words.
#[derive(Clone, Copy)]
pub struct Place {
    pub at: usize,
    pub stage: usize,
    pub words: usize,
}

// A stage's word count and its words.
fn read_counted(
    bytes: &[u8],
    place: Place,
    height: u32,
    words: &mut [u32],
    counts: &mut [u32],
) -> Option<Step>
    requires { CountedAt height place.at place.words bytes.now }
    ensures { TookAs (CountedTook height place.stage bytes.now place.at place.words words.old counts.old words.new counts.new) bytes.now result }
{
    let at = place.at;
    if 8 * bytes.len() - at < 16 {
        return None;
    }
    let n = field(bytes, at, 16);
    store(counts, place.stage, n);
    read_words(bytes, at + 16, height, wide(n), words, place.words)
}

// A stage's cells, as far as the area reaches.
fn lay(plan: &mut [u32], at: usize, cells: &[u32])
    requires { at + length cells.now ≤ 2 ^ 40 }
    ensures { plan.new ≡ sets plan.old at cells.now }
{
    for i in 0..cells.len() {
        store(plan, at + i, cells[i]);
    }
}

// A stage, by way of an area for its cells.
fn read_stage(
    bytes: &[u8],
    place: Place,
    kind: Kind,
    gates: &[u32],
    cells: &mut [u32],
    plan: &mut [u32],
    words: &mut [u32],
    counts: &mut [u32],
) -> Option<Step>
    requires { StageAt kind.height place.stage place.at place.words bytes.now cells.old }
    ensures { TookAs (StageTook (number_for kind.sheet) kind.height gates.now place.stage bytes.now place.at place.words cells.old plan.old words.old counts.old cells.new plan.new words.new counts.new) bytes.now result }
{
    let a = read_counted(bytes, place, kind.height, words, counts)?;
    let at = read_plan(bytes, a.at, kind, gates, cells)?;
    lay(plan, place.stage * cells.len(), cells);
    Some(Step { at, count: a.count })
}

// The bit behind n stages, and their words.
pub fn read_stages(
    bytes: &[u8],
    n: usize,
    kind: Kind,
    gates: &[u32],
    cells: &mut [u32],
    plan: &mut [u32],
    words: &mut [u32],
    counts: &mut [u32],
) -> Option<Step>
    requires { StagesAt kind.height n bytes.now cells.old }
    ensures { TookAs (StagesTook (number_for kind.sheet) kind.height gates.now n bytes.now cells.old plan.old words.old counts.old cells.new plan.new words.new counts.new) bytes.now result }
{
    let mut at = 28;
    let mut total = 0;
    for i in 0..n {
        let place = Place {
            at,
            stage: i,
            words: total,
        };
        let step = read_stage(bytes, place, kind, gates, cells, plan, words, counts)?;
        at = step.at;
        total = step.count;
    }
    Some(Step { at, count: total })
}
