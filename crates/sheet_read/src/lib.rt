// Plan sheets, read into lent areas. `read` takes any graph, bytes and areas.
#![tactic(auto)]

mod areas;
mod stages;
mod steps;
mod walk;

ghost use Rattle.std.specs.Prelude.{◌≡◌, MatchOption};
ghost use Rattle.sheet_form.specs.Calls.{areas, reader};
ghost use Rattle.sheet_form.specs.Kinds.{number_for};
ghost use Rattle.sheet_read.specs.Walk.{known_number, told};

use areas::{fill, has_room};
use refusals::Refusal;
use sheet_form::SheetKind;
pub use walk::Contents;
use walk::judge;

// The kind of sheet that the first byte names: 2, or 1 where a graph is lent to code its pins with.
fn kind_of(first: u8, graph: usize) -> Option<SheetKind>
    ensures { MatchOption result (known_number first graph ≡ 0) (λ k. known_number first graph ≡ number_for k) }
{
    if first == 2 {
        return Some(SheetKind::Cells);
    }
    if first == 1 && graph != 0 {
        return Some(SheetKind::Pins);
    }
    None
}

// The stages of a sheet, into areas that then stand as a build leaves them. Sheet 2 is read as it stands; sheet 1 with the graph, which is not judged.
// Refusals: 16 for an unknown sheet number, sheet 1 without a graph among them, 15 where the bytes are no sheet, 17 where an area is too short; they
// change nothing, so the sheet is measured first.
pub fn read(
    gates: &[u32],
    bytes: &[u8],
    plan: &mut [u32],
    words: &mut [u32],
    counts: &mut [u32],
) -> Result<Contents, Refusal>
    ensures { told result (areas plan.new words.new counts.new) ≡ reader gates.now bytes.now (areas plan.old words.old counts.old) }
{
    if bytes.len() == 0 {
        return Err(Refusal::NoSheet);
    }
    let Some(kind) = kind_of(bytes[0], gates.len()) else {
        return Err(Refusal::UnknownSheet);
    };
    let Some(sheet) = judge(bytes, kind, gates) else {
        return Err(Refusal::NoSheet);
    };
    if !has_room(sheet, plan.len(), words.len(), counts.len()) {
        return Err(Refusal::TooShort);
    }
    fill(bytes, kind, gates, sheet, plan, words, counts);
    Ok(sheet)
}
