// The areas that a sheet is read into.
ghost use Rattle.std.specs.Prelude.{◌≡◌, true};
ghost use Rattle.rules.specs.Cells.{is_height};
ghost use Rattle.sheet_form.specs.Kinds.{number_for};
ghost use Rattle.sheet_read.specs.Areas.{room_for, PadAt, Padded, FillAt, Filled};

use crate::walk::{Contents, walk};
use cells::Height;
use graph::EMPTY;
use sheet_form::SheetKind;

// Do areas of these lengths hold so many stages and words?
pub fn has_room(sheet: Contents, plan: usize, words: usize, counts: usize) -> bool
    requires { is_height sheet.height ≡ true }
    ensures { result ≡ room_for sheet.height sheet.stages sheet.words plan words counts }
{
    let height = Height(sheet.height);
    let rooms = height.rooms(plan);
    if rooms < sheet.stages {
        return false;
    }
    if counts < rooms {
        return false;
    }
    if words < height.word_limit() {
        return false;
    }
    sheet.words <= words
}

// The numbers from `used` up to `room` become x.
fn pad(area: &mut [u32], used: usize, room: usize, x: u32)
    requires { PadAt room area.old }
    ensures { Padded used room x area.old area.new }
{
    if room <= used {
        return;
    }
    area[used..room].fill(x);
}

// The stages, and behind them what a build leaves in areas that it does not use.
pub fn fill(
    bytes: &[u8],
    kind: SheetKind,
    gates: &[u32],
    sheet: Contents,
    plan: &mut [u32],
    words: &mut [u32],
    counts: &mut [u32],
)
    requires { FillAt (number_for kind) gates.now bytes.now sheet.height sheet.stages sheet.words plan.old words.old counts.old }
    ensures { Filled (number_for kind) gates.now bytes.now sheet.height sheet.stages sheet.words plan.old words.old counts.old plan.new words.new counts.new }
{
    walk(bytes, kind, gates, plan, words, counts);
    let h = Height(sheet.height);
    let rooms = h.rooms(plan.len());
    let size = h.stage_size();
    pad(plan, sheet.stages * size, rooms * size, EMPTY);
    pad(words, sheet.words, h.word_limit(), EMPTY);
    pad(counts, sheet.stages, rooms, 0);
}
