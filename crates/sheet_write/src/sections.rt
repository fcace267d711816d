// The parts of a sheet, put one behind the other.
ghost use Rattle.std.specs.Prelude.{◌≡◌, ◌^◌, ◌≤◌};
ghost use Rattle.rules.specs.Lists.{gather};
ghost use Rattle.rules.specs.Job.{bits_of};
ghost use Rattle.bits.specs.Putting.{Put};
ghost use Rattle.sheet_form.specs.Calls.{areas};
ghost use Rattle.sheet_write.specs.Fits.{Fitting};
ghost use Rattle.sheet_write.specs.Sections.{file_bits, CellPut, CellsTo, CellsPut, WordsTo, StageTo, StagePut, StagesPut};

use bits::put;
use cell::Cell;
use cells::{Height, wide};
use sheet_form::SheetKind;

// A one, the pin and what the cell does; a zero for an empty cell.
fn put_cell(bytes: &mut [u8], at: usize, cell: Cell) -> usize
    requires { at ≤ 2 ^ 39 }
    ensures { CellPut cell.0 bytes.old bytes.new at result }
{
    if cell.is_empty() {
        return put(bytes, at, 1, 0);
    }
    let p = put(bytes, at, 1, 1);
    let q = put(bytes, p, 16, cell.pin().0);
    put(bytes, q, 3, cell.does())
}

// The cells from position 1 on.
fn put_cells(bytes: &mut [u8], from: usize, cells: &[u32]) -> usize
    requires { CellsTo from cells.now }
    ensures { CellsPut cells.now bytes.old bytes.new from result }
{
    let mut at = from;
    for i in 1..cells.len() {
        at = put_cell(bytes, at, Cell(cells[i]));
    }
    at
}

fn put_words(bytes: &mut [u8], from: usize, words: &[u32]) -> usize
    requires { WordsTo from words.now }
    ensures { Put (gather (bits_of 8) words.now) bytes.old bytes.new from result }
{
    let mut at = from;
    for w in words {
        at = put(bytes, at, 8, *w);
    }
    at
}

// The word count, the words and the cells.
fn put_stage(bytes: &mut [u8], at: usize, cells: &[u32], words: &[u32]) -> usize
    requires { StageTo at cells.now words.now }
    ensures { StagePut cells.now words.now bytes.old bytes.new at result }
{
    let p = put(bytes, at, 16, words.len() as u32);
    let q = put_words(bytes, p, words);
    put_cells(bytes, q, cells)
}

fn put_stages(
    bytes: &mut [u8],
    height: u32,
    stages: usize,
    plan: &[u32],
    words: &[u32],
    counts: &[u32],
) -> usize
    requires { Fitting height stages (areas plan.now words.now counts.now) }
    ensures { StagesPut height stages (areas plan.now words.now counts.now) bytes.old bytes.new result }
{
    let size = Height(height).stage_size();
    let mut at = 28;
    let mut from = 0;
    for i in 0..stages {
        let count = wide(counts[i]);
        at = put_stage(
            bytes,
            at,
            &plan[i * size..i * size + size],
            &words[from..from + count],
        );
        from += count;
    }
    at
}

// The sheet number, the height, the stage count and the stages, and zero bits up to a byte.
pub fn put_sheet(
    height: u32,
    stages: usize,
    plan: &[u32],
    words: &[u32],
    counts: &[u32],
    bytes: &mut [u8],
) -> usize
    requires { Fitting height stages (areas plan.now words.now counts.now) }
    ensures { Put (file_bits height stages (areas plan.now words.now counts.now)) bytes.old bytes.new 0 result }
{
    let p = put(bytes, 0, 8, SheetKind::Cells.number());
    let q = put(bytes, p, 4, height);
    put(bytes, q, 16, stages as u32);
    let r = put_stages(bytes, height, stages, plan, words, counts);
    put(bytes, r, (8 - r % 8) % 8, 0)
}
