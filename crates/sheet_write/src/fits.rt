// Which stages a sheet can hold, and how many bits they take: where a part ends that begins at a bit, if it fits.
ghost use Rattle.std.specs.Prelude.{◌≡◌, true, ◌≤◌, ltb, length};
ghost use Rattle.rules.specs.Lists.{every, sum};
ghost use Rattle.rules.specs.Cells.{is_height};
ghost use Rattle.sheet_form.specs.Calls.{areas, stand};
ghost use Rattle.sheet_write.specs.Fits.{CellEnds, CellsAt, CellsEnd, StageAt, StageEnds, Sized, StagesAt, StagesEnd, Measured};

use cell::Cell;
use cells::{Height, is_height, wide};
use graph::EMPTY;
use sheet_form::cell_fits;

// The filled bit, and behind it a pin's 16 and 3 for what the cell does.
fn cell_bits(height: u32, p: usize, cell: Cell) -> Option<usize>
    requires { is_height height ≡ true }
    ensures { CellEnds height p cell.0 result }
{
    if cell.is_empty() {
        return Some(1);
    }
    if !cell_fits(Height(height), p, cell) {
        return None;
    }
    Some(20)
}

// The cells from position 1 on.
fn cells_end(height: u32, cells: &[u32], from: usize) -> Option<usize>
    requires { CellsAt height from cells.now }
    ensures { CellsEnd height cells.now from result }
{
    let mut at = from;
    for i in 1..cells.len() {
        at += cell_bits(height, i, Cell(cells[i]))?;
    }
    Some(at)
}

fn words_fit(words: &[u32], limit: usize) -> bool
    ensures { result ≡ every (λ w. ltb w limit) words.now }
{
    words.iter().all(|&w| wide(w) < limit)
}

// The word count, the words and the cells.
fn stage_end(height: u32, cells: &[u32], words: &[u32], at: usize) -> Option<usize>
    requires { StageAt height at cells.now }
    ensures { StageEnds height cells.now words.now at result }
{
    if cells[0] != EMPTY {
        return None;
    }
    if 65535 < words.len() {
        return None;
    }
    if !words_fit(words, Height(height).word_limit()) {
        return None;
    }
    cells_end(height, cells, at + 16 + 8 * words.len())
}

// Behind the sheet number, the height and the stage count.
fn stages_end(
    height: u32,
    stages: usize,
    plan: &[u32],
    words: &[u32],
    counts: &[u32],
) -> Option<usize>
    requires { StagesAt height stages plan.now words.now counts.now }
    ensures { StagesEnd height stages plan.now words.now counts.now result }
{
    let size = Height(height).stage_size();
    let mut at = 28;
    let mut from = 0;
    for i in 0..stages {
        let count = wide(counts[i]);
        at = stage_end(
            height,
            &plan[i * size..i * size + size],
            &words[from..from + count],
            at,
        )?;
        from += count;
    }
    Some(at)
}

fn sum_of(counts: &[u32]) -> usize
    requires { length counts.now ≤ 65535 }
    ensures { result ≡ sum counts.now }
{
    let mut total = 0;
    for c in counts {
        total += wide(*c);
    }
    total
}

// Do the areas hold so many stages?
fn hold(height: u32, stages: usize, plan: &[u32], words: &[u32], counts: &[u32]) -> bool
    requires { Sized height stages }
    ensures { result ≡ stand height stages (areas plan.now words.now counts.now) }
{
    if plan.len() < stages * Height(height).stage_size() {
        return false;
    }
    stages <= counts.len() && sum_of(&counts[0..stages]) <= words.len()
}

// The sheet's bits, without its padding.
pub fn measure(
    height: u32,
    stages: usize,
    plan: &[u32],
    words: &[u32],
    counts: &[u32],
) -> Option<usize>
    ensures { Measured height stages (areas plan.now words.now counts.now) result }
{
    if !is_height(height) {
        return None;
    }
    if 65535 < stages {
        return None;
    }
    if !hold(height, stages, plan, words, counts) {
        return None;
    }
    stages_end(height, stages, plan, words, counts)
}
