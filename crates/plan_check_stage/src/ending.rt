// The end of a stage: position 0, the empty cell of level 1, the words; and the pins that the words hold.
ghost use Rattle.std.specs.Prelude.{◌≡◌, ltb, not};
ghost use Rattle.std.specs.List.{list_any, list_all};
ghost use Rattle.rules.specs.Cells.{filled};
ghost use Rattle.plan_check_stage.specs.Cells.{High, StageHere};
ghost use Rattle.plan_check_stage.specs.Ending.{HasFree, WordsRight, EndRight, WordsAt, WordsMark};

use crate::marks::mark_cells;
use cell::Cell;
use cells::Height;
use graph::wide;

fn has_empty(cells: &[u32]) -> bool
    ensures { result ≡ list_any (λ c. not (filled c)) cells.now }
{
    cells.iter().any(|c| Cell(*c).is_empty())
}

// Does level 1 keep an empty cell?
fn has_free(height: Height, cells: &[u32]) -> bool
    requires { StageHere height.0 cells.now }
    ensures { HasFree height.0 cells.now result }
{
    let from = height.level_one_size();
    let to = 2 * from;
    has_empty(&cells[from..to])
}

fn all_below(words: &[u32], limit: usize) -> bool
    ensures { result ≡ list_all (λ x. ltb x limit) words.now }
{
    words.iter().all(|w| wide(*w) < limit)
}

// Are so many words there, and words of this height?
fn words_right(height: Height, words: &[u32], count: usize) -> bool
    requires { High height.0 }
    ensures { WordsRight height.0 words.now count result }
{
    if words.len() < count {
        return false;
    }
    all_below(&words[..count], height.word_limit())
}

// What stands at position 0 of a stage that may still write `room` words.
pub fn end_right(height: Height, cells: &[u32], words: &[u32], count: usize, room: usize) -> bool
    requires { StageHere height.0 cells.now }
    ensures { EndRight height.0 cells.now words.now count room result }
{
    if !Cell(cells[0]).is_empty() {
        return false;
    }
    if !has_free(height, cells) {
        return false;
    }
    if room < count {
        return false;
    }
    words_right(height, words, count)
}

// The pins that a stage's words hold get a mark.
pub fn mark_words(cells: &[u32], words: &[u32], count: usize, marks: &mut [u8])
    requires { WordsAt cells.now words.now count }
    ensures { WordsMark cells.now words.now count marks.old marks.new }
{
    for word in &words[..count] {
        let at = 32 * wide(*word);
        mark_cells(&cells[at..at + 32], marks, 1);
    }
}
