// Rule 10 in the last stage. m = N + 1; n pins wait; the words go behind `at`, where there is `room` for so many.
ghost use Rattle.rules.specs.Cells.{row_at};
ghost use Rattle.stage_ending.specs.Last.{LastAt, Lasted};

use crate::close::realise_all;
use crate::words::{collect, write};
use cells::Height;

// The pins realised and the words written so far.
#[derive(Clone, Copy)]
pub struct Kept {
    pub real: usize,
    pub words: usize,
}

// The words of the unrealised tree endpoints, if all fit; then all tree endpoints are realised.
pub fn last_words(
    stage: &[u32],
    work: &mut [u32],
    words: &mut [u32],
    m: usize,
    height: Height,
    n: usize,
    at: usize,
    room: usize,
    s: Kept,
) -> Kept
    requires { LastAt m height.0 (row_at height.0 1) n at room s stage.now work.old words.old }
    ensures { Lasted m height.0 n at room s stage.now work.old words.old result work.new words.new }
{
    let spent = s.words;
    let k = collect(stage, work, m, height);
    if room < spent + k {
        return s;
    }
    write(words, work, m, at + spent, k);
    Kept {
        real: realise_all(work, m, n, s.real),
        words: spent + k,
    }
}
