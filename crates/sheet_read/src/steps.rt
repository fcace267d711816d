// The walk through words. A number is stored where the area reaches so far, so that an area of length 0 only measures. The walk stops where
// it meets what 15 refuses.
ghost use Rattle.std.specs.Prelude.{◌≡◌, set};
ghost use Rattle.job.specs.Steps.{Took};
ghost use Rattle.sheet_read.specs.Steps.{one_word, words_read, WordsAt, TookAs};

use bits::field;
use cells::{Height, wide};

// The bit behind what was read, and how many numbers are stored.
#[derive(Clone, Copy)]
pub struct Step {
    pub at: usize,
    pub count: usize,
}

pub fn store(area: &mut [u32], i: usize, x: u32)
    ensures { area.new ≡ set area.old i x }
{
    if i < area.len() {
        area[i] = x;
    }
}

// A word below W.
fn read_word(bytes: &[u8], at: usize, height: u32, area: &mut [u32], s: usize) -> Option<Step>
    requires { WordsAt height at s bytes.now }
    ensures { TookAs (Took (one_word height) bytes.now at s area.old area.new) bytes.now result }
{
    if 8 * bytes.len() - at < 8 {
        return None;
    }
    let word = field(bytes, at, 8);
    if Height(height).word_limit() <= wide(word) {
        return None;
    }
    store(area, s, word);
    Some(Step {
        at: at + 8,
        count: s + 1,
    })
}

pub fn read_words(
    bytes: &[u8],
    from: usize,
    height: u32,
    n: usize,
    area: &mut [u32],
    s: usize,
) -> Option<Step>
    requires { WordsAt height from s bytes.now }
    ensures { TookAs (Took (words_read height n) bytes.now from s area.old area.new) bytes.now result }
{
    let mut at = from;
    let mut count = s;
    for i in 0..n {
        let step = read_word(bytes, at, height, area, count)?;
        at = step.at;
        count = step.count;
    }
    Some(Step { at, count })
}
