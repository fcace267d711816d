// The entry of a listing.
ghost use Rattle.std.specs.Prelude.{◌≡◌};
ghost use Rattle.entries.specs.Entry.{entry};
ghost use Rattle.entries.specs.Listing.{answer_listed};

use crate::answers::{WRONG_SIZE, tell_length};
use graph::Pin;
use listing::answer_text;

// As `answer_text`, with number and length in the first two numbers of `answer`. Returns the number. Where `answer` is shorter that is 2,
// and nothing is changed.
#[unsafe(no_mangle)]
pub extern "C" fn list_answer(
    height: u32,
    number: u32,
    stages: usize,
    stage: usize,
    pin: u32,
    plan: &[u32],
    words: &[u32],
    counts: &[u32],
    out: &mut [u8],
    answer: &mut [usize],
) -> u32
    ensures { entry result out.new answer.new ≡ answer_listed height number stages stage pin plan.now words.now counts.now out.old answer.old }
{
    if answer.len() < 2 {
        return WRONG_SIZE;
    }
    let size = answer_text(
        height,
        number,
        stages,
        stage,
        Pin(pin),
        plan,
        words,
        counts,
        out,
    );
    tell_length(size, answer)
}
