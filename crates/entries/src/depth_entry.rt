// The entries that tell D and what is set aside.
ghost use Rattle.std.specs.Prelude.{◌≡◌};
ghost use Rattle.entries.specs.Entry.{entry};
ghost use Rattle.entries.specs.Depth.{depth_told, reserved_told};

use crate::answers::{WRONG_SIZE, tell};
use columns::wide;
use depth::{depth, reserved};

// As `depth::depth`, with number, D and pin in the first three numbers of `answer`. Returns the number. Where `answer` is shorter that is 2,
// and nothing is changed.
#[unsafe(no_mangle)]
pub extern "C" fn placer_depth(
    gates: &[u32],
    given: &[u32],
    records: &[u32],
    work: &mut [u32],
    answer: &mut [usize],
) -> u32
    ensures { entry result work.new answer.new ≡ depth_told gates.now given.now records.now work.old answer.old }
{
    if answer.len() < 3 {
        return WRONG_SIZE;
    }
    match depth(gates, given, records, work) {
        Ok(depth) => {
            tell(&[0, depth, 0], answer);
            0
        }
        Err(why) => {
            let number = why.number();
            tell(&[wide(number), 0, why.pin().index()], answer);
            number
        }
    }
}

// As `depth::reserved`, with number, memories, duplicates, words set aside and pin in the first five numbers of `answer`. Returns the
// number. Where `answer` is shorter that is 2, and nothing is changed.
#[unsafe(no_mangle)]
pub extern "C" fn placer_reserved(
    gates: &[u32],
    given: &[u32],
    records: &[u32],
    work: &mut [u32],
    answer: &mut [usize],
) -> u32
    ensures { entry result work.new answer.new ≡ reserved_told gates.now given.now records.now work.old answer.old }
{
    if answer.len() < 5 {
        return WRONG_SIZE;
    }
    match reserved(gates, given, records, work) {
        Ok(a) => {
            tell(&[0, a.memories, a.duplicates, a.words, 0], answer);
            0
        }
        Err(why) => {
            let number = why.number();
            tell(&[wide(number), 0, 0, 0, why.pin().index()], answer);
            number
        }
    }
}
