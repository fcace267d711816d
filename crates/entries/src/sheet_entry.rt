// The entries that read and write a plan sheet.
ghost use Rattle.std.specs.Prelude.{◌≡◌};
ghost use Rattle.sheet_form.specs.Calls.{areas};
ghost use Rattle.entries.specs.Entry.{entry};
ghost use Rattle.entries.specs.Sheets.{sheet_read, sheet_written};

use crate::answers::{WRONG_SIZE, tell, tell_length};
use columns::wide;
use sheet::{read, write};

// As `sheet::read`, with number, height, stages and words in the first four numbers of `answer`. Returns the number. Where `answer` is shorter
// that is 2, and nothing is changed.
#[unsafe(no_mangle)]
pub extern "C" fn read_sheet(
    gates: &[u32],
    bytes: &[u8],
    plan: &mut [u32],
    words: &mut [u32],
    counts: &mut [u32],
    answer: &mut [usize],
) -> u32
    ensures { entry result (areas plan.new words.new counts.new) answer.new ≡ sheet_read gates.now bytes.now (areas plan.old words.old counts.old) answer.old }
{
    if answer.len() < 4 {
        return WRONG_SIZE;
    }
    match read(gates, bytes, plan, words, counts) {
        Ok(sheet) => {
            tell(&[0, wide(sheet.height), sheet.stages, sheet.words], answer);
            0
        }
        Err(why) => {
            let number = why.number();
            tell(&[wide(number), 0, 0, 0], answer);
            number
        }
    }
}

// As `sheet::write`, with number and length in the first two numbers of `answer`. Returns the number. Where `answer` is shorter that is 2, and
// nothing is changed.
#[unsafe(no_mangle)]
pub extern "C" fn write_sheet(
    height: u32,
    stages: usize,
    plan: &[u32],
    words: &[u32],
    counts: &[u32],
    bytes: &mut [u8],
    answer: &mut [usize],
) -> u32
    ensures { entry result bytes.new answer.new ≡ sheet_written height stages (areas plan.now words.now counts.now) bytes.old answer.old }
{
    if answer.len() < 2 {
        return WRONG_SIZE;
    }
    tell_length(write(height, stages, plan, words, counts, bytes), answer)
}
