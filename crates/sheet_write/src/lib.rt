// Plan sheets, written into lent bytes. `write` takes any areas and bytes.
#![tactic(auto)]

mod fits;
mod sections;

ghost use Rattle.std.specs.Prelude.{◌≡◌};
ghost use Rattle.sheet_form.specs.Forms.{sheet_two};
ghost use Rattle.sheet_form.specs.Calls.{areas, writer};
ghost use Rattle.sheet_write.specs.Fits.{wrote};

use fits::measure;
use refusals::Refusal;
use sections::put_sheet;

// The sheet of the stages that a build left, to the front of the bytes, and how many bytes it has. Refusals: 15 where no sheet holds them, 17 where the
// bytes are too few; they change nothing, so the sheet is measured first.
pub fn write(
    height: u32,
    stages: usize,
    plan: &[u32],
    words: &[u32],
    counts: &[u32],
    bytes: &mut [u8],
) -> Result<usize, Refusal>
    ensures { wrote result bytes.new ≡ writer sheet_two height stages (areas plan.now words.now counts.now) bytes.old }
{
    let Some(bits) = measure(height, stages, plan, words, counts) else {
        return Err(Refusal::NoSheet);
    };
    let length = (bits + 7) / 8;
    if bytes.len() < length {
        return Err(Refusal::TooShort);
    }
    put_sheet(height, stages, plan, words, counts, bytes);
    Ok(length)
}
