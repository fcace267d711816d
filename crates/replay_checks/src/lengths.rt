// Checks 20 and 17, by lengths. A product is never made: what it is compared with is divided.
ghost use Rattle.std.specs.Prelude.{◌≡◌, ◌*◌, leb, eqb};
ghost use Rattle.replay_form.specs.Calls.{lengths_right, out_right};
ghost use Rattle.refusals.specs.Numbers.{number_said, pin_said};
ghost use Rattle.replay_checks.specs.Values.{measured};

use crate::counts::Counts;
use refusals::Refusal;

// Is a length n times `each`?
pub fn is_product(length: usize, n: usize, each: usize) -> bool
    ensures { result ≡ eqb length (n * each) }
{
    if each == 0 {
        return length == 0;
    }
    length % each == 0 && length / each == n
}

// Is n times `each` within a length?
pub fn has_product(length: usize, n: usize, each: usize) -> bool
    ensures { result ≡ leb (n * each) length }
{
    each == 0 || n <= length / each
}

fn lengths_right(
    flips: usize,
    leaves: usize,
    driven: usize,
    starting: usize,
    lines: usize,
    recording: usize,
) -> bool
    ensures { result ≡ lengths_right flips leaves driven starting lines recording }
{
    driven == flips && starting == flips && is_product(recording, lines, leaves)
}

fn out_right(flips: usize, bits: usize, lines: usize, out: usize, end: usize) -> bool
    ensures { result ≡ out_right flips bits lines out end }
{
    has_product(out, lines, bits) && flips <= end
}

// The first of 20 and 17 that applies.
pub fn measure(
    counts: Counts,
    leaves: usize,
    driven: usize,
    starting: usize,
    lines: usize,
    recording: usize,
    out: usize,
    end: usize,
) -> Result<(), Refusal>
    ensures number { number_said result ≡ measured counts.flips counts.bits leaves driven starting lines recording out end }
    ensures pin { pin_said result ≡ 0 }
{
    let flips = counts.flips;
    let bits = counts.bits;
    if !lengths_right(flips, leaves, driven, starting, lines, recording) {
        return Err(Refusal::WrongLength);
    }
    if !out_right(flips, bits, lines, out, end) {
        return Err(Refusal::TooShort);
    }
    Ok(())
}
