// The listing of a plan that stands in lent areas, or a refusal's line, as bytes over the front of another area. A text is laid twice:
// first where it changes nothing, which tells its length, so that an area too short for it stays as it is.
#![tactic(auto)]

ghost use Rattle.std.specs.Prelude.{◌≡◌, true, ◌≤◌, leb, length, take};
ghost use Rattle.rules.specs.Lists.{sum};
ghost use Rattle.rules.specs.Cells.{is_height};
ghost use Rattle.rules.specs.Listing.{listing, refused_line};
ghost use Rattle.listing_lines.specs.Stages.{stages_in, Holds};
ghost use Rattle.listing.specs.Listing.{told, written, hold, listed, answered};

use cells::{Height, is_height, wide};
use graph::Pin;
use listing_lines::{refused_line, whole};
use refusals::Refusal;

// Whether the first n counts sum to no more than `most`.
fn spent_in(counts: &[u32], n: usize, most: usize) -> bool
    requires { n ≤ length counts.now }
    ensures { result ≡ leb (sum (take n counts.now)) most }
{
    let mut left = most;
    for c in &counts[..n] {
        let count = wide(*c);
        if count > left {
            return false;
        }
        left -= count;
    }
    true
}

// Whether n stages of this height stand in the areas.
fn holds(height: u32, n: usize, plan: &[u32], words: &[u32], counts: &[u32]) -> bool
    requires { is_height height ≡ true }
    ensures { result ≡ hold height n plan.now words.now counts.now }
{
    if n > Height(height).rooms(plan.len()) || n > counts.len() {
        return false;
    }
    spent_in(counts, n, words.len())
}

// The listing of n stages of this size each, which stand in the areas.
fn lay(
    height: u32,
    size: usize,
    n: usize,
    plan: &[u32],
    words: &[u32],
    counts: &[u32],
    out: &mut [u8],
) -> Result<usize, Refusal>
    requires { Holds size n plan.now words.now counts.now }
    ensures { told result out.new ≡ written (listing height (stages_in size n plan.now words.now counts.now)) out.old }
{
    let mut nowhere: [u8; 1] = [0; 1];
    let limit = out.len() + 1;
    let length = whole(&mut nowhere, limit, height, size, n, plan, words, counts);
    if length > out.len() {
        return Err(Refusal::WrongSize);
    }
    whole(out, limit, height, size, n, plan, words, counts);
    Ok(length)
}

// The listing of the n stages that stand in plan, words and counts as a build leaves them. Answers the length of the text; refused with 1 for a bad
// height, with 2 for an area of the wrong size.
pub fn listing(
    height: u32,
    n: usize,
    plan: &[u32],
    words: &[u32],
    counts: &[u32],
    out: &mut [u8],
) -> Result<usize, Refusal>
    ensures { told result out.new ≡ listed height n plan.now words.now counts.now out.old }
{
    if !is_height(height) {
        return Err(Refusal::NoHeight);
    }
    if !holds(height, n, plan, words, counts) {
        return Err(Refusal::WrongSize);
    }
    let size = Height(height).stage_size();
    lay(height, size, n, plan, words, counts, out)
}

// A refusal's line; the pin is shown where it is not 0. The refusal is a number, since a caller from C may hand in any.
pub fn refused(number: u32, stage: usize, pin: Pin, out: &mut [u8]) -> Result<usize, Refusal>
    ensures { told result out.new ≡ written (refused_line number stage pin.0) out.old }
{
    let mut nowhere: [u8; 1] = [0; 1];
    let limit = out.len() + 1;
    let length = refused_line(&mut nowhere, limit, number, stage, pin);
    if length > out.len() {
        return Err(Refusal::WrongSize);
    }
    refused_line(out, limit, number, stage, pin);
    Ok(length)
}

// What a build's answer and areas print.
pub fn answer_text(
    height: u32,
    number: u32,
    stages: usize,
    stage: usize,
    pin: Pin,
    plan: &[u32],
    words: &[u32],
    counts: &[u32],
    out: &mut [u8],
) -> Result<usize, Refusal>
    ensures { told result out.new ≡ answered height number stages stage pin.0 plan.now words.now counts.now out.old }
{
    if number != 0 {
        return refused(number, stage, pin, out);
    }
    listing(height, stages, plan, words, counts, out)
}
