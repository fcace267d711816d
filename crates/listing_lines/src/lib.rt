// The lines of a listing, each laid behind the cursor `at`.
#![tactic(auto)]

ghost use Rattle.std.specs.Prelude.{◌≡◌, [], ◌∷◌, ◌++◌, ◌+◌, ◌*◌, take, drop};
ghost use Rattle.rules.specs.Lists.{count};
ghost use Rattle.rules.specs.Cells.{filled};
ghost use Rattle.rules.specs.Listing.{text, decimal, spaced, words_text, cell_lines, stage_lines, stages_lines, listing, pin_text, refused_line};
ghost use Rattle.listing_lines.specs.Laid.{Laid};
ghost use Rattle.listing_lines.specs.Stages.{stages_in, Holds, HoldsOne};

use cell::Cell;
use cells::wide;
use graph::{EMPTY, Pin};
use text::{put_decimal, put_text};

pub mod text;

// How many cells are filled.
fn filled(cells: &[u32]) -> usize
    ensures { result ≡ count filled cells.now }
{
    let mut n = 0;
    for c in cells {
        if *c != EMPTY {
            n += 1;
        }
    }
    n
}

// A filled position's line, with its pin alone, and nothing for an empty one.
fn cell_line(out: &mut [u8], limit: usize, at: usize, p: usize, c: u32) -> usize
    ensures { Laid limit at (cell_lines p (c ∷ [])) out.old result out.new }
{
    if Cell(c).is_empty() {
        return at;
    }
    let a = put_decimal(out, limit, at, p);
    let b = put_text(out, limit, a, b" ");
    let d = put_decimal(out, limit, b, Cell(c).pin().index());
    put_text(out, limit, d, b"\n")
}

fn cell_lines(out: &mut [u8], limit: usize, at: usize, cells: &[u32]) -> usize
    ensures { Laid limit at (cell_lines 0 cells.now) out.old result out.new }
{
    let mut now = at;
    for (p, c) in cells.iter().enumerate() {
        now = cell_line(out, limit, now, p, *c);
    }
    now
}

fn spaced_one(out: &mut [u8], limit: usize, at: usize, word: u32) -> usize
    ensures { Laid limit at (spaced (word ∷ [])) out.old result out.new }
{
    let a = put_text(out, limit, at, b" ");
    put_decimal(out, limit, a, wide(word))
}

// Each word behind a space.
pub fn spaced(out: &mut [u8], limit: usize, at: usize, words: &[u32]) -> usize
    ensures { Laid limit at (spaced words.now) out.old result out.new }
{
    let mut now = at;
    for word in words {
        now = spaced_one(out, limit, now, *word);
    }
    now
}

fn words_text(out: &mut [u8], limit: usize, at: usize, words: &[u32]) -> usize
    ensures { Laid limit at (words_text words.now) out.old result out.new }
{
    if words.is_empty() {
        put_text(out, limit, at, b" -")
    } else {
        spaced(out, limit, at, words)
    }
}

// A stage's number and how many of its cells are filled.
fn stage_head(out: &mut [u8], limit: usize, at: usize, k: usize, cells: &[u32]) -> usize
    ensures { Laid limit at (text "stage " ++ decimal k ++ text " cells " ++ decimal (count filled cells.now)) out.old result out.new }
{
    let a = put_text(out, limit, at, b"stage ");
    let b = put_decimal(out, limit, a, k);
    let d = put_text(out, limit, b, b" cells ");
    put_decimal(out, limit, d, filled(cells))
}

fn stage_lines(
    out: &mut [u8],
    limit: usize,
    at: usize,
    k: usize,
    cells: &[u32],
    words: &[u32],
) -> usize
    ensures { Laid limit at (stage_lines k (record { plan = cells.now; words = words.now })) out.old result out.new }
{
    let a = stage_head(out, limit, at, k, cells);
    let b = put_text(out, limit, a, b" words");
    let d = words_text(out, limit, b, words);
    let e = put_text(out, limit, d, b"\n");
    cell_lines(out, limit, e, cells)
}

// Stage k + 1 of those that stand in the areas, with `count` words from `from` on.
fn next_stage(
    out: &mut [u8],
    limit: usize,
    at: usize,
    size: usize,
    k: usize,
    from: usize,
    count: usize,
    plan: &[u32],
    words: &[u32],
) -> usize
    requires { HoldsOne size k from count plan.now words.now }
    ensures { Laid limit at (stage_lines (k + 1) (record { plan = take size (drop (k * size) plan.entry.now); words = take count (drop from words.now) })) out.old result out.new }
{
    let a = k * size;
    let e = a + size;
    let to = from + count;
    stage_lines(out, limit, at, k + 1, &plan[a..e], &words[from..to])
}

fn stages_lines(
    out: &mut [u8],
    limit: usize,
    at: usize,
    size: usize,
    n: usize,
    plan: &[u32],
    words: &[u32],
    counts: &[u32],
) -> usize
    requires { Holds size n plan.now words.now counts.now }
    ensures { Laid limit at (stages_lines 1 (stages_in size n plan.now words.now counts.now)) out.old result out.new }
{
    let mut now = at;
    let mut from = 0;
    for k in 0..n {
        let count = wide(counts[k]);
        now = next_stage(out, limit, now, size, k, from, count, plan, words);
        from += count;
    }
    now
}

fn first_line(out: &mut [u8], limit: usize, height: u32, n: usize) -> usize
    ensures { Laid limit 0 (text "plan height " ++ decimal height ++ text " stages " ++ decimal n ++ text "\n") out.old result out.new }
{
    let a = put_text(out, limit, 0, b"plan height ");
    let b = put_decimal(out, limit, a, wide(height));
    let d = put_text(out, limit, b, b" stages ");
    let e = put_decimal(out, limit, d, n);
    put_text(out, limit, e, b"\n")
}

// The listing of n stages of this size each.
pub fn whole(
    out: &mut [u8],
    limit: usize,
    height: u32,
    size: usize,
    n: usize,
    plan: &[u32],
    words: &[u32],
    counts: &[u32],
) -> usize
    requires { Holds size n plan.now words.now counts.now }
    ensures { Laid limit 0 (listing height (stages_in size n plan.now words.now counts.now)) out.old result out.new }
{
    let a = first_line(out, limit, height, n);
    let b = stages_lines(out, limit, a, size, n, plan, words, counts);
    put_text(out, limit, b, b"end\n")
}

fn pin_text(out: &mut [u8], limit: usize, at: usize, pin: Pin) -> usize
    ensures { Laid limit at (pin_text pin.0) out.old result out.new }
{
    let p = pin.index();
    if p == 0 {
        return at;
    }
    let a = put_text(out, limit, at, b" pin ");
    put_decimal(out, limit, a, p)
}

// The pin is shown where it is not 0.
pub fn refused_line(out: &mut [u8], limit: usize, number: u32, stage: usize, pin: Pin) -> usize
    ensures { Laid limit 0 (refused_line number stage pin.0) out.old result out.new }
{
    let a = put_text(out, limit, 0, b"refused ");
    let b = put_decimal(out, limit, a, wide(number));
    let d = put_text(out, limit, b, b" stage ");
    let e = put_decimal(out, limit, d, stage);
    let f = pin_text(out, limit, e, pin);
    put_text(out, limit, f, b"\n")
}
