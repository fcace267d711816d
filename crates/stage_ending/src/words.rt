// Rule 10: the distinct words of the cells that hold an unrealised tree endpoint, levels 1 upward, cells rising. While they are
// collected, number j of the tail is one more than word j's place among them, 0 for none.
ghost use Rattle.std.specs.Prelude.{◌≡◌, ◌+◌, ◌*◌, ◌<◌, ◌≤◌, length};
ghost use Rattle.rules.specs.Cells.{row_at};
ghost use Rattle.rules.specs.Inside.Some.{Some, Every};
ghost use Rattle.stage_ending.specs.Words.{is_end, WordAt, Worded, CellAt, Celled, RowAt, Rowed, UpAt, Upped, OneAt, One, WriteAt, Written};

use cells::Height;
use columns::{MARK, PLACE, SPARE, is_in, tail_get, tail_set};
use graph::{EMPTY, Pin};
use stage_sparse::count_from;

// Does pin p wait, neither realised nor needed?
fn is_end(work: &[u32], m: usize, p: Pin) -> bool
    requires { (p.0 < m) × (16 * m ≤ length work.now) }
    ensures { result ≡ is_end m work.now p.0 }
{
    if is_in(work, m, p, MARK) {
        return false;
    }
    if is_in(work, m, p, SPARE) {
        return false;
    }
    is_in(work, m, p, PLACE)
}

// Word j behind the n collected ones, unless it is there. Returns how many there are.
fn word(work: &mut [u32], m: usize, n: usize, j: usize) -> usize
    requires { Some (λ ws. WordAt m n j ws work.old) }
    ensures { Every (λ ws. WordAt m n j ws work.old) (λ ws. Worded m j ws work.old work.new result) }
{
    if tail_get(work, m, j) != 0 {
        return n;
    }
    tail_set(work, m, j, (n + 1) as u32);
    n + 1
}

// The word of the cell at position c, if an endpoint stands there.
fn cell(stage: &[u32], work: &mut [u32], m: usize, n: usize, c: usize) -> usize
    requires { Some (λ ws. CellAt m n c ws stage.now work.old) }
    ensures { Every (λ ws. CellAt m n c ws stage.now work.old) (λ ws. Celled m c ws stage.now work.old work.new result) }
{
    let p = Pin(stage[c]);
    if p.0 == EMPTY {
        return n;
    }
    if is_end(work, m, p) {
        return word(work, m, n, c / 32);
    }
    n
}

// The words of the cells from a to e.
fn row(stage: &[u32], work: &mut [u32], m: usize, n: usize, a: usize, e: usize) -> usize
    requires { Some (λ ws. RowAt m n a e ws stage.now work.old) }
    ensures { Every (λ ws. RowAt m n a e ws stage.now work.old) (λ ws. Rowed m a e ws stage.now work.old work.new result) }
{
    let mut k = n;
    for c in a..e {
        k = cell(stage, work, m, k, c);
    }
    k
}

// The same for the 32 cells from a on. In most trees most of these are all empty, and counting that is quicker than looking at each.
fn run(stage: &[u32], work: &mut [u32], m: usize, n: usize, a: usize) -> usize
    requires { Some (λ ws. RowAt m n a (a + 32) ws stage.now work.old) }
    ensures { Every (λ ws. RowAt m n a (a + 32) ws stage.now work.old) (λ ws. Rowed m a (a + 32) ws stage.now work.old work.new result) }
{
    if count_from(stage, a) == 0 {
        return n;
    }
    row(stage, work, m, n, a, a + 32)
}

// The cells from a to e run by run; the highest levels have less than one.
fn level(stage: &[u32], work: &mut [u32], m: usize, n: usize, a: usize, e: usize) -> usize
    requires { Some (λ ws. RowAt m n a e ws stage.now work.old) }
    ensures { Every (λ ws. RowAt m n a e ws stage.now work.old) (λ ws. Rowed m a e ws stage.now work.old work.new result) }
{
    let runs = (e - a) / 32;
    let mut k = n;
    for i in 0..runs {
        k = run(stage, work, m, k, a + 32 * i);
    }
    row(stage, work, m, k, a + 32 * runs, e)
}

// All levels from 1 upward; each row has half the cells of the one below. Returns how many words there are.
pub fn collect(stage: &[u32], work: &mut [u32], m: usize, height: Height) -> usize
    requires { UpAt m height.0 (row_at height.0 1) stage.now work.old }
    ensures { Upped m height.0 stage.now work.old work.new result }
{
    let mut n = 0;
    let mut w = height.level_one_size();
    for _level in 0..height.0 {
        n = level(stage, work, m, n, w, 2 * w);
        w /= 2;
    }
    n
}

// Word j, if it is collected, goes to its place behind `at`.
fn write_one(words: &mut [u32], work: &mut [u32], m: usize, at: usize, j: usize)
    requires { OneAt m at j words.old work.old }
    ensures { One m at j words.old work.old words.new work.new }
{
    let k = tail_get(work, m, j);
    if k == 0 {
        return;
    }
    words[at + k - 1] = j as u32;
    tail_set(work, m, j, 0);
}

// The n collected words go behind `at`, and are collected no more.
pub fn write(words: &mut [u32], work: &mut [u32], m: usize, at: usize, n: usize)
    requires { Some (λ ws. WriteAt m at n ws words.old work.old) }
    ensures { Every (λ ws. WriteAt m at n ws words.old work.old) (λ ws. Written m at ws words.old work.old words.new work.new) }
{
    for j in 0..256 {
        write_one(words, work, m, at, j);
    }
}
