// Rules 8 and 9: needed pins go into the empty cells of level 1. m = N + 1, and level 1 has `half` cells from position `half` on.
ghost use Rattle.std.specs.Prelude.{◌≡◌, ◌||◌, ◌+◌, ◌-◌, ◌≤◌, leb};
ghost use Rattle.rules.specs.Ending.{put_cell, put_cells, goes_on};
ghost use Rattle.rules.specs.Inside.Some.{Some, Every};
ghost use Rattle.stage_runs.specs.Puts.{CellAt, RunAt, Put, NoteAt, Noted, RecordAt, PutRecord, WriteAt, Wrote};
ghost use Rattle.rules.specs.Traversal.{needed_runs};

use columns::{MARK, PHASE, PLACE, STACK, enlist, is_in, pin_at, wide};
use graph::{EMPTY, Pin};
use stage_sparse::Sparse;
use stage_tree::place_pin;

// How many of the needed waiting pins are put, and how many pins are realised.
#[derive(Clone, Copy)]
pub struct Puts {
    pub next: usize,
    pub real: usize,
}

// Rule 8 at the cell at position c, of k needed waiting pins.
fn put_cell(
    gates: &[u32],
    stage: &mut [u32],
    work: &mut [u32],
    m: usize,
    half: usize,
    k: usize,
    c: usize,
    s: Puts,
) -> Puts
    requires { Some (λ C. CellAt C m half k c s gates.now stage.old work.old) }
    ensures { Every (λ C. CellAt C m half k c s gates.now stage.old work.old) (λ C. Put C m k (put_cell C.X c) gates.now s stage.old work.old result stage.new work.new) }
{
    let next = s.next;
    let real = s.real;
    if next == k {
        return s;
    }
    let p = Pin(stage[c]);
    if p.0 == EMPTY {
        let q = pin_at(work, m, next, PHASE);
        place_pin(gates, stage, work, m, 1, half, c, q);
        let more = enlist(work, m, real, STACK, MARK, q);
        return Puts {
            next: next + 1,
            real: more,
        };
    }
    if is_in(work, m, p, PLACE) {
        let more = enlist(work, m, real, STACK, MARK, p);
        return Puts { next, real: more };
    }
    s
}

// Through the 32 cells from position a on.
fn put_run(
    gates: &[u32],
    stage: &mut [u32],
    work: &mut [u32],
    m: usize,
    half: usize,
    k: usize,
    a: usize,
    s: Puts,
) -> Puts
    requires { Some (λ C. RunAt C m half k a s gates.now stage.old work.old) }
    ensures { Every (λ C. RunAt C m half k a s gates.now stage.old work.old) (λ C. Put C m k (put_cells C.X 32 a) gates.now s stage.old work.old result stage.new work.new) }
{
    let mut t = s;
    for i in 0..32 {
        t = put_cell(gates, stage, work, m, half, k, a + i, t);
    }
    t
}

// Rule 8's test of a record: the last stage, or enough of the needed waiting pins left.
fn enough(last: bool, filled: u32, left: usize) -> bool
    requires { left ≤ 65536 }
    ensures { result ≡ (last || leb (32 - filled) left) }
{
    last || 32 <= left + wide(filled)
}

// Whether a run is written: none once no needed waiting pin is left.
fn goes_on(last: bool, filled: u32, left: usize) -> bool
    requires { left ≤ 65536 }
    ensures { result ≡ goes_on needed_runs last filled left }
{
    left != 0 && enough(last, filled, left)
}

// Word j of the stage, if it is one of the `room` that may be written.
fn note(words: &mut [u32], at: usize, room: usize, j: usize, word: u32)
    requires { NoteAt at room words.old }
    ensures { Noted at room j word words.old words.new }
{
    if j < room {
        words[at + j] = word;
    }
}

// The run that starts at level-1 cell `start`, and its word, which is word j of the stage.
fn put_record(
    gates: &[u32],
    stage: &mut [u32],
    work: &mut [u32],
    words: &mut [u32],
    m: usize,
    half: usize,
    k: usize,
    at: usize,
    room: usize,
    j: usize,
    start: usize,
    s: Puts,
) -> Puts
    requires { Some (λ C. RecordAt C m half k at room start s gates.now stage.old work.old words.old) }
    ensures { Every (λ C. RecordAt C m half k at room start s gates.now stage.old work.old words.old) (λ C. PutRecord C m half k at room j start gates.now s stage.old work.old words.old result stage.new work.new words.new) }
{
    note(words, at, room, j, ((half + start) / 32) as u32);
    put_run(gates, stage, work, m, half, k, half + start, s)
}

// What the runs leave, and how many words are written.
#[derive(Clone, Copy)]
pub struct Written {
    pub puts: Puts,
    pub words: usize,
}

// The sparse records in order. The words go behind `at` in `words`, as many as the `room` there allows.
pub fn put_runs(
    gates: &[u32],
    stage: &mut [u32],
    work: &mut [u32],
    words: &mut [u32],
    m: usize,
    half: usize,
    k: usize,
    last: bool,
    at: usize,
    room: usize,
    runs: &[Sparse],
) -> Written
    requires { Some (λ C. WriteAt C m half k at room runs.now gates.now stage.old work.old words.old) }
    ensures { Every (λ C. WriteAt C m half k at room runs.now gates.now stage.old work.old words.old) (λ C. Wrote C m half k last at room runs.now gates.now stage.old work.old words.old result stage.new work.new words.new) }
{
    let mut puts = Puts { next: 0, real: 0 };
    for (j, r) in runs.iter().enumerate() {
        if !goes_on(last, r.filled, k - puts.next) {
            return Written { puts, words: j };
        }
        let start = wide(r.start);
        puts = put_record(
            gates, stage, work, words, m, half, k, at, room, j, start, puts,
        );
    }
    Written {
        puts,
        words: runs.len(),
    }
}
