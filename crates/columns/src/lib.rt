// The lent work area: sixteen columns of m numbers, m = N + 1, and behind them the tail.
// Field f of pin p stands at f * m + p. A list of pins is a column too.
#![tactic(auto)]

ghost use Rattle.std.specs.Prelude.{◌≡◌, not, ◌+◌, ◌*◌, ◌<◌, ◌≤◌, eqb, length, get_or, set, replicate};
ghost use Rattle.rules.specs.Lists.{laid_over};
ghost use Rattle.columns.specs.Area.{put, tail, put_tail};
ghost use Rattle.columns.specs.Lists.{EnlistAt, Enlisted, WaitAt, Waits, SwapAt, Swapped};

pub use cells::wide;
use graph::Pin;

// The traversal's order (a list).
pub const ORDER: usize = 0;

// 1 for a given or realised pin, else 0.
pub const DONE: usize = 1;

// Level by pin.
pub const LEVEL: usize = 2;

// The waiting list (a list).
pub const WAITING: usize = 3;

// How many cells above level 0 hold the pin.
pub const CELLS: usize = 4;

// The level lists ranked, one behind the other.
pub const RANKED: usize = 5;

// Where level h's list begins in RANKED.
pub const STARTS: usize = 6;

// Where it ends.
pub const ENDS: usize = 7;

// Reverse level: 0 none, else one more.
pub const REVERSE: usize = 8;

// The needed pins (a list).
pub const NEEDED: usize = 9;

// 1 for a pin that the traversal listed.
pub const LISTED: usize = 10;

// The traversal's stack: pins; then the pins noted for rule 6, and afterwards the realised endpoints in the order first realised (lists).
pub const STACK: usize = 11;

// The traversal's stack: phases; afterwards the needed waiting pins (a list).
pub const PHASE: usize = 12;

// One more than the pin's place in the waiting list, 0 if it does not wait.
pub const PLACE: usize = 13;

// Scratch marks: needed already, realised already.
pub const MARK: usize = 14;

// Scratch: counting.
pub const SPARE: usize = 15;

// The tail's numbers below this one: word marks of rule 10. This one: filled cells of level 1.
pub const ONES: usize = 256;

// Distinct pins above level 0.
pub const PINS: usize = 257;

// Filled cells of all levels.
pub const FILLED: usize = 258;

// From here on 8 numbers a record number.
pub const RECORDS: usize = 512;

// Number i of column f.
pub fn number_at(work: &[u32], m: usize, i: usize, f: usize) -> usize
    requires { f * m + i < length work.now }
    ensures { result ≡ get_or work.now (f * m + i) 0 }
{
    wide(work[f * m + i])
}

pub fn put_number(work: &mut [u32], m: usize, i: usize, f: usize, v: usize)
    requires i_bound { f * m + i < length work.old }
    requires v_bound { v < 4294967296 }
    ensures { work.new ≡ set work.old (f * m + i) v }
{
    work[f * m + i] = v as u32;
}

// Field f of pin p.
pub fn get(work: &[u32], m: usize, p: Pin, f: usize) -> usize
    requires { f * m + p.0 < length work.now }
    ensures { result ≡ get_or work.now (f * m + p.0) 0 }
{
    number_at(work, m, p.index(), f)
}

// Whether field f of pin p is a mark.
pub fn is_in(work: &[u32], m: usize, p: Pin, f: usize) -> bool
    requires { f * m + p.0 < length work.now }
    ensures { result ≡ not (eqb (get_or work.now (f * m + p.0) 0) 0) }
{
    work[f * m + p.index()] != 0
}

pub fn set_field(work: &mut [u32], m: usize, p: Pin, f: usize, v: usize)
    requires p_bound { f * m + p.0 < length work.old }
    requires v_bound { v < 4294967296 }
    ensures { work.new ≡ set work.old (f * m + p.0) v }
{
    put_number(work, m, p.index(), f, v);
}

// Pin i of the list in column f.
pub fn pin_at(work: &[u32], m: usize, i: usize, f: usize) -> Pin
    requires { f * m + i < length work.now }
    ensures { result.0 ≡ get_or work.now (f * m + i) 0 }
{
    Pin(work[f * m + i])
}

// Pin p at place n of column f: behind a list of n pins.
pub fn push(work: &mut [u32], m: usize, n: usize, f: usize, p: Pin)
    requires { f * m + n < length work.old }
    ensures { work.new ≡ set work.old (f * m + n) p.0 }
{
    work[f * m + n] = p.0;
}

// Number j of the tail.
pub fn tail_get(work: &[u32], m: usize, j: usize) -> usize
    requires { 16 * m + j < length work.now }
    ensures { result ≡ get_or work.now (16 * m + j) 0 }
{
    wide(work[16 * m + j])
}

pub fn tail_set(work: &mut [u32], m: usize, j: usize, v: u32)
    requires { 16 * m + j < length work.old }
    ensures { work.new ≡ set work.old (16 * m + j) v }
{
    work[16 * m + j] = v;
}

// The first n numbers of column f become 0.
pub fn clear_front(work: &mut [u32], m: usize, n: usize, f: usize)
    requires { f * m + n ≤ length work.old }
    ensures { work.new ≡ put f m work.old (replicate n 0) }
{
    let from = f * m;
    let to = from + n;
    work[from..to].fill(0);
}

// The tail's first n numbers become v.
pub fn fill_tail(work: &mut [u32], m: usize, n: usize, v: u32)
    requires { 16 * m + n ≤ length work.old }
    ensures { work.new ≡ put_tail m work.old (laid_over (replicate n v) (tail m work.old)) }
{
    let a = 16 * m;
    let e = a + n;
    work[a..e].fill(v);
}

// The area's first `size` numbers become 0.
pub fn clear(work: &mut [u32], size: usize)
    requires { size ≤ length work.old }
    ensures { work.new ≡ laid_over (replicate size 0) work.old }
{
    work[0..size].fill(0);
}

// Pin p behind the list of n pins in column f, whose marks are column g, unless it is there. Returns how many are listed.
pub fn enlist(work: &mut [u32], m: usize, n: usize, f: usize, g: usize, p: Pin) -> usize
    requires { EnlistAt f g m n p.0 work.old }
    ensures { Enlisted f g m n p.0 work.old work.new result }
{
    if is_in(work, m, p, g) {
        return n;
    }
    push(work, m, n, f, p);
    set_field(work, m, p, g, 1);
    n + 1
}

// Pin p behind the waiting list of n pins, unless it waits. Returns how many wait.
pub fn wait(work: &mut [u32], m: usize, n: usize, p: Pin) -> usize
    requires { WaitAt m n p.0 work.old }
    ensures { Waits m n p.0 work.old work.new result }
{
    if is_in(work, m, p, PLACE) {
        return n;
    }
    push(work, m, n, WAITING, p);
    set_field(work, m, p, PLACE, n + 1);
    n + 1
}

// Pin p leaves the waiting list of n pins, and the last takes its place. Returns how many wait.
pub fn swap_out(work: &mut [u32], m: usize, n: usize, p: Pin) -> usize
    requires { SwapAt m n p.0 work.old }
    ensures { Swapped m n p.0 work.old work.new result }
{
    let last = pin_at(work, m, n - 1, WAITING);
    let place = get(work, m, p, PLACE) - 1;
    push(work, m, place, WAITING, last);
    set_field(work, m, last, PLACE, place + 1);
    set_field(work, m, p, PLACE, 0);
    n - 1
}
