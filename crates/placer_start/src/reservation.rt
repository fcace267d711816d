// The reservation, record after record. Each pin has a chain of its distinct activations: RANKED has one more than the newest one's
// index, 0 for none; the tail has, from RECORDS on, two numbers an index: the activation, and one more than the next one's index. A
// record's index is where it stands. Counting stops once a limit is passed, so no chain grows longer than the limit and one.
ghost use Rattle.std.specs.Prelude.{length, drop};
ghost use Rattle.rules.specs.Records as rules;
ghost use Rattle.rules.specs.Records.{flip_flop, group_at, groups_of};
ghost use Rattle.rules.specs.Inside.Some.{Some, Every};
ghost use Rattle.placer_start.specs.Reservation.{WholeAt, AddsGroup, ChainAt, Knows, LinkAt, Linked, CodeAt, Coded, CountAt, Counted, Few, Judged, SetAside, ReserveAt, Reserved};

use columns::{RANKED, RECORDS, get, set_field, tail_get, tail_set, wide};
use graph::{Literal, Pin, inversion_of, pin_of};
use records::{Kind, kind_of, starts};

// What a record adds: a memory, or at a pin an activation's number.
#[derive(Clone, Copy)]
pub enum Added {
    Memory,
    Code(Pin, usize),
}

// Memories, and duplicates: activations at a pin beyond its first.
#[derive(Clone, Copy, Default)]
pub struct Count {
    pub memories: usize,
    pub duplicates: usize,
}

// An output's activation: 2 + inversion.
fn output(l: Literal) -> Added
    ensures { AddsGroup (rules.output l.0) result }
{
    Added::Code(pin_of(l), 2 + wide(inversion_of(l)))
}

// A flip-flop's, at its data pin: 2 × enable literal + data inversion.
fn flip_flop(enable: Literal, input: Literal) -> Added
    ensures { AddsGroup (flip_flop enable.0 input.0) result }
{
    Added::Code(
        pin_of(input),
        2 * wide(enable.0) + wide(inversion_of(input)),
    )
}

// What the whole record at an index adds.
pub fn adds(records: &[u32], at: usize) -> Added
    requires { WholeAt at records.now }
    ensures { AddsGroup (group_at (drop at records.now)) result }
{
    let kind = kind_of(records[at]);
    let first = records[at + 1];
    match kind {
        Some(Kind::Memory) => Added::Memory,
        Some(Kind::Output) => output(Literal(first)),
        Some(Kind::FlipFlop) => flip_flop(Literal(first), Literal(records[at + 2])),
        Some(Kind::StagedPin) => Added::Code(Pin(first), 2),
        // A whole record has a known kind.
        None => Added::Memory,
    }
}

// Is the activation in the chain from `head`?
fn has_code(work: &[u32], m: usize, head: usize, code: usize) -> bool
    requires { Some (λ cs. ChainAt m head cs work.now) }
    ensures { Every (λ cs. ChainAt m head cs work.now) (λ cs. Knows code cs result) }
{
    let mut h = head;
    // A chain: each place names the next.
    while h != 0 {
        let i = h - 1;
        if tail_get(work, m, RECORDS + 2 * i) == code {
            return true;
        }
        h = tail_get(work, m, RECORDS + 2 * i + 1);
    }
    false
}

// An activation with index k goes before pin p's chain from `head`. It fits, since a literal of one of the m pins is below 131,072.
fn link(work: &mut [u32], m: usize, k: usize, p: Pin, head: usize, code: usize)
    requires { LinkAt m k p.0 head code work.old }
    ensures { Linked m k p.0 head code work.old work.new }
{
    tail_set(work, m, RECORDS + 2 * k, code as u32);
    tail_set(work, m, RECORDS + 2 * k + 1, head as u32);
    set_field(work, m, p, RANKED, k + 1);
}

// An activation at pin p, with index k. Returns how many duplicates it adds.
fn add_code(work: &mut [u32], m: usize, k: usize, p: Pin, code: usize) -> usize
    requires { Some (λ ys. CodeAt m k p.0 code ys work.old) }
    ensures { Every (λ ys. CodeAt m k p.0 code ys work.old) (λ ys. Coded m k p.0 code ys work.old work.new result) }
{
    let head = get(work, m, p, RANKED);
    if has_code(work, m, head, code) {
        return 0;
    }
    link(work, m, k, p, head, code);
    usize::from(head != 0)
}

// The record that stands at `at`, with index k.
pub fn add_record(
    records: &[u32],
    work: &mut [u32],
    m: usize,
    at: usize,
    k: usize,
    count: Count,
) -> Count
    requires { Some (λ xs. CountAt m at k count xs records.now work.old) }
    ensures { Every (λ xs. CountAt m at k count xs records.now work.old) (λ xs. Counted m at k xs records.now work.old work.new result) }
{
    match adds(records, at) {
        Added::Memory => Count {
            memories: count.memories + 1,
            ..count
        },
        Added::Code(p, code) => Count {
            duplicates: count.duplicates + add_code(work, m, k, p, code),
            ..count
        },
    }
}

// The words set aside for so many.
pub fn set_aside(count: Count) -> usize
    requires { Few count }
    ensures { SetAside count result }
{
    count.memories + count.duplicates.div_ceil(32)
}

// Do so many pass a limit?
pub fn over(count: Count, limit: usize) -> bool
    requires { Few count }
    ensures { Judged count limit result }
{
    limit <= set_aside(count) || limit < 4 * count.memories + count.duplicates
}

// The words set aside for all records, or none as soon as they are sure to be over: refusal 6.
pub fn reserve(records: &[u32], work: &mut [u32], m: usize, limit: usize) -> Option<usize>
    requires { ReserveAt m records.now work.old }
    ensures { Reserved m limit (length records.now) (groups_of records.now) work.old work.new result }
{
    let mut count = Count::default();
    for at in starts(records) {
        count = add_record(records, work, m, at, at, count);
        if over(count, limit) {
            return None;
        }
    }
    Some(set_aside(count))
}
