// Endpoint records: a kind, then its numbers. A number that is no kind has none.
#![tactic(auto)]

ghost use Rattle.std.specs.Prelude.{◌≡◌, ◌-◌, length};
ghost use Rattle.std.specs.Iterator.{at_most};
ghost use Rattle.rules.specs.Records.{size_of};
ghost use Rattle.records.specs.Values.{number_or_zero, known, named_by, size_at, endpoint_at};
ghost use Rattle.records.specs.Walk.{Steps};

use graph::{Literal, Pin, pin_of};

#[derive(Clone, Copy)]
pub enum Kind {
    Output,
    FlipFlop,
    Memory,
    StagedPin,
}

pub fn kind_of(number: u32) -> Option<Kind>
    ensures { number_or_zero result ≡ known number }
{
    match number {
        1 => Some(Kind::Output),
        2 => Some(Kind::FlipFlop),
        3 => Some(Kind::Memory),
        4 => Some(Kind::StagedPin),
        _ => None,
    }
}

// How many numbers stand behind a kind; none behind no kind.
pub fn size_of(kind: Option<Kind>) -> usize
    ensures { result ≡ size_of (number_or_zero kind) }
{
    match kind {
        Some(kind) => match kind {
            Kind::Output => 1,
            Kind::FlipFlop => 2,
            Kind::Memory => 91,
            Kind::StagedPin => 1,
        },
        None => 0,
    }
}

// The same of a kind's number, 0 if it is none.
pub fn size_for(number: u32) -> usize
    ensures { result ≡ size_of number }
{
    size_of(kind_of(number))
}

// The pin that a number behind a kind names; behind no kind it is the pin itself.
pub fn named(kind: Option<Kind>, number: u32) -> Pin
    ensures { result.0 ≡ named_by (number_or_zero kind) number }
{
    match kind {
        Some(kind) => match kind {
            Kind::StagedPin => Pin(number),
            Kind::Output | Kind::FlipFlop | Kind::Memory => pin_of(Literal(number)),
        },
        None => Pin(number),
    }
}

// How many numbers the whole record at an index has behind its kind; 0 if none stands there.
pub fn size_at(records: &[u32], at: usize) -> usize
    ensures { result ≡ size_at records.now at }
{
    if records.len() <= at {
        return 0;
    }
    let size = size_for(records[at]);
    if size < records.len() - at { size } else { 0 }
}

// The i-th pin of the whole record at an index; pin 0 if there is none.
pub fn endpoint(records: &[u32], at: usize, i: usize) -> Pin
    ensures { result.0 ≡ endpoint_at records.now at i }
{
    if size_at(records, at) <= i {
        return Pin(0);
    }
    named(kind_of(records[at]), records[at + 1 + i])
}

// Where each whole record starts, as far as one stands behind the other.
#[derive(Drop)]
pub struct Walk<'a> {
    records: &'a [u32],
    at: usize,
}

pub fn starts(records: &[u32]) -> Walk<'_>
    ensures records { result.records.now ≡ records.now }
    ensures at { result.at ≡ 0 }
{
    Walk { records, at: 0 }
}

impl Iterator for Walk<'_> {
    type Item = usize;

    ghost next_gives = { Steps };

    ghost remaining = { λ s. at_most (length s.records.now - s.at) };

    fn next(&mut self) -> Option<usize> {
        let at = self.at;
        let size = size_at(self.records, at);
        if size == 0 {
            return None;
        }
        self.at = at + 1 + size;
        Some(at)
    }
}
