// The walk through a job file. A number is stored where the area reaches so far, so that an area of length 0 only measures. A step is
// none where the file is cut.
ghost use Rattle.std.specs.Prelude.{◌≡◌, set};
ghost use Rattle.rules.specs.Job.{fields, read_pin, read_pins, read_record, read_records};
ghost use Rattle.job.specs.Steps.{one_field, counted, At, FieldsAt, Took, TookAs, Counted};

use bits::{field, number_width};
use cells::wide;
use graph::EMPTY;
use records::size_for;

// The bit behind what was read, and how many numbers are stored.
#[derive(Clone, Copy)]
pub struct Step {
    pub at: usize,
    pub count: usize,
}

pub fn store(area: &mut [u32], i: usize, x: u32)
    ensures { area.new ≡ set area.old i x }
{
    if i < area.len() {
        area[i] = x;
    }
}

fn read_field(bytes: &[u8], at: usize, w: usize, area: &mut [u32], s: usize) -> Option<Step>
    requires { FieldsAt at w s bytes.now }
    ensures { TookAs (Took (one_field w) bytes.now at s area.old area.new) bytes.now result }
{
    if 8 * bytes.len() - at < w {
        return None;
    }
    store(area, s, field(bytes, at, w));
    Some(Step {
        at: at + w,
        count: s + 1,
    })
}

// n fields of w bits.
fn read_fields(
    bytes: &[u8],
    from: usize,
    n: usize,
    w: usize,
    area: &mut [u32],
    s: usize,
) -> Option<Step>
    requires { FieldsAt from w s bytes.now }
    ensures { TookAs (Took (fields n w) bytes.now from s area.old area.new) bytes.now result }
{
    let mut at = from;
    let mut count = s;
    for _ in 0..n {
        let step = read_field(bytes, at, w, area, count)?;
        at = step.at;
        count = step.count;
    }
    Some(Step { at, count })
}

// A gate's literals, or the marks of a leaf.
fn read_pin(bytes: &[u8], at: usize, area: &mut [u32], s: usize) -> Option<Step>
    requires { At at s bytes.now }
    ensures { TookAs (Took read_pin bytes.now at s area.old area.new) bytes.now result }
{
    if 8 * bytes.len() <= at {
        return None;
    }
    if field(bytes, at, 1) == 1 {
        return read_fields(bytes, at + 1, 2, 17, area, s);
    }
    store(area, s, EMPTY);
    store(area, s + 1, EMPTY);
    Some(Step {
        at: at + 1,
        count: s + 2,
    })
}

fn read_pins(bytes: &[u8], from: usize, n: usize, area: &mut [u32], s: usize) -> Option<Step>
    requires { At from s bytes.now }
    ensures { TookAs (Took (read_pins n) bytes.now from s area.old area.new) bytes.now result }
{
    let mut at = from;
    let mut count = s;
    for _ in 0..n {
        let step = read_pin(bytes, at, area, count)?;
        at = step.at;
        count = step.count;
    }
    Some(Step { at, count })
}

// A kind and its numbers.
fn read_record(bytes: &[u8], at: usize, area: &mut [u32], s: usize) -> Option<Step>
    requires { At at s bytes.now }
    ensures { TookAs (Took read_record bytes.now at s area.old area.new) bytes.now result }
{
    if 8 * bytes.len() - at < 3 {
        return None;
    }
    let kind = field(bytes, at, 3);
    let size = size_for(kind);
    if size == 0 {
        return None;
    }
    store(area, s, kind);
    read_fields(bytes, at + 3, size, number_width(kind), area, s + 1)
}

fn read_records(bytes: &[u8], from: usize, n: usize, area: &mut [u32], s: usize) -> Option<Step>
    requires { At from s bytes.now }
    ensures { TookAs (Took (read_records n) bytes.now from s area.old area.new) bytes.now result }
{
    let mut at = from;
    let mut count = s;
    for _ in 0..n {
        let step = read_record(bytes, at, area, count)?;
        at = step.at;
        count = step.count;
    }
    Some(Step { at, count })
}

fn read_count(bytes: &[u8], at: usize) -> Option<Step>
    requires { At at 0 bytes.now }
    ensures { TookAs (Counted bytes.now at) bytes.now result }
{
    if 8 * bytes.len() - at < 16 {
        return None;
    }
    Some(Step {
        at: at + 16,
        count: wide(field(bytes, at, 16)),
    })
}

pub fn count_pins(bytes: &[u8], at: usize, area: &mut [u32], s: usize) -> Option<Step>
    requires { At at s bytes.now }
    ensures { TookAs (Took (counted read_pins) bytes.now at s area.old area.new) bytes.now result }
{
    let head = read_count(bytes, at)?;
    read_pins(bytes, head.at, head.count, area, s)
}

pub fn count_given(bytes: &[u8], at: usize, area: &mut [u32], s: usize) -> Option<Step>
    requires { At at s bytes.now }
    ensures { TookAs (Took (counted (λ n. fields n 16)) bytes.now at s area.old area.new) bytes.now result }
{
    let head = read_count(bytes, at)?;
    read_fields(bytes, head.at, head.count, 16, area, s)
}

pub fn count_records(bytes: &[u8], at: usize, area: &mut [u32], s: usize) -> Option<Step>
    requires { At at s bytes.now }
    ensures { TookAs (Took (counted read_records) bytes.now at s area.old area.new) bytes.now result }
{
    let head = read_count(bytes, at)?;
    read_records(bytes, head.at, head.count, area, s)
}
