// The sections of a job file, put one behind the other. Past the end of the bytes nothing is stored, so that no bytes at all only
// measure.
ghost use Rattle.std.specs.Prelude.{◌≡◌, ◌&&◌, ◌++◌, ◌*◌, ◌^◌, ◌≤◌, eqb, length, drop};
ghost use Rattle.rules.specs.Lists.{gather};
ghost use Rattle.rules.specs.Cells.{empty};
ghost use Rattle.rules.specs.Graph.{node_of, graph_of};
ghost use Rattle.rules.specs.Records.{groups_of};
ghost use Rattle.rules.specs.Job.{bits_of, number_width, pin_bits, pins_bits, groups_bits};
ghost use Rattle.bits.specs.Putting.{Put};
ghost use Rattle.job_write.specs.Answers.{job_of};
ghost use Rattle.job_write.specs.Fits.{Fitting};
ghost use Rattle.job_write.specs.Sections.{head_bits, given_bits, records_bits, file_bits, PutIn, NumbersTo, RecordTo, PinsTo, RecordsTo, HeadTo, GivenTo, GroupsTo, Measured};

use bits::{number_width, put};
use graph::EMPTY;
use records::{size_at, starts};

fn put_numbers(bytes: &mut [u8], from: usize, numbers: &[u32], w: usize) -> usize
    requires { NumbersTo from w numbers.now }
    ensures { Put (gather (bits_of w) numbers.now) bytes.old bytes.new from result }
{
    let mut at = from;
    for number in numbers {
        at = put(bytes, at, w, *number);
    }
    at
}

fn is_leaf(a: u32, b: u32) -> bool
    ensures { result ≡ (eqb a empty && eqb b empty) }
{
    a == EMPTY && b == EMPTY
}

// A gate's literals behind a one, a zero for a leaf.
fn put_pin(bytes: &mut [u8], at: usize, a: u32, b: u32) -> usize
    requires { at ≤ 2 ^ 39 }
    ensures { Put (pin_bits (node_of a b)) bytes.old bytes.new at result }
{
    if is_leaf(a, b) {
        return put(bytes, at, 1, 0);
    }
    let p = put(bytes, at, 1, 1);
    let q = put(bytes, p, 17, a);
    put(bytes, q, 17, b)
}

// The pins from 1 on.
fn put_pins(bytes: &mut [u8], from: usize, gates: &[u32]) -> usize
    requires { PinsTo from gates.now }
    ensures { PutIn (18 * length gates.now) (pins_bits (graph_of (drop 2 gates.now))) bytes.old bytes.new from result }
{
    let n = gates.len() / 2;
    let mut at = from;
    for i in 1..n {
        at = put_pin(bytes, at, gates[2 * i], gates[2 * i + 1]);
    }
    at
}

fn put_record(bytes: &mut [u8], at: usize, kind: u32, numbers: &[u32]) -> usize
    requires { RecordTo at (number_width kind) numbers.now }
    ensures { Put (bits_of 3 kind ++ gather (bits_of (number_width kind)) numbers.now) bytes.old bytes.new at result }
{
    let p = put(bytes, at, 3, kind);
    put_numbers(bytes, p, numbers, number_width(kind))
}

fn put_records(bytes: &mut [u8], from: usize, records: &[u32]) -> usize
    requires { RecordsTo from records.now }
    ensures { PutIn (20 * length records.now) (groups_bits (groups_of records.now)) bytes.old bytes.new from result }
{
    let mut at = from;
    for i in starts(records) {
        let size = size_at(records, i);
        at = put_record(bytes, at, records[i], &records[i + 1..i + 1 + size]);
    }
    at
}

// Height, pins.
fn put_head(bytes: &mut [u8], height: u32, gates: &[u32]) -> usize
    requires { HeadTo gates.now }
    ensures { PutIn (2 ^ 20) (head_bits height gates.now) bytes.old bytes.new 0 result }
{
    let p = put(bytes, 0, 4, height);
    let q = put(bytes, p, 16, (gates.len() / 2 - 1) as u32);
    put_pins(bytes, q, gates)
}

fn put_given(bytes: &mut [u8], at: usize, given: &[u32]) -> usize
    requires { GivenTo at given.now }
    ensures { PutIn (2 ^ 21) (given_bits given.now) bytes.old bytes.new at result }
{
    let p = put(bytes, at, 16, given.len() as u32);
    put_numbers(bytes, p, given, 16)
}

fn put_groups(bytes: &mut [u8], at: usize, records: &[u32], groups: usize) -> usize
    requires { GroupsTo at records.now groups }
    ensures { PutIn (2 ^ 20) (records_bits records.now) bytes.old bytes.new at result }
{
    let p = put(bytes, at, 16, groups as u32);
    put_records(bytes, p, records)
}

// All of them, and zero bits up to a byte.
pub fn put_job(
    height: u32,
    gates: &[u32],
    given: &[u32],
    records: &[u32],
    groups: usize,
    bytes: &mut [u8],
) -> usize
    requires { Fitting (job_of height gates.now given.now records.now) groups }
    ensures { Put (file_bits (job_of height gates.now given.now records.now)) bytes.old bytes.new 0 result }
{
    let p = put_head(bytes, height, gates);
    let q = put_given(bytes, p, given);
    let r = put_groups(bytes, q, records, groups);
    put(bytes, r, (8 - r % 8) % 8, 0)
}

// The file's bits.
pub fn measure(
    height: u32,
    gates: &[u32],
    given: &[u32],
    records: &[u32],
    groups: usize,
    bytes: &mut [u8],
) -> usize
    requires { Fitting (job_of height gates.now given.now records.now) groups }
    ensures { Measured (job_of height gates.now given.now records.now) bytes.old bytes.new result }
{
    put_job(height, gates, given, records, groups, &mut bytes[0..0])
}
