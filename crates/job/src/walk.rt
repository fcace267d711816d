// The whole file.
ghost use Rattle.std.specs.Prelude.{◌≡◌, ◌≤◌, length, drop};
ghost use Rattle.rules.specs.Job.{is_padding};
ghost use Rattle.bits.specs.Fields.{bits_in};
ghost use Rattle.job.specs.Steps.{At};
ghost use Rattle.job.specs.Walk.{Walked, WalkedAs, MeasuredIn, sized, accepts};

use crate::steps::{count_given, count_pins, count_records, store};
use bits::field;
use graph::EMPTY;

// The bit behind the fields, the height, and how many numbers each list has.
#[derive(Clone, Copy)]
pub struct Extent {
    pub at: usize,
    pub height: u32,
    pub gates: usize,
    pub given: usize,
    pub records: usize,
}

pub fn walk(
    bytes: &[u8],
    gates: &mut [u32],
    given: &mut [u32],
    records: &mut [u32],
) -> Option<Extent>
    requires { length bytes.now ≤ 8192 }
    ensures { WalkedAs (Walked bytes.now gates.old given.old records.old gates.new given.new records.new) bytes.now result }
{
    if 8 * bytes.len() < 4 {
        return None;
    }
    let height = field(bytes, 0, 4);
    store(gates, 0, EMPTY);
    store(gates, 1, EMPTY);
    let a = count_pins(bytes, 4, gates, 2)?;
    let b = count_given(bytes, a.at, given, 0)?;
    let c = count_records(bytes, b.at, records, 0)?;
    Some(Extent {
        at: c.at,
        height,
        gates: a.count,
        given: b.count,
        records: c.count,
    })
}

// The walk in empty areas.
pub fn measure(
    bytes: &[u8],
    gates: &mut [u32],
    given: &mut [u32],
    records: &mut [u32],
) -> Option<Extent>
    requires { length bytes.now ≤ 8192 }
    ensures { WalkedAs (MeasuredIn bytes.now gates.old given.old records.old gates.new given.new records.new) bytes.now result }
{
    walk(
        bytes,
        &mut gates[0..0],
        &mut given[0..0],
        &mut records[0..0],
    )
}

// Is nothing left from a bit on but zero bits up to a byte?
fn is_padding(bytes: &[u8], at: usize) -> bool
    requires { At at 0 bytes.now }
    ensures { result ≡ is_padding (drop at (bits_in bytes.now)) }
{
    let left = 8 * bytes.len() - at;
    left < 8 && field(bytes, at, left) == 0
}

fn is_sized(height: u32, gates: usize, records: usize) -> bool
    ensures { result ≡ sized height gates records }
{
    height <= 10 && gates / 2 <= 501 && records <= 512
}

// Is a measured file a job for the program?
pub fn is_job(bytes: &[u8], met: Extent) -> bool
    requires { At met.at 0 bytes.now }
    ensures { result ≡ accepts bytes.now met.at met.height met.gates met.records }
{
    is_padding(bytes, met.at) && is_sized(met.height, met.gates, met.records)
}
