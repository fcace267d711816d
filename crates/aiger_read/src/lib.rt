// An ASCII AIGER file, read into lent areas. `read` takes any bytes and areas.
#![tactic(auto)]

mod ends;

ghost use Rattle.std.specs.Prelude.{◌≡◌, ◌&&◌, ◌+◌, ◌*◌, leb, replicate};
ghost use Rattle.aiger_form.specs.Calls.{importer};
ghost use Rattle.aiger_text.specs.Passes.{area};
ghost use Rattle.aiger_read.specs.Answers.{areas, outcome, Judged};

use aiger_rows::head::Head;
pub use aiger_text::file::Refused;
use aiger_text::file::{Body, file};
use checks::refusal;
use ends::fill_ends;
use refusals::Refusal;

// How many numbers stand in each area.
#[derive(Clone, Copy)]
pub struct Counts {
    pub gates: usize,
    pub records: usize,
    pub latches: usize,
}

// Do areas of these lengths hold the numbers of a file?
fn has_room(h: Head, gates: usize, records: usize, latches: usize) -> bool
    ensures { result ≡ (leb (2 * (h.variables + 1)) gates && leb (3 * h.latches + 2 * h.outputs) records && leb h.latches latches) }
{
    2 * (h.variables + 1) <= gates
        && h.latches <= records / 3
        && h.outputs <= (records - 3 * h.latches) / 2
        && h.latches <= latches
}

// All that a file is refused for, before anything lent is changed. The own area then holds the gates.
fn judge(
    bytes: &[u8],
    own: &mut [u32],
    gates: usize,
    records: usize,
    latches: usize,
) -> Result<Body, Refused>
    requires { own.old ≡ replicate area 4294967295 }
    ensures { Judged bytes.now own.new gates records latches result }
{
    let body = file(bytes, own)?;
    let h = body.head;
    if !has_room(h, gates, records, latches) {
        return Err(Refused::from(Refusal::WrongSize));
    }
    if 65535 < h.variables {
        return Err(Refused::from(Refusal::WrongGraph));
    }
    let n = 2 * (h.variables + 1);
    refusal(6, true, &own[0..n], &[], &[])?;
    if 65536 < 3 * h.latches + 2 * h.outputs {
        return Err(Refused::from(Refusal::WrongRecord));
    }
    Ok(body)
}

// Gates, records and latch leaves of a file to the front of the areas. Refusals, in this order: 12 malformed or cut, 13 a reset value, 2 an
// area too short, 3, 23 and 4 as a build; they change nothing, so the gates stand in an array of the function's own first, 512 kB. With 12 and 13
// goes the byte that shows it.
pub fn read(
    bytes: &[u8],
    gates: &mut [u32],
    records: &mut [u32],
    latches: &mut [u32],
) -> Result<Counts, Refused>
    ensures { outcome result gates.new records.new latches.new ≡ importer bytes.now (areas gates.old records.old latches.old) }
{
    let mut own: [u32; 131072] = [4294967295; 131072];
    let body = judge(bytes, &mut own, gates.len(), records.len(), latches.len())?;
    let h = body.head;
    let n = 2 * (h.variables + 1);
    gates[..n].copy_from_slice(&own[..n]);
    fill_ends(bytes, body.start, h, records, latches);
    Ok(Counts {
        gates: n,
        records: 3 * h.latches + 2 * h.outputs,
        latches: h.latches,
    })
}
