// What the job program prints. A file is read, its job built in areas of the program's sizes, and the answer listed. The areas stand
// on the stack, some 110 kB.
#![tactic(auto)]

ghost use Rattle.std.specs.Prelude.{◌≡◌};
ghost use Rattle.rules.specs.Traversal.{needed_runs};
ghost use Rattle.rules.specs.Listing.{job_text, printed};
ghost use Rattle.listing.specs.Listing.{told, written};
ghost use Rattle.program.specs.Sizes.{job_of, Fits, AreasAt, BuildAt, ReadAt};

use cells::Height;
use graph::Pin;
use job::read;
use listing::{listing, refused};
use placer::build;
use refusals::Refusal;

// A job built in these areas, with four rooms of its height, and its text.
fn built_text(
    height: u32,
    gates: &[u32],
    given: &[u32],
    records: &[u32],
    plan: &mut [u32],
    words: &mut [u32],
    counts: &mut [u32],
    work: &mut [u32],
    out: &mut [u8],
) -> Result<usize, Refusal>
    requires { BuildAt height gates.now records.now plan.old words.old counts.old work.old }
    ensures { told result out.new ≡ written (job_text needed_runs (job_of height gates.now given.now records.now)) out.old }
{
    match build(height, gates, given, records, plan, words, counts, work) {
        Ok(built) => listing(height, built.stages, plan, words, counts, out),
        Err(e) => refused(e.why.number(), e.stage, e.why.pin(), out),
    }
}

// The same in areas for any job of the program's sizes.
fn text_in(
    height: u32,
    gates: &[u32],
    given: &[u32],
    records: &[u32],
    plan: &mut [u32],
    words: &mut [u32],
    counts: &mut [u32],
    work: &mut [u32],
    out: &mut [u8],
) -> Result<usize, Refusal>
    requires { AreasAt height gates.now records.now plan.old words.old counts.old work.old }
    ensures { told result out.new ≡ written (job_text needed_runs (job_of height gates.now given.now records.now)) out.old }
{
    let size = 4 * Height(height).stage_size();
    built_text(
        height,
        gates,
        given,
        records,
        &mut plan[0..size],
        words,
        counts,
        work,
        out,
    )
}

// The text of a job of the program's sizes.
fn text_of(
    height: u32,
    gates: &[u32],
    given: &[u32],
    records: &[u32],
    out: &mut [u8],
) -> Result<usize, Refusal>
    requires { Fits height gates.now records.now }
    ensures { told result out.new ≡ written (job_text needed_runs (job_of height gates.now given.now records.now)) out.old }
{
    let mut plan: [u32; 8192] = [0; 8192];
    let mut words: [u32; 32] = [0; 32];
    let mut counts: [u32; 4] = [0; 4];
    let mut work: [u32; 12624] = [0; 12624];
    text_in(
        height,
        gates,
        given,
        records,
        &mut plan,
        &mut words,
        &mut counts,
        &mut work,
        out,
    )
}

// The text of a file, with areas for what is read of it.
fn read_text(
    bytes: &[u8],
    gates: &mut [u32],
    given: &mut [u32],
    records: &mut [u32],
    out: &mut [u8],
) -> Result<usize, Refusal>
    requires { ReadAt gates.old given.old records.old }
    ensures { told result out.new ≡ written (printed needed_runs bytes.now) out.old }
{
    match read(bytes, gates, given, records) {
        Ok(job) => text_of(
            job.height,
            &gates[..job.gates],
            &given[..job.given],
            &records[..job.records],
            out,
        ),
        Err(_) => refused(Refusal::NoJob.number(), 0, Pin(0), out),
    }
}

// What the program prints for a file's bytes, over the front of `out`. Answers its length; refused with 2, with nothing changed, where `out` is too short.
pub fn job_text(bytes: &[u8], out: &mut [u8]) -> Result<usize, Refusal>
    ensures { told result out.new ≡ written (printed needed_runs bytes.now) out.old }
{
    let mut gates: [u32; 1002] = [0; 1002];
    let mut given: [u32; 4096] = [0; 4096];
    let mut records: [u32; 512] = [0; 512];
    read_text(bytes, &mut gates, &mut given, &mut records, out)
}
