// The job file, read into lent areas. `read` takes any bytes and areas.
#![tactic(auto)]

mod steps;
mod walk;

ghost use Rattle.std.specs.Prelude.{◌≡◌, ◌&&◌, leb};
ghost use Rattle.rules.specs.Job.{read_job};
ghost use Rattle.job.specs.Answers.{outcome, read_into};

use refusals::Refusal;
use walk::{is_job, measure, walk};

// The height, and how many numbers of each area the job takes.
#[derive(Clone, Copy)]
pub struct Job {
    pub height: u32,
    pub gates: usize,
    pub given: usize,
    pub records: usize,
}

// Do three areas of these lengths hold so many numbers each?
fn has_room(
    gates: usize,
    given: usize,
    records: usize,
    first: usize,
    second: usize,
    third: usize,
) -> bool
    ensures { result ≡ (leb gates first && leb given second && leb records third) }
{
    gates <= first && given <= second && records <= third
}

// Gates, given pins and records of a job file to the front of the areas. Refusals: 11 where the bytes are no job, 2 where an area is
// too short; they change nothing, so the file is measured first.
pub fn read(
    bytes: &[u8],
    gates: &mut [u32],
    given: &mut [u32],
    records: &mut [u32],
) -> Result<Job, Refusal>
    ensures { outcome result gates.new given.new records.new ≡ read_into (read_job bytes.now) gates.old given.old records.old }
{
    if 8192 < bytes.len() {
        return Err(Refusal::NoJob);
    }
    let Some(m) = measure(bytes, gates, given, records) else {
        return Err(Refusal::NoJob);
    };
    if !is_job(bytes, m) {
        return Err(Refusal::NoJob);
    }
    if !has_room(
        m.gates,
        m.given,
        m.records,
        gates.len(),
        given.len(),
        records.len(),
    ) {
        return Err(Refusal::WrongSize);
    }
    let Some(w) = walk(bytes, gates, given, records) else {
        return Err(Refusal::NoJob);
    };
    Ok(Job {
        height: w.height,
        gates: w.gates,
        given: w.given,
        records: w.records,
    })
}
