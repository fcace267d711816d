// The job file, written into lent bytes. `write` takes any job and bytes.
#![tactic(auto)]

mod fits;
mod sections;

ghost use Rattle.std.specs.Prelude.{◌≡◌};
ghost use Rattle.rules.specs.Job.{write_job};
ghost use Rattle.job_write.specs.Answers.{job_of, outcome, write_into};

use fits::judge;
use refusals::Refusal;
use sections::{measure, put_job};

// The file of a job to the front of the bytes. Answers how many bytes it has. Refusals: 11 where no file holds the job, 2 where the bytes are too few;
// they change nothing, so the file is measured first.
pub fn write(
    height: u32,
    gates: &[u32],
    given: &[u32],
    records: &[u32],
    bytes: &mut [u8],
) -> Result<usize, Refusal>
    ensures { outcome result bytes.new ≡ write_into (write_job (job_of height gates.now given.now records.now)) bytes.old }
{
    let Some(groups) = judge(height, gates, given, records) else {
        return Err(Refusal::NoJob);
    };
    let bits = measure(height, gates, given, records, groups, bytes);
    if 65536 < bits {
        return Err(Refusal::NoJob);
    }
    let length = bits / 8;
    if bytes.len() < length {
        return Err(Refusal::WrongSize);
    }
    put_job(height, gates, given, records, groups, bytes);
    Ok(length)
}
