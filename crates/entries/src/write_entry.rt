// The entry that writes a job file.
ghost use Rattle.std.specs.Prelude.{◌≡◌};
ghost use Rattle.job_write.specs.Answers.{job_of};
ghost use Rattle.entries.specs.Entry.{entry};
ghost use Rattle.entries.specs.Jobs.{job_written};

use crate::answers::{WRONG_SIZE, tell_length};
use job_write::write;

// As `job_write::write`, with number and length in the first two numbers of `answer`. Returns the number. Where `answer` is shorter that
// is 2, and nothing is changed.
#[unsafe(no_mangle)]
pub extern "C" fn write_job(
    height: u32,
    gates: &[u32],
    given: &[u32],
    records: &[u32],
    bytes: &mut [u8],
    answer: &mut [usize],
) -> u32
    ensures { entry result bytes.new answer.new ≡ job_written (job_of height gates.now given.now records.now) bytes.old answer.old }
{
    if answer.len() < 2 {
        return WRONG_SIZE;
    }
    tell_length(write(height, gates, given, records, bytes), answer)
}
