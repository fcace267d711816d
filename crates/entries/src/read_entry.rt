// The entry that reads a job file.
ghost use Rattle.std.specs.Prelude.{◌≡◌};
ghost use Rattle.entries.specs.Entry.{entry};
ghost use Rattle.entries.specs.Jobs.{lists, job_read};

use crate::answers::{WRONG_SIZE, tell};
use columns::wide;
use job::read;

// As `job::read`, with number, height and the three counts in the first five numbers of `answer`. Returns the number. Where `answer` is
// shorter that is 2, and nothing is changed.
#[unsafe(no_mangle)]
pub extern "C" fn read_job(
    bytes: &[u8],
    gates: &mut [u32],
    given: &mut [u32],
    records: &mut [u32],
    answer: &mut [usize],
) -> u32
    ensures { entry result (lists gates.new given.new records.new) answer.new ≡ job_read bytes.now (lists gates.old given.old records.old) answer.old }
{
    if answer.len() < 5 {
        return WRONG_SIZE;
    }
    match read(bytes, gates, given, records) {
        Ok(job) => {
            tell(
                &[0, wide(job.height), job.gates, job.given, job.records],
                answer,
            );
            0
        }
        Err(why) => {
            let number = why.number();
            tell(&[wide(number), 0, 0, 0, 0], answer);
            number
        }
    }
}
