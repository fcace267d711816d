// The entries that read and write an AIGER file.
ghost use Rattle.std.specs.Prelude.{◌≡◌};
ghost use Rattle.aiger_read.specs.Answers.{areas};
ghost use Rattle.aiger_write.specs.Answers.{netlist_of};
ghost use Rattle.entries.specs.Entry.{entry};
ghost use Rattle.entries.specs.Aiger.{aiger_read, aiger_written};

use crate::answers::{WRONG_SIZE, tell, tell_length};
use aiger::{read, write};
use columns::wide;

// As `aiger::read`, with number, place, pin and the three counts in the first six numbers of `answer`. Returns the number. Where `answer` is
// shorter that is 2, and nothing is changed.
#[unsafe(no_mangle)]
pub extern "C" fn read_aiger(
    bytes: &[u8],
    gates: &mut [u32],
    records: &mut [u32],
    latches: &mut [u32],
    answer: &mut [usize],
) -> u32
    ensures { entry result (areas gates.new records.new latches.new) answer.new ≡ aiger_read bytes.now (areas gates.old records.old latches.old) answer.old }
{
    if answer.len() < 6 {
        return WRONG_SIZE;
    }
    match read(bytes, gates, records, latches) {
        Ok(a) => {
            tell(&[0, 0, 0, a.gates, a.records, a.latches], answer);
            0
        }
        Err(r) => {
            let number = r.why.number();
            tell(&[wide(number), r.at, r.why.pin().index(), 0, 0, 0], answer);
            number
        }
    }
}

// As `aiger::write`, with number and length in the first two numbers of `answer`. Returns the number. Where `answer` is shorter that is 2, and
// nothing is changed.
#[unsafe(no_mangle)]
pub extern "C" fn write_aiger(
    gates: &[u32],
    given: &[u32],
    records: &[u32],
    latches: &[u32],
    bytes: &mut [u8],
    answer: &mut [usize],
) -> u32
    ensures { entry result bytes.new answer.new ≡ aiger_written given.now (netlist_of gates.now records.now latches.now) bytes.old answer.old }
{
    if answer.len() < 2 {
        return WRONG_SIZE;
    }
    tell_length(write(gates, given, records, latches, bytes), answer)
}
