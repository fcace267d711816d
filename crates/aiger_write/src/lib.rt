// ASCII AIGER files, written into lent bytes. `write` takes any job, latches and bytes.
#![tactic(auto)]

mod jobs;
mod lines;

ghost use Rattle.std.specs.Prelude.{◌≡◌};
ghost use Rattle.aiger_form.specs.Aag.{aag};
ghost use Rattle.aiger_form.specs.Calls.{exported, exporter};
ghost use Rattle.aiger_write.specs.Answers.{netlist_of, export};
ghost use Rattle.aiger_write.specs.Lines.{file_text, Sized};

use jobs::judge;
use lines::whole;
use refusals::Refusal;

// The file is laid twice: first where it changes nothing, which tells its length.
fn lay(
    gates: &[u32],
    records: &[u32],
    latches: &[u32],
    marks: &[u8],
    bytes: &mut [u8],
) -> Result<usize, Refusal>
    requires { Sized gates.now records.now latches.now marks.now }
    ensures { export result bytes.new ≡ exported bytes.old (aag (file_text gates.now records.now latches.now marks.now)) }
{
    let mut nowhere: [u8; 1] = [0; 1];
    let limit = bytes.len() + 1;
    let length = whole(&mut nowhere, limit, gates, records, latches, marks);
    if length > bytes.len() {
        return Err(Refusal::WrongSize);
    }
    whole(bytes, limit, gates, records, latches, marks);
    Ok(length)
}

// The file of a job over the front of the bytes, and how many bytes it has; latch i is `latches[i]`. Refusals: 14 where no file holds the job, 2
// where the bytes are too few; they change nothing.
pub fn write(
    gates: &[u32],
    given: &[u32],
    records: &[u32],
    latches: &[u32],
    bytes: &mut [u8],
) -> Result<usize, Refusal>
    ensures { export result bytes.new ≡ exporter given.now (netlist_of gates.now records.now latches.now) bytes.old }
{
    let mut marks: [u8; 65536] = [0; 65536];
    if !judge(gates, given, records, latches, &mut marks) {
        return Err(Refusal::NoFile);
    }
    lay(gates, records, latches, &marks, bytes)
}
