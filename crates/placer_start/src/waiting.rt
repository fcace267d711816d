// The waiting list: the records' pins in their order.
ghost use Rattle.rules.specs.Records.{groups_of};
ghost use Rattle.columns.specs.Lists.{WaitAt};
ghost use Rattle.placer_start.specs.Waiting.{PinWaits, RecordAt, RecordWaits, WaitAllAt, AllWait};

use columns::wait;
use graph::Pin;
use records::{endpoint, size_at, starts};

// Pin p behind the n waiting pins, unless it is pin 0 or waits. Returns how many wait.
fn wait_pin(work: &mut [u32], m: usize, n: usize, p: Pin) -> usize
    requires { WaitAt m n p.0 work.old }
    ensures { PinWaits m n p.0 work.old work.new result }
{
    if p.index() == 0 {
        return n;
    }
    wait(work, m, n, p)
}

// The pins of the whole record that stands at `at`, behind the n waiting pins. Returns how many wait.
pub fn wait_record(records: &[u32], work: &mut [u32], m: usize, n: usize, at: usize) -> usize
    requires { RecordAt m n at records.now work.old }
    ensures { RecordWaits m n at records.now work.old work.new result }
{
    let size = size_at(records, at);
    let mut k = n;
    for i in 0..size {
        k = wait_pin(work, m, k, endpoint(records, at, i));
    }
    k
}

// Every record's. Returns how many pins wait.
pub fn wait_all(records: &[u32], work: &mut [u32], m: usize) -> usize
    requires { WaitAllAt m records.now work.old }
    ensures { AllWait m (groups_of records.now) work.old work.new result }
{
    let mut n = 0;
    for at in starts(records) {
        n = wait_record(records, work, m, n, at);
    }
    n
}
