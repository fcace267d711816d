// Is every endpoint pin but the constant written, by marks of the written pins?
ghost use Rattle.plan_check.specs.Ends.{RecordAt, RecordWritten, EndsAt, EndsWritten};

use plan_check_stage::marks::has_mark;
use records::{endpoint, size_at, starts};

// Those of the whole record at an index.
fn record_written(records: &[u32], written: &[u8], at: usize) -> bool
    requires { RecordAt records.now at }
    ensures { RecordWritten records.now written.now at result }
{
    let size = size_at(records, at);
    for i in 0..size {
        let pin = endpoint(records, at, i);
        if pin.index() != 0 && !has_mark(written, pin) {
            return false;
        }
    }
    true
}

pub fn all_written(records: &[u32], written: &[u8]) -> bool
    requires { EndsAt records.now }
    ensures { EndsWritten records.now written.now result }
{
    for at in starts(records) {
        if !record_written(records, written, at) {
            return false;
        }
    }
    true
}
