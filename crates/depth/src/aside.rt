// Memories and duplicates of all records, however many they are.
ghost use Rattle.rules.specs.Records.{groups_of};
ghost use Rattle.placer_start.specs.Reservation.{Counts, ReserveAt};
ghost use Rattle.depth.specs.Walks.{MeasureAt, Tallied, Totalled};

use graph::pin_count;
use placer_start::reservation::{Count, add_record};
use records::starts;

// In an area of m pins whose heads of chains are 0.
fn count_all(records: &[u32], work: &mut [u32], m: usize) -> Count
    requires { ReserveAt m records.now work.old }
    ensures { Totalled records.now work.old result work.new }
{
    let mut count = Count::default();
    for at in starts(records) {
        count = add_record(records, work, m, at, at, count);
    }
    count
}

// The same in a work area of exactly its counted size, whatever it holds. It is 0 afterwards.
pub fn tally(gates: &[u32], given: &[u32], records: &[u32], work: &mut [u32]) -> Count
    requires { MeasureAt gates.now given.now records.now work.old }
    ensures { Tallied records.now work.old result work.new }
{
    let m = pin_count(gates);
    work.fill(0);
    let count = count_all(records, work, m);
    work.fill(0);
    count
}
