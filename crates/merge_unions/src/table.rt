// Where each group's record starts, so that a group is found by its index.
ghost use Rattle.std.specs.Prelude.{◌≡◌, ◌+◌, ◌<◌, length, get_or};
ghost use Rattle.merge_unions.specs.Table.{LocateAt, Locates};

use columns::wide;
use records::starts;

// The start of each record, from `table` on. Returns how many groups there are.
pub fn locate(records: &[u32], work: &mut [u32], table: usize) -> usize
    requires { LocateAt table records.now work.old }
    ensures { Locates table records.now work.old work.new result }
{
    let mut n = 0;
    for at in starts(records) {
        work[table + n] = at as u32;
        n += 1;
    }
    n
}

// Where the record of a group starts.
pub fn start_of(work: &[u32], table: usize, name: u32) -> usize
    requires { table + name < length work.now }
    ensures { result ≡ get_or work.now (table + name) 0 }
{
    wide(work[table + wide(name)])
}
