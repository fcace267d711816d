// The reservation, counted in arrays of its own.
ghost use Rattle.plan_check.specs.Room.{RoomAt, InAt, RoomCounted};

use graph::pin_count;
use placer_start::reservation::Count;
use reservation_count::count_records;

fn count_in(
    records: &[u32],
    heads: &mut [u32],
    links: &mut [u32],
    stamps: &mut [u32],
    pins: usize,
) -> Count
    requires { InAt records.now heads.old links.old stamps.old pins }
    ensures { RoomCounted records.now result }
{
    count_records(records, &mut heads[0..pins], links, &mut stamps[0..pins])
}

// Memories and duplicates of all records: 768 kB of stack.
pub fn counted(gates: &[u32], records: &[u32]) -> Count
    requires { RoomAt gates.now records.now }
    ensures { RoomCounted records.now result }
{
    let mut heads: [u32; 65536] = [0; 65536];
    let mut links: [u32; 65536] = [0; 65536];
    let mut stamps: [u32; 65536] = [0; 65536];
    count_in(
        records,
        &mut heads,
        &mut links,
        &mut stamps,
        pin_count(gates),
    )
}
