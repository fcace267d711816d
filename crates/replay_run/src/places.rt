// The places that the records hand out: 2 × slot + inversion for each of their numbers, in order.
ghost use Rattle.replay_run.specs.Places.{Inverts, RecordIn, RecordPut, PlacesIn, PlacesPut};

use graph::wide;
use records::{endpoint, size_at, starts};

// The inversion of a number behind a kind. A staged pin has none.
fn inversion(kind: u32, number: u32) -> u32
    ensures { Inverts kind number result }
{
    if kind == 4 { 0 } else { number % 2 }
}

// The places of the record at an index, from place j on.
fn put_record(records: &[u32], reads: &[u32], at: usize, size: usize, places: &mut [u32], j: usize)
    requires { RecordIn records.now reads.now at size places.old j }
    ensures { RecordPut records.now reads.now at size j places.old places.new }
{
    for i in 0..size {
        let p = wide(endpoint(records, at, i).0);
        let v = inversion(records[at], records[at + 1 + i]);
        places[j + i] = 2 * reads[p] + v;
    }
}

// Those of all records. Returns how many there are.
pub fn put_places(records: &[u32], reads: &[u32], places: &mut [u32]) -> usize
    requires { PlacesIn records.now reads.now places.old }
    ensures { PlacesPut records.now reads.now places.old places.new result }
{
    let mut j = 0;
    for at in starts(records) {
        let size = size_at(records, at);
        put_record(records, reads, at, size, places, j);
        j += size;
    }
    j
}
