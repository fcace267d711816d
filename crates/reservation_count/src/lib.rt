// Memories and duplicates of all records, in a time that grows with the records and the pins alone. All activations of a pin are chained without a
// test for equal ones: `heads` has, by pin, one more than the newest one's index, 0 for none, and `links`, by index, one more than the next one's.
// An index is where a record stands. Then each chain is walked with stamps by activation.
#![tactic(auto)]

pub mod chains;
pub mod walks;

ghost use Rattle.reservation_count.specs.Counts.{CountAt, Counted};

use chains::chain_all;
use placer_start::reservation::Count;
use walks::sum_all;

// Over the pins of `heads`, whatever the areas hold. They are 0 afterwards.
pub fn count_records(
    records: &[u32],
    heads: &mut [u32],
    links: &mut [u32],
    stamps: &mut [u32],
) -> Count
    requires { CountAt records.now heads.old links.old stamps.old }
    ensures { Counted records.now heads.old links.old stamps.old heads.new links.new stamps.new result }
{
    heads.fill(0);
    stamps.fill(0);
    let memories = chain_all(records, heads, links);
    let duplicates = sum_all(records, heads, links, stamps);
    heads.fill(0);
    links.fill(0);
    stamps.fill(0);
    Count {
        memories,
        duplicates,
    }
}
