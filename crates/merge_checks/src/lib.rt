// The checks of a merge: 1 to 5 and 23, then 10. Nothing is changed.
#![tactic(auto)]

ghost use Rattle.std.specs.Prelude.{◌≡◌, ◌&&◌, eqb, length};
ghost use Rattle.rules.specs.Lists.{sum};
ghost use Rattle.rules.specs.Cells.{is_height};
ghost use Rattle.rules.specs.Records.{groups_of};
ghost use Rattle.rules.specs.Merge.{mergeable, merge_refusal};
ghost use Rattle.checks.specs.Values.{Says};
ghost use Rattle.merge_checks.specs.Values.{Readable, group_list, areas, merge_areas};

use checks::{given_right, refusal};
use columns::wide;
use records::starts;
use refusals::Refusal;
use sizes::{lent_sized, take_eights, work_left};

// Do the lengths sum to `total`? They are taken off it one by one, so that nothing wraps.
fn lengths_right(lengths: &[u32], total: usize) -> bool
    ensures { result ≡ eqb (sum lengths.now) total }
{
    let mut left = total;
    for length in lengths {
        let l = wide(*length);
        if left < l {
            return false;
        }
        left -= l;
    }
    left == 0
}

// Have the areas of a merge a right size? By the lengths of the slices, but for the lengths of the partitions.
fn merge_sized(
    height: u32,
    gates: usize,
    records: usize,
    indices: usize,
    lengths: &[u32],
    stages: usize,
    plan: usize,
    words: usize,
    counts: usize,
    work: usize,
) -> bool
    ensures { result ≡ is_height height && merge_areas height gates records indices lengths.now stages plan words counts work }
{
    if lengths.len() != stages {
        return false;
    }
    if !lengths_right(lengths, indices) {
        return false;
    }
    if !lent_sized(height, plan, words, counts) {
        return false;
    }
    let build = work_left(gates, records, work);
    let partitions = take_eights(build, stages);
    take_eights(partitions, indices).is_some()
}

// How many groups readable records have.
fn groups_in(records: &[u32]) -> usize
    requires { Readable records.now }
    ensures { result ≡ length (groups_of records.now) }
{
    starts(records).count()
}

// Check 10, for readable records.
fn may_merge(records: &[u32], indices: &[u32], lengths: &[u32], extra: usize) -> bool
    requires { Readable records.now }
    ensures { result ≡ mergeable records.now (group_list indices.now lengths.now lengths.now) extra }
{
    let n = lengths.len();
    if n == 0 {
        return false;
    }
    if 1024 < n {
        return false;
    }
    if 4294967295 < indices.len() {
        return false;
    }
    if 255 < extra {
        return false;
    }
    given_right(groups_in(records), indices)
}

// The first of 1, 2, 3, 23, 4, 5 and 10 that applies.
pub fn merge_refusal(
    height: u32,
    gates: &[u32],
    given: &[u32],
    records: &[u32],
    indices: &[u32],
    lengths: &[u32],
    stages: &[u32],
    extra: usize,
    plan: &[u32],
    words: &[u32],
    counts: &[u32],
    work: &[u32],
) -> Result<(), Refusal>
    ensures { Says (merge_refusal height gates.now given.now records.now (group_list indices.now lengths.now stages.now) extra (areas plan.now words.now counts.now work.now)) gates.now result }
{
    let sized = merge_sized(
        height,
        gates.len(),
        records.len(),
        indices.len(),
        lengths,
        stages.len(),
        plan.len(),
        words.len(),
        counts.len(),
        work.len(),
    );
    match refusal(height, sized, gates, given, records) {
        Ok(()) => {
            if may_merge(records, indices, lengths, extra) {
                Ok(())
            } else {
                Err(Refusal::WrongGroups)
            }
        }
        Err(why) => Err(why),
    }
}
