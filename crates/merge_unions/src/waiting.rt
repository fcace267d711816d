// The waiting list of groups named by their indices.
ghost use Rattle.std.specs.Prelude.{◌++◌};
ghost use Rattle.rules.specs.Records.{groups_of};
ghost use Rattle.placer_start.specs.Waiting.{AllWait};
ghost use Rattle.merge_unions.specs.Names.{picked};
ghost use Rattle.merge_unions.specs.Waiting.{PartAt, PartWaits, BothAt};

use crate::table::start_of;
use placer_start::waiting::wait_record;

// The pins of the groups that `names` names, behind the n waiting pins. Returns how many wait.
pub fn wait_part(
    records: &[u32],
    names: &[u32],
    work: &mut [u32],
    m: usize,
    table: usize,
    n: usize,
) -> usize
    requires { PartAt m table n records.now names.now work.old }
    ensures { PartWaits m n records.now names.now work.old work.new result }
{
    let mut k = n;
    for name in names {
        let at = start_of(work, table, *name);
        k = wait_record(records, work, m, k, at);
    }
    k
}

// Those of two lists. Returns how many wait.
pub fn wait_both(
    records: &[u32],
    first: &[u32],
    second: &[u32],
    work: &mut [u32],
    m: usize,
    table: usize,
) -> usize
    requires { BothAt m table records.now first.now second.now work.old }
    ensures { AllWait m (picked (groups_of records.now) (first.now ++ second.now)) work.old work.new result }
{
    let n = wait_part(records, first, work, m, table, 0);
    wait_part(records, second, work, m, table, n)
}
