// The reservation for groups named by their indices. A group counts as often as it is named, so an activation's index in the chains is
// how many names came before it.
ghost use Rattle.std.specs.Prelude.{◌+◌, ◌++◌, length};
ghost use Rattle.rules.specs.Records.{groups_of};
ghost use Rattle.rules.specs.Inside.Some.{Some, Every};
ghost use Rattle.placer_start.specs.Reservation.{Reserved};
ghost use Rattle.merge_unions.specs.Names.{picked};
ghost use Rattle.merge_unions.specs.Reserving.{PartAt, PartCounted, BothAt};

use crate::table::start_of;
use placer_start::reservation::{Count, add_record, over, set_aside};

// The groups that `names` names, behind `before` names with this count; none where a limit is passed.
fn reserve_part(
    records: &[u32],
    names: &[u32],
    work: &mut [u32],
    m: usize,
    table: usize,
    limit: usize,
    before: usize,
    count: Count,
) -> Option<Count>
    requires { Some (λ xs. PartAt m table limit before count xs records.now names.now work.old) }
    ensures { Every (λ xs. PartAt m table limit before count xs records.now names.now work.old) (λ xs. PartCounted m limit before xs records.now names.now work.old work.new result) }
{
    let mut c = count;
    for (i, name) in names.iter().enumerate() {
        let at = start_of(work, table, *name);
        c = add_record(records, work, m, at, before + i, c);
        if over(c, limit) {
            return None;
        }
    }
    Some(c)
}

// The words set aside for the groups of two lists, or none as soon as they are sure to be over: refusal 6.
pub fn reserve_both(
    records: &[u32],
    first: &[u32],
    second: &[u32],
    work: &mut [u32],
    m: usize,
    table: usize,
    limit: usize,
) -> Option<usize>
    requires { BothAt m table records.now first.now second.now work.old }
    ensures { Reserved m limit (length first.now + length second.now) (picked (groups_of records.now) (first.now ++ second.now)) work.old work.new result }
{
    let none = Count::default();
    let one = reserve_part(records, first, work, m, table, limit, 0, none)?;
    let both = reserve_part(records, second, work, m, table, limit, first.len(), one)?;
    Some(set_aside(both))
}
