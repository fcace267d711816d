// What a merge asks of a union of two partitions, each a list of group indices: its build, and the size of its traversal. Both leave the
// work area as they find it: what a build reads before it writes is 0, and nothing from the table on is changed. For many sizes with one
// partition its cone is opened once, measured with each of the others, and closed.
#![tactic(auto)]

ghost use Rattle.std.specs.Prelude.{◌++◌};
ghost use Rattle.rules.specs.Records.{groups_of};
ghost use Rattle.rules.specs.Traversal.{needed_runs};
ghost use Rattle.placer_start.specs.Opening.{Begins};
ghost use Rattle.merge_unions.specs.Names.{picked};
ghost use Rattle.merge_unions.specs.Unions.{OpenAt, TryAt, Tried, UnionBuilt};

use cells::Height;
use columns::{RECORDS, wide};
use placer::areas::empty_all;
use placer::stages::stages;
use placer::{Built, Refused};
use placer_start::Opening;
use placer_start::given::mark_given;
use refusals::Refusal;
use reservation::reserve_both;
use waiting::wait_both;

pub mod reservation;
pub mod sizing;
pub mod table;
pub mod waiting;

// As `placer_start::begin`, for the groups of two lists.
fn begin_both(
    given: &[u32],
    records: &[u32],
    first: &[u32],
    second: &[u32],
    work: &mut [u32],
    m: usize,
    table: usize,
    limit: usize,
) -> Option<Opening>
    requires { OpenAt m table given.now records.now first.now second.now work.old }
    ensures { Begins m limit table given.now (picked (groups_of records.now) (first.now ++ second.now)) work.old result work.new }
{
    let words = reserve_both(records, first, second, work, m, table, limit)?;
    mark_given(given, work, m);
    let waiting = wait_both(records, first, second, work, m, table);
    Some(Opening { words, waiting })
}

// The reservation and the stages, in empty areas.
fn attempt(
    height: Height,
    gates: &[u32],
    given: &[u32],
    records: &[u32],
    first: &[u32],
    second: &[u32],
    plan: &mut [u32],
    words: &mut [u32],
    counts: &mut [u32],
    work: &mut [u32],
    m: usize,
    table: usize,
) -> Result<Built, Refused>
    requires { TryAt height.0 m table gates.now given.now records.now first.now second.now plan.old words.old counts.old work.old }
    ensures { Tried needed_runs height.0 m table gates.now given.now records.now first.now second.now plan.old words.old counts.old work.old result plan.new words.new counts.new work.new }
{
    let limit = words.len();
    let Some(opening) = begin_both(given, records, first, second, work, m, table, limit) else {
        return Err(Refused::from(Refusal::OverReserved));
    };
    let rooms = counts.len();
    let room = limit - opening.words;
    let size = 16 * m + RECORDS;
    stages(
        gates,
        plan,
        words,
        counts,
        &mut work[0..size],
        m,
        height,
        rooms,
        opening.waiting,
        room,
    )
}

// The build of a union's groups. A merge keeps no plan, so every area is empty again.
pub fn build_union(
    height: Height,
    gates: &[u32],
    given: &[u32],
    records: &[u32],
    first: &[u32],
    second: &[u32],
    plan: &mut [u32],
    words: &mut [u32],
    counts: &mut [u32],
    work: &mut [u32],
    m: usize,
    table: usize,
) -> Result<Built, Refused>
    requires { TryAt height.0 m table gates.now given.now records.now first.now second.now plan.old words.old counts.old work.old }
    ensures { UnionBuilt needed_runs height.0 m table gates.now given.now records.now first.now second.now plan.old words.old counts.old work.old result plan.new words.new counts.new work.new }
{
    let built = attempt(
        height, gates, given, records, first, second, plan, words, counts, work, m, table,
    );
    let size = 16 * m + RECORDS;
    empty_all(plan, words, counts, &mut work[0..size]);
    built
}
