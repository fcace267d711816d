// What merging into one slot does again and again: the later slots ranked for it, and the trial of one union.
#![tactic(auto)]

ghost use Rattle.std.specs.Prelude.{◌+◌, ◌*◌, ◌≤◌, length};
ghost use Rattle.rules.specs.Inside.Some.{Some, Every};
ghost use Rattle.rules.specs.Traversal.{needed_runs};
ghost use Rattle.merge_unions.specs.Unions.{UnionBuilt};
ghost use Rattle.merge_trials.specs.Ranks.{groups_at, Looked, RankAt, SlotRanked, LaterAt, Keyed, AllAt, AllRanked};
ghost use Rattle.merge_trials.specs.Trials.{BuildAt, Accepts, JoinAt, Joins, TryAt, Tried};

use cells::Height;
use columns::{RECORDS, wide};
use merge_slots::{BAR, key_slot, start_of, store_union, take_in};
use merge_unions::build_union;
use merge_unions::sizing::{Cone, close_cone, measure, open_cone};
use placer::{Built, Refused};

// Is a slot from `from` on open?
fn any_open(work: &[u32], base: usize, n: usize, from: usize) -> bool
    requires { base + 8 * n ≤ length work.now }
    ensures { Looked base n from work.now result }
{
    for s in from..n {
        if work[base + (BAR * n + s)] == 0 {
            return true;
        }
    }
    false
}

// The keys of slot s, which has the named groups, for its union with slot i, whose cone stands; if slot s is open.
fn rank_slot(
    gates: &[u32],
    records: &[u32],
    names: &[u32],
    work: &mut [u32],
    m: usize,
    table: usize,
    base: usize,
    n: usize,
    i: usize,
    s: usize,
    cone: Cone,
)
    requires { Some (λ x. RankAt x m table base n i s cone.waiting cone.listed gates.now records.now names.now work.old) }
    ensures { Every (λ x. RankAt x m table base n i s cone.waiting cone.listed gates.now records.now names.now work.old) (λ x. SlotRanked x m table base n i s cone.waiting cone.listed gates.now records.now names.now work.old work.new) }
{
    if work[base + (BAR * n + s)] != 0 {
        return;
    }
    let union = measure(gates, records, names, work, m, table, cone);
    let end = base + 8 * n;
    key_slot(&mut work[base..end], n, i, s, union);
}

// The keys of every open slot after slot i, whose groups end at `from` and whose cone stands.
fn rank_later(
    gates: &[u32],
    records: &[u32],
    indices: &[u32],
    lengths: &[u32],
    work: &mut [u32],
    m: usize,
    table: usize,
    base: usize,
    i: usize,
    from: usize,
    cone: Cone,
)
    requires { Some (λ given. LaterAt given m table base i from cone.waiting cone.listed gates.now records.now indices.now lengths.now work.old) }
    ensures { Every (λ given. LaterAt given m table base i from cone.waiting cone.listed gates.now records.now indices.now lengths.now work.old) (λ given. Keyed given m table base i (length lengths.now) cone.waiting cone.listed gates.now records.now indices.now lengths.now work.old work.new) }
{
    let n = lengths.len();
    let mut at = from;
    for s in i + 1..n {
        let next = at + wide(lengths[s]);
        rank_slot(
            gates,
            records,
            &indices[at..next],
            work,
            m,
            table,
            base,
            n,
            i,
            s,
            cone,
        );
        at = next;
    }
}

// The same, with the cone of slot i opened before and closed after.
fn rank_open(
    gates: &[u32],
    given: &[u32],
    records: &[u32],
    indices: &[u32],
    lengths: &[u32],
    work: &mut [u32],
    m: usize,
    table: usize,
    base: usize,
    i: usize,
)
    requires { AllAt m table base i gates.now given.now records.now indices.now lengths.now work.old }
    ensures { AllRanked m table base i gates.now given.now records.now indices.now lengths.now work.old work.new }
{
    let a = start_of(lengths, i);
    let b = start_of(lengths, i + 1);
    let cone = open_cone(gates, given, records, &indices[a..b], work, m, table);
    rank_later(
        gates, records, indices, lengths, work, m, table, base, i, b, cone,
    );
    close_cone(given, work, m, cone);
}

// The keys of every open slot after slot i. Where none is open nothing is walked.
pub fn rank_all(
    gates: &[u32],
    given: &[u32],
    records: &[u32],
    indices: &[u32],
    lengths: &[u32],
    work: &mut [u32],
    m: usize,
    table: usize,
    base: usize,
    i: usize,
)
    requires { AllAt m table base i gates.now given.now records.now indices.now lengths.now work.old }
    ensures { AllRanked m table base i gates.now given.now records.now indices.now lengths.now work.old work.new }
{
    if !any_open(work, base, lengths.len(), i + 1) {
        return;
    }
    rank_open(
        gates, given, records, indices, lengths, work, m, table, base, i,
    );
}

// The build of the union of slots i and j.
fn build_pair(
    height: Height,
    gates: &[u32],
    given: &[u32],
    records: &[u32],
    indices: &[u32],
    lengths: &[u32],
    plan: &mut [u32],
    words: &mut [u32],
    counts: &mut [u32],
    work: &mut [u32],
    m: usize,
    table: usize,
    i: usize,
    j: usize,
) -> Result<Built, Refused>
    requires { BuildAt height.0 m table i j gates.now given.now records.now indices.now lengths.now plan.old words.old counts.old work.old }
    ensures { UnionBuilt needed_runs height.0 m table gates.now given.now records.now (groups_at lengths.now indices.now i) (groups_at lengths.now indices.now j) plan.old words.old counts.old work.old result plan.new words.new counts.new work.new }
{
    let a = start_of(lengths, i);
    let b = start_of(lengths, i + 1);
    let c = start_of(lengths, j);
    let d = start_of(lengths, j + 1);
    build_union(
        height,
        gates,
        given,
        records,
        &indices[a..b],
        &indices[c..d],
        plan,
        words,
        counts,
        work,
        m,
        table,
    )
}

// The union, if it is built with at most `cap` stages.
fn accepted(built: Result<Built, Refused>, cap: usize) -> Option<Built>
    ensures { Accepts cap built result }
{
    match built {
        Ok(union) => {
            if union.stages <= cap {
                Some(union)
            } else {
                None
            }
        }
        Err(_) => None,
    }
}

// Slot i becomes its union with slot j, which is empty then.
fn join(
    indices: &mut [u32],
    lengths: &mut [u32],
    work: &mut [u32],
    m: usize,
    table: usize,
    base: usize,
    i: usize,
    j: usize,
    stages: usize,
    words: usize,
    cells: usize,
)
    requires { JoinAt m table base i j stages words cells indices.old lengths.old work.old }
    ensures { Joins m table base i j stages words cells indices.old lengths.old work.old indices.new lengths.new work.new }
{
    let n = lengths.len();
    let spare = 16 * m + RECORDS;
    take_in(indices, lengths, &mut work[spare..table], i, j);
    let end = base + 8 * n;
    store_union(&mut work[base..end], n, i, j, stages, words, cells);
}

// Slot j's union with slot i, taken if it is accepted; otherwise slot j is barred. Was it accepted?
pub fn try_union(
    height: Height,
    gates: &[u32],
    given: &[u32],
    records: &[u32],
    indices: &mut [u32],
    lengths: &mut [u32],
    plan: &mut [u32],
    words: &mut [u32],
    counts: &mut [u32],
    work: &mut [u32],
    m: usize,
    table: usize,
    base: usize,
    i: usize,
    j: usize,
    cap: usize,
) -> bool
    requires { TryAt height.0 m table base i j cap gates.now given.now records.now indices.old lengths.old plan.old words.old counts.old work.old }
    ensures { Tried needed_runs height.0 m table base i j cap gates.now given.now records.now indices.old lengths.old plan.old work.old result indices.new lengths.new plan.new words.new counts.new work.new }
{
    let built = build_pair(
        height, gates, given, records, indices, lengths, plan, words, counts, work, m, table, i, j,
    );
    if let Some(union) = accepted(built, cap) {
        join(
            indices,
            lengths,
            work,
            m,
            table,
            base,
            i,
            j,
            union.stages,
            union.words,
            union.cells,
        );
        return true;
    }
    work[base + (BAR * lengths.len() + j)] = 1;
    false
}
