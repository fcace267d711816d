// Partitions merged while their stages stay few: `process_partitions`, with every area lent.
#![tactic(auto)]

ghost use Rattle.std.specs.Prelude.{◌≡◌};
ghost use Rattle.rules.specs.Traversal.{needed_runs};
ghost use Rattle.rules.specs.Merge.{merger};
ghost use Rattle.merge_checks.specs.Values.{group_list, areas};
ghost use Rattle.merge.specs.Merge.{JoinAt, Joined, PlaceAt, Placed, outcome};

use cells::Height;
use columns::RECORDS;
use graph::pin_count;
use merge_checks::merge_refusal;
use merge_layout::lay_out;
use merge_originals::{RefusedPart, build_originals};
use merge_rounds::merge_slots;
use merge_slots::begun;
use merge_unions::table::locate;
use placer::areas::empty_all;
use refusals::Refusal;

// The merged partitions: how many are left, the sums of their stages, words and filled cells, and the unions examined.
#[derive(Clone, Copy)]
pub struct Merged {
    pub partitions: usize,
    pub stages: usize,
    pub words: usize,
    pub cells: usize,
    pub trials: usize,
}

// Why a merge is refused, the refused stage, and the refused partition from 1; 0 where it is refused before its first partition.
#[derive(Clone, Copy)]
pub struct Refused {
    pub why: Refusal,
    pub stage: usize,
    pub part: usize,
}

impl From<Refusal> for Refused {
    ghost from_gives = { λ why r. r ≡ record { why = why; stage = 0; part = 0 } };

    fn from(why: Refusal) -> Refused {
        Refused {
            why,
            stage: 0,
            part: 0,
        }
    }
}

impl From<RefusedPart> for Refused {
    ghost from_gives = { λ x r. r ≡ record { why = x.refused.why; stage = x.refused.stage; part = x.part } };

    fn from(x: RefusedPart) -> Refused {
        Refused {
            why: x.refused.why,
            stage: x.refused.stage,
            part: x.part,
        }
    }
}

// The partitions built, merged and laid out. The table of record starts stands from `table` on, the slots' own numbers from `base` on.
fn join(
    height: Height,
    gates: &[u32],
    given: &[u32],
    records: &[u32],
    indices: &mut [u32],
    lengths: &mut [u32],
    stages: &mut [u32],
    extra: usize,
    plan: &mut [u32],
    words: &mut [u32],
    counts: &mut [u32],
    work: &mut [u32],
    m: usize,
    table: usize,
    base: usize,
) -> Result<Merged, Refused>
    requires { JoinAt height.0 m table base extra gates.now given.now records.now indices.old lengths.old stages.old plan.old words.old counts.old work.old }
    ensures { Joined needed_runs height.0 extra gates.now given.now records.now indices.old lengths.old stages.old plan.old result indices.new lengths.new stages.new }
{
    let most = build_originals(
        height, gates, given, records, indices, lengths, plan, words, counts, work, m, table, base,
    )?;
    let ranks = begun(lengths.len());
    let trials = merge_slots(
        height,
        gates,
        given,
        records,
        indices,
        lengths,
        plan,
        words,
        counts,
        work,
        m,
        table,
        base,
        most + extra,
        ranks,
    );
    let left = lay_out(indices, lengths, stages, work, 16 * m + RECORDS, base);
    Ok(Merged {
        partitions: left.partitions,
        stages: left.stages,
        words: left.words,
        cells: left.cells,
        trials,
    })
}

// The merge of partitions that passed the checks, in areas of exactly their counted sizes.
fn place(
    height: Height,
    gates: &[u32],
    given: &[u32],
    records: &[u32],
    indices: &mut [u32],
    lengths: &mut [u32],
    stages: &mut [u32],
    extra: usize,
    plan: &mut [u32],
    words: &mut [u32],
    counts: &mut [u32],
    work: &mut [u32],
) -> Result<Merged, Refused>
    requires { PlaceAt height.0 extra gates.now given.now records.now indices.old lengths.old stages.old plan.old words.old counts.old work.old }
    ensures { Placed needed_runs height.0 extra gates.now given.now records.now indices.old lengths.old stages.old plan.old words.old counts.old work.old result indices.new lengths.new stages.new plan.new words.new counts.new work.new }
{
    empty_all(plan, words, counts, work);
    let m = pin_count(gates);
    let table = 16 * m + RECORDS + 8 * indices.len();
    let base = table + 8 * records.len();
    locate(records, work, table);
    let merged = join(
        height, gates, given, records, indices, lengths, stages, extra, plan, words, counts, work,
        m, table, base,
    );
    empty_all(plan, words, counts, work);
    merged
}

// Merges partitions of the records' groups while no union has more stages than the greatest of them and `extra` more, built as `placer::build`
// does. The group list holds the merged partitions in their final order; plan, words, counts and work are scratch.
pub fn merge(
    height: u32,
    gates: &[u32],
    given: &[u32],
    records: &[u32],
    indices: &mut [u32],
    lengths: &mut [u32],
    stages: &mut [u32],
    extra: usize,
    plan: &mut [u32],
    words: &mut [u32],
    counts: &mut [u32],
    work: &mut [u32],
) -> Result<Merged, Refused>
    ensures { outcome result indices.new lengths.new stages.new plan.new words.new counts.new work.new ≡ merger needed_runs height gates.now given.now records.now (group_list indices.old lengths.old stages.old) extra (areas plan.old words.old counts.old work.old) }
{
    merge_refusal(
        height, gates, given, records, indices, lengths, stages, extra, plan, words, counts, work,
    )?;
    let limit = Height(height).word_limit();
    let rooms = Height(height).rooms(plan.len());
    let own = 8 * lengths.len() + 8 * indices.len();
    let need = 16 * pin_count(gates) + 8 * records.len() + RECORDS + own;
    place(
        Height(height),
        gates,
        given,
        records,
        indices,
        lengths,
        stages,
        extra,
        plan,
        &mut words[0..limit],
        &mut counts[0..rooms],
        &mut work[0..need],
    )
}
