// Merging, slot by slot: round after round the later slots are ranked, and the first union that is accepted is taken.
#![tactic(auto)]

ghost use Rattle.rules.specs.Traversal.{needed_runs};
ghost use Rattle.merge_rounds.specs.Rounds.{RoundAt, Rounded, IntoAt, Into, SlotAt, Stepped, SlotsAt, Slotted};

use cells::Height;
use merge_slots::{best, open_all};
use merge_trials::{rank_all, try_union};

// What a round comes to: was a union accepted, and the unions examined so far.
#[derive(Clone, Copy)]
pub struct Outcome {
    pub taken: bool,
    pub trials: usize,
}

// What is left after a slot: the rounds, and the unions examined so far.
#[derive(Clone, Copy)]
pub struct Course {
    pub fuel: usize,
    pub trials: usize,
}

// The ranked slots after slot i, best first, until a union is accepted. Those that fail are barred.
fn round(
    height: Height,
    gates: &[u32],
    given: &[u32],
    records: &[u32],
    indices: &mut [u32],
    lengths: &mut [u32],
    plan: &mut [u32],
    words: &mut [u32],
    counts: &mut [u32],
    work: &mut [u32],
    m: usize,
    table: usize,
    base: usize,
    i: usize,
    cap: usize,
    ranks: usize,
    trials: usize,
) -> Outcome
    requires { RoundAt height.0 m table base i cap ranks trials gates.now given.now records.now indices.old lengths.old plan.old words.old counts.old work.old }
    ensures { Rounded needed_runs height.0 m table base i cap ranks trials gates.now given.now records.now indices.old lengths.old plan.old work.old result indices.new lengths.new plan.new words.new counts.new work.new }
{
    let n = lengths.len();
    let end = base + 8 * n;
    let mut t = trials;
    for _ in 0..ranks {
        let Some(j) = best(&work[base..end], n, i + 1) else {
            return Outcome {
                taken: false,
                trials: t,
            };
        };
        t += 1;
        if try_union(
            height, gates, given, records, indices, lengths, plan, words, counts, work, m, table,
            base, i, j, cap,
        ) {
            return Outcome {
                taken: true,
                trials: t,
            };
        }
    }
    Outcome {
        taken: false,
        trials: t,
    }
}

// Rounds for slot i until none is accepted, at most `fuel`. Returns the unions examined so far.
fn merge_into(
    height: Height,
    gates: &[u32],
    given: &[u32],
    records: &[u32],
    indices: &mut [u32],
    lengths: &mut [u32],
    plan: &mut [u32],
    words: &mut [u32],
    counts: &mut [u32],
    work: &mut [u32],
    m: usize,
    table: usize,
    base: usize,
    i: usize,
    cap: usize,
    ranks: usize,
    fuel: usize,
    trials: usize,
) -> usize
    requires { IntoAt height.0 m table base i cap ranks fuel trials gates.now given.now records.now indices.old lengths.old plan.old words.old counts.old work.old }
    ensures { Into needed_runs height.0 m table base i cap ranks fuel trials gates.now given.now records.now indices.old lengths.old plan.old work.old result indices.new lengths.new plan.new words.new counts.new work.new }
{
    let mut t = trials;
    for _ in 0..fuel {
        rank_all(
            gates, given, records, indices, lengths, work, m, table, base, i,
        );
        let outcome = round(
            height, gates, given, records, indices, lengths, plan, words, counts, work, m, table,
            base, i, cap, ranks, t,
        );
        t = outcome.trials;
        if !outcome.taken {
            return t;
        }
    }
    t
}

// Slot i in its turn: if it is full, the later ones are open again, and its rounds follow.
fn merge_slot(
    height: Height,
    gates: &[u32],
    given: &[u32],
    records: &[u32],
    indices: &mut [u32],
    lengths: &mut [u32],
    plan: &mut [u32],
    words: &mut [u32],
    counts: &mut [u32],
    work: &mut [u32],
    m: usize,
    table: usize,
    base: usize,
    i: usize,
    cap: usize,
    ranks: usize,
    fuel: usize,
    trials: usize,
) -> Course
    requires { SlotAt height.0 m table base i cap ranks fuel trials gates.now given.now records.now indices.old lengths.old plan.old words.old counts.old work.old }
    ensures { Stepped needed_runs height.0 m table base i cap ranks fuel trials gates.now given.now records.now indices.old lengths.old plan.old work.old result indices.new lengths.new plan.new words.new counts.new work.new }
{
    if lengths[i] == 0 {
        return Course { fuel, trials };
    }
    let end = base + 8 * lengths.len();
    open_all(lengths, &mut work[base..end]);
    let t = merge_into(
        height, gates, given, records, indices, lengths, plan, words, counts, work, m, table, base,
        i, cap, ranks, fuel, trials,
    );
    Course {
        fuel: fuel - 1,
        trials: t,
    }
}

// Every slot in turn. Returns the unions examined.
pub fn merge_slots(
    height: Height,
    gates: &[u32],
    given: &[u32],
    records: &[u32],
    indices: &mut [u32],
    lengths: &mut [u32],
    plan: &mut [u32],
    words: &mut [u32],
    counts: &mut [u32],
    work: &mut [u32],
    m: usize,
    table: usize,
    base: usize,
    cap: usize,
    ranks: usize,
) -> usize
    requires { SlotsAt height.0 m table base cap ranks gates.now given.now records.now indices.old lengths.old plan.old words.old counts.old work.old }
    ensures { Slotted needed_runs height.0 m table base cap ranks gates.now given.now records.now indices.old lengths.old plan.old work.old result indices.new lengths.new plan.new words.new counts.new work.new }
{
    let n = lengths.len();
    let mut trials = 0;
    let mut fuel = n;
    for i in 0..n {
        let left = merge_slot(
            height, gates, given, records, indices, lengths, plan, words, counts, work, m, table,
            base, i, cap, ranks, fuel, trials,
        );
        trials = left.trials;
        fuel = left.fuel;
    }
    trials
}
