// The partitions as they are given. Each stands in a slot: it is built and measured before the first union is tried.
#![tactic(auto)]

ghost use Rattle.std.specs.Prelude.{◌≡◌};
ghost use Rattle.rules.specs.Traversal.{needed_runs};
ghost use Rattle.merge_originals.specs.Originals.{NoteAt, Noted, MeasureAt, Measures, OriginalsAt, Given};

use cells::Height;
use columns::wide;
use merge_slots::store_built;
use merge_unions::build_union;
use merge_unions::sizing::size_union;
use placer::{Built, Refused};

// A refused partition from 1, and what refuses it.
#[derive(Clone, Copy)]
pub struct RefusedPart {
    pub part: usize,
    pub refused: Refused,
}

// The size of a built partition's traversal, its stages, words and filled cells become the own numbers of slot s.
fn note(
    gates: &[u32],
    given: &[u32],
    records: &[u32],
    part: &[u32],
    work: &mut [u32],
    m: usize,
    table: usize,
    base: usize,
    n: usize,
    s: usize,
    stages: usize,
    words: usize,
    cells: usize,
)
    requires { NoteAt m table base n s stages words cells gates.now given.now records.now part.now work.old }
    ensures { Noted m table base n s stages words cells gates.now given.now records.now part.now work.old work.new }
{
    let size = size_union(gates, given, records, part, &part[0..0], work, m, table);
    let end = base + 8 * n;
    store_built(&mut work[base..end], n, s, size, stages, words, cells);
}

// Slot s built and measured, or its refusal.
pub fn measure(
    height: Height,
    gates: &[u32],
    given: &[u32],
    records: &[u32],
    part: &[u32],
    plan: &mut [u32],
    words: &mut [u32],
    counts: &mut [u32],
    work: &mut [u32],
    m: usize,
    table: usize,
    base: usize,
    n: usize,
    s: usize,
) -> Result<Built, Refused>
    requires { MeasureAt height.0 m table base n s gates.now given.now records.now part.now plan.old words.old counts.old work.old }
    ensures { Measures needed_runs height.0 m table base n s gates.now given.now records.now part.now plan.old words.old counts.old work.old result plan.new words.new counts.new work.new }
{
    let built = build_union(
        height,
        gates,
        given,
        records,
        part,
        &part[0..0],
        plan,
        words,
        counts,
        work,
        m,
        table,
    )?;
    note(
        gates,
        given,
        records,
        part,
        work,
        m,
        table,
        base,
        n,
        s,
        built.stages,
        built.words,
        built.cells,
    );
    Ok(built)
}

// Each slot in turn, up to the first that is refused. Returns the greatest stage count.
pub fn build_originals(
    height: Height,
    gates: &[u32],
    given: &[u32],
    records: &[u32],
    indices: &[u32],
    lengths: &[u32],
    plan: &mut [u32],
    words: &mut [u32],
    counts: &mut [u32],
    work: &mut [u32],
    m: usize,
    table: usize,
    base: usize,
) -> Result<usize, RefusedPart>
    requires { OriginalsAt height.0 m table base gates.now given.now records.now indices.now lengths.now plan.old words.old counts.old work.old }
    ensures { Given needed_runs height.0 m table base gates.now given.now records.now indices.now lengths.now plan.old words.old counts.old work.old result plan.new words.new counts.new work.new }
{
    let n = lengths.len();
    let mut most = 0;
    let mut at = 0;
    for (s, length) in lengths.iter().enumerate() {
        let next = at + wide(*length);
        let measured = measure(
            height,
            gates,
            given,
            records,
            &indices[at..next],
            plan,
            words,
            counts,
            work,
            m,
            table,
            base,
            n,
            s,
        );
        match measured {
            Ok(built) => most = built.stages.max(most),
            Err(refused) => {
                return Err(RefusedPart {
                    part: s + 1,
                    refused,
                });
            }
        }
        at = next;
    }
    Ok(most)
}
