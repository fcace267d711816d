// The merged partitions in their final order, laid out in the caller's group list.
#![tactic(auto)]

ghost use Rattle.std.specs.Prelude.{◌≡◌};
ghost use Rattle.merge_slots.specs.Moves.{OwnAt};
ghost use Rattle.merge_layout.specs.Layout.{OrderAt, Ordered, GatherAt, Gathered, Cleared, FillAt, TableAt, Tabled, TotalAt, sums, WriteAt, Written, LayAt, Arranged, Laid};

use columns::wide;
use merge_slots::{
    CELLS, GROWS, ORDER, STAGES, UNION, WORDS, copy, open_all, order_keys, sort, start_of,
};

#[derive(Clone, Copy)]
pub struct Totals {
    pub partitions: usize,
    pub stages: usize,
    pub words: usize,
    pub cells: usize,
}

// The full slots in their final order, in column ORDER. Returns how many.
fn final_order(lengths: &[u32], own: &mut [u32]) -> usize
    requires { OrderAt lengths.now own.old }
    ensures { Ordered lengths.now own.old own.new result }
{
    let n = lengths.len();
    open_all(lengths, own);
    order_keys(own, n);
    sort(own, n)
}

// The groups of the first k slots of `order`, one slot after the other.
fn gather(indices: &[u32], lengths: &[u32], order: &[u32], to: &mut [u32], k: usize)
    requires { GatherAt indices.now lengths.now order.now k to.old }
    ensures { Gathered indices.now lengths.now order.now k to.new }
{
    let mut at = 0;
    for i in 0..k {
        let s = wide(order[i]);
        let start = start_of(lengths, s);
        let size = wide(lengths[s]);
        copy(&mut to[at..at + size], &indices[start..start + size]);
        at += size;
    }
}

// Columns GROWS and UNION become 0.
fn clear_lists(own: &mut [u32], n: usize)
    requires { OwnAt n own.old }
    ensures { Cleared n n own.old own.new }
{
    for i in 0..n {
        own[GROWS * n + i] = 0;
        own[UNION * n + i] = 0;
    }
}

// The length and the stages of the first k slots of column ORDER, in columns GROWS and UNION, which are 0.
fn fill_lists(lengths: &[u32], own: &mut [u32], k: usize)
    requires { FillAt lengths.now k own.old }
    ensures { Tabled lengths.now k own.old own.new }
{
    let n = lengths.len();
    for i in 0..k {
        let s = wide(own[ORDER * n + i]);
        own[GROWS * n + i] = lengths[s];
        own[UNION * n + i] = own[STAGES * n + s];
    }
}

// The same, with 0 behind them.
fn tabulate(lengths: &[u32], own: &mut [u32], k: usize)
    requires { TableAt lengths.now k own.old }
    ensures { Tabled lengths.now k own.old own.new }
{
    clear_lists(own, lengths.len());
    fill_lists(lengths, own, k);
}

// The sum of column f over the first k slots of column ORDER.
fn total(own: &[u32], n: usize, f: usize, k: usize) -> usize
    requires { TotalAt n f k own.now }
    ensures { result ≡ sums n f own.now k }
{
    let mut sum = 0;
    for i in 0..k {
        sum += wide(own[f * n + wide(own[ORDER * n + i])]);
    }
    sum
}

// Lengths and stages of the first k slots of column ORDER, 0 behind them.
fn write_lists(lengths: &mut [u32], stages: &mut [u32], own: &mut [u32], k: usize) -> Totals
    requires { WriteAt lengths.old stages.old k own.old }
    ensures { Written lengths.old k own.old lengths.new stages.new result }
{
    let n = lengths.len();
    tabulate(lengths, own, k);
    let a = GROWS * n;
    let b = UNION * n;
    let c = ORDER * n;
    let stages_sum = total(own, n, STAGES, k);
    let words_sum = total(own, n, WORDS, k);
    let cells_sum = total(own, n, CELLS, k);
    copy(lengths, &own[a..b]);
    copy(stages, &own[b..c]);
    Totals {
        partitions: k,
        stages: stages_sum,
        words: words_sum,
        cells: cells_sum,
    }
}

// The groups of the full slots in their final order. Column ORDER of the numbers from `base` on holds the order. Returns how many.
fn arrange(
    indices: &mut [u32],
    lengths: &[u32],
    stages: &mut [u32],
    work: &mut [u32],
    spare: usize,
    base: usize,
) -> usize
    requires { LayAt spare base indices.old lengths.now stages.old work.old }
    ensures { Arranged spare base indices.old lengths.now stages.old work.old indices.new stages.new work.new result }
{
    let n = lengths.len();
    let k = final_order(lengths, &mut work[base..base + 8 * n]);
    let from = base + ORDER * n;
    copy(stages, &work[from..from + n]);
    let last = spare + indices.len();
    gather(indices, lengths, stages, &mut work[spare..last], k);
    copy(indices, &work[spare..last]);
    k
}

// The merged partitions in their final order, in the group list.
pub fn lay_out(
    indices: &mut [u32],
    lengths: &mut [u32],
    stages: &mut [u32],
    work: &mut [u32],
    spare: usize,
    base: usize,
) -> Totals
    requires { LayAt spare base indices.old lengths.old stages.old work.old }
    ensures { Laid spare base indices.old lengths.old work.old indices.new lengths.new stages.new work.new result }
{
    let end = base + 8 * lengths.len();
    let k = arrange(indices, lengths, stages, work, spare, base);
    write_lists(lengths, stages, &mut work[base..end], k)
}
