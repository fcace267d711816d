// Rules 2 and 3: levels along the order, reverse levels back along it.
#![tactic(auto)]

ghost use Rattle.std.specs.Prelude.{◌≡◌, ◌+◌, ◌*◌, ◌<◌, max, length, get_or, set};
ghost use Rattle.rules.specs.Graph.{below};
ghost use Rattle.rules.specs.Traversal.{over, thread, raise, lift};
ghost use Rattle.rules.specs.Inside.Lean.{start_levels};
ghost use Rattle.columns.specs.Area.{col};
ghost use Rattle.columns.specs.Fields.{LEVEL, WAITING, REVERSE};
ghost use Rattle.columns.specs.Lists.{list};
ghost use Rattle.rules.specs.Inside.Some.{Some, Every};
ghost use Rattle.stage_levels.specs.Levels.{Becomes, LevelAt, LevelsAt, Levels, WaitsAt, LiftAt, LowerAt, ReverseAt};

use columns::{LEVEL, ORDER, REVERSE, WAITING, get, pin_at, set_field};
use graph::Pin;
use stage_walk::followed;

// Pin p's level, by those of the pins followed from it.
fn level_of(gates: &[u32], work: &[u32], m: usize, p: Pin) -> usize
    requires { Some (λ C. LevelAt C m p.0 gates.now work.now) }
    ensures { Every (λ C. LevelAt C m p.0 gates.now work.now) (λ C. result ≡ over (λ q. get_or work.now (LEVEL * m + q) 0) (below C.X.g C.X.done p.0)) }
{
    match followed(gates, work, m, p) {
        None => 0,
        Some((a, b)) => {
            let x = get(work, m, a, LEVEL);
            let y = get(work, m, b, LEVEL);
            x.max(y) + 1
        }
    }
}

// The levels of the k pins in the order, with no level before. Returns the greatest.
pub fn levels(gates: &[u32], work: &mut [u32], m: usize, k: usize) -> usize
    requires { Some (λ C. LevelsAt C m k gates.now work.old) }
    ensures { Every (λ C. LevelsAt C m k gates.now work.old) (λ C. Levels C m work.old work.new result) }
{
    let mut top = 0;
    for i in 0..k {
        let p = pin_at(work, m, i, ORDER);
        let v = level_of(gates, work, m, p);
        set_field(work, m, p, LEVEL, v);
        top = v.max(top);
    }
    top
}

// Pin p's reverse level becomes r, if it is lower.
fn raise(work: &mut [u32], m: usize, p: Pin, r: usize)
    requires p_in_bounds { REVERSE * m + p.0 < length work.old }
    requires r_bound { r < 4294967296 }
    ensures { work.new ≡ set work.old (REVERSE * m + p.0) (max r (get_or work.old (REVERSE * m + p.0) 0)) }
{
    let old = get(work, m, p, REVERSE);
    set_field(work, m, p, REVERSE, r.max(old));
}

// Pin p hands its reverse level down.
fn lift(gates: &[u32], work: &mut [u32], m: usize, p: Pin)
    requires { Some (λ C. LiftAt C m p.0 gates.now work.old) }
    ensures { Every (λ C. LiftAt C m p.0 gates.now work.old) (λ C. Becomes REVERSE m work.old work.new (lift C.X.g C.X.done p.0 (col REVERSE m work.old))) }
{
    let r = get(work, m, p, REVERSE);
    if r == 0 {
        return;
    }
    if let Some((a, b)) = followed(gates, work, m, p) {
        raise(work, m, a, r + 1);
        raise(work, m, b, r + 1);
    }
}

// The n waiting pins start.
fn start(work: &mut [u32], m: usize, n: usize)
    requires { WaitsAt m n work.old }
    ensures { Becomes REVERSE m work.old work.new (raise 1 (list WAITING m n work.old) (col REVERSE m work.old)) }
{
    for i in 0..n {
        let p = pin_at(work, m, i, WAITING);
        raise(work, m, p, 1);
    }
}

// Each of the k pins hands its reverse level down, the last first.
fn lower(gates: &[u32], work: &mut [u32], m: usize, k: usize)
    requires { Some (λ C. LowerAt C m k gates.now work.old) }
    ensures { Every (λ C. LowerAt C m k gates.now work.old) (λ C. Becomes REVERSE m work.old work.new (thread (lift C.X.g C.X.done) C.X.seen (col REVERSE m work.old))) }
{
    for i in (0..k).rev() {
        let p = pin_at(work, m, i, ORDER);
        lift(gates, work, m, p);
    }
}

// The reverse levels before anything is placed, from n waiting pins, along an order of k, with none before.
pub fn reverse_levels(gates: &[u32], work: &mut [u32], m: usize, n: usize, k: usize)
    requires { Some (λ C. ReverseAt C m n k gates.now work.old) }
    ensures { Every (λ C. ReverseAt C m n k gates.now work.old) (λ C. Becomes REVERSE m work.old work.new (start_levels C.X)) }
{
    start(work, m, n);
    lower(gates, work, m, k);
}
