// Rule 6, from the counts of cells by pin: a pin is placed exactly if its count is not 0.
#![tactic(auto)]

ghost use Rattle.std.specs.Prelude.{◌≡◌, [], ◌∷◌, ◌<◌, ◌≤◌};
ghost use Rattle.rules.specs.Lists.{keep};
ghost use Rattle.rules.specs.Placing.{tree_of, asked};
ghost use Rattle.rules.specs.Inside.Lean.{lacks, lacking};
ghost use Rattle.rules.specs.Inside.Some.{Some, Every};
ghost use Rattle.stage_walk.specs.Stands.{SomePlan, EveryPlan};
ghost use Rattle.stage_needed.specs.Needed.{missing, Needs, AskAt, ItselfAt, NeedAt, LackAt, NotePinAt, NotedPin, Surveyed, Noted, CountAt, NeededAt, Collected, UnmarkAt, Unmarked, Needed};

use columns::{
    CELLS, LEVEL, MARK, NEEDED, ORDER, PLACE, STACK, enlist, get, is_in, pin_at, push, set_field,
};
use graph::Pin;
use stage_walk::followed;

// Pins that are noted, and pins that they make needed.
#[derive(Clone, Copy)]
pub struct Counts {
    pub noted: usize,
    pub needed: usize,
}

// Pin p behind the needed list of n pins, if it has level 0 and is not placed. Returns how many are listed.
fn ask(work: &mut [u32], m: usize, n: usize, p: Pin) -> usize
    requires { SomePlan (λ C pl. AskAt C pl m work.old n p.0) }
    ensures { EveryPlan (λ C pl. AskAt C pl m work.old n p.0) (λ C pl. Needs m work.old n work.new result (keep (missing C pl) (p.0 ∷ []))) }
{
    if get(work, m, p, LEVEL) != 0 || is_in(work, m, p, CELLS) {
        return n;
    }
    enlist(work, m, n, NEEDED, MARK, p)
}

// Pin p of level h, 0 or 1, itself, at level 0 if it waits.
fn itself(work: &mut [u32], m: usize, n: usize, p: Pin, h: usize) -> usize
    requires { SomePlan (λ C pl. ItselfAt C pl m work.old n p.0 h) }
    ensures { EveryPlan (λ C pl. ItselfAt C pl m work.old n p.0 h) (λ C pl. Needs m work.old n work.new result (asked C.X (tree_of C.X pl) p.0 h)) }
{
    if h == 1 || is_in(work, m, p, PLACE) {
        return enlist(work, m, n, NEEDED, MARK, p);
    }
    n
}

// What pin p makes needed.
fn need(gates: &[u32], work: &mut [u32], m: usize, n: usize, p: Pin) -> usize
    requires { SomePlan (λ C pl. NeedAt C pl m gates.now work.old n p.0) }
    ensures { EveryPlan (λ C pl. NeedAt C pl m gates.now work.old n p.0) (λ C pl. Needs m work.old n work.new result (lacks C.X (tree_of C.X pl) p.0)) }
{
    if is_in(work, m, p, CELLS) {
        return n;
    }
    let h = get(work, m, p, LEVEL);
    if h < 2 {
        return itself(work, m, n, p, h);
    }
    match followed(gates, work, m, p) {
        // From level 2 on two pins are followed.
        None => n,
        Some((a, b)) => {
            let k = ask(work, m, n, a);
            ask(work, m, k, b)
        }
    }
}

// Does pin p lack anything before anything is placed?
fn lacking(gates: &[u32], work: &[u32], m: usize, p: Pin) -> bool
    requires { Some (λ C. LackAt C m gates.now work.now p.0) }
    ensures { Every (λ C. LackAt C m gates.now work.now p.0) (λ C. result ≡ lacking C.X p.0) }
{
    let h = get(work, m, p, LEVEL);
    if h == 1 {
        return true;
    }
    if h == 0 {
        return is_in(work, m, p, PLACE);
    }
    match followed(gates, work, m, p) {
        None => false,
        Some((a, b)) => get(work, m, a, LEVEL) == 0 || get(work, m, b, LEVEL) == 0,
    }
}

// Pin p, if it lacks anything before anything is placed: what it makes needed goes behind the needed pins, and it behind the noted ones.
fn note_pin(gates: &[u32], work: &mut [u32], m: usize, c: Counts, p: Pin) -> Counts
    requires { SomePlan (λ C pl. NotePinAt C pl m gates.now work.old c p.0) }
    ensures { EveryPlan (λ C pl. NotePinAt C pl m gates.now work.old c p.0) (λ C pl. NotedPin C pl m work.old c p.0 work.new result) }
{
    if lacking(gates, work, m, p) {
        let needed = need(gates, work, m, c.needed, p);
        push(work, m, c.noted, STACK, p);
        let noted = c.noted + 1;
        return Counts { noted, needed };
    }
    c
}

// How many pins a part has. Pins are gone over part by part: the compiler puts a pin's work in place only where it stands in a loop of loops.
const PART: usize = 1024;

// The k listed pins, one after the other: a pin is looked at once, for the note and for the first count.
fn survey(gates: &[u32], work: &mut [u32], m: usize, n: usize, k: usize) -> Counts
    requires { SomePlan (λ C pl. NeededAt C pl m n k gates.now work.old) }
    ensures { EveryPlan (λ C pl. NeededAt C pl m n k gates.now work.old) (λ C pl. Surveyed C pl m work.old work.new result) }
{
    let mut c = Counts {
        noted: 0,
        needed: 0,
    };
    let mut from = 0;
    while from < k {
        let to = from + PART.min(k - from);
        for i in from..to {
            let p = pin_at(work, m, i, ORDER);
            c = note_pin(gates, work, m, c, p);
        }
        from = to;
    }
    c
}

// What the k pins of column f make needed.
fn collect(gates: &[u32], work: &mut [u32], m: usize, n: usize, f: usize, k: usize) -> usize
    requires { SomePlan (λ C pl. CountAt C pl m n f k gates.now work.old) }
    ensures { EveryPlan (λ C pl. CountAt C pl m n f k gates.now work.old) (λ C pl. Collected C pl m work.old work.new result) }
{
    let mut r = 0;
    let mut from = 0;
    while from < k {
        let to = from + PART.min(k - from);
        for i in from..to {
            let p = pin_at(work, m, i, f);
            r = need(gates, work, m, r, p);
        }
        from = to;
    }
    r
}

// The marks of the n needed pins go.
fn unmark(work: &mut [u32], m: usize, n: usize)
    requires { UnmarkAt m n work.old }
    ensures { Unmarked m [] work.old work.new }
{
    for i in 0..n {
        let p = pin_at(work, m, i, NEEDED);
        set_field(work, m, p, MARK, 0);
    }
}

// The needed pins of the plan whose counts are in CELLS, with n pins waiting, by the k pins of column f, which stand for the order. Returns
// how many they are.
pub fn counted(gates: &[u32], work: &mut [u32], m: usize, n: usize, f: usize, k: usize) -> usize
    requires { SomePlan (λ C pl. CountAt C pl m n f k gates.now work.old) }
    ensures { EveryPlan (λ C pl. CountAt C pl m n f k gates.now work.old) (λ C pl. Needed C pl m work.old work.new result) }
{
    let r = collect(gates, work, m, n, f, k);
    unmark(work, m, r);
    r
}

// The same by the k listed pins.
pub fn needed(gates: &[u32], work: &mut [u32], m: usize, n: usize, k: usize) -> usize
    requires { SomePlan (λ C pl. NeededAt C pl m n k gates.now work.old) }
    ensures { EveryPlan (λ C pl. NeededAt C pl m n k gates.now work.old) (λ C pl. Needed C pl m work.old work.new result) }
{
    counted(gates, work, m, n, ORDER, k)
}

// The same, and of the k listed pins those that lack anything before anything is placed are noted in STACK: they stand for the order from now on.
pub fn note(gates: &[u32], work: &mut [u32], m: usize, n: usize, k: usize) -> Counts
    requires { SomePlan (λ C pl. NeededAt C pl m n k gates.now work.old) }
    ensures { EveryPlan (λ C pl. NeededAt C pl m n k gates.now work.old) (λ C pl. Noted C pl m work.old work.new result) }
{
    let c = survey(gates, work, m, n, k);
    unmark(work, m, c.needed);
    c
}
