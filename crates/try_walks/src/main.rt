// The walks over small graphs, printed; the file stdout has what they must be.
#![tactic(auto)]

ghost use Rattle.std.specs.Prelude.{◌+◌, ◌*◌, ◌≤◌, length};
ghost use Rattle.rules.specs.Inside.Some.{Some};
ghost use Rattle.try_walks.specs.Shown.{ShowAt, GiveAt, Given, WaitAt, Waiting, StartAt, Started, PrintAt};

use cells::Height;
use columns::{
    DONE, ENDS, LEVEL, NEEDED, ORDER, RANKED, REVERSE, clear, number_at, set_field, wait,
};
use graph::Pin;
use stage_needed::needed;
use stage_prepare::prepare;
use std::io;

// The first n numbers of column f.
fn row(rt: &impl Print, name: &[u8], work: &[u32], m: usize, f: usize, n: usize) -> io::Result<()>
    requires { f * m + n ≤ length work.now }
{
    rt.write_all(name)?;
    for i in 0..n {
        let number = number_at(work, m, i, f);
        print!(rt; " {number}")?;
    }
    println!(rt; "")
}

// The given pins are marked.
fn give(work: &mut [u32], m: usize, given: &[u32])
    requires { GiveAt m given.now work.old }
    ensures { Given m work.old work.new }
{
    for pin in given {
        set_field(work, m, Pin(*pin), DONE, 1);
    }
}

// The waiting pins are listed. Returns how many they are.
fn list(work: &mut [u32], m: usize, waiting: &[u32]) -> usize
    requires { WaitAt m waiting.now work.old }
    ensures { Waiting m work.old work.new result }
{
    let mut n = 0;
    for pin in waiting {
        n = wait(work, m, n, Pin(*pin));
    }
    n
}

// A stage's beginning in an area of any numbers. Returns how many pins wait.
fn start(gates: &[u32], given: &[u32], waiting: &[u32], work: &mut [u32], m: usize) -> usize
    requires { StartAt m gates.now given.now waiting.now work.old }
    ensures { Some (λ C. Started C m result gates.now work.new) }
{
    clear(work, 16 * m);
    give(work, m, given);
    list(work, m, waiting)
}

// Where the lists below `levels` end, of k pins at most.
fn in_lists(work: &[u32], m: usize, k: usize, levels: usize) -> usize
    requires m_in_bounds { 8 * m ≤ length work.now }
    requires levels_le_m { levels ≤ m }
    ensures { result ≤ k }
{
    if levels == 0 {
        return 0;
    }
    number_at(work, m, levels - 1, ENDS).min(k)
}

// The k pins of the order, the pins in lists, the c needed pins, and levels by pin.
fn print(
    rt: &impl Print,
    work: &[u32],
    m: usize,
    k: usize,
    levels: usize,
    c: usize,
) -> io::Result<()>
    requires { PrintAt m k levels c work.now }
{
    row(rt, b"order", work, m, ORDER, k)?;
    row(rt, b"levels", work, m, LEVEL, m)?;
    row(rt, b"reverse", work, m, REVERSE, m)?;
    row(rt, b"lists", work, m, RANKED, in_lists(work, m, k, levels))?;
    row(rt, b"needed", work, m, NEEDED, c)
}

fn show(
    rt: &impl Print,
    name: &[u8],
    gates: &[u32],
    given: &[u32],
    waiting: &[u32],
    work: &mut [u32],
) -> io::Result<()>
    requires { ShowAt gates.now given.now waiting.now work.old }
{
    let m = gates.len() / 2;
    let n = start(gates, given, waiting, work, m);
    let walk = prepare(gates, work, m, n, Height(6));
    let k = walk.listed;
    let c = needed(gates, work, m, n, k);
    rt.write_all(name)?;
    print(rt, work, m, k, walk.levels, c)
}

const NONE: u32 = 4294967295;

// Each pin over the one before.
fn chain(rt: &impl Print, work: &mut [u32]) -> io::Result<()>
    requires { 1024 ≤ length work.old }
{
    let gates = [NONE, NONE, NONE, NONE, NONE, NONE, 2, 4, 6, 3, 8, 4];
    show(rt, b"chain\n", &gates, &[], &[5], work)
}

// Four leaves under one pin.
fn tree(rt: &impl Print, work: &mut [u32]) -> io::Result<()>
    requires { 1024 ≤ length work.old }
{
    let gates = [
        NONE, NONE, NONE, NONE, NONE, NONE, NONE, NONE, NONE, NONE, 2, 4, 6, 9, 10, 12,
    ];
    show(rt, b"tree\n", &gates, &[], &[7], work)
}

// Pins that are operands of several; two of one level and reverse level.
fn shared(rt: &impl Print, work: &mut [u32]) -> io::Result<()>
    requires { 1024 ≤ length work.old }
{
    let gates = [
        NONE, NONE, NONE, NONE, NONE, NONE, 4, 2, 6, 4, 2, 7, 10, 8, 12, 6,
    ];
    show(rt, b"shared\n", &gates, &[], &[7, 6], work)
}

// Of two pins of level 2 the one that is met later has the greater reverse level.
fn ranked(rt: &impl Print, work: &mut [u32]) -> io::Result<()>
    requires { 1024 ≤ length work.old }
{
    let gates = [
        NONE, NONE, NONE, NONE, NONE, NONE, NONE, NONE, 2, 4, 8, 6, 8, 2, 12, 6,
    ];
    show(rt, b"ranked\n", &gates, &[], &[5, 7], work)
}

// The tree with a gate that is given, named twice.
fn given(rt: &impl Print, work: &mut [u32]) -> io::Result<()>
    requires { 1024 ≤ length work.old }
{
    let gates = [
        NONE, NONE, NONE, NONE, NONE, NONE, NONE, NONE, NONE, NONE, 2, 4, 6, 9, 10, 12,
    ];
    show(rt, b"given\n", &gates, &[5, 5], &[7], work)
}

// Endpoints that repeat, one below another.
fn repeated(rt: &impl Print, work: &mut [u32]) -> io::Result<()>
    requires { 1024 ≤ length work.old }
{
    let gates = [
        NONE, NONE, NONE, NONE, NONE, NONE, NONE, NONE, NONE, NONE, 2, 4, 6, 9, 10, 12,
    ];
    show(rt, b"repeated\n", &gates, &[], &[6, 7, 6, 1, 7], work)
}

// No endpoint.
fn idle(rt: &impl Print, work: &mut [u32]) -> io::Result<()>
    requires { 1024 ≤ length work.old }
{
    let gates = [NONE, NONE, NONE, NONE];
    show(rt, b"idle\n", &gates, &[], &[], work)
}

fn main(rt: HostRuntime) -> io::Result<()> {
    let mut work = [7u32; 1024];
    chain(&rt, &mut work)?;
    tree(&rt, &mut work)?;
    shared(&rt, &mut work)?;
    ranked(&rt, &mut work)?;
    given(&rt, &mut work)?;
    repeated(&rt, &mut work)?;
    idle(&rt, &mut work)
}
