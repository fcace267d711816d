// What is told before a build: D, by which its rooms are lent, the most gates on a way from an endpoint down to a leaf or a given pin; and
// the words that its records set aside.
#![tactic(auto)]

ghost use Rattle.std.specs.Prelude.{◌≡◌};
ghost use Rattle.rules.specs.Graph.{graph_of};
ghost use Rattle.rules.specs.Records.{groups_of};
ghost use Rattle.rules.specs.Depth.{deepest};
ghost use Rattle.depth.specs.Calls.{Said, SizeAt, outcome, tell_depth, aside_outcome, tell_aside};
ghost use Rattle.depth.specs.Walks.{WalkAt, MeasureAt, Measured};
ghost use Rattle.rules.specs.Checks.{work_size};

use aside::tally;
use cells::Height;
use checks::refusal;
use columns::RECORDS;
use graph::pin_count;
use placer_start::given::mark_given;
use placer_start::reservation::set_aside;
use placer_start::waiting::wait_all;
use refusals::Refusal;
use sizes::work_left;
use stage_levels::levels;
use stage_walk::traversal::traverse;

mod aside;

// D, by the walks of a first stage, in an area of m pins that is 0 throughout.
fn walk(gates: &[u32], given: &[u32], records: &[u32], work: &mut [u32], m: usize) -> usize
    requires { WalkAt m gates.now given.now records.now work.old }
    ensures { result ≡ deepest (graph_of gates.now) given.now (groups_of records.now) }
{
    mark_given(given, work, m);
    let n = wait_all(records, work, m);
    let k = traverse(gates, work, m, n);
    levels(gates, work, m, k)
}

// The same in a work area of exactly its counted size, whatever it holds. It is 0 afterwards.
fn measure(gates: &[u32], given: &[u32], records: &[u32], work: &mut [u32]) -> usize
    requires { MeasureAt gates.now given.now records.now work.old }
    ensures { Measured gates.now given.now records.now work.old result work.new }
{
    let m = pin_count(gates);
    work.fill(0);
    let d = walk(gates, given, records, work, m);
    work.fill(0);
    d
}

// Memories and duplicates among the records, and the words set aside for them.
#[derive(Clone, Copy)]
pub struct SetAside {
    pub memories: usize,
    pub duplicates: usize,
    pub words: usize,
}

// A build's checks where the height is right: neither D nor the words set aside depend on it, so none is asked for.
fn checked(gates: &[u32], given: &[u32], records: &[u32], work: &[u32]) -> Result<(), Refusal>
    ensures { Said gates.now given.now records.now work.now result }
{
    let sized = work_left(gates.len(), records.len(), work.len()).is_some();
    refusal(Height::LEAST, sized, gates, given, records)
}

// The numbers of the work area that count.
fn counted_size(gates: &[u32], records: &[u32]) -> usize
    requires { SizeAt gates.now records.now }
    ensures { result ≡ work_size gates.now records.now }
{
    16 * pin_count(gates) + 8 * records.len() + RECORDS
}

// D of a graph, given pins and records: with D + 1 rooms a build of them never runs out of rooms. The work area is a build's, and scratch.
pub fn depth(
    gates: &[u32],
    given: &[u32],
    records: &[u32],
    work: &mut [u32],
) -> Result<usize, Refusal>
    ensures { outcome result work.new ≡ tell_depth gates.now given.now records.now work.old }
{
    checked(gates, given, records, work)?;
    let need = counted_size(gates, records);
    let d = measure(gates, given, records, &mut work[0..need]);
    Ok(d)
}

// What the records of a build set aside, counted whole, whether or not it is more than may be reserved. The work area is a build's, and
// scratch.
pub fn reserved(
    gates: &[u32],
    given: &[u32],
    records: &[u32],
    work: &mut [u32],
) -> Result<SetAside, Refusal>
    ensures { aside_outcome result work.new ≡ tell_aside gates.now given.now records.now work.old }
{
    checked(gates, given, records, work)?;
    let need = counted_size(gates, records);
    let count = tally(gates, given, records, &mut work[0..need]);
    let words = set_aside(count);
    Ok(SetAside {
        memories: count.memories,
        duplicates: count.duplicates,
        words,
    })
}
