// The size of a union's traversal. A cone is a traversal that stands in the columns: it is extended by further groups, and taken back along its
// lists, so that a measure costs by what it adds and not by the graph.
ghost use Rattle.std.specs.Prelude.{drop};
ghost use Rattle.columns.specs.Fields.{DONE};
ghost use Rattle.columns.specs.Lists.{list};
ghost use Rattle.rules.specs.Inside.Some.{Some, Every};
ghost use Rattle.merge_unions.specs.Sizing.{AlongAt, Along, UnmarkAt, BackAt, Back, CloseAt, Closed};
ghost use Rattle.merge_unions.specs.Cones.{ConeAt, Coned, ExtendAt, Extended, Measures};
ghost use Rattle.merge_unions.specs.Unions.{SizeAt, Measured};

use crate::waiting::wait_part;
use columns::{DONE, LISTED, ORDER, PLACE, WAITING, pin_at, set_field};
use graph::Pin;
use placer_start::given::mark_given;
use stage_walk::traversal::traverse_on;

// How many pins wait, and how many the traversal from them lists.
#[derive(Clone, Copy)]
pub struct Cone {
    pub waiting: usize,
    pub listed: usize,
}

// Column g becomes 0 at the pins that column f lists from place a to n.
fn clear_along(work: &mut [u32], m: usize, a: usize, n: usize, f: usize, g: usize)
    requires { AlongAt f g m a n work.old }
    ensures { Along g m (drop a (list f m n work.old)) work.old work.new }
{
    for i in a..n {
        let p = pin_at(work, m, i, f);
        set_field(work, m, p, g, 0);
    }
}

// The given pins are no longer marked.
fn unmark_given(given: &[u32], work: &mut [u32], m: usize)
    requires { UnmarkAt m given.now work.old }
    ensures { Along DONE m given.now work.old work.new }
{
    for p in given {
        set_field(work, m, Pin(*p), DONE, 0);
    }
}

// What was listed and waits behind `to` is taken back.
fn take_back(work: &mut [u32], m: usize, from: Cone, to: Cone)
    requires { BackAt m from.waiting from.listed to.waiting to.listed work.old }
    ensures { Back m to.waiting to.listed work.old work.new }
{
    clear_along(work, m, to.listed, from.listed, ORDER, LISTED);
    clear_along(work, m, to.waiting, from.waiting, WAITING, PLACE);
}

// The cone of the groups that it has and of those that `names` names.
fn extend(
    gates: &[u32],
    records: &[u32],
    names: &[u32],
    work: &mut [u32],
    m: usize,
    table: usize,
    cone: Cone,
) -> Cone
    requires { Some (λ x. ExtendAt x m table cone.waiting cone.listed gates.now records.now names.now work.old) }
    ensures { Every (λ x. ExtendAt x m table cone.waiting cone.listed gates.now records.now names.now work.old) (λ x. Extended x m table gates.now records.now names.now work.old result.waiting result.listed work.new) }
{
    let n = wait_part(records, names, work, m, table, cone.waiting);
    let k = traverse_on(gates, work, m, n, cone.waiting, cone.listed);
    Cone {
        waiting: n,
        listed: k,
    }
}

// The cone of the groups that `names` names.
pub fn open_cone(
    gates: &[u32],
    given: &[u32],
    records: &[u32],
    names: &[u32],
    work: &mut [u32],
    m: usize,
    table: usize,
) -> Cone
    requires { ConeAt m table gates.now given.now records.now names.now work.old }
    ensures { Coned m table gates.now given.now records.now names.now work.old result.waiting result.listed work.new }
{
    mark_given(given, work, m);
    let none = Cone {
        waiting: 0,
        listed: 0,
    };
    extend(gates, records, names, work, m, table, none)
}

// How many pins the cone would list with the groups that `names` names. It stays as it is.
pub fn measure(
    gates: &[u32],
    records: &[u32],
    names: &[u32],
    work: &mut [u32],
    m: usize,
    table: usize,
    cone: Cone,
) -> usize
    requires { Some (λ x. ExtendAt x m table cone.waiting cone.listed gates.now records.now names.now work.old) }
    ensures { Every (λ x. ExtendAt x m table cone.waiting cone.listed gates.now records.now names.now work.old) (λ x. Measures x m table cone.waiting cone.listed gates.now records.now names.now work.old result work.new) }
{
    let with = extend(gates, records, names, work, m, table, cone);
    take_back(work, m, with, cone);
    with.listed
}

// The cone is gone.
pub fn close_cone(given: &[u32], work: &mut [u32], m: usize, cone: Cone)
    requires { CloseAt m cone.waiting cone.listed given.now work.old }
    ensures { Closed m work.old work.new }
{
    let none = Cone {
        waiting: 0,
        listed: 0,
    };
    take_back(work, m, cone, none);
    unmark_given(given, work, m);
}

// How many pins the traversal from the pins of the union's groups lists.
pub fn size_union(
    gates: &[u32],
    given: &[u32],
    records: &[u32],
    first: &[u32],
    second: &[u32],
    work: &mut [u32],
    m: usize,
    table: usize,
) -> usize
    requires { SizeAt m table gates.now given.now records.now first.now second.now work.old }
    ensures { Measured m table gates.now given.now records.now first.now second.now work.old result work.new }
{
    let cone = open_cone(gates, given, records, first, work, m, table);
    let k = measure(gates, records, second, work, m, table, cone);
    close_cone(given, work, m, cone);
    k
}
