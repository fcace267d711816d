// The list of changes between two plans of one length: how many there are, and four numbers for each.
#![tactic(auto)]

ghost use Rattle.std.specs.Prelude.{◌≡◌, ◌+◌, ◌≤◌, length, set};
ghost use Rattle.rules.specs.Lists.{laid_over};
ghost use Rattle.mending.specs.Changes.{change_at, changes, numbers_of};
ghost use Rattle.mend_list.specs.Lists.{CountAt, Counted, change_for, ChangeAt, WriteAt};

use cells::Height;

// A stage from 1, a position of it, and the cell before and after.
#[derive(Clone, Copy)]
struct Change {
    stage: u32,
    position: u32,
    old: u32,
    new: u32,
}

// How many places differ.
pub fn count_changes(old: &[u32], new: &[u32]) -> usize
    requires { CountAt old.now new.now }
    ensures { Counted old.now new.now result }
{
    let mut n = 0;
    for (i, x) in old.iter().enumerate() {
        if *x != new[i] {
            n += 1;
        }
    }
    n
}

// The change at place i of a plan.
fn change_at(height: Height, i: usize, old: u32, new: u32) -> Change
    requires { ChangeAt height.0 i }
    ensures { change_for result ≡ change_at height.0 i old new }
{
    let size = height.stage_size();
    Change {
        stage: (i / size + 1) as u32,
        position: (i % size) as u32,
        old,
        new,
    }
}

// Four numbers of the list from `at` on.
fn put_change(list: &mut [u32], at: usize, change: Change)
    requires { at + 4 ≤ length list.old }
    ensures { list.new ≡ set (set (set (set list.old at change.stage) (at + 1) change.position) (at + 2) change.old) (at + 3) change.new }
{
    list[at] = change.stage;
    list[at + 1] = change.position;
    list[at + 2] = change.old;
    list[at + 3] = change.new;
}

// The places that differ, in order, over the list's first numbers. What follows them stays.
pub fn write_changes(height: Height, old: &[u32], new: &[u32], list: &mut [u32])
    requires { WriteAt height.0 old.now new.now list.old }
    ensures { list.new ≡ laid_over (numbers_of (changes height.0 old.now new.now)) list.old }
{
    let mut at = 0;
    for (i, x) in old.iter().enumerate() {
        let y = new[i];
        if *x != y {
            put_change(list, at, change_at(height, i, *x, y));
            at += 4;
        }
    }
}
