// The sizes of lent areas, compared as true numbers: what an area needs is taken off step by step, so that no product wraps.
#![tactic(auto)]

ghost use Rattle.std.specs.Prelude.{◌≡◌, ◌&&◌, ◌+◌, ◌*◌, ◌/◌, Some};
ghost use Rattle.rules.specs.Cells.{is_height};
ghost use Rattle.rules.specs.Checks.{plan_sized, areas_sized};
ghost use Rattle.sizes.specs.Values.{less};

use cells::{Height, is_height};

// Takes 8 numbers for each of `count` off what is left of an area: none where it is too short.
pub fn take_eights(left: Option<usize>, count: usize) -> Option<usize>
    ensures { result ≡ less left (8 * count) }
{
    let n = left?;
    if count <= n / 8 {
        Some(n - 8 * count)
    } else {
        None
    }
}

// What is left of a work area behind what a build needs, by the lengths of gates, records and area.
pub fn work_left(gates: usize, records: usize, work: usize) -> Option<usize>
    ensures { result ≡ less (Some work) (16 * (gates / 2) + 8 * records + 512) }
{
    let pins = gates / 2;
    let first = take_eights(Some(work), pins);
    let second = take_eights(first, pins);
    let third = take_eights(second, records);
    take_eights(third, 64)
}

// Is a plan a whole multiple of a stage?
pub fn plan_sized(height: u32, plan: usize) -> bool
    ensures { result ≡ is_height height && plan_sized height plan }
{
    if !is_height(height) {
        return false;
    }
    plan % Height(height).stage_size() == 0
}

// Have the areas but the work area a right size?
pub fn lent_sized(height: u32, plan: usize, words: usize, counts: usize) -> bool
    ensures { result ≡ is_height height && areas_sized height 0 plan words counts 0 }
{
    if !plan_sized(height, plan) {
        return false;
    }
    if words < Height(height).word_limit() {
        return false;
    }
    Height(height).rooms(plan) <= counts
}

// Have all areas of a build a right size? By the lengths of the slices.
pub fn areas_sized(
    height: u32,
    gates: usize,
    records: usize,
    plan: usize,
    words: usize,
    counts: usize,
    work: usize,
) -> bool
    ensures { result ≡ is_height height && areas_sized height (16 * (gates / 2) + 8 * records + 512) plan words counts work }
{
    if !lent_sized(height, plan, words, counts) {
        return false;
    }
    work_left(gates, records, work).is_some()
}
