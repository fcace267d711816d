// What a clock reads: the entries of the tape, the places handed out, the leaves of a line and the flip-flops' indexes.
ghost use Rattle.replay_plan.specs.Tape.{TapeIn, TapeOut, ListsIn, ListsOut};

use cells::Height;
use graph::pin_count;
use replay_run::flips::put_flips;
use replay_run::leaves::{mark_driven, put_leaves};
use replay_run::places::put_places;
use replay_run::slots::read_plan;
use replay_tape::plans::make_plan;

// The tape of a plan's stages, and in `looks` the slot that each pin is read from. Returns how many entries there are.
pub fn make_tape(
    height: Height,
    plan: &[u32],
    words: &[u32],
    counts: &[u32],
    total: usize,
    slots: &mut [u32],
    looks: &mut [u32],
    tape: &mut [u32],
    pins: usize,
) -> usize
    requires { TapeIn height.0 pins plan.now words.now counts.now total slots.old looks.old tape.old }
    ensures { TapeOut height.0 pins plan.now words.now counts.now slots.old looks.old tape.old slots.new looks.new tape.new result }
{
    let entries = make_plan(height, plan, slots, looks, tape, pins);
    looks.fill(0);
    let size = height.stage_size();
    read_plan(size, plan, slots, words, counts, total, looks);
    entries
}

// How many places, leaves and flip-flops there are.
#[derive(Clone, Copy)]
pub struct Lists {
    pub places: usize,
    pub leaves: usize,
    pub flips: usize,
}

// The work area holds the slots that pins are read from; the places go to `slots`, then the leaves and, behind a number a pin, the indexes to
// the work area. Driven pins are marked in `bits`.
pub fn make_lists(
    gates: &[u32],
    records: &[u32],
    driven: &[u32],
    work: &mut [u32],
    slots: &mut [u32],
    bits: &mut [u8],
) -> Lists
    requires { ListsIn gates.now records.now work.old slots.old bits.old }
    ensures { ListsOut gates.now records.now driven.now work.old slots.old bits.old work.new slots.new bits.new result }
{
    let pins = pin_count(gates);
    let places = put_places(records, &work[0..pins], slots);
    mark_driven(driven, bits);
    let leaves = put_leaves(gates, bits, work);
    let flips = put_flips(records, &mut work[pins..]);
    Lists {
        places,
        leaves,
        flips,
    }
}
