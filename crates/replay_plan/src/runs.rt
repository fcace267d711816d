// The run of a plan that is accepted: its tape is made once, and each line is a clock.
ghost use Rattle.replay_plan.specs.Runs.{RunIn, RunOut};

use crate::bytes::{clear_bytes, copy_bits};
use crate::tape::{make_lists, make_tape};
use cells::Height;
use graph::pin_count;
use replay_run::lines::run_lines;

pub fn run_plan(
    height: Height,
    gates: &[u32],
    records: &[u32],
    driven: &[u32],
    starting: &[u8],
    lines: usize,
    recording: &[u8],
    plan: &[u32],
    words: &[u32],
    counts: &[u32],
    total: usize,
    work: &mut [u32],
    tape: &mut [u32],
    slots: &mut [u32],
    bits: &mut [u8],
    out: &mut [u8],
    end: &mut [u8],
)
    requires { RunIn height.0 gates.now records.now driven.now starting.now lines recording.now plan.now words.now counts.now total work.old tape.old slots.old bits.old out.old end.old }
    ensures { RunOut gates.now records.now driven.now starting.now lines recording.now work.old tape.old slots.old bits.old out.old work.new tape.new slots.new bits.new out.new end.new }
{
    clear_bytes(bits);
    copy_bits(starting, end);
    let pins = pin_count(gates);
    let used = plan.len();
    let entries = make_tape(
        height,
        plan,
        words,
        counts,
        total,
        &mut slots[0..used],
        &mut work[0..pins],
        tape,
        pins,
    );
    let lists = make_lists(gates, records, driven, work, slots, bits);
    let places = lists.places;
    let leaves = lists.leaves;
    let last = pins + lists.flips;
    run_lines(
        tape,
        &slots[0..places],
        &work[pins..last],
        driven,
        &work[0..leaves],
        recording,
        bits,
        end,
        out,
        pins,
        entries,
        lines,
    );
}
