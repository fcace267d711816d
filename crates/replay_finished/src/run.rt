// The run of a plan that the check accepts, in the parts of the areas that count.
ghost use Rattle.std.specs.Prelude.{◌≡◌, ◌≤◌};
ghost use Rattle.rules.specs.Lists.{sum};
ghost use Rattle.replay.specs.Answers.{job};
ghost use Rattle.replay_finished.specs.Calls.{ran_lent};
ghost use Rattle.replay_finished.specs.Answers.{handed, lent, AcceptedIn};

use cells::Height;
use graph::{pin_count, wide};
use replay::finish::finish;

// How many words all stages write.
fn total(counts: &[u32]) -> usize
    requires { sum counts.now ≤ 4294967295 }
    ensures { result ≡ sum counts.now }
{
    let mut words = 0;
    for count in counts {
        words += wide(*count);
    }
    words
}

pub fn run_accepted(
    height: u32,
    gates: &[u32],
    given: &[u32],
    records: &[u32],
    driven: &[u32],
    starting: &[u8],
    lines: usize,
    recording: &[u8],
    out: &mut [u8],
    end: &mut [u8],
    plan: &[u32],
    words: &[u32],
    counts: &[u32],
    stages: usize,
    work: &mut [u32],
    tape: &mut [u32],
    slots: &mut [u32],
    bits: &mut [u8],
)
    requires { AcceptedIn height gates.now given.now records.now driven.now starting.now lines recording.now plan.now words.now counts.now stages work.old tape.old slots.old bits.old out.old end.old }
    ensures { lent work.new tape.new slots.new bits.new out.new end.new ≡ ran_lent (job height gates.now given.now records.now driven.now starting.now lines recording.now) (handed plan.now words.now counts.now stages) (lent work.old tape.old slots.old bits.old out.old end.old) }
{
    let used = stages * Height(height).stage_size();
    let all = total(&counts[0..stages]);
    let pins = pin_count(gates);
    let places = pins + records.len();
    let held = used + records.len();
    let last = pins + used / 2;
    let flops = starting.len();
    finish(
        true,
        Height(height),
        gates,
        records,
        driven,
        starting,
        lines,
        recording,
        &plan[0..used],
        words,
        &counts[0..stages],
        all,
        &mut work[0..places],
        &mut tape[0..used],
        &mut slots[0..held],
        &mut bits[0..last],
        out,
        &mut end[0..flops],
    );
}
