// The checks 18, 19, 20 and 17 of a replay, in that order, of an input that passes 1 to 5 and 23. They change nothing lent.
#![tactic(auto)]

pub mod counts;
pub mod driven;
pub mod lengths;

ghost use Rattle.std.specs.Prelude.{◌≡◌};
ghost use Rattle.replay_form.specs.Calls.{later_refusal};
ghost use Rattle.refusals.specs.Numbers.{number_said, pin_said};
ghost use Rattle.replay_checks.specs.Values.{Checked, Readable, numbered};

use counts::{Counts, count};
use driven::mark_leaves;
use lengths::measure;
use refusals::Refusal;
use replay_run::leaves::put_leaves;

// 19, and then 20 and 17 by what is counted.
fn driven_refusal(
    gates: &[u32],
    driven: &[u32],
    counts: Counts,
    starting: usize,
    lines: usize,
    recording: usize,
    out: usize,
    end: usize,
) -> Result<(), Refusal>
    requires { Checked gates.now }
    ensures number { number_said result ≡ numbered gates.now driven.now counts.flips counts.bits starting lines recording out end }
    ensures pin { pin_said result ≡ 0 }
{
    let mut marks: [u8; 65536] = [0; 65536];
    if !mark_leaves(gates, driven, &mut marks) {
        return Err(Refusal::NotDriven);
    }
    let mut leaves: [u32; 65536] = [0; 65536];
    let each = put_leaves(gates, &marks, &mut leaves);
    measure(
        counts,
        each,
        driven.len(),
        starting,
        lines,
        recording,
        out,
        end,
    )
}

// The first of 18, 19, 20 and 17 that applies; starting bits, recording, out and end by their lengths.
pub fn later_refusal(
    gates: &[u32],
    given: &[u32],
    records: &[u32],
    driven: &[u32],
    starting: usize,
    lines: usize,
    recording: usize,
    out: usize,
    end: usize,
) -> Result<(), Refusal>
    requires checked { Checked gates.now }
    requires readable { Readable records.now }
    ensures number { number_said result ≡ later_refusal gates.now given.now records.now driven.now starting lines recording out end }
    ensures pin { pin_said result ≡ 0 }
{
    if 0 < given.len() {
        return Err(Refusal::NotPlain);
    }
    let counts = count(records);
    if 0 < counts.memories {
        return Err(Refusal::NotPlain);
    }
    driven_refusal(gates, driven, counts, starting, lines, recording, out, end)
}
