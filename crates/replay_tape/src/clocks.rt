// One clock: bits to their pins, the tape, bits handed out, and the flip-flops' next bits. A bit is a byte.
ghost use Rattle.std.specs.Prelude.{◌≡◌};
ghost use Rattle.replay_form.specs.Clocks.{is_one};
ghost use Rattle.rules.specs.Fold.{as_number};
ghost use Rattle.replay_tape.specs.Clocks.{PinsAt, put_bits, PlacesAt, handed, pick, FlipsAt, datas, ClockIn, ClockOut};

use crate::running::run_tape;
use graph::wide;

// 1 for what is not 0.
pub fn bit(x: u8) -> u8
    ensures { result ≡ as_number (is_one x) }
{
    u8::from(x != 0)
}

// Each pin's bit; the first counts where a pin stands twice.
pub fn put_bits(pins: &[u32], values: &[u8], bits: &mut [u8])
    requires { PinsAt pins.now values.now bits.old }
    ensures { bits.new ≡ put_bits pins.now values.now bits.old }
{
    for i in (0..pins.len()).rev() {
        let p = wide(pins[i]);
        bits[p] = bit(values[i]);
    }
}

// The bit of each place, 2 × slot + inversion.
pub fn hand_out(places: &[u32], bits: &[u8], out: &mut [u8])
    requires { PlacesAt places.now bits.now out.old }
    ensures { out.new ≡ handed places.now bits.now }
{
    for i in 0..places.len() {
        let a = wide(places[i]);
        out[i] = ((a + bits[a / 2] as usize) % 2) as u8;
    }
}

fn picked(enable: u8, input: u8, old: u8) -> u8
    ensures { result ≡ pick enable input old }
{
    if enable == 0 { old } else { input }
}

// A flip-flop's enable and data are handed out from its index on: it takes its data where its enable is 1, and otherwise keeps its bit.
pub fn take_data(flips: &[u32], out: &[u8], state: &mut [u8])
    requires { FlipsAt flips.now out.now state.old }
    ensures { state.new ≡ datas flips.now out.now state.old }
{
    for i in 0..flips.len() {
        let j = wide(flips[i]);
        state[i] = picked(out[j], out[j + 1], state[i]);
    }
}

// One clock: the line's and the flip-flops' bits to their pins, the tape, the bits handed out, the next bits.
pub fn clock(
    tape: &[u32],
    places: &[u32],
    flips: &[u32],
    driven: &[u32],
    leaves: &[u32],
    line: &[u8],
    bits: &mut [u8],
    state: &mut [u8],
    out: &mut [u8],
    pins: usize,
    entries: usize,
)
    requires { ClockIn tape.now places.now flips.now driven.now leaves.now line.now bits.old state.old out.old pins entries }
    ensures { ClockOut tape.now places.now flips.now driven.now leaves.now line.now bits.old state.old pins entries bits.new state.new out.new }
{
    put_bits(leaves, line, bits);
    put_bits(driven, state, bits);
    run_tape(tape, bits, pins, entries);
    hand_out(places, bits, out);
    take_data(flips, out, state);
}
