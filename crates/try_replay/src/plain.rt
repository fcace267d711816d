// A graph evaluated by passes over its gates until nothing changes, and run clock by clock: written without a look at the library's way.
use graph::{EMPTY, wide};
use try_cases::{item, set};

// The kinds of records.
pub const FLIP_FLOP: u32 = 2;

const STAGED_PIN: u32 = 4;

// How many bits are compared, and how many of them are another.
#[derive(Clone, Copy)]
pub struct Tally {
    pub at: usize,
    pub wrong: usize,
}

impl Tally {
    fn count(&mut self, right: bool) {
        self.at = self.at.wrapping_add(1);
        self.wrong = self.wrong.wrapping_add(usize::from(!right));
    }

    // The next bit that is handed out.
    fn compare(&mut self, out: &[u8], bit: bool) {
        self.count(item(out, self.at) == u8::from(bit));
    }
}

fn literal_bit(values: &[bool], literal: u32) -> bool {
    item(values, (literal / 2) as usize) != (literal % 2 == 1)
}

// The gate at a pin, if there is one, by its two literals. Returns whether its value changed.
fn change(values: &mut [bool], p: usize, a: u32, b: u32) -> bool {
    if a == EMPTY {
        return false;
    }
    let x = literal_bit(values, a) && literal_bit(values, b);
    let old = item(values, p);
    set(values, p, x);
    old != x
}

// One pass over the gates. Returns whether a value changed.
fn pass(gates: &[u32], values: &mut [bool]) -> bool {
    let mut changed = false;
    for p in 0..gates.len() / 2 {
        if change(values, p, gates[2 * p], gates[2 * p + 1]) {
            changed = true;
        }
    }
    changed
}

// A pass settles one more layer of gates, so there are at most as many as pins.
fn settle(gates: &[u32], values: &mut [bool]) {
    for _ in 0..gates.len() {
        if !pass(gates, values) {
            return;
        }
    }
}

// The leaves' bits, in pin order: a driven one's from its flip-flop, any other's from the recording. Returns where the next line begins there.
fn set_leaves(
    gates: &[u32],
    driven: &[u32],
    state: &[bool],
    recording: &[u8],
    from: usize,
    values: &mut [bool],
) -> usize {
    let mut next = from;
    for p in 1..gates.len() / 2 {
        if item(gates, 2 * p) == EMPTY {
            match driven.iter().position(|d| wide(*d) == p) {
                Some(i) => set(values, p, item(state, i)),
                None => {
                    set(values, p, item(recording, next) != 0);
                    next = next.wrapping_add(1);
                }
            }
        }
    }
    next
}

// What the records hand out is compared, and a flip-flop takes its data where it is enabled.
fn hand_out(records: &[u32], values: &[bool], out: &[u8], state: &mut [bool], tally: &mut Tally) {
    let mut at = 0;
    let mut flips: usize = 0;
    // No `starts`: this evaluation shares nothing with the library (docs/PROMISES.md).
    while at < records.len() {
        let first = item(records, at + 1);
        if records[at] == FLIP_FLOP {
            let enable = literal_bit(values, first);
            let data = literal_bit(values, item(records, at + 2));
            tally.compare(out, enable);
            tally.compare(out, data);
            if enable {
                set(state, flips, data);
            }
            flips = flips.wrapping_add(1);
            at += 3;
        } else {
            let staged = records[at] == STAGED_PIN;
            let literal = if staged { first.wrapping_mul(2) } else { first };
            tally.compare(out, literal_bit(values, literal));
            at += 2;
        }
    }
}

// How many bits are handed out and left at the end, and how many of them are not those of the graph run line by line. For up to 512 pins and 64
// flip-flops.
pub fn differing(
    gates: &[u32],
    records: &[u32],
    driven: &[u32],
    start: &[u8],
    lines: usize,
    recording: &[u8],
    out: &[u8],
    end: &[u8],
) -> Tally {
    let mut state = [false; 64];
    let mut values = [false; 512];
    for (bit, b) in state.iter_mut().zip(start) {
        *bit = *b != 0;
    }
    let mut tally = Tally { at: 0, wrong: 0 };
    let mut next = 0;
    for _ in 0..lines {
        next = set_leaves(gates, driven, &state, recording, next, &mut values);
        settle(gates, &mut values);
        hand_out(records, &values, out, &mut state, &mut tally);
    }
    for i in 0..driven.len() {
        tally.count(item(end, i) == u8::from(item(&state, i)));
    }
    tally
}
