// Small machines drawn at random: leaves and gates mixed, outputs, flip-flops and staged pins.
use graph::EMPTY;
use try_cases::{item, part, set};

// The next number depends on this one alone.
#[derive(Clone, Copy)]
pub struct Chance {
    pub seed: u64,
}

impl Chance {
    pub fn next(self) -> Chance {
        Chance {
            seed: (self.seed % 2147483648 * 1103515245 + 12345) % 2147483648,
        }
    }

    // A number below n, which is below 65,536.
    pub fn below(self, n: u32) -> u32 {
        if n == 0 {
            return 0;
        }
        let high = self.seed / 65536 % 32768;
        high as u32 % n
    }

    // The same of the next number.
    pub fn draw(&mut self, n: u32) -> u32 {
        *self = self.next();
        self.below(n)
    }

    // A literal of the pins below p, without the constant where least is 1.
    fn draw_literal(&mut self, least: u32, p: u32) -> u32 {
        let pin = least.wrapping_add(self.draw(p.wrapping_sub(least)));
        let inverted = (self.seed / 1024 % 2) as u32;
        pin.wrapping_mul(2).wrapping_add(inverted)
    }
}

// Pins up to 2 are leaves, one in three of the others is.
pub fn draw_gates(gates: &mut [u32], pins: u32, chance: &mut Chance) {
    for p in 0..pins {
        let is_leaf = chance.draw(3) == 0 || p < 3;
        let first = chance.draw_literal(1, p);
        let second = chance.draw_literal(1, p);
        let at = 2 * p as usize;
        set(gates, at, if is_leaf { EMPTY } else { first });
        set(gates, at + 1, if is_leaf { EMPTY } else { second });
    }
}

// The first leaf behind a pin, and from pin 1 on behind the last, that is not driven; 0 where there is none.
fn free_leaf(gates: &[u32], driven: &[u32], from: u32) -> u32 {
    let pins = gates.len() / 2;
    let mut p = from as usize;
    for _ in 0..pins {
        p = p.wrapping_add(1);
        if p >= pins {
            p = 1;
        }
        let pin = (p % 65536) as u32;
        if item(gates, p.wrapping_mul(2)) == EMPTY && !driven.contains(&pin) {
            return pin;
        }
    }
    0
}

// How many numbers the records have, and how many flip-flops there are.
#[derive(Clone, Copy)]
pub struct Drawn {
    pub records: usize,
    pub flips: usize,
}

impl Drawn {
    fn put(&mut self, records: &mut [u32], number: u32) {
        set(records, self.records, number);
        self.records = self.records.wrapping_add(1);
    }

    // One more record: a flip-flop where a leaf is left for it to drive.
    fn put_record(
        &mut self,
        gates: &[u32],
        records: &mut [u32],
        driven: &mut [u32],
        chance: &mut Chance,
    ) {
        let pins = (gates.len() / 2 % 65536) as u32;
        let from = chance.draw(pins);
        let kind = chance.draw(4);
        let first = chance.draw_literal(0, pins);
        let enable = chance.draw_literal(0, pins);
        if kind == 0 {
            self.put(records, 4);
            self.put(records, first / 2);
            return;
        }
        let leaf = free_leaf(gates, part(driven, 0, self.flips), from);
        if kind == 1 || leaf == 0 {
            self.put(records, 1);
            self.put(records, first);
            return;
        }
        set(driven, self.flips, leaf);
        self.flips = self.flips.wrapping_add(1);
        self.put(records, 2);
        self.put(records, enable);
        self.put(records, first);
    }
}

pub fn draw_records(
    gates: &[u32],
    records: &mut [u32],
    driven: &mut [u32],
    n: u32,
    chance: &mut Chance,
) -> Drawn {
    let mut drawn = Drawn {
        records: 0,
        flips: 0,
    };
    for _ in 0..n {
        drawn.put_record(gates, records, driven, chance);
    }
    drawn
}

// Bits are 0 or any other byte.
pub fn draw_bits(bits: &mut [u8], chance: &mut Chance) {
    for bit in bits.iter_mut() {
        let b = chance.draw(512);
        *bit = if b < 256 { 0 } else { (b % 256) as u8 };
    }
}

// How many leaves are no flip-flop's.
pub fn free_leaves(gates: &[u32], flips: usize) -> usize {
    let leaves = (1..gates.len() / 2)
        .filter(|p| item(gates, p.wrapping_mul(2)) == EMPTY)
        .count();
    leaves.saturating_sub(flips)
}
