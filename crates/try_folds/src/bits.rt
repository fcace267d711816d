// The bits of a fold. Pin 0's bit is set, and counts for 0.

// Any number but 0 is a bit that is set.
fn as_bit(on: bool) -> u32 {
    if on { 65536 } else { 0 }
}

// Pin 1 has the pattern's lowest bit, pin 2 the next.
fn set_all(bits: &mut [u32], pattern: usize) {
    let mut rest = pattern;
    for bit in bits.iter_mut().skip(1) {
        *bit = as_bit(rest % 2 == 1);
        rest /= 2;
    }
}

// Below the count of pins, pin n alone is set; above it, all are but one.
fn set_alone(bits: &mut [u32], n: usize) {
    for p in 1..bits.len() {
        bits[p] = as_bit((p == n % bits.len()) == (n < bits.len()));
    }
}

pub fn set_bits(bits: &mut [u32], n: usize, alone: bool) {
    if alone {
        set_alone(bits, n);
    } else {
        set_all(bits, n);
    }
}
