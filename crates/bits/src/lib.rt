// The bits of a file, most significant first.
#![tactic(auto)]

ghost use Rattle.std.specs.Prelude.{◌≡◌, ◌-◌, ◌*◌, ◌^◌, ◌<◌, length, get_or, set};
ghost use Rattle.rules.specs.Job.{bits_of, number_width};
ghost use Rattle.bits.specs.Fields.{bits_in, FieldAt, FieldIs};
ghost use Rattle.bits.specs.Putting.{BitAt, WithBit, FieldTo, Put};

fn bit(bytes: &[u8], at: usize) -> u32
    requires { at < 8 * length bytes.now }
    ensures { result ≡ get_or (bits_in bytes.now) at 0 }
{
    let k = (7 - at % 8) as u32;
    (u32::from(bytes[at / 8]) >> k) % 2
}

// The number in the w bits from `at` on.
pub fn field(bytes: &[u8], at: usize, w: usize) -> u32
    requires { FieldAt at w bytes.now }
    ensures { FieldIs at w bytes.now result }
{
    let mut n: u32 = 0;
    for i in 0..w {
        n = 2 * n + bit(bytes, at + i);
    }
    n
}

fn weight(i: usize) -> u32
    requires { i < 8 }
    ensures { result ≡ 2 ^ (7 - i) }
{
    1u32 << ((7 - i) as u32)
}

// A byte with another bit in the place of its i-th.
fn with_bit(x: u32, i: usize, b: u32) -> u32
    requires { BitAt x i b }
    ensures { WithBit x i b result }
{
    let p = weight(i);
    x + b * p - x / p % 2 * p
}

// Past the end of the bytes there is no store, so that no bytes at all only measure.
fn put_bit(bytes: &mut [u8], at: usize, b: u32)
    requires { b < 2 }
    ensures { bits_in bytes.new ≡ set (bits_in bytes.old) at b }
{
    let i = at / 8;
    if i < bytes.len() {
        bytes[i] = with_bit(u32::from(bytes[i]), at % 8, b) as u8;
    }
}

// A number in the w bits from `at` on; the answer is the bit behind them.
pub fn put(bytes: &mut [u8], from: usize, w: usize, n: u32) -> usize
    requires { FieldTo from w }
    ensures { Put (bits_of w n) bytes.old bytes.new from result }
{
    let mut at = from;
    for left in (0..w).rev() {
        put_bit(bytes, at, (n >> (left as u32)) % 2);
        at += 1;
    }
    at
}

// The bits of a number behind a kind.
pub fn number_width(kind: u32) -> usize
    ensures { result ≡ number_width kind }
{
    if kind == 4 { 16 } else { 17 }
}
