// Bits, a byte each.
ghost use Rattle.std.specs.Prelude.{◌≡◌, length, replicate};
ghost use Rattle.replay_form.specs.Clocks.{ones};

use replay_tape::clocks::bit;

// Every byte becomes 0.
pub fn clear_bytes(s: &mut [u8])
    ensures { s.new ≡ replicate (length s.old) 0 }
{
    s.fill(0);
}

// As many bits, each 0 or 1.
pub fn copy_bits(from: &[u8], to: &mut [u8])
    requires { length to.old ≡ length from.now }
    ensures { to.new ≡ ones from.now }
{
    for i in 0..from.len() {
        to[i] = bit(from[i]);
    }
}
