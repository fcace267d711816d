// Running a tape: a bit a slot. An entry is two numbers, each 2 × slot + inversion; entry k fills slot pins + k.
ghost use Rattle.std.specs.Prelude.{◌≡◌, take};
ghost use Rattle.rules.specs.Lists.{laid_over};
ghost use Rattle.replay_form.specs.Tape.{run_tape};
ghost use Rattle.replay_tape.specs.Running.{entries_of, RunAt};

use graph::wide;

// What a clock costs: an entry's bit is both its literals' AND, half their sum.
pub fn run_tape(tape: &[u32], bits: &mut [u8], pins: usize, entries: usize)
    requires { RunAt pins entries tape.now bits.old }
    ensures { bits.new ≡ laid_over (run_tape (entries_of entries tape.now) (take pins bits.old)) bits.old }
{
    for k in 0..entries {
        let a = wide(tape[2 * k]);
        let b = wide(tape[2 * k + 1]);
        let x = (a + bits[a / 2] as usize) % 2;
        let y = (b + bits[b / 2] as usize) % 2;
        bits[pins + k] = ((x + y) / 2) as u8;
    }
}
