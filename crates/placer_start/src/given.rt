// The given pins count as done before the first stage.
ghost use Rattle.placer_start.specs.Given.{GivenAt, Given};

use columns::{DONE, set_field};
use graph::Pin;

pub fn mark_given(given: &[u32], work: &mut [u32], m: usize)
    requires { GivenAt m given.now work.old }
    ensures { Given m given.now work.old work.new }
{
    for p in given {
        set_field(work, m, Pin(*p), DONE, 1);
    }
}
