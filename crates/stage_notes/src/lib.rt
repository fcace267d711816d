// A pin that rule 7 takes back is noted behind the columns, one a level: pin, needed pins, level-1 cells filled, distinct pins above level 0.
#![tactic(auto)]

ghost use Rattle.std.specs.Prelude.{[], ◌∷◌};
ghost use Rattle.stage_notes.specs.Notes.{NoteAt, Noted, telling};

use columns::{ONES, PINS, tail_set};
use graph::Pin;

// The notes begin here in the tail, with four numbers a level from level 0 on.
pub const NOTES: usize = 260;

// Notes pin p of level h while it is placed, with c needed pins.
pub fn note_back(work: &mut [u32], m: usize, h: usize, p: Pin, c: usize)
    requires { NoteAt m h c work.old }
    ensures { Noted m h (telling m p.0 c work.old ∷ []) work.old work.new }
{
    let at = NOTES + 4 * h;
    let ones = work[16 * m + ONES];
    let pins = work[16 * m + PINS];
    tail_set(work, m, at, p.0);
    tail_set(work, m, at + 1, c as u32);
    tail_set(work, m, at + 2, ones);
    tail_set(work, m, at + 3, pins);
}
