// The lines of an explanation in the caller's list, six numbers each. A line that does not fit is left out, so that a list of no numbers only counts.
#![tactic(auto)]

ghost use Rattle.std.specs.Prelude.{◌≡◌, ◌<◌};
ghost use Rattle.explain_lines.specs.Lines.{six, put_six};
ghost use Rattle.explain_lines.specs.Copies.{NoteAt, Copied, NotesAt, AllCopied};

use columns::tail_set;
use stage_notes::NOTES;

// For a pin taken back 1, stage, pin, needed pins, level-1 cells filled, distinct pins above level 0; for a refusal its number, stage, limit, count and two parts.
#[derive(Clone, Copy)]
pub struct Line(pub u32, pub u32, pub u32, pub u32, pub u32, pub u32);

// A pin taken back.
pub const BACK: u32 = 1;

// Line n of the list, from 0.
pub fn put_line(list: &mut [u32], n: usize, line: Line)
    requires { n < 4294967296 }
    ensures { list.new ≡ put_six n (six line) list.old }
{
    let at = 6 * n;
    if list.len() < at + 6 {
        return;
    }
    list[at] = line.0;
    list[at + 1] = line.1;
    list[at + 2] = line.2;
    list[at + 3] = line.3;
    list[at + 4] = line.4;
    list[at + 5] = line.5;
}

// The note of level h as a line behind n lines, and no note any more. Returns how many lines there are then.
fn copy_note(work: &mut [u32], m: usize, h: usize, stage: u32, list: &mut [u32], n: usize) -> usize
    requires { NoteAt m h n work.old }
    ensures { Copied m h stage n work.old list.old result work.new list.new }
{
    let at = 16 * m + NOTES + 4 * h;
    let pins = work[at + 3];
    if pins == 0 {
        return n;
    }
    let line = Line(BACK, stage, work[at], work[at + 1], work[at + 2], pins);
    tail_set(work, m, NOTES + 4 * h + 3, 0);
    put_line(list, n, line);
    n + 1
}

// The notes of a stage from the highest level down, behind n lines.
pub fn copy_notes(work: &mut [u32], m: usize, stage: u32, list: &mut [u32], n: usize) -> usize
    requires { NotesAt m n work.old }
    ensures { AllCopied m stage n work.old list.old result work.new list.new }
{
    let mut lines = n;
    for h in (2..=13).rev() {
        lines = copy_note(work, m, h, stage, list, lines);
    }
    lines
}
