// The records of latches and outputs, and the latches' leaves.
ghost use Rattle.std.specs.Prelude.{◌≡◌, ◌+◌, ◌≤◌, ltb, length};
ghost use Rattle.std.proofs.lemmas.List.Edits.{sets};
ghost use Rattle.aiger_form.specs.Aag.{record_of, latch_of};
ghost use Rattle.aiger_rows.specs.Rows.{said, head_of};
ghost use Rattle.aiger_read.specs.Ends.{FillReady, Filled};

use aiger_rows::head::Head;
use aiger_rows::header::{Section, section_of};
use aiger_rows::rows::Row;
use aiger_text::lines::{Step, line_at};
use graph::pin_of;

// A line's record at a place. Returns the place behind it.
fn put_record(records: &mut [u32], at: usize, x: Option<Row>) -> usize
    requires { at + length (record_of (said x)) ≤ length records.old }
    ensures place { result ≡ at + length (record_of (said x)) }
    ensures area { records.new ≡ sets records.old at (record_of (said x)) }
{
    let Some(row) = x else {
        return at;
    };
    match row {
        Row::Latch(_, next, _) => {
            records[at] = 2;
            records[at + 1] = 1;
            records[at + 2] = next.0;
            at + 3
        }
        Row::Output(l) => {
            records[at] = 1;
            records[at + 1] = l.0;
            at + 2
        }
        _ => at,
    }
}

// A latch's leaf at a place. Returns the place behind it.
fn put_latch(latches: &mut [u32], at: usize, x: Option<Row>) -> usize
    requires { at + length (latch_of (said x)) ≤ length latches.old }
    ensures place { result ≡ at + length (latch_of (said x)) }
    ensures area { latches.new ≡ sets latches.old at (latch_of (said x)) }
{
    let Some(row) = x else {
        return at;
    };
    match row {
        Row::Latch(l, _, _) => {
            latches[at] = pin_of(l).0;
            at + 1
        }
        _ => at,
    }
}

// Is the i-th line before the gates?
fn in_ends(i: usize, h: Head) -> bool
    ensures { result ≡ ltb i (h.inputs + h.latches + h.outputs) }
{
    match section_of(i, h) {
        Section::Gates => false,
        Section::Symbols => false,
        _ => true,
    }
}

// All records and leaves of an accepted file, from the areas' fronts on.
pub fn fill_ends(bytes: &[u8], start: usize, h: Head, records: &mut [u32], latches: &mut [u32])
    requires { FillReady (head_of h) start bytes.now records.old latches.old }
    ensures { Filled (head_of h) start bytes.now records.old latches.old records.new latches.new }
{
    let mut at = start;
    let mut i = 0;
    let mut r = 0;
    let mut l = 0;
    // A walk by the length of the line that it reads.
    while in_ends(i, h) {
        match line_at(bytes, at, i, h) {
            Step::Last => return,
            Step::Stop => return,
            Step::Line(x, e) => {
                r = put_record(records, r, x);
                l = put_latch(latches, l, x);
                at = e + 1;
                i += 1;
            }
        }
    }
}
