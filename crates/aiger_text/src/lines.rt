// The lines behind the header, one after the other.
ghost use Rattle.std.specs.Prelude.{◌≤◌, length};
ghost use Rattle.aiger_rows.specs.Rows.{head_of};
ghost use Rattle.aiger_text.specs.Lines.{Stepped};

use aiger_rows::cursor::{triple, until};
use aiger_rows::head::Head;
use aiger_rows::header::{Section, section_of};
use aiger_rows::rows::{Row, gate_of, row_at, stops_at};

// No whole line is left, a `c` behind the gates ends all, or a line, which has no row where its text is bad, and where it ends.
#[derive(Clone, Copy)]
pub enum Step {
    Last,
    Stop,
    Line(Option<Row>, usize),
}

// The i-th line, which starts at a place.
fn any_line(bytes: &[u8], at: usize, i: usize, h: Head) -> Step
    requires { at ≤ length bytes.now }
    ensures { Stepped (head_of h) i at bytes.now result }
{
    let e = until(bytes, at, b'\n');
    if bytes.len() <= e {
        return Step::Last;
    }
    if stops_at(&bytes[at..e], i, h.inputs, h.latches, h.outputs, h.gates) {
        return Step::Stop;
    }
    Step::Line(row_at(&bytes[at..e], i, h), e)
}

// The same; a gate's line is mostly read in one go.
pub fn line_at(bytes: &[u8], at: usize, i: usize, h: Head) -> Step
    requires { at ≤ length bytes.now }
    ensures { Stepped (head_of h) i at bytes.now result }
{
    if let Section::Gates = section_of(i, h) {
        if let Some(x) = triple(bytes, at) {
            return Step::Line(gate_of(x.a, x.b, x.c, h), x.end);
        }
    }
    any_line(bytes, at, i, h)
}
