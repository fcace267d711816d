// A file judged.
ghost use Rattle.std.specs.Prelude.{◌≡◌, not, eqb, ltb, length, ◌+◌};
ghost use Rattle.aiger_form.specs.Aag.{reset_of};
ghost use Rattle.aiger_rows.specs.Rows.{said, head_of};
ghost use Rattle.aiger_text.specs.Passes.{area, Behind};
ghost use Rattle.aiger_text.specs.Whole.{Begun};
ghost use Rattle.aiger_text.specs.File.{Resets, BodyJudged, FileJudged};

use crate::lines::{Step, line_at};
use crate::passes::first_place;
use aiger_rows::cursor::until;
use aiger_rows::head::Head;
use aiger_rows::header::{Section, header, section_of};
use aiger_rows::rows::Row;
use refusals::Refusal;

fn is_reset(x: Option<Row>) -> bool
    ensures { result ≡ not (eqb (reset_of (said x)) 0) }
{
    let Some(row) = x else {
        return false;
    };
    match row {
        Row::Latch(_, _, reset) => reset != 0,
        _ => false,
    }
}

// Is the i-th line an input's or a latch's?
fn in_front(i: usize, h: Head) -> bool
    ensures { result ≡ ltb i (h.inputs + h.latches) }
{
    match section_of(i, h) {
        Section::Inputs => true,
        Section::Latches => true,
        _ => false,
    }
}

// The first latch with a reset value.
fn reset_line(bytes: &[u8], start: usize, h: Head) -> Option<usize>
    requires { Behind start bytes.now }
    ensures { Resets (head_of h) start bytes.now result }
{
    let mut at = start;
    let mut i = 0;
    // A walk by the length of the line that it reads.
    while in_front(i, h) {
        match line_at(bytes, at, i, h) {
            Step::Last => return None,
            Step::Stop => return None,
            Step::Line(x, e) => {
                if is_reset(x) {
                    return Some(at);
                }
                at = e + 1;
                i += 1;
            }
        }
    }
    None
}

// Why a file is refused, and the byte that shows it; 0 where none does.
#[derive(Clone, Copy)]
pub struct Refused {
    pub why: Refusal,
    pub at: usize,
}

// A refusal that no byte shows.
impl From<Refusal> for Refused {
    ghost from_gives = { λ why r. r ≡ record { why = why; at = 0 } };

    fn from(why: Refusal) -> Refused {
        Refused { why, at: 0 }
    }
}

// A file's header, and where the lines behind it start.
#[derive(Clone, Copy)]
pub struct Body {
    pub start: usize,
    pub head: Head,
}

// The verdict on a file whose header is read.
fn judge(
    bytes: &[u8],
    start: usize,
    h: Head,
    map: &mut [u8],
    gates: &mut [u32],
) -> Result<Body, Refused>
    requires { Begun start bytes.now map.old gates.old }
    ensures { BodyJudged (head_of h) start bytes.now map.old map.new gates.old gates.new result }
{
    let s = first_place(bytes, start, h, map, gates);
    if s.cut || s.first < bytes.len() {
        return Err(Refused {
            why: Refusal::Malformed,
            at: s.first,
        });
    }
    if let Some(at) = reset_line(bytes, start, h) {
        return Err(Refused {
            why: Refusal::BadReset,
            at,
        });
    }
    Ok(Body { start, head: h })
}

// The verdict on a file: 12 for one that is malformed or cut, 13 for a reset value. The area then holds its gates, where there are at most 65,536
// variables; the map is the function's own, 64 kB.
pub fn file(bytes: &[u8], gates: &mut [u32]) -> Result<Body, Refused>
    requires { length gates.old ≡ area }
    ensures { FileJudged bytes.now gates.old gates.new result }
{
    let mut map: [u8; 65536] = [0; 65536];
    let e = until(bytes, 0, b'\n');
    if bytes.len() <= e {
        return Err(Refused {
            why: Refusal::Malformed,
            at: bytes.len(),
        });
    }
    let Some(h) = header(&bytes[0..e]) else {
        return Err(Refused {
            why: Refusal::Malformed,
            at: 0,
        });
    };
    judge(bytes, e + 1, h, &mut map, gates)
}
