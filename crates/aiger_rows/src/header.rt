// The header, `aag M I L O A`.
ghost use Rattle.std.specs.Prelude.{◌≡◌, ◌&&◌, ◌+◌, leb};
ghost use Rattle.aiger_form.specs.Aag.{header_of, most_variables};
ghost use Rattle.aiger_rows.specs.Rows.{HeadIs, head_of, In, Among};

use crate::cursor::numbers;
use crate::head::Head;

// A part of the file behind the header.
#[derive(Clone, Copy)]
pub enum Section {
    Inputs,
    Latches,
    Outputs,
    Gates,
    Symbols,
}

// The section of the i-th line behind a header that says so many of each, from 0 on.
pub(crate) fn section_among(
    i: usize,
    inputs: usize,
    latches: usize,
    outputs: usize,
    gates: usize,
) -> Section
    ensures { Among inputs latches outputs gates i result }
{
    if i < inputs {
        return Section::Inputs;
    }
    let j = i - inputs;
    if j < latches {
        return Section::Latches;
    }
    let k = j - latches;
    if k < outputs {
        return Section::Outputs;
    }
    if k - outputs < gates {
        return Section::Gates;
    }
    Section::Symbols
}

// The section of the i-th line behind the header, from 0 on.
pub fn section_of(i: usize, h: Head) -> Section
    ensures { In (head_of h) i result }
{
    section_among(i, h.inputs, h.latches, h.outputs, h.gates)
}

fn fits(m: usize, i: usize, l: usize, a: usize) -> bool
    ensures { result ≡ (leb (i + l + a) m && leb m most_variables) }
{
    m <= 2147483647 && i <= m && l <= m - i && a <= m - i - l
}

// The header's numbers; the outputs stop at the largest number.
pub fn header(line: &[u8]) -> Option<Head>
    ensures { HeadIs (header_of line.now) result }
{
    let n = numbers(line.strip_prefix(b"aag ")?)?;
    let v = n.values;
    if n.count == 5 && fits(v[0], v[1], v[2], v[4]) {
        Some(Head {
            variables: v[0],
            inputs: v[1],
            latches: v[2],
            outputs: v[3],
            gates: v[4],
        })
    } else {
        None
    }
}
