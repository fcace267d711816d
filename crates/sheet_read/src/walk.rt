// The walk through a whole sheet whose number is known.
ghost use Rattle.std.specs.Prelude.{◌≡◌, drop};
ghost use Rattle.rules.specs.Job.{is_padding};
ghost use Rattle.bits.specs.Fields.{bits_in};
ghost use Rattle.sheet_read.specs.Walk.{WalkAt, WalkTook, SheetAt, PaddingAt, Walked, WalkedAs, Begins, JudgedAs};
ghost use Rattle.sheet_form.specs.Kinds.{number_for};
ghost use Rattle.sheet_read.specs.Steps.{TookAs};

use crate::stages::read_stages;
use crate::steps::Step;
use bits::field;
use cells::{Height, is_height, wide};
use sheet_form::SheetKind;
use sheet_plan::Kind;

// What a sheet has: the height, the stages and the words.
#[derive(Clone, Copy)]
pub struct Contents {
    pub height: u32,
    pub stages: usize,
    pub words: usize,
}

// The bit behind the stages, and what they are.
#[derive(Clone, Copy)]
pub struct Extent {
    pub at: usize,
    pub contents: Contents,
}

// The stages, by way of a local area for a stage's cells.
fn walk_stages(
    bytes: &[u8],
    n: usize,
    kind: Kind,
    gates: &[u32],
    plan: &mut [u32],
    words: &mut [u32],
    counts: &mut [u32],
) -> Option<Step>
    requires { WalkAt kind.height n bytes.now }
    ensures { TookAs (WalkTook (number_for kind.sheet) kind.height gates.now n bytes.now plan.old words.old counts.old plan.new words.new counts.new) bytes.now result }
{
    let mut cells: [u32; 16384] = [0; 16384];
    let size = Height(kind.height).stage_size();
    read_stages(
        bytes,
        n,
        kind,
        gates,
        &mut cells[0..size],
        plan,
        words,
        counts,
    )
}

pub fn walk(
    bytes: &[u8],
    sheet: SheetKind,
    gates: &[u32],
    plan: &mut [u32],
    words: &mut [u32],
    counts: &mut [u32],
) -> Option<Extent>
    requires { SheetAt bytes.now }
    ensures { WalkedAs (Walked (number_for sheet) gates.now bytes.now plan.old words.old counts.old plan.new words.new counts.new) bytes.now result }
{
    if 8 * bytes.len() < 28 {
        return None;
    }
    let height = field(bytes, 8, 4);
    if !is_height(height) {
        return None;
    }
    let n = wide(field(bytes, 12, 16));
    let kind = Kind { sheet, height };
    let r = walk_stages(bytes, n, kind, gates, plan, words, counts)?;
    Some(Extent {
        at: r.at,
        contents: Contents {
            height,
            stages: n,
            words: r.count,
        },
    })
}

// Is nothing left from a bit on but zero bits up to a byte?
fn is_padding(bytes: &[u8], at: usize) -> bool
    requires { PaddingAt at bytes.now }
    ensures { result ≡ is_padding (drop at (bits_in bytes.now)) }
{
    let left = 8 * bytes.len() - at;
    if 8 <= left {
        return false;
    }
    field(bytes, at, left) == 0
}

// What a sheet has, found by a walk that stores nothing; none where 15 refuses the bytes. No sheet has more than 2^40 bytes.
pub fn judge(bytes: &[u8], sheet: SheetKind, gates: &[u32]) -> Option<Contents>
    requires { Begins (number_for sheet) gates.now bytes.now }
    ensures { JudgedAs (number_for sheet) gates.now bytes.now result }
{
    if 1099511627776 < bytes.len() {
        return None;
    }
    let mut plan: [u32; 0] = [];
    let mut words: [u32; 0] = [];
    let mut counts: [u32; 0] = [];
    let m = walk(bytes, sheet, gates, &mut plan, &mut words, &mut counts)?;
    if !is_padding(bytes, m.at) {
        return None;
    }
    Some(m.contents)
}
