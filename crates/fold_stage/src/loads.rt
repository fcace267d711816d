// What a stage loads: stage 1 from the bits that are handed in, a later one from a number a pin.
ghost use Rattle.std.specs.Prelude.{◌≡◌, ℕ, get_or};
ghost use Rattle.rules.specs.Graph.{own_bit};
ghost use Rattle.rules.specs.Coded.{pins};
ghost use Rattle.fold_stage.specs.Bits.{StageAt, UpAt};
ghost use Rattle.fold_stage.specs.Loads.{held, Spread};
ghost use Rattle.fold_stage.specs.Loads.{load_cell, Loads};

use crate::bits::as_number;
use cell::Cell;
use cells::Height;
use graph::Pin;

// What pin p loads. A pin past the numbers loads 0.
fn looked(looks: &[u32], p: Pin) -> bool
    ensures { result ≡ held looks.now p.0 }
{
    let i = p.index();
    i < looks.len() && looks[i] != 0
}

// A pin's own bit; the constant's is 0, and so is that of a pin past the bits.
fn own_bit(bits: &[u32], p: Pin) -> bool
    ensures { result ≡ own_bit bits.now p.0 }
{
    p.0 != 0 && looked(bits, p)
}

fn first_load(bits: &[u32], cell: Cell) -> bool
    ensures { result ≡ load_cell (own_bit bits.now) cell.0 }
{
    !cell.is_empty() && own_bit(bits, cell.pin())
}

fn next_load(looks: &[u32], cell: Cell) -> bool
    ensures { result ≡ load_cell (held looks.now) cell.0 }
{
    !cell.is_empty() && looked(looks, cell.pin())
}

// Level 0 of stage 1.
pub fn load_first(height: Height, cells: &[u32], own: &[u32], bits: &mut [u32])
    requires { UpAt height.0 cells.now bits.old }
    ensures { Loads height.0 cells.now (own_bit own.now) bits.old bits.new }
{
    for c in height.width()..cells.len() {
        bits[c] = as_number(first_load(own, Cell(cells[c])));
    }
}

// Level 0 of a later stage.
pub fn load_next(height: Height, cells: &[u32], looks: &[u32], bits: &mut [u32])
    requires { UpAt height.0 cells.now bits.old }
    ensures { Loads height.0 cells.now (held looks.now) bits.old bits.new }
{
    for c in height.width()..cells.len() {
        bits[c] = as_number(next_load(looks, Cell(cells[c])));
    }
}

// What the next stage loads: each pin above level 0 the bit at its lowest position, which is written last.
pub fn remember(height: Height, cells: &[u32], bits: &[u32], looks: &mut [u32])
    requires { UpAt height.0 cells.now bits.now }
    ensures { Spread height.0 (pins cells.now) (λ (c : ℕ). get_or bits.now c 0) looks.old looks.new }
{
    for c in (1..height.width()).rev() {
        let p = Cell(cells[c]).pin().index();
        if p < looks.len() {
            looks[p] = bits[c];
        }
    }
}

// These pins load 0 again.
pub fn forget(height: Height, cells: &[u32], looks: &mut [u32])
    requires { StageAt height.0 cells.now }
    ensures { Spread height.0 (pins cells.now) (λ (c : ℕ). 0) looks.old looks.new }
{
    for c in (1..height.width()).rev() {
        let p = Cell(cells[c]).pin().index();
        if p < looks.len() {
            looks[p] = 0;
        }
    }
}
