// The bits of one stage, from level 0 up.
ghost use Rattle.std.specs.Prelude.{◌≡◌, ◌&&◌};
ghost use Rattle.rules.specs.Graph.{literal_bit};
ghost use Rattle.rules.specs.Fold.{as_number};
ghost use Rattle.rules.specs.Coded.{first_inversion, second_inversion};
ghost use Rattle.fold_stage.specs.Bits.{CellAt, UpAt};
ghost use Rattle.fold_stage.specs.Bits.{CellFolds, FoldsUp};

use cell::Cell;
use cells::{Height, wide};
use positions::{first_lower, second_lower};

pub fn as_number(bit: bool) -> u32
    ensures { result ≡ as_number bit }
{
    u32::from(bit)
}

fn inverted(inversion: u32, bit: bool) -> bool
    ensures { result ≡ literal_bit inversion bit }
{
    if inversion % 2 == 0 { bit } else { !bit }
}

// The bit of a cell that ANDs, by those of its lower cells.
fn and_bit(cell: Cell, first: bool, second: bool) -> bool
    ensures { result ≡ (literal_bit (first_inversion cell.0) first && literal_bit (second_inversion cell.0) second) }
{
    inverted(cell.first_inversion(), first) && inverted(cell.second_inversion(), second)
}

// The bit of the cell at position p, above level 0, by those of its lower cells.
fn fold_cell(cells: &[u32], bits: &[u32], p: u32) -> bool
    requires { CellAt p cells.now bits.now }
    ensures { CellFolds cells.now bits.now p result }
{
    let held = Cell(cells[wide(p)]);
    if held.is_empty() {
        return false;
    }
    let a = first_lower(p);
    if !held.ands() {
        return bits[a] != 0;
    }
    let b = second_lower(p);
    if Cell(cells[a]).is_empty() || Cell(cells[b]).is_empty() {
        return false;
    }
    and_bit(held, bits[a] != 0, bits[b] != 0)
}

// All levels above level 0, whose bits are there. Lower cells stand at higher positions.
pub fn fold_up(height: Height, cells: &[u32], bits: &mut [u32])
    requires { UpAt height.0 cells.now bits.old }
    ensures { FoldsUp height.0 cells.now bits.old bits.new }
{
    for c in (1..height.width()).rev() {
        bits[c] = as_number(fold_cell(cells, bits, c as u32));
    }
    bits[0] = 0;
}
