// The kinds of plan sheets, and which cells a sheet holds. specs/ says what a sheet is and what the calls do, proofs/ what follows from it.
#![tactic(auto)]

ghost use Rattle.std.specs.Prelude.{◌≡◌, true};
ghost use Rattle.rules.specs.Cells.{is_height};
ghost use Rattle.sheet_form.specs.Forms.{form_fits};
ghost use Rattle.sheet_form.specs.Kinds.{number_for, kind_for};

use cell::Cell;
use cells::Height;

// What a sheet's cells say, by the sheet number in its first byte.
#[derive(Clone, Copy)]
pub enum SheetKind {
    // 1: pins alone; read with the graph, no longer written.
    Pins,
    // 2: cells with their inversions.
    Cells,
}

impl From<u32> for SheetKind {
    ghost from_gives = { λ number kind. kind ≡ kind_for number };

    // A number other than 1 is read as 2 is.
    #[tactic(auto, using(std::proofs::lemmas::Bool::Decides::nat_tests), unfolding(crate::specs::Kinds::kind_for))]
    fn from(number: u32) -> SheetKind {
        match number {
            1 => SheetKind::Pins,
            _ => SheetKind::Cells,
        }
    }
}

impl SheetKind {
    pub fn number(self) -> u32
        ensures { result ≡ number_for self }
    {
        match self {
            SheetKind::Pins => 1,
            SheetKind::Cells => 2,
        }
    }
}

// Does sheet 2 hold the cell at position p? At level 0 there is no AND.
pub fn cell_fits(height: Height, p: usize, cell: Cell) -> bool
    requires { is_height height.0 ≡ true }
    ensures { result ≡ form_fits 2 height.0 p cell.0 }
{
    if !cell.is_cell() {
        return false;
    }
    !cell.ands() || p < height.width()
}
