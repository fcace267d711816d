// A cell with its inversions: the empty mark, or pin + 65,536 × AND + 131,072 × first inversion + 262,144 × second inversion.
#![tactic(auto)]

ghost use Rattle.std.specs.Prelude.{◌≡◌, not, ◌&&◌, ◌||◌, ◌+◌, ◌*◌, ◌/◌, ◌%◌, ◌<◌, ltb};
ghost use Rattle.rules.specs.Cells.{empty, filled};
ghost use Rattle.rules.specs.Fold.{as_number};
ghost use Rattle.rules.specs.Coded.{cell_pin, ands, first_inversion, second_inversion, and_of};

use graph::{EMPTY, Pin};

#[derive(Clone, Copy)]
pub struct Cell(pub u32);

impl Cell {
    pub fn is_empty(self) -> bool
        ensures { result ≡ not (filled self.0) }
    {
        self.0 == EMPTY
    }

    // An empty cell has no pin, so the empty mark: it is tested first, since its low 16 bits are a pin's too.
    pub fn pin(self) -> Pin
        ensures { result.0 ≡ cell_pin self.0 }
    {
        if self.0 == EMPTY {
            return Pin(EMPTY);
        }
        Pin(self.0 % 65536)
    }

    // Whether a filled cell ANDs its lower cells; one above level 0 that does not copies the first.
    pub fn ands(self) -> bool
        ensures { result ≡ ands self.0 }
    {
        self.0 / 65536 % 2 == 1
    }

    pub fn first_inversion(self) -> u32
        ensures { result ≡ first_inversion self.0 }
    {
        self.0 / 131072 % 2
    }

    pub fn second_inversion(self) -> u32
        ensures { result ≡ second_inversion self.0 }
    {
        self.0 / 262144 % 2
    }

    pub fn empty() -> Cell
        ensures { result.0 ≡ empty }
    {
        Cell(EMPTY)
    }

    // A load or a copy.
    pub fn plain(pin: Pin) -> Cell
        ensures { result.0 ≡ pin.0 }
    {
        Cell(pin.0)
    }

    pub fn and_of(pin: Pin, first: u32, second: u32) -> Cell
        requires pin_bound { pin.0 < 65536 }
        requires first_bound { first < 2 }
        requires second_bound { second < 2 }
        ensures { result.0 ≡ and_of pin.0 first second }
    {
        Cell(pin.0 + 65536 + 131072 * first + 262144 * second)
    }

    // What a cell does, as the three bits behind its pin: AND, first inversion, second.
    pub fn does(self) -> u32
        ensures { result ≡ 4 * as_number (ands self.0) + 2 * first_inversion self.0 + second_inversion self.0 }
    {
        4 * (self.0 / 65536 % 2) + 2 * (self.0 / 131072 % 2) + self.0 / 262144 % 2
    }

    // The cell of a pin and such bits.
    pub fn of_parts(pin: Pin, does: u32) -> Cell
        requires pin_bound { pin.0 < 65536 }
        requires does_bound { does < 8 }
        ensures { result.0 ≡ pin.0 + 65536 * (does / 4) + 131072 * (does / 2 % 2) + 262144 * (does % 2) }
    {
        Cell(pin.0 + 65536 * (does / 4) + 131072 * (does / 2 % 2) + 262144 * (does % 2))
    }

    // Is the number a filled cell: a pin above 0, and inversions with an AND only?
    pub fn is_cell(self) -> bool
        ensures { result ≡ ltb 0 (cell_pin self.0) && ltb self.0 524288 && (ltb self.0 65536 || ands self.0) }
    {
        if 524288 <= self.0 {
            return false;
        }
        if self.0 % 65536 == 0 {
            return false;
        }
        if self.0 < 65536 {
            return true;
        }
        self.0 / 65536 % 2 == 1
    }
}
