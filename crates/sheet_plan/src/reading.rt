// The cells as they stand on the sheet. The reading stops where it meets what 15 refuses.
ghost use Rattle.std.specs.Prelude.{◌≡◌, ◌*◌, ◌≤◌, IfSome, length};
ghost use Rattle.sheet_form.specs.Forms.{behind_pin, form, form_read};
ghost use Rattle.sheet_form.specs.Kinds.{number_for};
ghost use Rattle.sheet_form.specs.Sheets.{read_cell};
ghost use Rattle.sheet_plan.specs.Plans.{plan_read, end_of, at_of, cell_of, CellAt, CellTook, CellsAt, CellsTook};

use crate::Kind;
use bits::field;
use cell::Cell;
use cells::Height;
use graph::{EMPTY, Pin};
use sheet_form::{SheetKind, cell_fits};

// The bit behind a cell, and the cell.
#[derive(Clone, Copy)]
pub struct Found {
    pub at: usize,
    pub cell: u32,
}

// How many bits stand behind a pin.
fn behind_pin(sheet: SheetKind) -> usize
    ensures { result ≡ behind_pin (number_for sheet) }
{
    match sheet {
        SheetKind::Pins => 0,
        SheetKind::Cells => 3,
    }
}

// A pin, and what its cell does.
fn read_filled(bytes: &[u8], at: usize, kind: Kind, p: usize) -> Option<Found>
    requires { CellAt kind.height at bytes.now }
    ensures took { CellTook (form_read (number_for kind.sheet) kind.height p) bytes.now at (at_of bytes.now result) (cell_of result) }
    ensures inside { IfSome result (λ f. f.at ≤ 8 * length bytes.now) }
{
    let w = behind_pin(kind.sheet);
    if 8 * bytes.len() - at < 16 + w {
        return None;
    }
    let pin = field(bytes, at, 16);
    let does = field(bytes, at + 16, w);
    let cell = Cell::of_parts(Pin(pin), does);
    if !cell_fits(Height(kind.height), p, cell) {
        return None;
    }
    Some(Found {
        at: at + 16 + w,
        cell: cell.0,
    })
}

// The cell at position p, or the empty mark.
fn read_cell(bytes: &[u8], at: usize, kind: Kind, p: usize) -> Option<Found>
    requires { CellAt kind.height at bytes.now }
    ensures took { CellTook (read_cell (form (number_for kind.sheet)) kind.height p) bytes.now at (at_of bytes.now result) (cell_of result) }
    ensures inside { IfSome result (λ f. f.at ≤ 8 * length bytes.now) }
{
    if 8 * bytes.len() <= at {
        return None;
    }
    if field(bytes, at, 1) == 1 {
        return read_filled(bytes, at + 1, kind, p);
    }
    Some(Found {
        at: at + 1,
        cell: EMPTY,
    })
}

// The cells from position 1 on, behind position 0, which is empty.
pub fn read_cells(bytes: &[u8], from: usize, kind: Kind, cells: &mut [u32]) -> Option<usize>
    requires { CellsAt kind.height from bytes.now cells.old }
    ensures took { CellsTook (plan_read (number_for kind.sheet) kind.height) bytes.now from (end_of bytes.now result) cells.old cells.new }
    ensures inside { IfSome result (λ to. to ≤ 8 * length bytes.now) }
{
    let mut at = from;
    for p in 1..cells.len() {
        let found = read_cell(bytes, at, kind, p)?;
        cells[p] = found.cell;
        at = found.at;
    }
    Some(at)
}
