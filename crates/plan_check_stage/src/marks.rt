// Marks by pin: a number a pin, 0 for none.
ghost use Rattle.std.specs.Prelude.{◌≡◌};
ghost use Rattle.rules.specs.Coded.{pins};
ghost use Rattle.plan_check_stage.specs.Marks.{marked, Marks};

use cell::Cell;
use graph::Pin;

// Has pin p a mark? A pin past the marks has none.
pub fn has_mark(marks: &[u8], p: Pin) -> bool
    ensures { result ≡ marked marks.now p.0 }
{
    let i = p.index();
    i < marks.len() && marks[i] != 0
}

// The pins of some cells get mark v: 0 takes their marks away.
pub fn mark_cells(cells: &[u32], marks: &mut [u8], v: u8)
    ensures { Marks (pins cells.now) v marks.old marks.new }
{
    for c in cells {
        let p = Cell(*c).pin().index();
        if p < marks.len() {
            marks[p] = v;
        }
    }
}
