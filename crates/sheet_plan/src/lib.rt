// The cells of one stage of a plan sheet: of sheet 2 as they stand, of sheet 1 coded with the graph.
#![tactic(auto)]

mod lifts;
mod reading;

ghost use Rattle.std.specs.Prelude.{◌*◌, ◌≤◌, IfSome, length};
ghost use Rattle.rules.specs.Graph.{graph_of};
ghost use Rattle.sheet_form.specs.Kinds.{number_for};
ghost use Rattle.sheet_plan.specs.Plans.{plan_with, end_of, PlanAt, CellsTook};

use cells::Height;
use coding::code_stage;
use graph::EMPTY;
use lifts::stage_lifts;
use reading::read_cells;
use sheet_form::SheetKind;

// The kind of sheet, and the height.
#[derive(Clone, Copy)]
pub struct Kind {
    pub sheet: SheetKind,
    pub height: u32,
}

// A stage's cells into an area of its size; the answer is the bit behind them, and none where 15 refuses them. Sheet 1 holds pins alone: a cell is
// coded by its first lower cell, which stands further on, so the whole stage is read first.
pub fn read_plan(
    bytes: &[u8],
    at: usize,
    kind: Kind,
    gates: &[u32],
    cells: &mut [u32],
) -> Option<usize>
    requires { PlanAt kind.height at bytes.now cells.old }
    ensures took { CellsTook (plan_with (number_for kind.sheet) kind.height (graph_of gates.now)) bytes.now at (end_of bytes.now result) cells.old cells.new }
    ensures inside { IfSome result (λ to. to ≤ 8 * length bytes.now) }
{
    cells[0] = EMPTY;
    let to = read_cells(bytes, at, kind, cells)?;
    match kind.sheet {
        SheetKind::Cells => Some(to),
        SheetKind::Pins => {
            let height = Height(kind.height);
            if !stage_lifts(height, cells, gates) {
                return None;
            }
            code_stage(height, cells, gates);
            Some(to)
        }
    }
}
