//! The sheet of a month, from kept cells.
ghost use Rattle.std.specs.Prelude.{◌≡◌, ◌++◌, true, flat_map, IfOk, OnOk};
ghost use Rattle.std.specs.List.{AllByRecursion};
ghost use Rattle.book_rows.specs.declared.rows.Rows.{Rows as RowsIs};
ghost use Rattle.envelope_cells.specs.BudgetOf.{budget_of};
ghost use Rattle.dirty_cells.specs.Stands.{StandsFor, is_covered};
ghost use Rattle.device_core.specs.Sheets.{told_of};

use dirty_cells::grid::Grid;
use envelope_cells::{Cell, CellName};
use field_values::NoMemory;
use std::alloc::Global;

/// Puts a kept cell behind others, if there is such a cell.
fn push_cell(cells: &mut Vec<Cell>, grid: &Grid, name: &CellName) -> Result<(), NoMemory>
    requires { is_covered grid.now name.now.month ≡ true }
    ensures { OnOk result ((rows : RowsIs) → StandsFor grid.now rows → cells.new.items ≡ cells.old.items ++ told_of (budget_of rows) name.now) }
{
    if let Some(value) = grid.cell(name) {
        let name = name.copy()?;
        cells.push(Cell { name, value })?;
    }
    Ok(())
}

/// The kept cells of names, in their order.
pub(crate) fn cells_of(
    alloc: Global,
    grid: &Grid,
    names: &[CellName],
) -> Result<Vec<Cell>, NoMemory>
    requires { AllByRecursion (λ name. is_covered grid.now name.month ≡ true) names.now }
    ensures { IfOk result (λ cells. (rows : RowsIs) → StandsFor grid.now rows → cells.items ≡ flat_map (told_of (budget_of rows)) names.now) }
{
    let mut cells = Vec::new(alloc);
    for name in names {
        push_cell(&mut cells, grid, name)?;
    }
    Ok(cells)
}
