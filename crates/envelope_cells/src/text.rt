//! The text of a sheet.
ghost use Rattle.std.specs.Prelude.{◌≡◌, ◌++◌, OnOk, IfOk, string_bytes};
ghost use Rattle.envelope_cells.specs.Text.{kind_text, cell_line, sheet_text};

use crate::name::{Cell, CellKind, Sheet};
use field_values::{NoMemory, Txt};
use itoa::Buffer;
use std::alloc::Global;

impl CellKind {
    /// The name of the kind, behind which the id stands.
    pub fn text(self) -> &'static str
        ensures { result.now ≡ kind_text self }
    {
        match self {
            CellKind::TotalIncome => "total-income",
            CellKind::FromLastMonth => "from-last-month",
            CellKind::AvailableFunds => "available-funds",
            CellKind::LastMonthOverspent => "last-month-overspent",
            CellKind::TotalBudgeted => "total-budgeted",
            CellKind::Buffered => "buffered",
            CellKind::ToBudget => "to-budget",
            CellKind::TotalSpent => "total-spent",
            CellKind::TotalLeftover => "total-leftover",
            CellKind::GroupSum => "group-sum-amount-",
            CellKind::GroupBudget => "group-budget-",
            CellKind::GroupLeftover => "group-leftover-",
            CellKind::Sum => "sum-amount-",
            CellKind::Budget => "budget-",
            CellKind::Carryover => "carryover-",
            CellKind::Leftover => "leftover-",
        }
    }
}

/// Puts the line of a cell behind a text.
fn push_line(text: &mut String, cell: &Cell) -> Result<(), NoMemory>
    ensures { OnOk result (string_bytes text.new ≡ string_bytes text.old ++ cell_line cell.now) }
{
    let mut buffer = Buffer::new();
    text.push_str(cell.name.kind.text())?;
    text.push_str(cell.name.id.as_str())?;
    text.push(' ')?;
    text.push_str(buffer.format(cell.value))?;
    text.push('\n')?;
    Ok(())
}

/// The text of a sheet: of each cell a line with its name, a blank and its number.
pub fn sheet_text(alloc: Global, sheet: &Sheet) -> Result<Txt, NoMemory>
    ensures { IfOk result (λ text. text ≡ sheet_text sheet.now.cells) }
{
    let mut text = String::new(alloc);
    for cell in sheet.cells.as_slice() {
        push_line(&mut text, cell)?;
    }
    Ok(Txt::new(text))
}
