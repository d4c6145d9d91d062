//! The sheet of a month.
ghost use Rattle.std.specs.Prelude.{◌≡◌, ◌+◌, ◌≤◌, ◌^◌, ◌++◌, ◌∷◌, [], ◌<◌, IsTrue, false, OnOk, IfOk, map as list_map};
ghost use Rattle.book_rows.specs.Months.{is_month};
ghost use Rattle.finite_sums.specs.Sums.{weight};
ghost use Rattle.envelope_cells.specs.BudgetOf.{groups_of};
ghost use Rattle.envelope_cells.specs.Parts.{AreSums};
ghost use Rattle.tracking_budget.specs.declared.part.Pick.{Pick as PickIs};
ghost use Rattle.tracking_budget.specs.Tracked.{tracked_of};
ghost use Rattle.tracking_budget.specs.CellOf.{live_of, track_cell_of};
ghost use Rattle.tracking_budget.specs.SheetOf.{cell, track_cells};
ghost use Rattle.tracking_budget.specs.Parts.{part_of, size_of, first_cells, last_cells, part_cells, parts_cells, whole_of, cells_from};

use crate::laws::track_sheets_tell_cells;
use crate::live::live_of;
use crate::name::{TrackCell, TrackKind, TrackName, TrackSheet};
use crate::part::{Part, parts_of};
use crate::whole::{Whole, whole_of};
use book_rows::Book;
use envelope_cells::{CellValues, groups_of, month_number};
use field_values::{Items, NoMemory, Steps, Txt};
use std::alloc::Global;
use std::sync::ledger::Ledger;

/// Puts a cell behind others.
fn push(
    cells: &mut Vec<TrackCell>,
    month: u32,
    kind: TrackKind,
    id: &Txt,
    value: i128,
) -> Result<(), NoMemory>
    ensures { OnOk result (cells.new.items ≡ cells.old.items ++ cell month kind id.now value ∷ []) }
{
    let name = TrackName::make(month, kind, id)?;
    cells.push(TrackCell { name, value })?;
    Ok(())
}

/// Puts the first cells of the whole month behind others.
fn push_first(
    cells: &mut Vec<TrackCell>,
    month: u32,
    empty: &Txt,
    whole: &Whole,
) -> Result<(), NoMemory>
    ensures { OnOk result (cells.new.items ≡ cells.old.items ++ first_cells month empty.now whole.now) }
{
    push(cells, month, TrackKind::TotalIncome, empty, whole.income)?;
    push(
        cells,
        month,
        TrackKind::TotalBudgetIncome,
        empty,
        whole.planned,
    )?;
    push(cells, month, TrackKind::TotalBudgeted, empty, whole.given)?;
    push(cells, month, TrackKind::TotalSpent, empty, whole.spent)
}

/// Puts the other cells of the whole month behind others.
fn push_last(
    cells: &mut Vec<TrackCell>,
    month: u32,
    empty: &Txt,
    whole: &Whole,
) -> Result<(), NoMemory>
    ensures { OnOk result (cells.new.items ≡ cells.old.items ++ last_cells month empty.now whole.now) }
{
    push(cells, month, TrackKind::TotalLeftover, empty, whole.left)?;
    push(cells, month, TrackKind::TotalSaved, empty, whole.to_save)?;
    push(cells, month, TrackKind::RealSaved, empty, whole.saved)
}

/// Puts the cells of a category behind others.
fn push_part(cells: &mut Vec<TrackCell>, month: u32, part: &Part) -> Result<(), NoMemory>
    ensures { OnOk result (cells.new.items ≡ cells.old.items ++ part_cells month part.now) }
{
    let carries = if part.carries { 1 } else { 0 };
    push(cells, month, TrackKind::Sum, &part.id, part.sum)?;
    push(cells, month, TrackKind::Budget, &part.id, part.given)?;
    push(cells, month, TrackKind::Carryover, &part.id, carries)?;
    push(cells, month, TrackKind::Leftover, &part.id, part.left)
}

/// Puts the cells of categories behind others.
fn push_parts(cells: &mut Vec<TrackCell>, month: u32, parts: &[Part]) -> Result<(), NoMemory>
    ensures { OnOk result (cells.new.items ≡ cells.old.items ++ parts_cells month parts.now) }
{
    for part in parts {
        push_part(cells, month, part)?;
    }
    Ok(())
}

/// The cells of a sheet.
fn cells_of(alloc: Global, month: u32, parts: &[Part]) -> Result<Items<TrackCell>, NoMemory>
    requires { (k : PickIs) → weight (size_of k) parts.now ≤ 2 ^ 120 }
    ensures { IfOk result (λ cells. cells ≡ cells_from month (whole_of parts.now) parts.now) }
{
    let whole = whole_of(parts);
    let empty = Txt::new(String::new(alloc));
    let mut cells = Vec::new(alloc);
    push_first(&mut cells, month, &empty, &whole)?;
    push_last(&mut cells, month, &empty, &whole)?;
    push_parts(&mut cells, month, parts)?;
    Ok(Items::new(cells))
}

/// What the live categories have in the month of a number.
fn parts_in(
    alloc: Global,
    book: &Book,
    sums: &CellValues,
    number: u32,
) -> Result<Items<Part>, NoMemory>
    requires live { book.now.spent ≡ false }
    requires number { number < 2760 }
    requires sums { AreSums sums.now book.now.rows }
    ensures parts { IfOk result (λ ps. ps ≡ list_map (part_of (tracked_of book.now.rows) number) (live_of (groups_of book.now.rows))) }
    ensures small { IfOk result (λ ps. (k : PickIs) → weight (size_of k) ps ≤ 2 ^ 120) }
{
    book.sizes();
    let groups = groups_of(alloc, book)?;
    let listed = groups.as_slice();
    let live = live_of(alloc, listed)?;
    let categories = live.as_slice();
    let parts = parts_of(alloc, book, sums, categories, number)?;
    Ok(parts)
}

/// The sheet of the tracking budget of a month YYYYMM. For each live category it looks at the month itself, and at the months before it
/// as far back as they carry over; at no transaction.
pub fn track_sheet<G: Ledger>(
    alloc: Global,
    book: &Book,
    sums: &CellValues,
    month: u32,
    steps: &mut Steps<G>,
) -> Result<TrackSheet, NoMemory>
    requires live { book.now.spent ≡ false }
    requires month { IsTrue (is_month month) }
    requires sums { AreSums sums.now book.now.rows }
    ensures cells { IfOk result (λ sheet. sheet.cells ≡ track_cells (tracked_of book.now.rows) month) }
    ensures cost { steps.new ≡ steps.old }
{
    let number = month_number(month);
    let parts = parts_in(alloc, book, sums, number)?;
    let cells = cells_of(alloc, month, parts.as_slice())?;
    Ok(TrackSheet { cells })
}

/// What a cell of the tracking budget tells, if there is such a cell: where the name is of a category, it is live, and where it is of the
/// whole month, it has no id. It looks at no transaction.
pub fn track_cell<G: Ledger>(
    alloc: Global,
    book: &Book,
    sums: &CellValues,
    name: &TrackName,
    steps: &mut Steps<G>,
) -> Result<Option<i128>, NoMemory>
    requires live { book.now.spent ≡ false }
    requires month { IsTrue (is_month name.now.month) }
    requires sums { AreSums sums.now book.now.rows }
    ensures value { IfOk result (λ value. value ≡ track_cell_of (tracked_of book.now.rows) name.now) }
    ensures cost { steps.new ≡ steps.old }
{
    // What a sheet tells of a cell of its month is what the cell tells.
    track_sheets_tell_cells();
    let sheet = track_sheet(alloc, book, sums, name.month, steps)?;
    Ok(sheet.cell(name))
}
