//! The sheet of a month.
ghost use Rattle.std.specs.Prelude.{◌≡◌, ◌+◌, ◌*◌, ◌≤◌, ◌^◌, ◌++◌, ◌∷◌, [], ◌<◌, IsTrue, false, OnOk, IfOk, length, map as list_map};
ghost use Rattle.std.specs.FinMap as map;
ghost use Rattle.book_rows.specs.Months.{is_month};
ghost use Rattle.envelope_cells.specs.BudgetOf.{budget_of, groups_of};
ghost use Rattle.envelope_cells.specs.SheetOf.{cell, sheet_of};
ghost use Rattle.envelope_cells.specs.Parts.{group_of, groups_weight, part_weight, group_total};
ghost use Rattle.finite_sums.specs.Sums.{weight};
ghost use Rattle.envelope_cells.specs.declared.part.Pick.{Pick as PickIs};
ghost use Rattle.envelope_cells.specs.Whole.{funds_cells, rest_cells, part_cells, parts_cells, own_cells, all_cells, whole_of, cells_from, HasAllMoney};

use crate::groups::groups_of;
use crate::ids::month_number;
use crate::name::{Cell, CellKind, CellName, Sheet};
use crate::part::{GroupParts, Part, Pick, buffered_in, first_month, groups_parts, total_of};
use crate::sums::category_sums;
use crate::whole::{Whole, whole_of};
use book_rows::Book;
use field_values::{Items, NoMemory, Steps, Txt};
use std::alloc::Global;
use std::marker::Brand;
use std::sync::ledger::{Blank, Ledger};

/// Puts a cell behind others.
fn push(
    cells: &mut Vec<Cell>,
    month: u32,
    kind: CellKind,
    id: &Txt,
    value: i128,
) -> Result<(), NoMemory>
    ensures { OnOk result (cells.new.items ≡ cells.old.items ++ cell month kind id.now value ∷ []) }
{
    let name = CellName::make(month, kind, id)?;
    cells.push(Cell { name, value })?;
    Ok(())
}

/// Puts the cells of what a month has to budget behind others.
fn push_funds(cells: &mut Vec<Cell>, month: u32, empty: &Txt, whole: &Whole) -> Result<(), NoMemory>
    ensures { OnOk result (cells.new.items ≡ cells.old.items ++ funds_cells month empty.now whole.now) }
{
    push(cells, month, CellKind::TotalIncome, empty, whole.income)?;
    push(
        cells,
        month,
        CellKind::FromLastMonth,
        empty,
        whole.from_last,
    )?;
    push(
        cells,
        month,
        CellKind::AvailableFunds,
        empty,
        whole.available,
    )?;
    push(
        cells,
        month,
        CellKind::LastMonthOverspent,
        empty,
        whole.overspent,
    )
}

/// Puts the other cells of the whole month behind others.
fn push_rest(cells: &mut Vec<Cell>, month: u32, empty: &Txt, whole: &Whole) -> Result<(), NoMemory>
    ensures { OnOk result (cells.new.items ≡ cells.old.items ++ rest_cells month empty.now whole.now) }
{
    push(cells, month, CellKind::TotalBudgeted, empty, whole.budgeted)?;
    push(cells, month, CellKind::Buffered, empty, whole.buffered)?;
    push(cells, month, CellKind::ToBudget, empty, whole.to_budget)?;
    push(cells, month, CellKind::TotalSpent, empty, whole.spent)?;
    push(cells, month, CellKind::TotalLeftover, empty, whole.leftover)
}

/// Puts the cells of a category behind others.
fn push_part(
    cells: &mut Vec<Cell>,
    month: u32,
    is_income: bool,
    part: &Part,
) -> Result<(), NoMemory>
    ensures { OnOk result (cells.new.items ≡ cells.old.items ++ part_cells month is_income part.now) }
{
    push(cells, month, CellKind::Sum, &part.id, part.sum)?;
    if is_income {
        return Ok(());
    }
    let carries = if part.carries { 1 } else { 0 };
    push(cells, month, CellKind::Budget, &part.id, part.budget)?;
    push(cells, month, CellKind::Carryover, &part.id, carries)?;
    push(cells, month, CellKind::Leftover, &part.id, part.leftover)
}

/// Puts the cells of categories behind others.
fn push_parts(
    cells: &mut Vec<Cell>,
    month: u32,
    is_income: bool,
    parts: &[Part],
) -> Result<(), NoMemory>
    ensures { OnOk result (cells.new.items ≡ cells.old.items ++ parts_cells month is_income parts.now) }
{
    for part in parts {
        push_part(cells, month, is_income, part)?;
    }
    Ok(())
}

/// Puts a cell of a group behind others.
fn push_total(
    cells: &mut Vec<Cell>,
    month: u32,
    kind: CellKind,
    group: &GroupParts,
    pick: Pick,
) -> Result<(), NoMemory>
    requires { weight (part_weight pick) group.now.parts ≤ 2 ^ 120 }
    ensures { OnOk result (cells.new.items ≡ cells.old.items ++ cell month kind group.now.id (group_total pick group.now) ∷ []) }
{
    let sum = total_of(group.parts.as_slice(), pick);
    push(cells, month, kind, &group.id, sum)
}

/// Puts the cells of a group alone behind others.
fn push_own(cells: &mut Vec<Cell>, month: u32, group: &GroupParts) -> Result<(), NoMemory>
    requires { (k : PickIs) → weight (part_weight k) group.now.parts ≤ 2 ^ 120 }
    ensures { OnOk result (cells.new.items ≡ cells.old.items ++ own_cells month group.now) }
{
    push_total(cells, month, CellKind::GroupSum, group, Pick::Sum)?;
    if group.is_income {
        return Ok(());
    }
    push_total(cells, month, CellKind::GroupBudget, group, Pick::Budget)?;
    push_total(cells, month, CellKind::GroupLeftover, group, Pick::Leftover)
}

/// Puts the cells of groups and of their categories behind others.
fn push_groups(cells: &mut Vec<Cell>, month: u32, groups: &[GroupParts]) -> Result<(), NoMemory>
    requires { (k : PickIs) → groups_weight k groups.now ≤ 2 ^ 120 }
    ensures { OnOk result (cells.new.items ≡ cells.old.items ++ all_cells month groups.now) }
{
    for group in groups {
        push_own(cells, month, group)?;
        push_parts(cells, month, group.is_income, group.parts.as_slice())?;
    }
    Ok(())
}

/// What the categories of all groups have in the month of a number. It takes one pass over the
/// transactions. Then it looks for each category at each month from the first one of the book's
/// window to this one.
fn parts_in<G: Ledger>(
    alloc: Global,
    book: &Book,
    number: u32,
    steps: &mut Steps<G>,
) -> Result<Items<GroupParts>, NoMemory>
    requires live { book.now.spent ≡ false }
    requires number { number < 2760 }
    ensures parts { IfOk result (λ parts. parts ≡ list_map (group_of (budget_of book.now.rows) number) (groups_of book.now.rows)) }
    ensures small { IfOk result (λ parts. (k : PickIs) → groups_weight k parts ≤ 2 ^ 120) }
    ensures cost { steps.new ≤ steps.old + 2 * length (map.entries book.now.rows.txs) }
{
    book.sizes();
    let sums = category_sums(alloc, book, steps)?;
    let groups = groups_of(alloc, book)?;
    let list = groups.as_slice();
    let first = first_month(book, number);
    let parts = groups_parts(alloc, book, &sums, list, first, number)?;
    Ok(parts)
}

/// The cells of a sheet.
fn cells_of(
    alloc: Global,
    month: u32,
    groups: &[GroupParts],
    held: i64,
) -> Result<Items<Cell>, NoMemory>
    requires { (k : PickIs) → groups_weight k groups.now ≤ 2 ^ 120 }
    ensures { IfOk result (λ cells. cells ≡ cells_from month (whole_of groups.now held) groups.now) }
{
    let whole = whole_of(groups, held);
    let empty = Txt::new(String::new(alloc));
    let mut cells = Vec::new(alloc);
    push_funds(&mut cells, month, &empty, &whole)?;
    push_rest(&mut cells, month, &empty, &whole)?;
    push_groups(&mut cells, month, groups)?;
    Ok(Items::new(cells))
}

/// The sheet of a month, over a counter of its own.
fn sheet_over<G: Ledger>(
    alloc: Global,
    book: &Book,
    month: u32,
    blank: Blank,
) -> Result<Sheet, NoMemory>
    requires name { blank.name ≡ G.name }
    requires parts { blank.parts ≡ G.parts }
    requires some { 1 ≤ G.parts }
    requires live { book.now.spent ≡ false }
    requires month { IsTrue (is_month month) }
    ensures cells { IfOk result (λ sheet. sheet.cells ≡ sheet_of (budget_of book.now.rows) month) }
    ensures money { IfOk result (λ sheet. HasAllMoney sheet.cells book.now.rows month) }
{
    let mut steps = Steps::<G>::new(blank);
    let number = month_number(month);
    let parts = parts_in(alloc, book, number, &mut steps)?;
    let held = buffered_in(alloc, book, number)?;
    let cells = cells_of(alloc, month, parts.as_slice(), held)?;
    Ok(Sheet { cells })
}

/// The sheet of a month YYYYMM. It goes once over all transactions, whatever cells there are.
pub fn sheet(alloc: Global, book: &Book, month: u32) -> Result<Sheet, NoMemory>
    requires live { book.now.spent ≡ false }
    requires month { IsTrue (is_month month) }
    ensures cells { IfOk result (λ sheet. sheet.cells ≡ sheet_of (budget_of book.now.rows) month) }
    ensures money { IfOk result (λ sheet. HasAllMoney sheet.cells book.now.rows month) }
{
    sheet_over::<Brand>(alloc, book, month, Blank::new(1))
}
