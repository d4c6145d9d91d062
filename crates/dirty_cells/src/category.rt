//! The cells of a category in a month, computed anew.
ghost use Rattle.std.specs.Prelude.{◌≡◌, ℕ, List, [], ◌∷◌, ◌+◌, ◌-◌, ◌*◌, length, ◌≤◌, ◌<◌, ◌^◌, ◌+ℤ◌, unsigned_abs, true, false, pos, OnOk, IfOk};
ghost use Rattle.std.specs.FinMap as map;
ghost use Rattle.std.specs.Prelude.{unwrap_or};
ghost use Rattle.std.specs.Ordering.{int_eq};
ghost use Rattle.finite_sums.specs.Maps.{Text, text_cmp, is_among, some_and};
ghost use Rattle.book_rows.specs.Live.{is_live_category, is_expense_category, is_live_group, has_income_group};
ghost use Rattle.envelope_cells.specs.Budget.{expense};
ghost use Rattle.envelope_cells.specs.Cells.{rolled, leftover_before, carried_before, leftover};
ghost use Rattle.envelope_cells.specs.CellOf.{value_of, flag_value};
ghost use Rattle.envelope_cells.specs.BudgetOf.{budget_of};
ghost use Rattle.envelope_cells.specs.Ids.{month_at};
ghost use Rattle.envelope_cells.specs.Parts.{AreSums, IsPast};
ghost use Rattle.envelope_cells.specs.declared.name.CellName.{CellName as CellNameIs};
ghost use Rattle.envelope_cells.specs.declared.name.CellKind.TheVariants.{Sum, Budget as OfBudget, Carryover, Leftover};
ghost use Rattle.dirty_cells.specs.Grid.{is_pending, nothing};
ghost use Rattle.dirty_cells.specs.Right.{AreRightBut, none_pending};

use crate::row::CategoryCells;
use crate::store::Store;
use book_rows::{Book, CategoryRow, budget_id};
use envelope_cells::{CellKind, CellName, CellValues, month_at};
use field_values::{NoMemory, Steps, Txt};
use std::alloc::Global;
use std::sync::ledger::Ledger;

/// Whether a category's group is live.
fn has_live_group(book: &Book, row: &CategoryRow) -> bool
    ensures { result ≡ some_and (is_live_group book.now.rows) row.now.cat_group }
{
    match &row.cat_group {
        None => false,
        Some(id) => match book.group(id) {
            None => false,
            Some(group) => !group.tombstone,
        },
    }
}

/// Whether a category's group takes income.
fn has_income_group(book: &Book, row: &CategoryRow) -> bool
    ensures { result ≡ has_income_group book.now.rows row.now }
{
    match &row.cat_group {
        None => false,
        Some(id) => match book.group(id) {
            None => false,
            Some(group) => group.is_income,
        },
    }
}

/// Whether a category is live.
fn is_live(book: &Book, id: &Txt) -> bool
    ensures { result ≡ is_live_category book.now.rows id.now }
{
    match book.category(id) {
        None => false,
        Some(row) => !row.tombstone && has_live_group(book, row),
    }
}

/// Whether a category is live and one of expenses.
fn is_expense(book: &Book, id: &Txt) -> bool
    ensures { result ≡ is_expense_category book.now.rows id.now }
{
    match book.category(id) {
        None => false,
        Some(row) => { !row.tombstone && has_live_group(book, row) && !has_income_group(book, row) }
    }
}

/// What the rows say of a category in a month.
#[derive(Clone, Copy)]
pub(crate) struct Said {
    sum: i128,
    budget: i64,
    carries: bool,
}

/// What the rows say of a category in a month.
fn said_of(
    alloc: Global,
    book: &Book,
    sums: &CellValues,
    id: &Txt,
    number: u32,
) -> Result<Said, NoMemory>
    requires number { number < 2760 }
    requires sums { AreSums sums.now book.now.rows }
    ensures sum { IfOk result (λ m. m.sum ≡ (budget_of book.now.rows).category_sum id.now number) }
    ensures budget { IfOk result (λ m. m.budget ≡ (budget_of book.now.rows).budgeted id.now number) }
    ensures carries { IfOk result (λ m. m.carries ≡ (budget_of book.now.rows).carries id.now number) }
{
    let month = month_at(number);
    let name = CellName::make(month, CellKind::Sum, id)?;
    let row_id = budget_id(alloc, id, month)?;
    let (budget, carries) = match book.budget_row(&row_id) {
        None => (0, false),
        Some(row) => (row.amount, row.carryover),
    };
    Ok(Said {
        sum: sums.at(&name),
        budget,
        carries,
    })
}

/// What the month before left of a category.
#[derive(Clone, Copy)]
pub(crate) struct Left {
    left: i128,
    carries: bool,
}

/// What a kept cell tells, or 0.
pub(crate) fn kept(cells: &Store, name: &CellName) -> i128
    ensures { result ≡ unwrap_or (map.get cells.now name.now) (pos 0) }
{
    cells.get(name).unwrap_or(0)
}

fn is_one(z: i128) -> bool
    ensures { result ≡ int_eq z (pos 1) }
{
    z == 1
}

/// What the kept cells of the month before tell of an expense category.
fn kept_before(cells: &Store, book: &Book, id: &Txt, number: u32) -> Left
    requires some { 0 < number }
    requires number { number < 2760 }
    requires expense { is_among text_cmp (expense (budget_of book.now.rows)) id.now ≡ true }
    requires prior { AreRightBut cells.now (budget_of book.now.rows) (number - 1) none_pending }
    ensures left { result.left ≡ leftover_before (budget_of book.now.rows) id.now number }
    ensures carries { result.carries ≡ carried_before (budget_of book.now.rows) id.now number }
{
    let month = month_at(number - 1);
    let past = cells.category(id, month);
    Left {
        left: past.leftover,
        carries: is_one(past.carryover),
    }
}

/// What the month before left of an expense category; before the first month nothing is left.
fn left_before(cells: &Store, book: &Book, id: &Txt, number: u32, first: u32) -> Left
    requires number { number < 2760 }
    requires within { first ≤ number }
    requires expense { is_among text_cmp (expense (budget_of book.now.rows)) id.now ≡ true }
    requires quiet { IsPast (budget_of book.now.rows) id.now first nothing }
    requires prior { first < number → AreRightBut cells.now (budget_of book.now.rows) (number - 1) none_pending }
    ensures left { result.left ≡ leftover_before (budget_of book.now.rows) id.now number }
    ensures carries { result.carries ≡ carried_before (budget_of book.now.rows) id.now number }
{
    if first < number {
        return kept_before(cells, book, id, number);
    }
    Left {
        left: 0,
        carries: false,
    }
}

/// What of a leftover goes on.
fn rolled_over(carries: bool, left: i128) -> i128
    ensures value { result ≡ rolled carries left }
    ensures small { unsigned_abs result ≤ unsigned_abs left }
{
    if carries || left > 0 { left } else { 0 }
}

/// What a month leaves of a category, with what goes on from the month before.
fn added(budget: i64, sum: i128, rolled: i128) -> i128
    requires sum { unsigned_abs sum ≤ 2 ^ 122 }
    requires rolled { unsigned_abs rolled ≤ 2 ^ 122 }
    ensures { result ≡ (budget +ℤ sum) +ℤ rolled }
{
    i128::from(budget) + sum + rolled
}

/// What is left of a category after a month.
fn leftover_of(said: Said, past: Left) -> i128
    requires sum { unsigned_abs said.sum ≤ 2 ^ 122 }
    requires left { unsigned_abs past.left ≤ 2 ^ 122 }
    ensures { result ≡ (said.budget +ℤ said.sum) +ℤ rolled past.carries past.left }
{
    added(said.budget, said.sum, rolled_over(past.carries, past.left))
}

/// A flag as a number.
fn flag_value(flag: bool) -> i128
    ensures { result ≡ flag_value flag }
{
    if flag { 1 } else { 0 }
}

/// What the cells of a category tell in a month; none where there is no such cell.
fn told_of(
    alloc: Global,
    cells: &Store,
    sums: &CellValues,
    book: &Book,
    id: &Txt,
    number: u32,
    first: u32,
) -> Result<CategoryCells, NoMemory>
    requires live { book.now.spent ≡ false }
    requires number { number < 2760 }
    requires within { first ≤ number }
    requires sums { AreSums sums.now book.now.rows }
    requires quiet { IsPast (budget_of book.now.rows) id.now first nothing }
    requires prior { first < number → AreRightBut cells.now (budget_of book.now.rows) (number - 1) none_pending }
    ensures sum { IfOk result (λ t. t.sum ≡ value_of (budget_of book.now.rows) number Sum id.now) }
    ensures budget { IfOk result (λ t. t.budget ≡ value_of (budget_of book.now.rows) number OfBudget id.now) }
    ensures carryover { IfOk result (λ t. t.carryover ≡ value_of (budget_of book.now.rows) number Carryover id.now) }
    ensures leftover { IfOk result (λ t. t.leftover ≡ value_of (budget_of book.now.rows) number Leftover id.now) }
{
    book.sizes();
    let said = said_of(alloc, book, sums, id, number)?;
    if !is_expense(book, id) {
        let sum = if is_live(book, id) {
            Some(said.sum)
        } else {
            None
        };
        return Ok(CategoryCells {
            sum,
            budget: None,
            carryover: None,
            leftover: None,
        });
    }
    let past = left_before(cells, book, id, number, first);
    Ok(CategoryCells {
        sum: Some(said.sum),
        budget: Some(i128::from(said.budget)),
        carryover: Some(flag_value(said.carries)),
        leftover: Some(leftover_of(said, past)),
    })
}

/// Computes the cells of a category in a month anew: four of them are written or taken away.
pub(crate) fn refresh_category<G: Ledger>(
    alloc: Global,
    cells: &mut Store,
    sums: &CellValues,
    book: &Book,
    id: &Txt,
    number: u32,
    first: u32,
    steps: &mut Steps<G>,
) -> Result<(), NoMemory>
    requires live { book.now.spent ≡ false }
    requires number { number < 2760 }
    requires within { first ≤ number }
    requires sums { AreSums sums.now book.now.rows }
    requires quiet { IsPast (budget_of book.now.rows) id.now first nothing }
    requires prior { first < number → AreRightBut cells.old (budget_of book.now.rows) (number - 1) none_pending }
    ensures right { OnOk result ((rest gs : List Text) → AreRightBut cells.old (budget_of book.now.rows) number (is_pending (id.now ∷ rest) gs true) → AreRightBut cells.new (budget_of book.now.rows) number (is_pending rest gs true)) }
    ensures others { OnOk result ((q : CellNameIs) → (q.month ≡ month_at number → ⊥) → map.get cells.new q ≡ map.get cells.old q) }
    ensures cost { OnOk result (steps.new ≡ steps.old + 4) }
{
    let told = told_of(alloc, cells, sums, book, id, number, first)?;
    let month = month_at(number);
    cells.settle_category(id, month, told, steps)
}

/// The same of some categories, one after the other.
pub(crate) fn refresh_categories<G: Ledger>(
    alloc: Global,
    cells: &mut Store,
    sums: &CellValues,
    book: &Book,
    ids: &[Txt],
    number: u32,
    first: u32,
    steps: &mut Steps<G>,
) -> Result<(), NoMemory>
    requires live { book.now.spent ≡ false }
    requires number { number < 2760 }
    requires within { first ≤ number }
    requires sums { AreSums sums.now book.now.rows }
    requires quiet { (c : Text) → IsPast (budget_of book.now.rows) c first nothing }
    requires prior { first < number → AreRightBut cells.old (budget_of book.now.rows) (number - 1) none_pending }
    ensures right { OnOk result ((gs : List Text) → AreRightBut cells.old (budget_of book.now.rows) number (is_pending ids.now gs true) → AreRightBut cells.new (budget_of book.now.rows) number (is_pending [] gs true)) }
    ensures others { OnOk result ((q : CellNameIs) → (q.month ≡ month_at number → ⊥) → map.get cells.new q ≡ map.get cells.old q) }
    ensures cost { OnOk result (steps.new ≡ steps.old + 4 * length ids.now) }
{
    for id in ids {
        refresh_category(alloc, cells, sums, book, id, number, first, steps)?;
    }
    Ok(())
}
