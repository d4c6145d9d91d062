//! What there is to share out.
ghost use Rattle.std.specs.Prelude.{◌≡◌, ◌+◌, ◌<◌, ◌≤◌, ◌^◌, ◌*◌, unsigned_abs, IfOk};
ghost use Rattle.std.specs.Ordering.{eq_by_cmp};
ghost use Rattle.finite_sums.specs.Maps.{text_cmp};
ghost use Rattle.finite_sums.specs.Sums.{total, weight};
ghost use Rattle.envelope_cells.specs.Budget.{income, expense};
ghost use Rattle.envelope_cells.specs.BudgetOf.{budget_of};
ghost use Rattle.envelope_cells.specs.Parts.{weight_before};
ghost use Rattle.goal_templates.specs.Allocation.{has_template, shared_money};
ghost use Rattle.goal_templates.specs.Money.{came_in, left_out};
ghost use Rattle.goal_templates.specs.Sizes.{IsAtHand};

use crate::share::Asked;
use crate::wants::{budget_in, sum_in};
use book_edits::given::same_id;
use book_rows::{Book, month_id};
use envelope_cells::part::{past_of, rolled_over};
use envelope_cells::{CellValues, month_at};
use field_values::{NoMemory, Txt};
use std::alloc::Global;

/// What came in by a category in all months up to this one.
fn came_in(
    alloc: Global,
    book: &Book,
    sums: &CellValues,
    id: &Txt,
    first: u32,
    number: u32,
) -> Result<i128, NoMemory>
    requires hand { IsAtHand book.now.rows sums.now first number }
    requires small { weight_before (budget_of book.now.rows) id.now (number + 1) ≤ 2 ^ 118 }
    ensures { IfOk result (λ z. z ≡ came_in (budget_of book.now.rows) number id.now) }
{
    let past = past_of(alloc, book, sums, id, first, number)?;
    let sum = sum_in(sums, id, number)?;
    Ok(past.moved + sum)
}

/// What came in by categories in all months up to this one.
fn all_came_in(
    alloc: Global,
    book: &Book,
    sums: &CellValues,
    ids: &[Txt],
    first: u32,
    number: u32,
) -> Result<i128, NoMemory>
    requires hand { IsAtHand book.now.rows sums.now first number }
    requires small { weight (λ c. weight_before (budget_of book.now.rows) c (number + 1)) ids.now ≤ 2 ^ 118 }
    ensures { IfOk result (λ z. z ≡ total (came_in (budget_of book.now.rows) number) ids.now) }
{
    let mut sum = 0i128;
    for id in ids {
        sum += came_in(alloc, book, sums, id, first, number)?;
    }
    Ok(sum)
}

/// Whether a template is one of a category.
fn is_asked_for(id: &Txt, asked: &Asked) -> bool
    ensures { result ≡ eq_by_cmp text_cmp asked.now.category id.now }
{
    same_id(&asked.category, id)
}

/// Whether a category has a template.
fn has_template(asked: &[Asked], id: &Txt) -> bool
    ensures { result ≡ has_template asked.now id.now }
{
    for one in asked {
        if is_asked_for(id, one) {
            return true;
        }
    }
    false
}

/// What an expense category takes: what went out of it, less what is left in it and what it is given without a template.
fn left_out(
    alloc: Global,
    book: &Book,
    sums: &CellValues,
    asked: &[Asked],
    id: &Txt,
    first: u32,
    number: u32,
) -> Result<i128, NoMemory>
    requires hand { IsAtHand book.now.rows sums.now first number }
    requires small { weight_before (budget_of book.now.rows) id.now (number + 1) ≤ 2 ^ 118 }
    ensures { IfOk result (λ z. z ≡ left_out (budget_of book.now.rows) number asked.now id.now) }
{
    let past = past_of(alloc, book, sums, id, first, number)?;
    let kept = past.moved - rolled_over(past.carries, past.left);
    if has_template(asked, id) {
        return Ok(kept);
    }
    let budget = budget_in(alloc, book, id, number)?;
    Ok(kept - i128::from(budget))
}

/// What expense categories take.
fn all_left_out(
    alloc: Global,
    book: &Book,
    sums: &CellValues,
    asked: &[Asked],
    ids: &[Txt],
    first: u32,
    number: u32,
) -> Result<i128, NoMemory>
    requires hand { IsAtHand book.now.rows sums.now first number }
    requires small { weight (λ c. weight_before (budget_of book.now.rows) c (number + 1)) ids.now ≤ 2 ^ 118 }
    ensures { IfOk result (λ z. z ≡ total (left_out (budget_of book.now.rows) number asked.now) ids.now) }
{
    let mut sum = 0i128;
    for id in ids {
        sum += left_out(alloc, book, sums, asked, id, first, number)?;
    }
    Ok(sum)
}

/// What is held back in a month.
fn held_in(alloc: Global, book: &Book, number: u32) -> Result<i64, NoMemory>
    requires { number < 2760 }
    ensures { IfOk result (λ z. z ≡ (budget_of book.now.rows).buffered number) }
{
    let row = month_id(alloc, month_at(number))?;
    Ok(match book.month_row(&row) {
        None => 0,
        Some(row) => row.buffered,
    })
}

/// What there is to share out in a month: what is to budget, and the budgets of the categories that have a template.
pub(crate) fn shared_money(
    alloc: Global,
    book: &Book,
    sums: &CellValues,
    incomes: &[Txt],
    expenses: &[Txt],
    asked: &[Asked],
    first: u32,
    number: u32,
) -> Result<i128, NoMemory>
    requires hand { IsAtHand book.now.rows sums.now first number }
    requires incomes { incomes.now ≡ income (budget_of book.now.rows) }
    requires expenses { expenses.now ≡ expense (budget_of book.now.rows) }
    ensures value { IfOk result (λ z. z ≡ shared_money (budget_of book.now.rows) number asked.now) }
    ensures small { IfOk result (λ z. unsigned_abs z ≤ 2 ^ 121) }
{
    let came = all_came_in(alloc, book, sums, incomes, first, number)?;
    let left = all_left_out(alloc, book, sums, asked, expenses, first, number)?;
    let held = held_in(alloc, book, number)?;
    Ok(came + left - i128::from(held))
}
