//! What templates want.
ghost use Rattle.std.specs.Prelude.{◌≡◌, ◌+◌, ◌-◌, ◌<◌, ◌≤◌, ◌^◌, ◌+ℤ◌, ◌≤ℤ◌, pos, unsigned_abs, IfOk, IsTrue};
ghost use Rattle.std.specs.Int.{int_min};
ghost use Rattle.book_rows.specs.Months.{is_month};
ghost use Rattle.envelope_cells.specs.Ids.{month_at};
ghost use Rattle.envelope_cells.specs.BudgetOf.{budget_of};
ghost use Rattle.envelope_cells.specs.Parts.{value_at, sum_name, weight_before};
ghost use Rattle.goal_templates.specs.Wanted.{carry, missing, part_of, latest_sums, average_of, given_ago, due, want_of};
ghost use Rattle.goal_templates.specs.Sizes.{IsAtHand, IsAsked};

use crate::share::Asked;
use crate::template::TemplateBody;
use book_rows::{Book, budget_id};
use envelope_cells::part::{past_of, rolled_over};
use envelope_cells::{CellKind, CellName, CellValues, month_at, month_number};
use field_values::value::LARGEST;
use field_values::{NoMemory, Txt};
use std::alloc::Global;

/// What the transactions of a category add up to in a month.
pub(crate) fn sum_in(sums: &CellValues, id: &Txt, number: u32) -> Result<i128, NoMemory>
    requires { number < 2760 }
    ensures { IfOk result (λ z. z ≡ value_at sums.now (sum_name id.now (month_at number))) }
{
    let name = CellName::make(month_at(number), CellKind::Sum, id)?;
    Ok(sums.at(&name))
}

/// What a category is given in a month.
pub(crate) fn budget_in(alloc: Global, book: &Book, id: &Txt, number: u32) -> Result<i64, NoMemory>
    requires { number < 2760 }
    ensures { IfOk result (λ z. z ≡ (budget_of book.now.rows).budgeted id.now number) }
{
    let row = budget_id(alloc, id, month_at(number))?;
    Ok(match book.budget_row(&row) {
        None => 0,
        Some(row) => row.amount,
    })
}

/// What the month before leaves in a category.
fn carry(
    alloc: Global,
    book: &Book,
    sums: &CellValues,
    id: &Txt,
    first: u32,
    number: u32,
) -> Result<i128, NoMemory>
    requires hand { IsAtHand book.now.rows sums.now first number }
    requires small { weight_before (budget_of book.now.rows) id.now number ≤ 2 ^ 118 }
    ensures value { IfOk result (λ z. z ≡ carry (budget_of book.now.rows) number id.now) }
    ensures small { IfOk result (λ z. unsigned_abs z ≤ 2 ^ 118) }
{
    let past = past_of(alloc, book, sums, id, first, number)?;
    Ok(rolled_over(past.carries, past.left))
}

/// What a category has, which got so much.
fn has(
    alloc: Global,
    book: &Book,
    sums: &CellValues,
    id: &Txt,
    first: u32,
    number: u32,
    got: i128,
) -> Result<i128, NoMemory>
    requires hand { IsAtHand book.now.rows sums.now first number }
    requires small { weight_before (budget_of book.now.rows) id.now number ≤ 2 ^ 118 }
    requires got { unsigned_abs got ≤ 2 ^ 120 }
    ensures value { IfOk result (λ z. z ≡ carry (budget_of book.now.rows) number id.now +ℤ got) }
    ensures small { IfOk result (λ z. unsigned_abs z ≤ 2 ^ 121) }
{
    let carry = carry(alloc, book, sums, id, first, number)?;
    Ok(carry + got)
}

/// What is missing to an amount.
fn missing(limit: i64, has: i128) -> u128
    requires { unsigned_abs has ≤ 2 ^ 121 }
    ensures value { result ≡ missing limit has }
    ensures small { result ≤ 2 ^ 122 }
{
    let missing = i128::from(limit) - has;
    if missing > 0 {
        missing.unsigned_abs()
    } else {
        0
    }
}

/// An equal part of an amount, rounded up, where there are so many months more.
fn part_of(amount: u128, more: u32) -> u128
    requires { amount ≤ 2 ^ 122 }
    ensures value { result ≡ part_of amount more }
    ensures small { result ≤ amount }
{
    let more = u128::from(more);
    (amount + more) / (more + 1)
}

/// A number that is not negative, with a sign.
fn signed(n: u128) -> i128
    requires { n ≤ 2 ^ 122 }
    ensures { result ≡ pos n }
{
    n as i128
}

/// The lesser of an amount and of what is missing.
fn at_most(cents: i64, missing: u128) -> i128
    requires { missing ≤ 2 ^ 122 }
    ensures { result ≡ int_min cents (pos missing) }
{
    let cents = i128::from(cents);
    let missing = signed(missing);
    if cents < missing { cents } else { missing }
}

/// What transactions of a category add up to in the months from one on that come before another one.
fn sums_between(
    book: &Book,
    sums: &CellValues,
    id: &Txt,
    from: u32,
    first: u32,
    number: u32,
) -> Result<i128, NoMemory>
    requires hand { IsAtHand book.now.rows sums.now first number }
    requires from { from ≤ number }
    requires small { weight_before (budget_of book.now.rows) id.now number ≤ 2 ^ 118 }
    ensures { IfOk result (λ z. z ≡ latest_sums (budget_of book.now.rows) id.now number (number - from)) }
{
    let mut sum = 0i128;
    for at in from..number {
        sum += sum_in(sums, id, at)?;
    }
    Ok(sum)
}

/// What was spent a month in so many months, rounded down.
fn average_of(sum: i128, months: u32) -> i128
    requires sum { unsigned_abs sum ≤ 2 ^ 120 }
    requires some { 1 ≤ months }
    ensures { result ≡ pos (average_of sum months) }
{
    let spent = if sum < 0 { sum.unsigned_abs() } else { 0 };
    let average = spent / u128::from(months);
    signed(average.min(LARGEST as u128))
}

/// What was spent in a category a month in so many months, rounded down.
fn average(
    book: &Book,
    sums: &CellValues,
    id: &Txt,
    first: u32,
    number: u32,
    months: u32,
) -> Result<i128, NoMemory>
    requires hand { IsAtHand book.now.rows sums.now first number }
    requires small { weight_before (budget_of book.now.rows) id.now number ≤ 2 ^ 118 }
    requires some { 1 ≤ months }
    ensures { IfOk result (λ z. z ≡ pos (average_of (latest_sums (budget_of book.now.rows) id.now number months) months)) }
{
    let from = number.saturating_sub(months);
    let sum = sums_between(book, sums, id, from, first, number)?;
    Ok(average_of(sum, months))
}

/// What a category was given so many months ago, if it was no less than nothing.
fn given_ago(
    alloc: Global,
    book: &Book,
    id: &Txt,
    number: u32,
    months: u32,
) -> Result<i128, NoMemory>
    requires { number < 2760 }
    ensures { IfOk result (λ z. z ≡ given_ago (budget_of book.now.rows) number id.now months) }
{
    if months > number {
        return Ok(0);
    }
    let budget = budget_in(alloc, book, id, number - months)?;
    Ok(i128::from(budget.max(0)))
}

/// An even part of what is missing to an amount that is due in a month YYYYMM.
fn due(number: u32, month: u32, limit: i64, has: i128) -> i128
    requires month { IsTrue (is_month month) }
    requires has { unsigned_abs has ≤ 2 ^ 121 }
    ensures { result ≡ due number month limit has }
{
    let last = month_number(month);
    if number > last {
        return 0;
    }
    signed(part_of(missing(limit, has), last - number))
}

/// What a template wants, whose category got so much by earlier ones.
pub(crate) fn want(
    alloc: Global,
    book: &Book,
    sums: &CellValues,
    first: u32,
    number: u32,
    asked: &Asked,
    got: i128,
) -> Result<i128, NoMemory>
    requires hand { IsAtHand book.now.rows sums.now first number }
    requires asked { IsAsked (budget_of book.now.rows) asked.now }
    requires small { weight_before (budget_of book.now.rows) asked.now.category number ≤ 2 ^ 118 }
    requires got { unsigned_abs got ≤ 2 ^ 120 }
    ensures { IfOk result (λ w. w ≡ want_of (budget_of book.now.rows) number asked.now.category asked.now.template got) }
{
    let id = &asked.category;
    match asked.template.body {
        TemplateBody::Amount { cents } => Ok(i128::from(cents)),
        TemplateBody::UpTo { limit } => {
            let has = has(alloc, book, sums, id, first, number, got)?;
            Ok(signed(missing(limit, has)))
        }
        TemplateBody::AmountUpTo { cents, limit } => {
            let has = has(alloc, book, sums, id, first, number, got)?;
            Ok(at_most(cents, missing(limit, has)))
        }
        TemplateBody::By { cents, month } => {
            let has = has(alloc, book, sums, id, first, number, got)?;
            Ok(due(number, month, cents, has))
        }
        TemplateBody::Average { months } => average(book, sums, id, first, number, months),
        TemplateBody::CopyFrom { months } => given_ago(alloc, book, id, number, months),
    }
}
