//! The edits of a long run, which a small generator of numbers chooses.
ghost use Rattle.std.specs.Prelude.{◌<◌, IfOk};
ghost use Rattle.device_core.specs.Edits.{IsEdit};

use crate::chance::Draws;
use device_core::{BookEdit, Edit};
use envelope_cells::month_at;
use field_values::{Txt, Value};
use std::alloc::Global;
use std::test::Fail;

/// How many transactions there are before all edits.
pub(crate) const TRANSACTIONS: u32 = 20_000;

/// January 2024, by its number.
pub(crate) const FIRST: u32 = 648;

/// How many months there are from there on.
pub(crate) const MONTHS: u32 = 24;

/// The last of them.
pub(crate) const LAST: u32 = 202_512;

/// One of the months.
pub(crate) fn month(draws: &mut Draws) -> u32 {
    month_at(FIRST + draws.below(MONTHS))
}

/// A day of one of the months.
fn day(draws: &mut Draws) -> u32 {
    let number = draws.below(MONTHS);
    let day = 1 + draws.below(28);
    (2024 + number / 12) * 10_000 + (1 + number % 12) * 100 + day
}

/// An amount that goes out.
fn amount(draws: &mut Draws) -> i64 {
    -((1 + draws.below(9_999)) as i64)
}

/// One of the first categories: the tenth is not always one of expenses.
pub(crate) fn category(alloc: Global, draws: &mut Draws, count: u32) -> Result<Txt, Fail>
    requires { 0 < count }
{
    let digit = draws.below(count);
    Ok(Txt::new(format!(in alloc; "c{digit}")?))
}

/// The edit that gives a column of a row a value.
fn set(alloc: Global, dataset: &str, row: &str, column: &str, value: &str) -> Result<Edit, Fail>
    ensures { IfOk result IsEdit }
{
    let value = Value::read(alloc, value)?;
    Ok(Edit::Book(BookEdit::Set {
        dataset: Txt::from_text(alloc, dataset)?,
        row: Txt::from_text(alloc, row)?,
        column: Txt::from_text(alloc, column)?,
        value,
    }))
}

/// The edit that gives a column of one of the generated transactions a value.
fn set_transaction(
    alloc: Global,
    draws: &mut Draws,
    column: &str,
    value: &str,
) -> Result<Edit, Fail>
    ensures { IfOk result IsEdit }
{
    let number = 1 + draws.below(TRANSACTIONS);
    let row = format!(in alloc; "t{number}")?;
    set(alloc, "transactions", row.as_str(), column, value)
}

/// Another amount of a transaction.
fn amount_edit(alloc: Global, draws: &mut Draws) -> Result<Edit, Fail>
    ensures { IfOk result IsEdit }
{
    let amount = amount(draws);
    let value = format!(in alloc; "N:{amount}")?;
    set_transaction(alloc, draws, "amount", value.as_str())
}

/// Another day.
fn day_edit(alloc: Global, draws: &mut Draws) -> Result<Edit, Fail>
    ensures { IfOk result IsEdit }
{
    let day = day(draws);
    let value = format!(in alloc; "N:{day}")?;
    set_transaction(alloc, draws, "date", value.as_str())
}

/// Another category.
fn category_edit(alloc: Global, draws: &mut Draws) -> Result<Edit, Fail>
    ensures { IfOk result IsEdit }
{
    let digit = draws.below(10);
    let value = format!(in alloc; "S:c{digit}")?;
    set_transaction(alloc, draws, "category", value.as_str())
}

/// A new transaction.
fn added_edit(alloc: Global, draws: &mut Draws) -> Result<Edit, Fail>
    ensures { IfOk result IsEdit }
{
    let category = category(alloc, draws, 10)?;
    let account = Txt::from_text(alloc, "bank")?;
    let notes = Txt::from_text(alloc, "")?;
    Ok(Edit::Book(BookEdit::TxAdd {
        id: None,
        account,
        date: day(draws),
        amount: amount(draws),
        payee: None,
        category: Some(category),
        notes,
    }))
}

/// What a category is given in a month.
fn budget_edit(alloc: Global, draws: &mut Draws) -> Result<Edit, Fail>
    ensures { IfOk result IsEdit }
{
    let category = category(alloc, draws, 9)?;
    Ok(Edit::Book(BookEdit::Budget {
        month: month(draws),
        category,
        amount: draws.below(100_000) as i64,
    }))
}

/// Whether what a category is overspent by in a month stays in it.
fn carryover_edit(alloc: Global, draws: &mut Draws) -> Result<Edit, Fail>
    ensures { IfOk result IsEdit }
{
    let category = category(alloc, draws, 9)?;
    Ok(Edit::Book(BookEdit::Carryover {
        month: month(draws),
        category,
        flag: draws.below(2) == 0,
    }))
}

/// What is held back in a month.
fn hold_edit(draws: &mut Draws) -> Edit
    ensures { IsEdit result }
{
    Edit::Book(BookEdit::Hold {
        month: month(draws),
        amount: draws.below(1_000) as i64,
    })
}

/// An edit that touches a row or two.
fn usual_edit(alloc: Global, draws: &mut Draws) -> Result<Edit, Fail>
    ensures { IfOk result IsEdit }
{
    match draws.below(100) {
        0..=39 => amount_edit(alloc, draws),
        40..=54 => day_edit(alloc, draws),
        55..=69 => category_edit(alloc, draws),
        70..=84 => added_edit(alloc, draws),
        85..=94 => budget_edit(alloc, draws),
        95..=97 => carryover_edit(alloc, draws),
        _ => Ok(hold_edit(draws)),
    }
}

/// The edit by which the account leaves the budget, or comes back.
fn account_edit(alloc: Global, offbudget: bool) -> Result<Edit, Fail>
    ensures { IfOk result IsEdit }
{
    let id = Txt::from_text(alloc, "bank")?;
    Ok(Edit::Book(BookEdit::AccountOffbudget { id, offbudget }))
}

/// The edit with a number. A few touch all months, and some of these all transactions; the next one takes each of them back.
pub(crate) fn edit_at(alloc: Global, draws: &mut Draws, at: u32) -> Result<Edit, Fail>
    ensures { IfOk result IsEdit }
{
    match at % 10_000 {
        9_000 => account_edit(alloc, true),
        9_001 => account_edit(alloc, false),
        _ => match at % 500 {
            300 => set(alloc, "categories", "c9", "cat_group", "S:gi"),
            301 => set(alloc, "categories", "c9", "cat_group", "S:g"),
            _ => usual_edit(alloc, draws),
        },
    }
}
