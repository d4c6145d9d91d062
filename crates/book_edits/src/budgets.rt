//! Edits of what categories are given in a month, and of what is held back.
ghost use Rattle.std.specs.Prelude.{◌≡◌, ◌++◌, ◌+ℤ◌, ◌-ℤ◌, OnOk, IfOk, IfErr, Ok};
ghost use Rattle.book_rows.specs.Ids.{budget_id};
ghost use Rattle.book_edits.specs.Faults.{IsEditFault};
ghost use Rattle.book_edits.specs.Checks.{an_amount};
ghost use Rattle.book_edits.specs.Budgets.{amount_at, made_unless, column_writes, budget_writes, track_writes, budget, carryover, hold, two_amounts, may_move, move, track, track_carryover};

use crate::checks::{live_category, no_income};
use crate::given::{a_held, a_month, a_name, an_amount, as_amount, two_ids};
use crate::writing::{flag, number, one, push, text};
use book_rows::{Book, EditFault, RowName, Write, budget_id, month_id};
use field_values::{NoMemory, Txt, Value};
use std::alloc::Global;

/// The amount of a budget row, 0 where it is not there.
pub(crate) fn amount_at(book: &Book, id: &Txt) -> i64
    ensures { result ≡ amount_at book.now.rows id.now }
{
    match book.budget_row(id) {
        Some(row) => row.amount,
        None => 0,
    }
}

/// Puts the writes that make the row of what a category is given in a month behind others, unless it is there.
fn push_row(
    alloc: Global,
    writes: &mut Vec<Write>,
    there: bool,
    dataset: &str,
    id: &Txt,
    category: &Txt,
    month: u32,
) -> Result<(), NoMemory>
    requires { id.now ≡ budget_id category.now month }
    ensures { OnOk result (writes.new.items ≡ writes.old.items ++ made_unless there dataset.now category.now month) }
{
    if there {
        return Ok(());
    }
    let row = RowName::Given(id.copy()?);
    let month = number(month);
    push(alloc, writes, dataset, &row, "month", month)?;
    let category = text(category)?;
    push(alloc, writes, dataset, &row, "category", category)
}

/// Puts the writes of a column of the row of what a category is given in a month behind others. The row is made, unless it is there.
fn push_cell(
    alloc: Global,
    writes: &mut Vec<Write>,
    there: bool,
    dataset: &str,
    id: &Txt,
    category: &Txt,
    month: u32,
    column: &str,
    value: Value,
) -> Result<(), NoMemory>
    requires { id.now ≡ budget_id category.now month }
    ensures { OnOk result (writes.new.items ≡ writes.old.items ++ column_writes there dataset.now category.now month column.now value) }
{
    push_row(alloc, writes, there, dataset, id, category, month)?;
    let row = RowName::Given(id.copy()?);
    push(alloc, writes, dataset, &row, column, value)
}

/// Puts the writes of a column of the row of what a category is given in a month behind others. The id is that of the row, which is
/// made where it is not there.
pub fn push_column(
    alloc: Global,
    writes: &mut Vec<Write>,
    book: &Book,
    id: &Txt,
    category: &Txt,
    month: u32,
    column: &str,
    value: Value,
) -> Result<(), NoMemory>
    requires { id.now ≡ budget_id category.now month }
    ensures { OnOk result (writes.new.items ≡ writes.old.items ++ budget_writes book.now.rows category.now month column.now value) }
{
    let there = book.budget_row(id).is_some();
    push_cell(
        alloc,
        writes,
        there,
        "zero_budgets",
        id,
        category,
        month,
        column,
        value,
    )
}

/// The writes of a column of the row of what the tracking budget gives a category in a month, which is made where it is not there.
fn track_writes(
    alloc: Global,
    book: &Book,
    id: &Txt,
    category: &Txt,
    month: u32,
    column: &str,
    value: Value,
) -> Result<Vec<Write>, NoMemory>
    requires { id.now ≡ budget_id category.now month }
    ensures { IfOk result (λ ws. ws.items ≡ track_writes book.now.rows category.now month column.now value) }
{
    let there = book.track_row(id).is_some();
    let mut writes = Vec::new(alloc);
    push_cell(
        alloc,
        &mut writes,
        there,
        "reflect_budgets",
        id,
        category,
        month,
        column,
        value,
    )?;
    Ok(writes)
}

/// Gives a category an amount in a month.
pub(crate) fn budget(
    alloc: Global,
    book: &Book,
    month: u32,
    category: &Txt,
    amount: i64,
) -> Result<Vec<Write>, EditFault>
    ensures ok { IfOk result (λ ws. budget book.now.rows month category.now amount ≡ Ok ws.items) }
    ensures err { IfErr result (IsEditFault (budget book.now.rows month category.now amount)) }
{
    a_month(month)?;
    live_category(book, category)?;
    no_income(book, category)?;
    an_amount(i128::from(amount))?;
    let id = budget_id(alloc, category, month)?;
    a_name(&id)?;
    let mut writes = Vec::new(alloc);
    let value = Value::Number(amount);
    push_column(
        alloc,
        &mut writes,
        book,
        &id,
        category,
        month,
        "amount",
        value,
    )?;
    Ok(writes)
}

/// Says whether what a category is overspent by in a month stays in it.
pub(crate) fn carryover(
    alloc: Global,
    book: &Book,
    month: u32,
    category: &Txt,
    carries: bool,
) -> Result<Vec<Write>, EditFault>
    ensures ok { IfOk result (λ ws. carryover book.now.rows month category.now carries ≡ Ok ws.items) }
    ensures err { IfErr result (IsEditFault (carryover book.now.rows month category.now carries)) }
{
    a_month(month)?;
    live_category(book, category)?;
    no_income(book, category)?;
    let id = budget_id(alloc, category, month)?;
    a_name(&id)?;
    let mut writes = Vec::new(alloc);
    let value = flag(carries);
    push_column(
        alloc,
        &mut writes,
        book,
        &id,
        category,
        month,
        "carryover",
        value,
    )?;
    Ok(writes)
}

/// Holds an amount of a month back for the next.
pub(crate) fn hold(alloc: Global, month: u32, amount: i64) -> Result<Vec<Write>, EditFault>
    ensures ok { IfOk result (λ ws. hold month amount ≡ Ok ws.items) }
    ensures err { IfErr result (IsEditFault (hold month amount)) }
{
    a_month(month)?;
    a_held(i128::from(amount))?;
    let id = month_id(alloc, month)?;
    let value = Value::Number(amount);
    Ok(one(alloc, "zero_budget_months", &id, "buffered", value)?)
}

/// Two expense categories between which an amount can be moved.
fn may_move(book: &Book, month: u32, from: &Txt, to: &Txt, amount: i64) -> Result<(), EditFault>
    ensures ok { OnOk result (may_move book.now.rows month from.now to.now amount ≡ Ok tt) }
    ensures err { IfErr result (IsEditFault (may_move book.now.rows month from.now to.now amount)) }
{
    a_month(month)?;
    live_category(book, from)?;
    live_category(book, to)?;
    no_income(book, from)?;
    no_income(book, to)?;
    two_ids(from, to)?;
    an_amount(i128::from(amount))
}

/// What the row has less an amount, as a value holds it.
fn given_less(book: &Book, id: &Txt, amount: i64) -> Result<i64, EditFault>
    ensures ok { IfOk result (λ m. (m ≡ amount_at book.now.rows id.now -ℤ amount) × (an_amount (amount_at book.now.rows id.now -ℤ amount) ≡ Ok tt)) }
    ensures err { IfErr result (IsEditFault (an_amount (amount_at book.now.rows id.now -ℤ amount))) }
{
    let sum = i128::from(amount_at(book, id)) - i128::from(amount);
    as_amount(sum)
}

/// What the row has with an amount more, as a value holds it.
pub(crate) fn given_more(book: &Book, id: &Txt, amount: i64) -> Result<i64, EditFault>
    ensures ok { IfOk result (λ m. (m ≡ amount_at book.now.rows id.now +ℤ amount) × (an_amount (amount_at book.now.rows id.now +ℤ amount) ≡ Ok tt)) }
    ensures err { IfErr result (IsEditFault (an_amount (amount_at book.now.rows id.now +ℤ amount))) }
{
    let sum = i128::from(amount_at(book, id)) + i128::from(amount);
    as_amount(sum)
}

/// The writes by which two categories are given these amounts in a month.
fn moved(
    alloc: Global,
    book: &Book,
    month: u32,
    from: &Txt,
    source: &Txt,
    less: i64,
    to: &Txt,
    target: &Txt,
    more: i64,
) -> Result<Vec<Write>, NoMemory>
    requires source { source.now ≡ budget_id from.now month }
    requires target { target.now ≡ budget_id to.now month }
    ensures { IfOk result (λ ws. ws.items ≡ two_amounts book.now.rows month from.now less to.now more) }
{
    let mut writes = Vec::new(alloc);
    let less = Value::Number(less);
    push_column(
        alloc,
        &mut writes,
        book,
        source,
        from,
        month,
        "amount",
        less,
    )?;
    let more = Value::Number(more);
    push_column(alloc, &mut writes, book, target, to, month, "amount", more)?;
    Ok(writes)
}

/// Takes an amount that a category is given in a month from it, and gives it to another one.
pub(crate) fn move_amount(
    alloc: Global,
    book: &Book,
    month: u32,
    from: &Txt,
    to: &Txt,
    amount: i64,
) -> Result<Vec<Write>, EditFault>
    ensures ok { IfOk result (λ ws. move book.now.rows month from.now to.now amount ≡ Ok ws.items) }
    ensures err { IfErr result (IsEditFault (move book.now.rows month from.now to.now amount)) }
{
    may_move(book, month, from, to, amount)?;
    let source = budget_id(alloc, from, month)?;
    let target = budget_id(alloc, to, month)?;
    let less = given_less(book, &source, amount)?;
    let more = given_more(book, &target, amount)?;
    a_name(&source)?;
    a_name(&target)?;
    Ok(moved(alloc, book, month, from, &source, less, to, &target, more)?)
}

/// Gives a category an amount in a month of the tracking budget.
pub(crate) fn track(
    alloc: Global,
    book: &Book,
    month: u32,
    category: &Txt,
    amount: i64,
) -> Result<Vec<Write>, EditFault>
    ensures ok { IfOk result (λ ws. track book.now.rows month category.now amount ≡ Ok ws.items) }
    ensures err { IfErr result (IsEditFault (track book.now.rows month category.now amount)) }
{
    a_month(month)?;
    live_category(book, category)?;
    an_amount(i128::from(amount))?;
    let id = budget_id(alloc, category, month)?;
    a_name(&id)?;
    let value = Value::Number(amount);
    Ok(track_writes(alloc, book, &id, category, month, "amount", value)?)
}

/// Says whether what a category has left in a month of the tracking budget goes on to the next.
pub(crate) fn track_carryover(
    alloc: Global,
    book: &Book,
    month: u32,
    category: &Txt,
    carries: bool,
) -> Result<Vec<Write>, EditFault>
    ensures ok { IfOk result (λ ws. track_carryover book.now.rows month category.now carries ≡ Ok ws.items) }
    ensures err { IfErr result (IsEditFault (track_carryover book.now.rows month category.now carries)) }
{
    a_month(month)?;
    live_category(book, category)?;
    let id = budget_id(alloc, category, month)?;
    a_name(&id)?;
    let value = flag(carries);
    Ok(track_writes(alloc, book, &id, category, month, "carryover", value)?)
}
