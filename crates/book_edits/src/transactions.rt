//! New transactions, and notes.
ghost use Rattle.std.specs.Prelude.{◌≡◌, IfOk, IfErr, Ok};
ghost use Rattle.book_edits.specs.Faults.{IsEditFault};
ghost use Rattle.book_edits.specs.Checks.{new_row};
ghost use Rattle.book_edits.specs.Transactions.{is_tx, tx_writes, tx_add, note};

use crate::checks::{live_account, maybe_live_category, maybe_live_payee};
use crate::given::{a_day, a_name, an_amount, given_row};
use crate::writing::{notes_value, number, one, push, text, text_or_null};
use book_rows::{Book, EditFault, RowName, Write};
use field_values::{NoMemory, Txt, Value};
use std::alloc::Global;

/// The row of a new transaction.
fn new_tx(book: &Book, id: &Option<Txt>) -> Result<RowName, EditFault>
    ensures ok { IfOk result (λ row. new_row (is_tx book.now.rows) id.now ≡ Ok row) }
    ensures err { IfErr result (IsEditFault (new_row (is_tx book.now.rows) id.now)) }
{
    match id {
        Some(id) => given_row(book.has_tx(id), id),
        None => Ok(RowName::Made(0)),
    }
}

/// The writes of a new transaction.
fn tx_writes(
    alloc: Global,
    row: &RowName,
    account: &Txt,
    date: u32,
    amount: i64,
    payee: &Option<Txt>,
    category: &Option<Txt>,
    notes: &Txt,
) -> Result<Vec<Write>, NoMemory>
    ensures { IfOk result (λ ws. ws.items ≡ tx_writes row.now account.now date amount payee.now category.now notes.now) }
{
    let mut writes = Vec::new(alloc);
    let account = text(account)?;
    push(alloc, &mut writes, "transactions", row, "acct", account)?;
    let date = number(date);
    push(alloc, &mut writes, "transactions", row, "date", date)?;
    let amount = Value::Number(amount);
    push(alloc, &mut writes, "transactions", row, "amount", amount)?;
    let payee = text_or_null(payee)?;
    push(
        alloc,
        &mut writes,
        "transactions",
        row,
        "description",
        payee,
    )?;
    let category = text_or_null(category)?;
    push(
        alloc,
        &mut writes,
        "transactions",
        row,
        "category",
        category,
    )?;
    let notes = notes_value(notes)?;
    push(alloc, &mut writes, "transactions", row, "notes", notes)?;
    Ok(writes)
}

/// Adds a transaction.
pub(crate) fn tx_add(
    alloc: Global,
    book: &Book,
    id: &Option<Txt>,
    account: &Txt,
    date: u32,
    amount: i64,
    payee: &Option<Txt>,
    category: &Option<Txt>,
    notes: &Txt,
) -> Result<Vec<Write>, EditFault>
    ensures ok { IfOk result (λ ws. tx_add book.now.rows id.now account.now date amount payee.now category.now notes.now ≡ Ok ws.items) }
    ensures err { IfErr result (IsEditFault (tx_add book.now.rows id.now account.now date amount payee.now category.now notes.now)) }
{
    let row = new_tx(book, id)?;
    live_account(book, account)?;
    a_day(date)?;
    an_amount(i128::from(amount))?;
    maybe_live_payee(book, payee)?;
    maybe_live_category(book, category)?;
    Ok(tx_writes(alloc, &row, account, date, amount, payee, category, notes)?)
}

/// Notes a text under an id.
pub(crate) fn note(alloc: Global, id: &Txt, content: &Txt) -> Result<Vec<Write>, EditFault>
    ensures ok { IfOk result (λ ws. note id.now content.now ≡ Ok ws.items) }
    ensures err { IfErr result (IsEditFault (note id.now content.now)) }
{
    a_name(id)?;
    Ok(one(alloc, "notes", id, "note", text(content)?)?)
}
