//! Edits of accounts and payees.
ghost use Rattle.std.specs.Prelude.{◌≡◌, IfOk, IfErr, Ok, false};
ghost use Rattle.book_edits.specs.Faults.{IsEditFault};
ghost use Rattle.book_edits.specs.Checks.{new_row};
ghost use Rattle.book_edits.specs.Accounts.{is_account, is_payee, account_writes, account_add, account_rename, account_offbudget, account_reopen, account_close, payee_add, payee_rename, payee_delete};

use crate::checks::{live_account, live_payee, without_balance};
use crate::given::given_row;
use crate::writing::{flag, id_value, one, push, text};
use book_rows::{Book, EditFault, RowName, Write};
use field_values::{NoMemory, Txt, Value};
use std::alloc::Global;

/// The row of a new account.
fn new_account(book: &Book, id: &Option<Txt>) -> Result<RowName, EditFault>
    ensures ok { IfOk result (λ row. new_row (is_account book.now.rows) id.now ≡ Ok row) }
    ensures err { IfErr result (IsEditFault (new_row (is_account book.now.rows) id.now)) }
{
    match id {
        Some(id) => given_row(book.account(id).is_some(), id),
        None => Ok(RowName::Made(0)),
    }
}

/// The row of a new payee.
fn new_payee(book: &Book, id: &Option<Txt>) -> Result<RowName, EditFault>
    ensures ok { IfOk result (λ row. new_row (is_payee book.now.rows) id.now ≡ Ok row) }
    ensures err { IfErr result (IsEditFault (new_row (is_payee book.now.rows) id.now)) }
{
    match id {
        Some(id) => given_row(book.payee(id).is_some(), id),
        None => Ok(RowName::Made(0)),
    }
}

/// The writes of a new account, and of the payee that stands for it.
fn account_writes(
    alloc: Global,
    row: &RowName,
    name: &Txt,
    offbudget: bool,
) -> Result<Vec<Write>, NoMemory>
    ensures { IfOk result (λ ws. ws.items ≡ account_writes row.now name.now offbudget) }
{
    let mut writes = Vec::new(alloc);
    push(alloc, &mut writes, "accounts", row, "name", text(name)?)?;
    let outside = flag(offbudget);
    push(alloc, &mut writes, "accounts", row, "offbudget", outside)?;
    let payee = RowName::Made(2);
    let empty = Value::Text(Txt::new(String::new(alloc)));
    push(alloc, &mut writes, "payees", &payee, "name", empty)?;
    let link = Write {
        dataset: Txt::from_text(alloc, "payees")?,
        row: payee,
        column: Txt::from_text(alloc, "transfer_acct")?,
        value: id_value(row)?,
    };
    writes.push(link)?;
    Ok(writes)
}

/// Adds an account.
pub(crate) fn account_add(
    alloc: Global,
    book: &Book,
    id: &Option<Txt>,
    name: &Txt,
    offbudget: bool,
) -> Result<Vec<Write>, EditFault>
    ensures ok { IfOk result (λ ws. account_add book.now.rows id.now name.now offbudget ≡ Ok ws.items) }
    ensures err { IfErr result (IsEditFault (account_add book.now.rows id.now name.now offbudget)) }
{
    let row = new_account(book, id)?;
    Ok(account_writes(alloc, &row, name, offbudget)?)
}

/// Calls an account by another name.
pub(crate) fn account_rename(
    alloc: Global,
    book: &Book,
    id: &Txt,
    name: &Txt,
) -> Result<Vec<Write>, EditFault>
    ensures ok { IfOk result (λ ws. account_rename book.now.rows id.now name.now ≡ Ok ws.items) }
    ensures err { IfErr result (IsEditFault (account_rename book.now.rows id.now name.now)) }
{
    live_account(book, id)?;
    Ok(one(alloc, "accounts", id, "name", text(name)?)?)
}

/// Moves an account out of the budget, or into it.
pub(crate) fn account_offbudget(
    alloc: Global,
    book: &Book,
    id: &Txt,
    offbudget: bool,
) -> Result<Vec<Write>, EditFault>
    ensures ok { IfOk result (λ ws. account_offbudget book.now.rows id.now offbudget ≡ Ok ws.items) }
    ensures err { IfErr result (IsEditFault (account_offbudget book.now.rows id.now offbudget)) }
{
    live_account(book, id)?;
    Ok(one(alloc, "accounts", id, "offbudget", flag(offbudget))?)
}

/// Opens a closed account again.
pub(crate) fn account_reopen(alloc: Global, book: &Book, id: &Txt) -> Result<Vec<Write>, EditFault>
    ensures ok { IfOk result (λ ws. account_reopen book.now.rows id.now ≡ Ok ws.items) }
    ensures err { IfErr result (IsEditFault (account_reopen book.now.rows id.now)) }
{
    live_account(book, id)?;
    Ok(one(alloc, "accounts", id, "closed", flag(false))?)
}

/// Closes an account without a balance. It looks at the transactions of this account alone.
pub(crate) fn account_close(alloc: Global, book: &Book, id: &Txt) -> Result<Vec<Write>, EditFault>
    requires live { book.now.spent ≡ false }
    ensures ok { IfOk result (λ ws. account_close book.now.rows id.now ≡ Ok ws.items) }
    ensures err { IfErr result (IsEditFault (account_close book.now.rows id.now)) }
{
    live_account(book, id)?;
    without_balance(book, id)?;
    Ok(one(alloc, "accounts", id, "closed", flag(true))?)
}

/// Adds a payee.
pub(crate) fn payee_add(
    alloc: Global,
    book: &Book,
    id: &Option<Txt>,
    name: &Txt,
) -> Result<Vec<Write>, EditFault>
    ensures ok { IfOk result (λ ws. payee_add book.now.rows id.now name.now ≡ Ok ws.items) }
    ensures err { IfErr result (IsEditFault (payee_add book.now.rows id.now name.now)) }
{
    let row = new_payee(book, id)?;
    let mut writes = Vec::new(alloc);
    push(alloc, &mut writes, "payees", &row, "name", text(name)?)?;
    Ok(writes)
}

/// Calls a payee by another name.
pub(crate) fn payee_rename(
    alloc: Global,
    book: &Book,
    id: &Txt,
    name: &Txt,
) -> Result<Vec<Write>, EditFault>
    ensures ok { IfOk result (λ ws. payee_rename book.now.rows id.now name.now ≡ Ok ws.items) }
    ensures err { IfErr result (IsEditFault (payee_rename book.now.rows id.now name.now)) }
{
    live_payee(book, id)?;
    Ok(one(alloc, "payees", id, "name", text(name)?)?)
}

/// Deletes a payee.
pub(crate) fn payee_delete(alloc: Global, book: &Book, id: &Txt) -> Result<Vec<Write>, EditFault>
    ensures ok { IfOk result (λ ws. payee_delete book.now.rows id.now ≡ Ok ws.items) }
    ensures err { IfErr result (IsEditFault (payee_delete book.now.rows id.now)) }
{
    live_payee(book, id)?;
    Ok(one(alloc, "payees", id, "tombstone", flag(true))?)
}
