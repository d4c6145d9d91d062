//! What is asked of an edit, where it asks for rows that have to be live. Each check tells its own fault.
ghost use Rattle.std.specs.Prelude.{◌≡◌, OnOk, IfErr, Ok, false};
ghost use Rattle.book_rows.specs.Live.{is_live_account, is_live_group, is_live_payee, is_live_category, is_live_category_row, has_income_group, is_income_category, is_live_tx};
ghost use Rattle.book_edits.specs.Faults.{IsEditFault, if_there};
ghost use Rattle.book_edits.specs.Checks.{live_account, live_group, live_category, live_payee, no_income, without_balance, same_kind, is_transfer_payee, no_transfer};
ghost use Rattle.book_edits.specs.Categories.{takes_income};

use crate::uncounted::tx;
use book_rows::{Book, CategoryRow, EditFault, TxRow};
use field_values::Txt;

/// Whether a live account has this id.
fn is_live_account(book: &Book, id: &Txt) -> bool
    ensures { result ≡ is_live_account book.now.rows id.now }
{
    match book.account(id) {
        Some(row) => !row.tombstone,
        None => false,
    }
}

/// Whether a live group has this id.
fn is_live_group(book: &Book, id: &Txt) -> bool
    ensures { result ≡ is_live_group book.now.rows id.now }
{
    match book.group(id) {
        Some(row) => !row.tombstone,
        None => false,
    }
}

/// Whether a live payee has this id.
pub fn is_live_payee(book: &Book, id: &Txt) -> bool
    ensures { result ≡ is_live_payee book.now.rows id.now }
{
    match book.payee(id) {
        Some(row) => !row.tombstone,
        None => false,
    }
}

/// Whether neither a category nor its group was deleted, and its group is there.
pub(crate) fn is_live_row(book: &Book, row: &CategoryRow) -> bool
    ensures { result ≡ is_live_category_row book.now.rows row.now }
{
    if row.tombstone {
        return false;
    }
    match &row.cat_group {
        Some(group) => is_live_group(book, group),
        None => false,
    }
}

/// Whether a live category has this id.
pub fn is_live_category(book: &Book, id: &Txt) -> bool
    ensures { result ≡ is_live_category book.now.rows id.now }
{
    match book.category(id) {
        Some(row) => is_live_row(book, row),
        None => false,
    }
}

/// Whether the group of a category takes income.
fn has_income_group(book: &Book, row: &CategoryRow) -> bool
    ensures { result ≡ has_income_group book.now.rows row.now }
{
    match &row.cat_group {
        Some(group) => takes_income(book, group),
        None => false,
    }
}

/// Whether a group takes income.
pub(crate) fn takes_income(book: &Book, group: &Txt) -> bool
    ensures { result ≡ takes_income book.now.rows group.now }
{
    match book.group(group) {
        Some(row) => row.is_income,
        None => false,
    }
}

/// Whether a live category of this id takes income.
pub(crate) fn is_income_category(book: &Book, id: &Txt) -> bool
    ensures { result ≡ is_income_category book.now.rows id.now }
{
    match book.category(id) {
        Some(row) => is_live_row(book, row) && has_income_group(book, row),
        None => false,
    }
}

/// Whether a transaction was not deleted, and what it is a part of, if anything, is there and was not
/// deleted.
pub fn is_live(book: &Book, row: &TxRow) -> bool
    ensures { result ≡ is_live_tx book.now.rows row.now }
{
    if row.tombstone {
        return false;
    }
    if !row.is_child {
        return true;
    }
    match &row.parent_id {
        Some(id) => match tx(book, id) {
            Some(parent) => !parent.tombstone,
            None => false,
        },
        None => false,
    }
}

/// An account that is live, or else `NoSuchAccount`.
pub fn live_account(book: &Book, id: &Txt) -> Result<(), EditFault>
    ensures ok { OnOk result (live_account book.now.rows id.now ≡ Ok tt) }
    ensures err { IfErr result (IsEditFault (live_account book.now.rows id.now)) }
{
    if is_live_account(book, id) {
        return Ok(());
    }
    Err(EditFault::NoSuchAccount { id: id.copy()? })
}

/// A group that is live.
pub(crate) fn live_group(book: &Book, id: &Txt) -> Result<(), EditFault>
    ensures ok { OnOk result (live_group book.now.rows id.now ≡ Ok tt) }
    ensures err { IfErr result (IsEditFault (live_group book.now.rows id.now)) }
{
    if is_live_group(book, id) {
        return Ok(());
    }
    Err(EditFault::NoSuchGroup { id: id.copy()? })
}

/// A category that is live, or else `NoSuchCategory`.
pub fn live_category(book: &Book, id: &Txt) -> Result<(), EditFault>
    ensures ok { OnOk result (live_category book.now.rows id.now ≡ Ok tt) }
    ensures err { IfErr result (IsEditFault (live_category book.now.rows id.now)) }
{
    if is_live_category(book, id) {
        return Ok(());
    }
    Err(EditFault::NoSuchCategory { id: id.copy()? })
}

/// A category that is live, if one is given, or else `NoSuchCategory`.
pub fn maybe_live_category(book: &Book, id: &Option<Txt>) -> Result<(), EditFault>
    ensures ok { OnOk result (if_there (live_category book.now.rows) id.now ≡ Ok tt) }
    ensures err { IfErr result (IsEditFault (if_there (live_category book.now.rows) id.now)) }
{
    match id {
        Some(id) => live_category(book, id),
        None => Ok(()),
    }
}

/// A payee that is live, or else `NoSuchPayee`.
pub(crate) fn live_payee(book: &Book, id: &Txt) -> Result<(), EditFault>
    ensures ok { OnOk result (live_payee book.now.rows id.now ≡ Ok tt) }
    ensures err { IfErr result (IsEditFault (live_payee book.now.rows id.now)) }
{
    if is_live_payee(book, id) {
        return Ok(());
    }
    Err(EditFault::NoSuchPayee { id: id.copy()? })
}

/// A payee that is live, if one is given, or else `NoSuchPayee`.
pub fn maybe_live_payee(book: &Book, id: &Option<Txt>) -> Result<(), EditFault>
    ensures ok { OnOk result (if_there (live_payee book.now.rows) id.now ≡ Ok tt) }
    ensures err { IfErr result (IsEditFault (if_there (live_payee book.now.rows) id.now)) }
{
    match id {
        Some(id) => live_payee(book, id),
        None => Ok(()),
    }
}

/// No live category that takes income.
pub(crate) fn no_income(book: &Book, id: &Txt) -> Result<(), EditFault>
    ensures ok { OnOk result (no_income book.now.rows id.now ≡ Ok tt) }
    ensures err { IfErr result (IsEditFault (no_income book.now.rows id.now)) }
{
    if is_income_category(book, id) {
        return Err(EditFault::IncomeCategory { id: id.copy()? });
    }
    Ok(())
}

/// An account without a balance.
pub(crate) fn without_balance(book: &Book, id: &Txt) -> Result<(), EditFault>
    requires live { book.now.spent ≡ false }
    ensures { result ≡ without_balance book.now.rows id.now }
{
    let balance = book.balance(id);
    if balance == 0 {
        return Ok(());
    }
    Err(EditFault::ClosedAccount { balance })
}

/// Two categories that both take income, or neither does.
pub(crate) fn same_kind(book: &Book, id: &Txt, to: &Txt) -> Result<(), EditFault>
    ensures ok { OnOk result (same_kind book.now.rows id.now to.now ≡ Ok tt) }
    ensures err { IfErr result (IsEditFault (same_kind book.now.rows id.now to.now)) }
{
    if is_income_category(book, id) == is_income_category(book, to) {
        return Ok(());
    }
    Err(EditFault::CategoryType { id: to.copy()? })
}

/// Whether a payee of this id stands for an account in transfers.
fn is_transfer_payee(book: &Book, id: &Txt) -> bool
    ensures { result ≡ is_transfer_payee book.now.rows id.now }
{
    match book.payee(id) {
        Some(row) => row.transfer_acct.is_some(),
        None => false,
    }
}

/// No payee that stands for an account.
pub(crate) fn no_transfer(book: &Book, id: &Txt) -> Result<(), EditFault>
    ensures ok { OnOk result (no_transfer book.now.rows id.now ≡ Ok tt) }
    ensures err { IfErr result (IsEditFault (no_transfer book.now.rows id.now)) }
{
    if is_transfer_payee(book, id) {
        return Err(EditFault::TransferPayee { id: id.copy()? });
    }
    Ok(())
}
