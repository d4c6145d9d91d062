//! What is asked of a transaction that an edit changes.
ghost use Rattle.std.specs.Prelude.{◌≡◌, false, OnOk, IfOk, IfErr, Ok};
ghost use Rattle.finite_sums.specs.Maps.{some_and};
ghost use Rattle.book_edits.specs.Faults.{IsEditFault};
ghost use Rattle.split_transfer.specs.Pairs.{partner_of};
ghost use Rattle.split_transfer.specs.Checks.{live_tx, no_child, no_parent, no_pair, is_off, is_beside, no_even_pair, takes_category, no_rest, stays_even};

use crate::pairs::{live_row, partner_of, parts_sum};
use book_edits::checks::live_category;
use book_edits::uncounted::tx;
use book_rows::{Book, EditFault, TxRow};
use field_values::Txt;

/// A transaction that is live.
pub(crate) fn live_tx<'a>(book: &'a Book, id: &Txt) -> Result<&'a TxRow, EditFault>
    ensures ok { IfOk result (λ row. live_tx book.now.rows id.now ≡ Ok row.now) }
    ensures err { IfErr result (IsEditFault (live_tx book.now.rows id.now)) }
{
    match live_row(book, id) {
        Some(row) => Ok(row),
        None => Err(EditFault::NoSuchTransaction { id: id.copy()? }),
    }
}

/// A transaction that is no part of a split.
pub(crate) fn no_child(id: &Txt, row: &TxRow) -> Result<(), EditFault>
    ensures ok { OnOk result (no_child id.now row.now ≡ Ok tt) }
    ensures err { IfErr result (IsEditFault (no_child id.now row.now)) }
{
    if row.is_child {
        return Err(EditFault::IsChild { id: id.copy()? });
    }
    Ok(())
}

/// A transaction that is not split.
fn no_parent(id: &Txt, row: &TxRow) -> Result<(), EditFault>
    ensures ok { OnOk result (no_parent id.now row.now ≡ Ok tt) }
    ensures err { IfErr result (IsEditFault (no_parent id.now row.now)) }
{
    if row.is_parent {
        return Err(EditFault::IsChild { id: id.copy()? });
    }
    Ok(())
}

/// A transaction that is no part of a pair.
pub(crate) fn no_pair(book: &Book, id: &Txt, row: &TxRow) -> Result<(), EditFault>
    ensures ok { OnOk result (no_pair book.now.rows id.now row.now ≡ Ok tt) }
    ensures err { IfErr result (IsEditFault (no_pair book.now.rows id.now row.now)) }
{
    match partner_of(book, id, row) {
        Some(_) => Err(EditFault::IsTransferPart { id: id.copy()? }),
        None => Ok(()),
    }
}

/// Whether an account is there and stands outside the budget.
fn is_off(book: &Book, account: &Option<Txt>) -> bool
    ensures { result ≡ is_off book.now.rows account.now }
{
    match account {
        Some(id) => match book.account(id) {
            Some(row) => row.offbudget,
            None => false,
        },
        None => false,
    }
}

/// Whether another transaction is there, and the accounts of both stand outside the budget, or
/// neither does.
fn is_beside(book: &Book, row: &TxRow, other: &Txt) -> bool
    ensures { result ≡ is_beside book.now.rows row.now other.now }
{
    match tx(book, other) {
        Some(other) => is_off(book, &row.acct) == is_off(book, &other.acct),
        None => false,
    }
}

/// Whether a transaction is in a pair that moves nothing into the budget or out of it.
fn is_even_pair(book: &Book, id: &Txt, row: &TxRow) -> bool
    ensures { result ≡ some_and (is_beside book.now.rows row.now) (partner_of book.now.rows id.now row.now) }
{
    match partner_of(book, id, row) {
        Some(other) => is_beside(book, row, other),
        None => false,
    }
}

/// A transaction that is in no pair that moves nothing into the budget or out of it.
fn no_even_pair(book: &Book, id: &Txt, row: &TxRow) -> Result<(), EditFault>
    ensures ok { OnOk result (no_even_pair book.now.rows id.now row.now ≡ Ok tt) }
    ensures err { IfErr result (IsEditFault (no_even_pair book.now.rows id.now row.now)) }
{
    if is_even_pair(book, id, row) {
        return Err(EditFault::IsTransferPart { id: id.copy()? });
    }
    Ok(())
}

/// A category that a transaction may have. It may always have none.
pub(crate) fn takes_category(
    book: &Book,
    id: &Txt,
    row: &TxRow,
    category: &Option<Txt>,
) -> Result<(), EditFault>
    ensures ok { OnOk result (takes_category book.now.rows id.now row.now category.now ≡ Ok tt) }
    ensures err { IfErr result (IsEditFault (takes_category book.now.rows id.now row.now category.now)) }
{
    match category {
        Some(category) => {
            no_parent(id, row)?;
            no_even_pair(book, id, row)?;
            live_category(book, category)
        }
        None => Ok(()),
    }
}

/// What is left of an amount, which has to be 0.
pub(crate) fn no_rest(rest: i128) -> Result<(), EditFault>
    ensures { result ≡ no_rest rest }
{
    if rest == 0 {
        return Ok(());
    }
    Err(EditFault::SplitSum { difference: rest })
}

/// An amount, which is that of the parts where the transaction is split.
pub(crate) fn stays_even(book: &Book, id: &Txt, row: &TxRow, amount: i64) -> Result<(), EditFault>
    requires live { book.now.spent ≡ false }
    ensures ok { OnOk result (stays_even book.now.rows id.now row.now amount ≡ Ok tt) }
    ensures err { IfErr result (IsEditFault (stays_even book.now.rows id.now row.now amount)) }
{
    if row.is_parent {
        return no_rest(i128::from(amount) - parts_sum(book, id)?);
    }
    Ok(())
}
