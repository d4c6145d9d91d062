//! The writes of an edit.
ghost use Rattle.std.specs.Prelude.{◌≡◌, IfOk, IfErr, Ok, Err, false};
ghost use Rattle.book_rows.specs.declared.fault.EditFault.TheVariants.{NoMemory as OutOfMemory};
ghost use Rattle.book_rows.specs.Writes.{AreWrites};
ghost use Rattle.book_edits.specs.Faults.{IsEditFault};
ghost use Rattle.book_edits.specs.Edits.{book_writes, IsBookEdit, MayWantMemory};

use crate::accounts::{
    account_add, account_close, account_offbudget, account_rename, account_reopen, payee_add,
    payee_delete, payee_rename,
};
use crate::budgets::{budget, carryover, hold, move_amount, track, track_carryover};
use crate::categories::{
    category_add, category_delete, category_move, category_rename, group_add, group_delete,
    group_rename,
};
use crate::edit::BookEdit;
use crate::mappings::{category_delete_to, payee_merge};
use crate::set::set_writes;
use crate::transactions::{note, tx_add};
use book_rows::{Book, EditFault, Write};
use std::alloc::Global;

/// The writes of an edit, or why it is refused.
fn make(alloc: Global, book: &Book, edit: &BookEdit) -> Result<Vec<Write>, EditFault>
    requires live { book.now.spent ≡ false }
    ensures ok { IfOk result (λ ws. book_writes book.now.rows edit.now ≡ Ok ws.items) }
    ensures err { IfErr result (IsEditFault (book_writes book.now.rows edit.now)) }
    ensures memory { result ≡ Err OutOfMemory → MayWantMemory edit.now }
{
    match edit {
        BookEdit::Set {
            dataset,
            row,
            column,
            value,
        } => set_writes(alloc, dataset, row, column, value),
        BookEdit::AccountAdd {
            id,
            name,
            offbudget,
        } => account_add(alloc, book, id, name, *offbudget),
        BookEdit::AccountRename { id, name } => account_rename(alloc, book, id, name),
        BookEdit::AccountOffbudget { id, offbudget } => {
            account_offbudget(alloc, book, id, *offbudget)
        }
        BookEdit::AccountReopen { id } => account_reopen(alloc, book, id),
        BookEdit::AccountClose { id } => account_close(alloc, book, id),
        BookEdit::GroupAdd { id, name, income } => group_add(alloc, book, id, name, *income),
        BookEdit::GroupRename { id, name } => group_rename(alloc, book, id, name),
        BookEdit::GroupDelete { id } => group_delete(alloc, book, id),
        BookEdit::CategoryAdd { id, group, name } => category_add(alloc, book, id, group, name),
        BookEdit::CategoryRename { id, name } => category_rename(alloc, book, id, name),
        BookEdit::CategoryMove { id, group } => category_move(alloc, book, id, group),
        BookEdit::CategoryDelete { id } => category_delete(alloc, book, id),
        BookEdit::CategoryDeleteTo { id, to } => category_delete_to(alloc, book, id, to),
        BookEdit::PayeeAdd { id, name } => payee_add(alloc, book, id, name),
        BookEdit::PayeeRename { id, name } => payee_rename(alloc, book, id, name),
        BookEdit::PayeeDelete { id } => payee_delete(alloc, book, id),
        BookEdit::PayeeMerge { to, ids } => payee_merge(alloc, book, to, ids.as_slice()),
        BookEdit::TxAdd {
            id,
            account,
            date,
            amount,
            payee,
            category,
            notes,
        } => tx_add(
            alloc, book, id, account, *date, *amount, payee, category, notes,
        ),
        BookEdit::Budget {
            month,
            category,
            amount,
        } => budget(alloc, book, *month, category, *amount),
        BookEdit::Carryover {
            month,
            category,
            flag,
        } => carryover(alloc, book, *month, category, *flag),
        BookEdit::Hold { month, amount } => hold(alloc, *month, *amount),
        BookEdit::Move {
            month,
            from,
            to,
            amount,
        } => move_amount(alloc, book, *month, from, to, *amount),
        BookEdit::Track {
            month,
            category,
            amount,
        } => track(alloc, book, *month, category, *amount),
        BookEdit::TrackCarryover {
            month,
            category,
            flag,
        } => track_carryover(alloc, book, *month, category, *flag),
        BookEdit::Note { id, text } => note(alloc, id, text),
    }
}

/// The writes of an edit, in the order in which they are made.
///
/// # Errors
///
/// The first of the edit's checks that fails, in the order of docs/FORMATS.md. Memory can run out
/// before; but that a field can't be set whose first bad name is the empty one is told without
/// memory.
pub fn writes(alloc: Global, book: &Book, edit: &BookEdit) -> Result<Vec<Write>, EditFault>
    requires live { book.now.spent ≡ false }
    requires valid { IsBookEdit edit.now }
    ensures ok { IfOk result (λ ws. book_writes book.now.rows edit.now ≡ Ok ws.items) }
    ensures valid { IfOk result (λ ws. AreWrites ws.items) }
    ensures err { IfErr result (IsEditFault (book_writes book.now.rows edit.now)) }
    ensures memory { result ≡ Err OutOfMemory → MayWantMemory edit.now }
{
    book.names();
    make(alloc, book, edit)
}
