//! The writes of an edit.
ghost use Rattle.std.specs.Prelude.{◌≡◌, IfOk, IfErr, Ok, false};
ghost use Rattle.book_rows.specs.Writes.{AreWrites};
ghost use Rattle.book_edits.specs.Faults.{IsEditFault};
ghost use Rattle.split_transfer.specs.Edits.{pair_writes, IsDated};

use crate::changes::{tx_delete, tx_set};
use crate::edit::PairEdit;
use crate::splits::split;
use crate::transfers::transfer;
use book_rows::{Book, EditFault, Write};
use std::alloc::Global;

/// The writes of an edit, or why it is refused.
fn make(alloc: Global, book: &Book, edit: &PairEdit) -> Result<Vec<Write>, EditFault>
    requires live { book.now.spent ≡ false }
    ensures ok { IfOk result (λ ws. pair_writes book.now.rows edit.now ≡ Ok ws.items) }
    ensures err { IfErr result (IsEditFault (pair_writes book.now.rows edit.now)) }
    ensures dated { IfOk result (λ ws. IsDated book.now.rows edit.now) }
{
    match edit {
        PairEdit::TxSet { id, change } => tx_set(alloc, book, id, change),
        PairEdit::TxDelete { id } => tx_delete(alloc, book, id),
        PairEdit::Split { id, parts } => split(alloc, book, id, parts.as_slice()),
        PairEdit::Transfer {
            from,
            to,
            date,
            amount,
            notes,
        } => transfer(alloc, book, from, to, *date, *amount, notes),
    }
}

/// The writes of an edit, in the order in which they are made. It looks at the transaction, its parts and its partner; a transfer looks
/// at the payees.
///
/// # Errors
///
/// The first of the edit's checks that fails, in the order of docs/FORMATS.md. Memory can run out before.
pub fn pair_writes(alloc: Global, book: &Book, edit: &PairEdit) -> Result<Vec<Write>, EditFault>
    requires live { book.now.spent ≡ false }
    ensures ok { IfOk result (λ ws. pair_writes book.now.rows edit.now ≡ Ok ws.items) }
    ensures valid { IfOk result (λ ws. AreWrites ws.items) }
    ensures err { IfErr result (IsEditFault (pair_writes book.now.rows edit.now)) }
{
    book.names();
    make(alloc, book, edit)
}
