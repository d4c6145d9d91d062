//! The writes of an edit.
ghost use Rattle.std.specs.Prelude.{◌≡◌, IfOk, IfErr, Ok};
ghost use Rattle.book_rows.specs.Writes.{AreWrites};
ghost use Rattle.book_edits.specs.Faults.{IsEditFault};
ghost use Rattle.schedules.specs.Edits.{schedule_writes};

use crate::adding::schedule_add;
use crate::changes::{schedule_delete, schedule_post, schedule_skip};
use crate::edit::ScheduleEdit;
use book_rows::{Book, EditFault, Write};
use std::alloc::Global;

/// The writes of an edit, or why it is refused.
fn make(alloc: Global, book: &Book, edit: &ScheduleEdit) -> Result<Vec<Write>, EditFault>
    ensures ok { IfOk result (λ ws. schedule_writes book.now.rows edit.now ≡ Ok ws.items) }
    ensures err { IfErr result (IsEditFault (schedule_writes book.now.rows edit.now)) }
{
    match edit {
        ScheduleEdit::Add {
            id,
            name,
            account,
            payee,
            amount,
            recur,
        } => schedule_add(alloc, book, id, name, account, payee, *amount, recur),
        ScheduleEdit::Post { id } => schedule_post(alloc, book, id),
        ScheduleEdit::Skip { id } => schedule_skip(alloc, book, id),
        ScheduleEdit::Delete { id } => schedule_delete(alloc, book, id),
    }
}

/// The writes of an edit, in the order in which they are made.
///
/// # Errors
///
/// The first of the edit's checks that fails, in the order of docs/FORMATS.md. Memory can run out before.
pub fn schedule_writes(
    alloc: Global,
    book: &Book,
    edit: &ScheduleEdit,
) -> Result<Vec<Write>, EditFault>
    ensures ok { IfOk result (λ ws. schedule_writes book.now.rows edit.now ≡ Ok ws.items) }
    ensures valid { IfOk result (λ ws. AreWrites ws.items) }
    ensures err { IfErr result (IsEditFault (schedule_writes book.now.rows edit.now)) }
{
    book.names();
    make(alloc, book, edit)
}
