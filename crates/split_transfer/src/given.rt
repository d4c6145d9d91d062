//! What is asked of what an edit gives, and of the rows that it names beside transactions.
ghost use Rattle.std.specs.Prelude.{◌≡◌, OnOk, IfErr, Ok};
ghost use Rattle.book_rows.specs.Live.{is_live_schedule};
ghost use Rattle.book_edits.specs.Faults.{IsEditFault, if_there};
ghost use Rattle.split_transfer.specs.Checks.{live_schedule};

use book_rows::{Book, EditFault};
use field_values::Txt;

/// Whether a live schedule has this id.
fn is_live_schedule(book: &Book, id: &Txt) -> bool
    ensures { result ≡ is_live_schedule book.now.rows id.now }
{
    match book.schedule(id) {
        Some(row) => !row.tombstone,
        None => false,
    }
}

/// A schedule that is live, if one is given.
pub(crate) fn maybe_live_schedule(book: &Book, id: &Option<Txt>) -> Result<(), EditFault>
    ensures ok { OnOk result (if_there (live_schedule book.now.rows) id.now ≡ Ok tt) }
    ensures err { IfErr result (IsEditFault (if_there (live_schedule book.now.rows) id.now)) }
{
    match id {
        Some(id) => {
            if is_live_schedule(book, id) {
                return Ok(());
            }
            Err(EditFault::NoSuchSchedule { id: id.copy()? })
        }
        None => Ok(()),
    }
}
