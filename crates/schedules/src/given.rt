//! What is asked of an edit of a schedule. A check that fails tells a fault.
ghost use Rattle.std.specs.Prelude.{◌≡◌, ◌<◌, IfOk, IfErr, Ok};
ghost use Rattle.book_edits.specs.Faults.{IsEditFault};
ghost use Rattle.schedules.specs.Edits.{live_schedule, not_done, new_schedule};

use crate::standing::{live_row, next_day};
use book_edits::given::given_row;
use book_rows::{Book, EditFault, RowName, ScheduleRow};
use field_values::Txt;

/// The place among the writes of a new schedule of the one that makes its row: the four before it make its rule.
const SCHEDULE_AT: u32 = 4;

/// The row of a new schedule.
pub(crate) fn new_schedule(book: &Book, id: &Option<Txt>) -> Result<RowName, EditFault>
    ensures ok { IfOk result (λ row. new_schedule book.now.rows id.now ≡ Ok row) }
    ensures err { IfErr result (IsEditFault (new_schedule book.now.rows id.now)) }
{
    match id {
        Some(id) => given_row(book.schedule(id).is_some(), id),
        None => Ok(RowName::Made(SCHEDULE_AT)),
    }
}

/// A schedule that is live.
pub(crate) fn live_schedule<'a>(book: &'a Book, id: &Txt) -> Result<&'a ScheduleRow, EditFault>
    ensures ok { IfOk result (λ row. live_schedule book.now.rows id.now ≡ Ok row.now) }
    ensures err { IfErr result (IsEditFault (live_schedule book.now.rows id.now)) }
{
    match live_row(book, id) {
        Some(row) => Ok(row),
        None => Err(EditFault::NoSuchSchedule { id: id.copy()? }),
    }
}

/// The next day of a schedule that has not ended.
pub(crate) fn not_done(id: &Txt, row: &ScheduleRow) -> Result<u32, EditFault>
    ensures ok { IfOk result (λ day. not_done id.now row.now ≡ Ok day) }
    ensures calendar { IfOk result (λ day. day < 84_006) }
    ensures err { IfErr result (IsEditFault (not_done id.now row.now)) }
{
    match next_day(row) {
        Some(day) => Ok(day),
        None => Err(EditFault::ScheduleDone { id: id.copy()? }),
    }
}
