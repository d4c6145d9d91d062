//! The answer of the line that asks how a schedule stands.
ghost use Rattle.std.specs.Prelude.{◌≡◌, false, IfOk};
ghost use Rattle.book_rows.specs.Live.{is_live_schedule};
ghost use Rattle.command_lines.specs.BookAnswers.{status_text, told_status, status_answer};

use crate::refusal::{bad_date, no_schedule};
use crate::reply::{Reply, one_line};
use book_rows::{Book, is_day};
use field_values::{NoMemory, Txt};
use schedules::{ScheduleStatus, status};
use std::alloc::Global;

/// Whether a schedule is there and was not deleted.
fn is_live(book: &Book, id: &Txt) -> bool
    ensures { result ≡ is_live_schedule book.now.rows id.now }
{
    match book.schedule(id) {
        Some(row) => !row.tombstone,
        None => false,
    }
}

/// The word for how a schedule stands.
fn status_text(status: ScheduleStatus) -> &'static str
    ensures { result.now ≡ status_text status }
{
    match status {
        ScheduleStatus::Completed => "completed",
        ScheduleStatus::Paid => "paid",
        ScheduleStatus::Due => "due",
        ScheduleStatus::Upcoming => "upcoming",
        ScheduleStatus::Missed => "missed",
        ScheduleStatus::Scheduled => "scheduled",
    }
}

/// The reply that tells how a schedule stands, or that there is none.
fn told_reply(alloc: Global, id: &Txt, status: Option<ScheduleStatus>) -> Result<Reply, NoMemory>
    ensures { IfOk result (λ r. r ≡ told_status id.now status) }
{
    match status {
        Some(status) => {
            let text = Txt::from_text(alloc, status_text(status))?;
            one_line(alloc, text)
        }
        None => no_schedule(alloc, id),
    }
}

/// The reply to `schedule-status`: how a live schedule stands on a day. The schedule is judged first, then the day.
pub(crate) fn status_reply(
    alloc: Global,
    book: &Book,
    id: &Txt,
    day: u32,
) -> Result<Reply, NoMemory>
    requires live { book.now.spent ≡ false }
    ensures { IfOk result (λ r. r ≡ status_answer book.now.rows id.now day) }
{
    if !is_live(book, id) {
        return no_schedule(alloc, id);
    }
    if !is_day(day) {
        return bad_date(alloc, day);
    }
    told_reply(alloc, id, status(book, id, day))
}
