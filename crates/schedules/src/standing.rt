//! The status of a schedule.
ghost use Rattle.std.specs.Prelude.{◌≡◌, ◌<◌, ◌+◌, nat_le, true, false, IfSome};
ghost use Rattle.std.specs.List.{list_any};
ghost use Rattle.std.specs.Option.{option_copied, option_and_then};
ghost use Rattle.book_rows.specs.Kinds.{is_day};
ghost use Rattle.finite_sums.specs.Maps.{some_and};
ghost use Rattle.schedules.specs.Months.{day_in};
ghost use Rattle.schedules.specs.Status.{next_day, pays, is_payment, is_paid, by_days, live_row, status_of, status_in};

use crate::month::{day_in, day_of};
use book_edits::checks::is_live;
use book_edits::given::is_text;
use book_edits::uncounted::tx;
use book_rows::{Book, ScheduleRow, TxRow};
use field_values::Txt;
use std::collections::BTreeSet;

/// How a schedule stands on a day.
#[derive(Clone, Copy, Debug, Drop, PartialEq, Eq)]
pub enum ScheduleStatus {
    /// It has ended, or has no next day.
    Completed,
    /// A live transaction names it that is not earlier than two days before its next day.
    Paid,
    /// Its next day is the day.
    Due,
    /// Its next day is one of the seven days that follow.
    Upcoming,
    /// Its next day is gone.
    Missed,
    /// Its next day is still far.
    Scheduled,
}

/// The next day of a schedule, unless it has ended.
pub(crate) fn next_day(row: &ScheduleRow) -> Option<u32>
    ensures value { result ≡ next_day row.now }
    ensures calendar { IfSome result (λ d. d < 84_006) }
{
    if row.completed {
        return None;
    }
    match row.next_date {
        Some(date) => day_in(date),
        None => None,
    }
}

/// The row of a schedule that is live.
pub(crate) fn live_row<'a>(book: &'a Book, id: &Txt) -> Option<&'a ScheduleRow>
    ensures { option_copied result ≡ live_row book.now.rows id.now }
{
    match book.schedule(id) {
        Some(row) => { if row.tombstone { None } else { Some(row) } }
        None => None,
    }
}

/// Whether a day is not earlier than two days before the next day.
fn is_near(date: Option<u32>, next: u32) -> bool
    ensures { result ≡ some_and (λ day. nat_le next (day + 2)) (option_and_then day_in date) }
{
    match date {
        Some(date) => match day_in(date) {
            Some(day) => next <= day + 2,
            None => false,
        },
        None => false,
    }
}

/// Whether a transaction pays for a schedule's next day: it is live, names the schedule, and is near that day or later.
fn pays(book: &Book, id: &Txt, next: u32, row: &TxRow) -> bool
    ensures { result ≡ pays book.now.rows id.now next row.now }
{
    is_live(book, row) && is_text(id, &row.schedule) && is_near(row.date, next)
}

/// Whether a transaction is there and pays for a schedule's next day.
fn is_payment(book: &Book, id: &Txt, next: u32, payment: &Txt) -> bool
    ensures { result ≡ is_payment book.now.rows id.now next payment.now }
{
    match tx(book, payment) {
        Some(row) => pays(book, id, next, row),
        None => false,
    }
}

/// Whether one of these transactions pays for the next day.
fn has_payment(book: &Book, id: &Txt, next: u32, ids: &BTreeSet<Txt>) -> bool
    ensures { result ≡ list_any (is_payment book.now.rows id.now next) ids.now.keys }
{
    for payment in ids {
        if is_payment(book, id, next, payment) {
            return true;
        }
    }
    false
}

/// Whether some transaction pays for the next day: one of those that name the schedule.
fn is_paid(book: &Book, id: &Txt, next: u32) -> bool
    requires live { book.now.spent ≡ false }
    ensures { result ≡ is_paid book.now.rows id.now next }
{
    match book.of_schedule(id) {
        Some(ids) => has_payment(book, id, next, ids),
        None => false,
    }
}

/// How the next day lies to a day.
fn by_days(next: u32, day: u32) -> ScheduleStatus
    requires { day < 84_006 }
    ensures { result ≡ by_days next day }
{
    if next == day {
        ScheduleStatus::Due
    } else if day < next && next <= day + 7 {
        ScheduleStatus::Upcoming
    } else if next < day {
        ScheduleStatus::Missed
    } else {
        ScheduleStatus::Scheduled
    }
}

/// The status of a schedule on a day, where it is live.
fn status_on(book: &Book, id: &Txt, day: u32) -> Option<ScheduleStatus>
    requires live { book.now.spent ≡ false }
    requires day { day < 84_006 }
    ensures { result ≡ status_of book.now.rows id.now day }
{
    let row = live_row(book, id)?;
    let Some(next) = next_day(row) else {
        return Some(ScheduleStatus::Completed);
    };
    if is_paid(book, id, next) {
        return Some(ScheduleStatus::Paid);
    }
    Some(by_days(next, day))
}

/// The status of a schedule on a day YYYYMMDD. There is none where no live schedule has the id. Where the schedule has a next day, it
/// looks through the transactions that name it, to the first that pays.
pub fn status(book: &Book, id: &Txt, day: u32) -> Option<ScheduleStatus>
    requires live { book.now.spent ≡ false }
    requires day { is_day day ≡ true }
    ensures { result ≡ status_in book.now.rows id.now day }
{
    status_on(book, id, day_of(day))
}
