//! Days by month, and the dates that write them: months are numbered from January 1970.
ghost use Rattle.std.specs.Prelude.{◌≡◌, ◌<◌, ◌≤◌, pos, ◌≤ℤ◌, true, Some, IfSome};
ghost use Rattle.jiff_core.specs.Date.{epoch_day};
ghost use Rattle.book_rows.specs.Kinds.{is_day};
ghost use Rattle.schedules.specs.Months.{month_day, month_start, month_length, weekday, date_of, day_in};

use book_rows::is_day;
use jiff_core::civil::{Date, Weekday};

/// How many days there are from 1970 to the end of 2199.
pub(crate) const DAYS: u32 = 84_006;

/// How many months there are from 1970 to the end of 2199.
pub(crate) const MONTHS: u32 = 2_760;

/// A day of a month: the month, and the day's place there from 1 on.
#[derive(Clone, Copy, Debug, Drop, PartialEq, Eq)]
pub struct MonthDay {
    /// The number of the month, 0 for January 1970.
    pub month: u32,
    /// The day of the month.
    pub place: u32,
}

/// The month and place of a day number.
pub(crate) fn month_day(day: u32) -> MonthDay
    requires { day < 84_006 }
    ensures value { result ≡ month_day day }
    ensures month { result.month < 2_760 }
    ensures place { result.place ≤ 31 }
{
    let date = date_at(day);
    MonthDay {
        month: (date.year as u32 - 1970) * 12 + date.month as u32 - 1,
        place: date.day as u32,
    }
}

/// The date of a day number from 1970 to 2199.
fn date_at(day: u32) -> Date
    requires { day < 84_006 }
    ensures value { epoch_day result ≡ pos day }
    ensures from { pos 1970 ≤ℤ result.year }
    ensures to { result.year ≤ℤ pos 2199 }
{
    Date::from_days_since_min(day + 4_371_587)
}

/// The date YYYYMMDD of a day number.
pub(crate) fn date_of(day: u32) -> u32
    requires { day < 84_006 }
    ensures { result ≡ date_of day }
{
    let day = month_day(day);
    (1970 + day.month / 12) * 10_000 + (day.month % 12 + 1) * 100 + day.place
}

/// The day that a date YYYYMMDD writes.
pub(crate) fn day_of(date: u32) -> u32
    requires { is_day date ≡ true }
    ensures value { day_in date ≡ Some result }
    ensures calendar { result < 84_006 }
{
    let month = (date / 10_000 - 1970) * 12 + date / 100 % 100 - 1;
    month_start(month) + date % 100 - 1
}

/// The day that a number YYYYMMDD writes, if it writes one.
#[tactic(auto, unfolding(crate::specs::Months::day_in))]
pub(crate) fn day_in(date: u32) -> Option<u32>
    ensures value { result ≡ day_in date }
    ensures calendar { IfSome result (λ d. d < 84_006) }
{
    if is_day(date) {
        Some(day_of(date))
    } else {
        None
    }
}

/// The day number of a month's first day.
pub(crate) fn month_start(month: u32) -> u32
    requires { month < 2_760 }
    ensures value { result ≡ month_start month }
    ensures bound { result < 84_006 }
{
    Date::constrain(
        (1970 + month / 12) as i16,
        (month % 12 + 1) as u8,
        1,
    ).to_unix_epoch_day() as u32
}

/// How many days a month has.
pub(crate) fn month_length(month: u32) -> u32
    requires { month < 2_760 }
    ensures value { result ≡ month_length month }
    ensures bound { result ≤ 31 }
{
    Date::constrain((1970 + month / 12) as i16, (month % 12 + 1) as u8, 31).day as u32
}

/// A day's place in its week, from 0 for Monday.
pub(crate) fn weekday(day: u32) -> u32
    requires { day < 84_006 }
    ensures { result ≡ weekday day }
{
    match date_at(day).weekday() {
        Weekday::Monday => 0,
        Weekday::Tuesday => 1,
        Weekday::Wednesday => 2,
        Weekday::Thursday => 3,
        Weekday::Friday => 4,
        Weekday::Saturday => 5,
        Weekday::Sunday => 6,
    }
}
