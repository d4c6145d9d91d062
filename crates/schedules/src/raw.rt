//! The first raw day from a day on, by whole periods.
ghost use Rattle.std.specs.Prelude.{◌≡◌, ◌+◌, ◌*◌, ◌<◌, ◌≤◌, ◌-◌, List};
ghost use Rattle.schedules.specs.Days.{Places, IsFirst, is_day_step, is_month_step, is_year_step, is_raw, IsFirstIn, said, places};
ghost use Rattle.schedules.specs.Meant.{Means, MeansOf};
ghost use Rattle.schedules.specs.declared.recurrence.Pattern.{Pattern as PatternIs};

use crate::meant::{MeantDays, is_meant, meant_days};
use crate::month::{DAYS, MONTHS, MonthDay, month_day, month_length, month_start};
use crate::recurrence::{Frequency, Recurrence};

/// The first raw day from a day on, by the table of the recurrence's days of a month.
pub(crate) fn first_raw(recurrence: &Recurrence, days: &MeantDays, from: u32) -> Option<u32>
    requires { MeansOf days.now (said recurrence.now) }
    ensures { IsFirst (is_raw (said recurrence.now)) from result }
{
    let start = recurrence.start;
    let interval = recurrence.interval;
    match recurrence.frequency {
        Frequency::Daily => first_by_days(start, interval, from),
        Frequency::Weekly => first_by_days(start, 7 * interval, from),
        Frequency::Monthly => first_by_months(start, days, interval, from),
        Frequency::Yearly => first_by_years(start, interval, from),
    }
}

/// The first day from a day on by whole steps of days.
fn first_by_days(start: u32, step: u32, from: u32) -> Option<u32>
    requires calendar { start < 84_006 }
    requires least { 1 ≤ step }
    requires most { step ≤ 12_000 }
    ensures { IsFirst (is_day_step step start) from result }
{
    if from >= DAYS {
        return None;
    }
    let day = start + from.saturating_sub(start).div_ceil(step) * step;
    if day < DAYS { Some(day) } else { None }
}

/// The first day from a day on by whole steps of years, which are twelve months each.
fn first_by_years(start: u32, step: u32, from: u32) -> Option<u32>
    requires calendar { start < 84_006 }
    requires least { 1 ≤ step }
    requires most { step ≤ 1_000 }
    ensures { IsFirst (is_year_step step start) from result }
{
    first_by_months(start, &meant_days(start, &[]), 12 * step, from)
}

/// The first day from a day on by whole steps of months, on the days of a month that a table has.
fn first_by_months(start: u32, days: &MeantDays, step: u32, from: u32) -> Option<u32>
    requires calendar { start < 84_006 }
    requires least { 1 ≤ step }
    requires most { step ≤ 12_000 }
    ensures { (patterns : List PatternIs) → Means days.now (places start patterns) → IsFirst (is_month_step step (places start patterns)) from result }
{
    let begin = from.max(start);
    if begin >= DAYS {
        return None;
    }
    let first = month_day(start);
    let mut month = first.month + (month_day(begin).month - first.month).div_ceil(step) * step;
    while month < MONTHS {
        if let Some(day) = first_in_month(days, month, begin) {
            return Some(day);
        }
        month += step;
    }
    None
}

/// The first day of a month, from a day on, that a table has.
fn first_in_month(days: &MeantDays, month: u32, from: u32) -> Option<u32>
    requires { month < 2_760 }
    ensures { (meant : Places) → Means days.now meant → IsFirstIn meant month from result }
{
    let length = month_length(month);
    let begins = month_start(month);
    for before in 0..length {
        let day = begins + before;
        let here = MonthDay {
            month,
            place: before + 1,
        };
        if day >= from && is_meant(days, here, length) {
            return Some(day);
        }
    }
    None
}
