//! The days of a month that a recurrence means, in a table: however many patterns there are, a day is looked up in one step.
ghost use Rattle.std.specs.Prelude.{◌≡◌, ◌≤◌, ◌<◌};
ghost use Rattle.schedules.specs.Days.{places};
ghost use Rattle.schedules.specs.Months.{month_length};
ghost use Rattle.schedules.specs.Meant.{means, Means, MeansPlace, MeansAny};

use crate::month::{MonthDay, month_day};
use crate::recurrence::Pattern;

/// Which days of a month are meant.
#[derive(Clone, Copy, Debug, Drop)]
pub(crate) struct MeantDays {
    /// Whether the day of this place is meant, in each month that has it; none has the place 0.
    named: [bool; 32],
    /// Whether the last day of each month is.
    last: bool,
}

/// The table of patterns, or of the day of the month of a start where there are none.
pub(crate) fn meant_days(start: u32, patterns: &[Pattern]) -> MeantDays
    requires { start < 84_006 }
    ensures { Means result (places start patterns.now) }
{
    if patterns.is_empty() {
        return only_day(month_day(start).place);
    }
    named_days(patterns)
}

/// The table of the day of one place.
fn only_day(place: u32) -> MeantDays
    requires { place ≤ 31 }
    ensures { MeansPlace result place }
{
    let mut named = [false; 32];
    named[place as usize] = true;
    MeantDays { named, last: false }
}

/// The table of patterns.
fn named_days(patterns: &[Pattern]) -> MeantDays
    ensures { MeansAny result patterns.now }
{
    let mut named = [false; 32];
    let mut last = false;
    for pattern in patterns {
        match *pattern {
            Pattern::Place(place) => {
                if place < 32 {
                    named[place as usize] = true;
                }
            }
            Pattern::Last => last = true,
        }
    }
    MeantDays { named, last }
}

/// Whether a table has a day of a month.
pub(crate) fn is_meant(days: &MeantDays, day: MonthDay, length: u32) -> bool
    requires long { length ≡ month_length day.month }
    requires place { day.place ≤ 31 }
    ensures { result ≡ means days.now day }
{
    days.named[day.place as usize] || (days.last && day.place == length)
}
