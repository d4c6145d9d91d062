//! Occurrences: the next one after a day, and those between two days.
ghost use Rattle.std.specs.Prelude.{◌≡◌, ◌<◌, ◌+◌, true, IfSome, IfOk, option_map};
ghost use Rattle.book_rows.specs.Kinds.{is_day};
ghost use Rattle.schedules.specs.Days.{asked_from, is_within, moved, said, next_from, IsPast};
ghost use Rattle.schedules.specs.Meant.{MeansOf};
ghost use Rattle.schedules.specs.Upcoming.{IsNext, AreBetween};

use crate::meant::{MeantDays, meant_days};
use crate::month::{date_of, day_of, weekday};
use crate::raw::first_raw;
use crate::recurrence::{Ending, Recurrence, Weekends};
use field_values::NoMemory;
use std::alloc::Global;

/// Where a search stands: each kept day below `at` moves to a day before those that are searched, and where raw days are counted,
/// `passed` of them lie below `at`.
#[derive(Clone, Copy, Debug, Drop)]
struct Place {
    at: u32,
    passed: u32,
}

/// Where a search for occurrences from a day on begins.
fn begun(recurrence: &Recurrence, from: u32) -> Place
    ensures { IsPast (said recurrence.now) from result.at result.passed }
{
    Place {
        at: asked_from(recurrence.ending, from),
        passed: 0,
    }
}

/// The table of a recurrence's days of a month.
fn days_of(recurrence: &Recurrence) -> MeantDays
    ensures { MeansOf result (said recurrence.now) }
{
    meant_days(recurrence.start, recurrence.patterns.as_slice())
}

/// The least occurrence from a day on, by the table of the recurrence's days of a month, and where the search for later ones goes on.
fn search(
    recurrence: &Recurrence,
    days: &MeantDays,
    begin: Place,
    from: u32,
) -> Option<(u32, Place)>
    requires days { MeansOf days.now (said recurrence.now) }
    requires past { IsPast (said recurrence.now) from begin.at begin.passed }
    ensures found { option_map (λ f. f.0) result ≡ next_from (said recurrence.now) from }
    ensures calendar { IfSome result (λ f. f.0 < 84_006) }
    ensures past { IfSome result (λ f. IsPast (said recurrence.now) (f.0 + 1) f.1.at f.1.passed) }
{
    let mut place = begin;
    while let Some(raw) = first_raw(recurrence, days, place.at) {
        if !is_within(recurrence.ending, place.passed, raw) {
            return None;
        }
        let day = moved(recurrence.weekends, raw);
        place = Place {
            at: raw + 1,
            passed: place.passed + 1,
        };
        if day >= from {
            return Some((day, place));
        }
    }
    None
}

/// The least occurrence from a day on, by its number.
pub(crate) fn first_from(recurrence: &Recurrence, from: u32) -> Option<u32>
    ensures found { result ≡ next_from (said recurrence.now) from }
    ensures calendar { IfSome result (λ d. d < 84_006) }
{
    match search(
        recurrence,
        &days_of(recurrence),
        begun(recurrence, from),
        from,
    ) {
        Some((day, _)) => Some(day),
        None => None,
    }
}

/// The next occurrence after a day, if there is one to the end of 2199. Both are YYYYMMDD. It costs the patterns once, and the periods
/// from the day on; where raw days are counted, those from the start.
pub fn next(recurrence: &Recurrence, after: u32) -> Option<u32>
    requires { is_day after ≡ true }
    ensures { IsNext (said recurrence.now) after result }
{
    match first_from(recurrence, day_of(after) + 1) {
        Some(day) => Some(date_of(day)),
        None => None,
    }
}

/// The occurrences from one day to another, both counted, each once and in order. All are YYYYMMDD. There are none where the last day
/// lies before the first.
pub fn occurrences(
    alloc: Global,
    recurrence: &Recurrence,
    first: u32,
    last: u32,
) -> Result<Vec<u32>, NoMemory>
    requires first { is_day first ≡ true }
    requires last { is_day last ≡ true }
    ensures { IfOk result (λ v. AreBetween (said recurrence.now) first last v.items) }
{
    let to = day_of(last);
    let days = days_of(recurrence);
    let mut dates = Vec::new(alloc);
    let mut from = day_of(first);
    let mut place = begun(recurrence, from);
    while let Some((day, next)) = search(recurrence, &days, place, from) {
        if day > to {
            break;
        }
        dates.push(date_of(day))?;
        from = day + 1;
        place = next;
    }
    Ok(dates)
}

/// Where the search begins: at the first day where raw days are counted, else two days before, since a day moves at most two days on.
fn asked_from(ending: Ending, from: u32) -> u32
    ensures { result ≡ asked_from ending from }
{
    match ending {
        Ending::Times(_) => 0,
        Ending::Never | Ending::Until(_) => from.saturating_sub(2),
    }
}

/// Whether the end keeps a raw day with so many before it.
fn is_within(ending: Ending, passed: u32, raw: u32) -> bool
    ensures { result ≡ is_within ending passed raw }
{
    match ending {
        Ending::Never => true,
        Ending::Times(times) => passed < times,
        Ending::Until(last) => raw <= last,
    }
}

/// Where a day moves.
fn moved(weekends: Weekends, day: u32) -> u32
    requires { day < 84_006 }
    ensures { result ≡ moved weekends day }
{
    match weekends {
        Weekends::Stay => day,
        Weekends::Before => match weekday(day) {
            5 => day - 1,
            6 => day - 2,
            _ => day,
        },
        Weekends::After => match weekday(day) {
            5 => day + 2,
            6 => day + 1,
            _ => day,
        },
    }
}
