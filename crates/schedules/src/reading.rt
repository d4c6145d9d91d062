//! Reading a recurrence: key by key in a fixed order, to the first that is bad.
ghost use Rattle.std.specs.Prelude.{◌≡◌, ◌<◌, option_map, IfOk, IfErr, IfSome, Ok, Err, Some};
ghost use Rattle.serde_json.specs.View.{view, items_view};
ghost use Rattle.book_rows.specs.declared.fault.EditFault.TheVariants.{BadRecur};
ghost use Rattle.book_edits.specs.Faults.{IsEditFault};
ghost use Rattle.schedules.specs.Days.{said};
ghost use Rattle.schedules.specs.Reading.{at_key, whole, needed_whole, day_at, interval_at, frequency_at, frequency_word, skip_at, solve_at, solve_word, pattern_of, place_at, place_of, is_day, patterns_of, listed, mode_at, mode_word, weekends_of, ending_of, said_of, recurrence_of, or_recur, patterns_for};

use crate::dates::day_of_text;
use crate::recurrence::{Ending, Frequency, Pattern, Recurrence, Weekends};
use book_rows::{EditFault, RecurPart};
use field_values::{NoMemory, Txt};
use serde_json::Value;
use std::alloc::Global;

/// How a recurrence ends.
#[derive(Clone, Copy, Debug, Drop, PartialEq, Eq)]
pub(crate) enum Mode {
    /// Never.
    Open,
    /// After so many raw days.
    Counted,
    /// On a date.
    Dated,
}

/// The refusal for a part of a recurrence that is bad.
fn bad(part: RecurPart) -> EditFault
    ensures { result ≡ BadRecur part }
{
    EditFault::BadRecur { part }
}

/// The recurrence that a JSON text says.
///
/// # Errors
///
/// The first key that is bad, in the order of docs/FORMATS.md. Memory can run out before.
pub fn read_recur(alloc: Global, text: &Txt) -> Result<Recurrence, EditFault>
    ensures ok { IfOk result (λ r. recurrence_of text.now ≡ Ok (said r)) }
    ensures err { IfErr result (IsEditFault (recurrence_of text.now)) }
{
    match Value::from_str(alloc, text.as_str()) {
        Ok(value) => read_value(alloc, &value),
        Err(error) => {
            if error.is_memory() {
                Err(EditFault::NoMemory)
            } else {
                Err(bad(RecurPart::Object))
            }
        }
    }
}

/// The recurrence that a JSON value says, or its first key that is bad.
#[tactic(auto, unfolding(crate::specs::Reading::said_of))]
pub(crate) fn read_value(alloc: Global, value: &Value) -> Result<Recurrence, EditFault>
    ensures ok { IfOk result (λ r. said_of (view value.now) ≡ Ok (said r)) }
    ensures err { IfErr result (IsEditFault (or_recur (said_of (view value.now)))) }
{
    if !value.is_object() {
        return Err(bad(RecurPart::Object));
    }
    let Some(start) = day_at(at_key(value, "start")) else {
        return Err(bad(RecurPart::Start));
    };
    let Some(frequency) = frequency_at(at_key(value, "frequency")) else {
        return Err(bad(RecurPart::Frequency));
    };
    let Some(interval) = interval_at(at_key(value, "interval")) else {
        return Err(bad(RecurPart::Interval));
    };
    let patterns = match patterns_for(alloc, frequency, value) {
        Ok(Some(patterns)) => patterns,
        Ok(None) => return Err(bad(RecurPart::Patterns)),
        Err(NoMemory) => return Err(EditFault::NoMemory),
    };
    let weekends = match weekends_of(value) {
        Ok(weekends) => weekends,
        Err(part) => return Err(bad(part)),
    };
    let ending = match ending_of(value) {
        Ok(ending) => ending,
        Err(part) => return Err(bad(part)),
    };
    Ok(Recurrence {
        frequency,
        interval,
        start,
        patterns,
        ending,
        weekends,
    })
}

/// Where days move from weekends.
#[tactic(auto, unfolding(crate::specs::Reading::weekends_of))]
fn weekends_of(value: &Value) -> Result<Weekends, RecurPart>
    ensures { result ≡ weekends_of (view value.now) }
{
    let Some(skip) = skip_at(at_key(value, "skipWeekend")) else {
        return Err(RecurPart::SkipWeekend);
    };
    let Some(solve) = solve_at(at_key(value, "weekendSolveMode")) else {
        return Err(RecurPart::WeekendSolveMode);
    };
    if skip { Ok(solve) } else { Ok(Weekends::Stay) }
}

/// Where raw days end.
#[tactic(auto, unfolding(crate::specs::Reading::ending_of))]
fn ending_of(value: &Value) -> Result<Ending, RecurPart>
    ensures { result ≡ ending_of (view value.now) }
{
    match mode_at(at_key(value, "endMode")) {
        None => Err(RecurPart::EndMode),
        Some(Mode::Open) => Ok(Ending::Never),
        Some(Mode::Counted) => match needed_whole(at_key(value, "endOccurrences"), 1, 100_000) {
            None => Err(RecurPart::EndOccurrences),
            Some(times) => Ok(Ending::Times(times)),
        },
        Some(Mode::Dated) => match day_at(at_key(value, "endDate")) {
            None => Err(RecurPart::EndDate),
            Some(day) => Ok(Ending::Until(day)),
        },
    }
}

/// How a recurrence ends; never, where nothing is said.
fn mode_at(value: Option<&Value>) -> Option<Mode>
    ensures { result ≡ mode_at (option_map (λ v. view v.now) value.entry) }
{
    match value {
        None => Some(Mode::Open),
        Some(value) => match value.as_str() {
            None => None,
            Some(text) => mode_word(text),
        },
    }
}

/// How a word says that a recurrence ends.
fn mode_word(text: &str) -> Option<Mode>
    ensures { result ≡ mode_word (Some text.now) }
{
    if text == "never" {
        Some(Mode::Open)
    } else if text == "after_n_occurrences" {
        Some(Mode::Counted)
    } else if text == "on_date" {
        Some(Mode::Dated)
    } else {
        None
    }
}

/// The patterns, where each entry is one and the frequency may have them.
fn patterns_for(
    alloc: Global,
    frequency: Frequency,
    value: &Value,
) -> Result<Option<Vec<Pattern>>, NoMemory>
    ensures { IfOk result (λ o. option_map (λ v. v.items) o ≡ patterns_for frequency (view value.now)) }
{
    match listed(alloc, at_key(value, "patterns"))? {
        None => Ok(None),
        Some(patterns) => {
            if patterns.is_empty() || frequency == Frequency::Monthly {
                Ok(Some(patterns))
            } else {
                Ok(None)
            }
        }
    }
}

/// The patterns of a list, if each entry is one; a list that is missing has no patterns.
fn listed(alloc: Global, value: Option<&Value>) -> Result<Option<Vec<Pattern>>, NoMemory>
    ensures { IfOk result (λ o. option_map (λ v. v.items) o ≡ listed (option_map (λ v. view v.now) value.entry)) }
{
    match value {
        None => Ok(Some(Vec::new(alloc))),
        Some(value) => match value.as_array() {
            None => Ok(None),
            Some(entries) => patterns_of(alloc, entries),
        },
    }
}

/// The patterns of entries, if each is one.
fn patterns_of(alloc: Global, entries: &Vec<Value>) -> Result<Option<Vec<Pattern>>, NoMemory>
    ensures { IfOk result (λ o. option_map (λ v. v.items) o ≡ patterns_of (items_view entries.now.items)) }
{
    let mut patterns = Vec::new(alloc);
    for entry in entries {
        match pattern_of(entry) {
            None => return Ok(None),
            Some(pattern) => patterns.push(pattern)?,
        }
    }
    Ok(Some(patterns))
}

/// The pattern that an entry is.
#[tactic(auto, unfolding(crate::specs::Reading::pattern_of))]
fn pattern_of(entry: &Value) -> Option<Pattern>
    ensures { result ≡ pattern_of (view entry.now) }
{
    if is_day(entry.get("type")) {
        place_at(entry.get("value"))
    } else {
        None
    }
}

/// Whether a pattern is of the only kind that there is.
fn is_day(kind: Option<&Value>) -> bool
    ensures { result ≡ is_day (option_map (λ v. view v.now) kind.entry) }
{
    match kind {
        None => false,
        Some(kind) => match kind.as_str() {
            None => false,
            Some(kind) => kind == "day",
        },
    }
}

/// The day of the month of a pattern.
fn place_at(value: Option<&Value>) -> Option<Pattern>
    ensures { result ≡ place_at (option_map (λ v. view v.now) value.entry) }
{
    match value {
        None => None,
        Some(value) => match value.as_i64() {
            None => None,
            Some(place) => place_of(place),
        },
    }
}

/// The day of the month that a number says; -1 is the last one.
fn place_of(place: i64) -> Option<Pattern>
    ensures { result ≡ place_of (Some place) }
{
    if place == -1 {
        Some(Pattern::Last)
    } else if 1 <= place && place <= 31 {
        Some(Pattern::Place(place as u8))
    } else {
        None
    }
}

/// The value at a key; null is a missing key.
fn at_key<'a>(value: &'a Value, key: &str) -> Option<&'a Value>
    ensures { option_map (λ v. view v.now) result ≡ at_key key.now (view value.now) }
{
    match value.get(key) {
        None | Some(Value::Null) => None,
        Some(member) => Some(member),
    }
}

/// A whole number in a range.
fn whole(value: &Value, least: u32, most: u32) -> Option<u32>
    ensures { result ≡ whole least most (view value.now) }
{
    match value.as_u64() {
        Some(number) if u64::from(least) <= number && number <= u64::from(most) => {
            Some(number as u32)
        }
        _ => None,
    }
}

/// A whole number in a range, which has to be there.
fn needed_whole(value: Option<&Value>, least: u32, most: u32) -> Option<u32>
    ensures { result ≡ needed_whole least most (option_map (λ v. view v.now) value.entry) }
{
    match value {
        None => None,
        Some(value) => whole(value, least, most),
    }
}

/// The day of a text YYYY-MM-DD, which has to be there.
fn day_at(value: Option<&Value>) -> Option<u32>
    ensures value { result ≡ day_at (option_map (λ v. view v.now) value.entry) }
    ensures calendar { IfSome result (λ d. d < 84_006) }
{
    match value {
        None => None,
        Some(value) => match value.as_str() {
            None => None,
            Some(text) => day_of_text(text),
        },
    }
}

/// How many units a step has; 1, where nothing is said.
fn interval_at(value: Option<&Value>) -> Option<u32>
    ensures { result ≡ interval_at (option_map (λ v. view v.now) value.entry) }
{
    match value {
        None => Some(1),
        Some(value) => whole(value, 1, 1_000),
    }
}

/// How often raw days come, which has to be there.
fn frequency_at(value: Option<&Value>) -> Option<Frequency>
    ensures { result ≡ frequency_at (option_map (λ v. view v.now) value.entry) }
{
    match value {
        None => None,
        Some(value) => match value.as_str() {
            None => None,
            Some(text) => frequency_word(text),
        },
    }
}

/// How often a word says that raw days come.
fn frequency_word(text: &str) -> Option<Frequency>
    ensures { result ≡ frequency_word (Some text.now) }
{
    if text == "daily" {
        Some(Frequency::Daily)
    } else if text == "weekly" {
        Some(Frequency::Weekly)
    } else if text == "monthly" {
        Some(Frequency::Monthly)
    } else if text == "yearly" {
        Some(Frequency::Yearly)
    } else {
        None
    }
}

/// Whether days move from weekends; no, where nothing is said.
fn skip_at(value: Option<&Value>) -> Option<bool>
    ensures { result ≡ skip_at (option_map (λ v. view v.now) value.entry) }
{
    match value {
        None => Some(false),
        Some(value) => value.as_bool(),
    }
}

/// Where they move; forward, where nothing is said.
fn solve_at(value: Option<&Value>) -> Option<Weekends>
    ensures { result ≡ solve_at (option_map (λ v. view v.now) value.entry) }
{
    match value {
        None => Some(Weekends::After),
        Some(value) => match value.as_str() {
            None => None,
            Some(text) => solve_word(text),
        },
    }
}

/// Where a word says that they move.
fn solve_word(text: &str) -> Option<Weekends>
    ensures { result ≡ solve_word (Some text.now) }
{
    if text == "before" {
        Some(Weekends::Before)
    } else if text == "after" {
        Some(Weekends::After)
    } else {
        None
    }
}
