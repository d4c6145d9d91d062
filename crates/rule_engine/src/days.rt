//! Days as texts, and how far they are apart.
ghost use Rattle.std.specs.Prelude.{◌≡◌, ◌<◌, ◌^◌, length, true};
ghost use Rattle.std.specs.Bool.{OnTrue};
ghost use Rattle.jiff_core.specs.Date.{epoch_day};
ghost use Rattle.book_rows.specs.Kinds.{is_day};
ghost use Rattle.rule_engine.specs.Days.{is_digit, has_form, digit, digits_number, day_of_text, day_number, numbered, are_within};

use book_rows::is_day;
use jiff_core::civil::Date;

fn is_digit(byte: u8) -> bool
    ensures { result ≡ is_digit byte }
{
    byte >= b'0' && byte <= b'9'
}

/// Whether a text has the form YYYY-MM-DD.
#[tactic(auto, unfolding(crate::specs::Days::has_form))]
fn has_form(text: &[u8]) -> bool
    ensures form { result ≡ has_form text.now }
    ensures long { OnTrue result (length text.now ≡ 10) }
{
    text.len() == 10
        && is_digit(text[0])
        && is_digit(text[1])
        && is_digit(text[2])
        && is_digit(text[3])
        && text[4] == b'-'
        && is_digit(text[5])
        && is_digit(text[6])
        && text[7] == b'-'
        && is_digit(text[8])
        && is_digit(text[9])
}

/// The digit at a place of a text.
fn digit(text: &[u8], at: usize) -> u32
    requires { at < length text.now }
    ensures value { result ≡ digit text.now at }
    ensures small { result < 256 }
{
    u32::from(text[at]).saturating_sub(48)
}

/// The digits of a text YYYY-MM-DD as a number.
#[tactic(auto, unfolding(crate::specs::Days::digits_number))]
fn digits_number(text: &[u8]) -> u64
    requires { length text.now ≡ 10 }
    ensures value { result ≡ digits_number text.now }
    ensures small { result < 2 ^ 32 }
{
    let year = digit(text, 0) * 1_000 + digit(text, 1) * 100 + digit(text, 2) * 10 + digit(text, 3);
    let rest = digit(text, 5) * 1_000 + digit(text, 6) * 100 + digit(text, 8) * 10 + digit(text, 9);
    u64::from(year) * 10_000 + u64::from(rest)
}

/// The day YYYYMMDD that a text YYYY-MM-DD writes, where it is one from 1970 to 2199.
#[tactic(auto, unfolding(crate::specs::Days::day_of_text))]
pub fn day_of_text(text: &str) -> Option<u32>
    ensures { result ≡ day_of_text text.now }
{
    let text = text.as_bytes();
    if !has_form(text) {
        return None;
    }
    let day = digits_number(text) as u32;
    if is_day(day) { Some(day) } else { None }
}

/// The date of a day YYYYMMDD.
fn date_at(day: u32) -> Date
    requires { is_day day ≡ true }
    ensures { epoch_day result ≡ day_number day }
{
    let year = (day / 10_000) as i16;
    let month = (day / 100 % 100) as u8;
    let place = (day % 100) as u8;
    Date::constrain(year, month, place)
}

/// The number of a day YYYYMMDD, where it is one from 1970 to 2199: 0 is 1 January 1970.
pub fn numbered(day: u32) -> Option<i32>
    ensures { result ≡ numbered day }
{
    if is_day(day) {
        Some(date_at(day).to_unix_epoch_day())
    } else {
        None
    }
}

/// Whether both are days YYYYMMDD from 1970 to 2199, and at most so many days apart.
pub fn are_within(most: u32, a: u32, b: u32) -> bool
    ensures { result ≡ are_within most a b }
{
    match (numbered(a), numbered(b)) {
        (Some(a), Some(b)) => a.abs_diff(b) <= most,
        _ => false,
    }
}
