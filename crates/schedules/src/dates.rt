//! Dates in texts YYYY-MM-DD.
ghost use Rattle.std.specs.Prelude.{◌≡◌, ◌<◌, IfSome, length};
ghost use Rattle.schedules.specs.Reading.{digits_of_date, day_of_text};

use crate::month::day_in;
use book_rows::{four_digits_at, two_digits_at};

/// The date that a text of ten bytes writes, as a number.
fn digits_of_date(text: &[u8]) -> Option<u32>
    requires { length text.now ≡ 10 }
    ensures { result ≡ digits_of_date text.now }
{
    let year = four_digits_at(text, 0)?;
    let month = two_digits_at(text, 5)?;
    let day = two_digits_at(text, 8)?;
    Some(100 * (100 * year + month) + day)
}

/// The day that a text YYYY-MM-DD writes, if it writes one.
#[tactic(auto, unfolding(crate::specs::Reading::day_of_text))]
pub(crate) fn day_of_text(text: &str) -> Option<u32>
    ensures value { result ≡ day_of_text text.now }
    ensures calendar { IfSome result (λ d. d < 84_006) }
{
    let text = text.as_bytes();
    if text.len() != 10 || text[4] != b'-' || text[7] != b'-' {
        return None;
    }
    let date = digits_of_date(text)?;
    day_in(date)
}
