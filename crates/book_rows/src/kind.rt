//! How the value of a column is read, by the column's kind.
ghost use Rattle.std.specs.Prelude.{◌≡◌, IfOk};
ghost use Rattle.field_values.specs.declared.value.Value.TheVariants.{Number};
ghost use Rattle.book_rows.specs.Kinds.{flag_of, int_of, text_of, day_of, is_day};

use field_values::{NoMemory, Txt, Value};
use jiff_core::civil::Date;

/// How the value of a column is read.
#[derive(Clone, Copy, Debug, PartialEq, Eq)]
pub enum Kind {
    /// Set by the number 1 alone.
    Flag,
    /// A number, or else 0.
    Int,
    /// A text, or else none.
    Text,
    /// A number YYYYMMDD that is a day from 19700101 to 21991231, or else none.
    Day,
}

/// Whether the value sets a flag: the number 1 does, and nothing else.
pub fn flag(value: &Value) -> bool
    ensures { result ≡ flag_of value.now }
{
    match value {
        Value::Number(n) => *n == 1,
        _ => false,
    }
}

/// The number of a value, or else 0.
pub(crate) fn int(value: &Value) -> i64
    ensures { result ≡ int_of value.now }
{
    match value {
        Value::Number(n) => *n,
        _ => 0,
    }
}

/// A copy of the text of a value, if it has one.
pub(crate) fn text(value: &Value) -> Result<Option<Txt>, NoMemory>
    ensures { IfOk result (λ t. t ≡ text_of value.now) }
{
    match value {
        Value::Text(t) => Ok(Some(t.copy()?)),
        _ => Ok(None),
    }
}

/// Whether the number YYYYMMDD is a day from 19700101 to 21991231.
#[tactic(auto, unfolding(crate::specs::Kinds::is_day))]
pub fn is_day(n: u32) -> bool
    ensures { result ≡ is_day n }
{
    let year = n / 10_000;
    if year < 1970 || year > 2199 {
        return false;
    }
    Date::new(year as i16, (n / 100 % 100) as i8, (n % 100) as i8).is_ok()
}

/// The day that a number writes, if it writes one.
fn day_in(n: i64) -> Option<u32>
    ensures { result ≡ day_of (Number n) }
{
    if n < 0 || n > 21_999_999 {
        return None;
    }
    let n = n as u32;
    if is_day(n) { Some(n) } else { None }
}

/// The day of a value, if it has one.
pub(crate) fn day(value: &Value) -> Option<u32>
    ensures { result ≡ day_of value.now }
{
    match value {
        Value::Number(n) => day_in(*n),
        _ => None,
    }
}
