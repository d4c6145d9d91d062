//! Values of columns.
ghost use Rattle.std.specs.Prelude.{◌≡◌, IfOk};
ghost use Rattle.std.specs.Option.{option_copied};
ghost use Rattle.book_edits.specs.Writing.{text_or_null};
ghost use Rattle.split_transfer.specs.Writing.{day_or_null};

use book_edits::writing::{number, text};
use field_values::{NoMemory, Txt, Value};

/// A day as a value, or null where there is none.
pub fn day_or_null(date: Option<u32>) -> Value
    ensures { result ≡ day_or_null date }
{
    match date {
        Some(date) => number(date),
        None => Value::Null,
    }
}

/// A text as a value, or null where there is none.
pub(crate) fn maybe_text(own: Option<&Txt>) -> Result<Value, NoMemory>
    ensures { IfOk result (λ v. v ≡ text_or_null (option_copied own.entry)) }
{
    match own {
        Some(own) => text(own),
        None => Ok(Value::Null),
    }
}
