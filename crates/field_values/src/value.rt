//! The values of fields, and their texts.
ghost use Rattle.std.specs.Prelude.{◌≡◌, IfOk, OnErr};
ghost use Rattle.field_values.specs.Value.{IsNumberText, value_text, value_of, IsValue, KeepsText};

use crate::items::Copied;
use crate::memory::NoMemory;
use crate::text::Txt;
use itoa::Buffer;
use std::alloc::Global;

/// The largest number that a value holds, 2 to the 53 less 1: up to it each whole number has a 64-bit float of its own, as
/// JavaScript's `Number.MAX_SAFE_INTEGER` says.
pub const LARGEST: i64 = 9_007_199_254_740_991;

/// The smallest number that a value holds.
pub const SMALLEST: i64 = -LARGEST;

/// The value of a field. Its text is `0:` for null, `N:` and the decimal text of a number, `S:` and a text, as Actual Budget's
/// crdt package writes them, or any text that is none of these.
#[derive(Debug, PartialEq, Eq, Drop)]
pub enum Value {
    /// No value, as of a field that has been cleared.
    Null,
    /// A whole number from [`SMALLEST`] to [`LARGEST`].
    Number(i64),
    /// A text of any bytes that are UTF-8, the empty one too.
    Text(Txt),
    /// The whole text of a value of no other form. It is kept unread, and written byte for byte.
    Other(Txt),
}

/// The number whose decimal text this is, with no plus, no leading zero and no minus before 0, where it is in range.
fn number_in(digits: &str) -> Option<i64>
    ensures { IsNumberText digits.now result }
{
    let Ok(number) = digits.parse::<i64>() else {
        return None;
    };
    if number < SMALLEST || number > LARGEST {
        return None;
    }
    let mut buffer = Buffer::new();
    if buffer.format(number) == digits {
        Some(number)
    } else {
        None
    }
}

/// The value with this text, by the three forms.
#[tactic(auto, using(crate::proofs::Values::other_is_kept))]
fn by_form(alloc: Global, text: &str) -> Result<Value, NoMemory>
    ensures valid { IfOk result IsValue }
    ensures same_text { IfOk result (λ v. value_text v ≡ text.now) }
    ensures memory { OnErr result (KeepsText (value_of text.now)) }
{
    if text == "0:" {
        return Ok(Value::Null);
    }
    if let Some(rest) = text.strip_prefix("S:") {
        return Ok(Value::Text(Txt::from_text(alloc, rest)?));
    }
    if let Some(digits) = text.strip_prefix("N:") {
        if let Some(number) = number_in(digits) {
            return Ok(Value::Number(number));
        }
    }
    Ok(Value::Other(Txt::from_text(alloc, text)?))
}

impl Value {
    /// The value that has this text. Each text has one. What the value keeps of the text is copied once.
    pub fn read(alloc: Global, text: &str) -> Result<Value, NoMemory>
        ensures value { IfOk result (λ v. v ≡ value_of text.now) }
        ensures valid { IfOk result IsValue }
        ensures same_text { IfOk result (λ v. value_text v ≡ text.now) }

        // Null and a number take no memory, so they are always read.
        ensures memory { OnErr result (KeepsText (value_of text.now)) }
    {
        let value = by_form(alloc, text)?;
        Ok(value)
    }

    /// The value that has this text, as [`Value::read`].
    pub fn from_text(alloc: Global, text: &Txt) -> Result<Value, NoMemory>
        ensures value { IfOk result (λ v. v ≡ value_of text.now) }
        ensures valid { IfOk result IsValue }
        ensures same_text { IfOk result (λ v. value_text v ≡ text.now) }

        // Null and a number take no memory, so they are always read.
        ensures memory { OnErr result (KeepsText (value_of text.now)) }
    {
        Value::read(alloc, text.as_str())
    }

    /// The value's text, from which it is read back. A number has to be in range, and an unread text of no other form.
    #[tactic(auto, using(crate::proofs::Values::value_of_text))]
    pub fn text(&self, alloc: Global) -> Result<Txt, NoMemory>
        requires { IsValue self.now }
        ensures value { IfOk result (λ t. t ≡ value_text self.now) }
        ensures reads_back { IfOk result (λ t. value_of t ≡ self.now) }
    {
        match self {
            Value::Null => Txt::from_text(alloc, "0:"),
            Value::Number(number) => {
                let text = format!(in alloc; "N:{number}")?;
                Ok(Txt::new(text))
            }
            Value::Text(text) => {
                let shown = text.as_str();
                let text = format!(in alloc; "S:{shown}")?;
                Ok(Txt::new(text))
            }
            Value::Other(text) => text.copy(),
        }
    }

    /// An equal value.
    pub fn copy(&self) -> Result<Value, NoMemory>
        ensures value { IfOk result (λ v. v ≡ self.now) }

        // Null and a number take no memory, so they are always copied.
        ensures memory { OnErr result (KeepsText self.now) }
    {
        match self {
            Value::Null => Ok(Value::Null),
            Value::Number(number) => Ok(Value::Number(*number)),
            Value::Text(text) => Ok(Value::Text(text.copy()?)),
            Value::Other(text) => Ok(Value::Other(text.copy()?)),
        }
    }
}

impl Copied for Value {
    fn copied(&self) -> Result<Value, NoMemory> {
        self.copy()
    }
}
