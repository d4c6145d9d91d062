//! Single JSON values.
ghost use Rattle.std.specs.Prelude.{◌≡◌, IfOk, option_map, option_and_then};
ghost use Rattle.serde_json.specs.View.{view, items_view};
ghost use Rattle.serde_json.specs.Find.{get, as_str};
ghost use Rattle.rule_engine.specs.Reading.{all_read, ok_of, entries_of, as_texts, as_held, as_amount, as_day, as_maybe_text, text_at, is_set, asks_direction};

use crate::days::day_of_text;
use field_values::value::LARGEST;
use field_values::{Items, NoMemory, Txt};
use serde_json::Value;
use std::alloc::Global;

/// A copy of the text that a value is.
pub(crate) fn text(alloc: Global, value: &Value) -> Result<Option<Txt>, NoMemory>
    ensures { IfOk result (λ t. t ≡ as_str (view value.now)) }
{
    match value.as_str() {
        Some(text) => Ok(Some(Txt::from_text(alloc, text)?)),
        None => Ok(None),
    }
}

/// A copy of the text that a value is, or none where it is null.
pub(crate) fn maybe_text(alloc: Global, value: &Value) -> Result<Option<Option<Txt>>, NoMemory>
    ensures { IfOk result (λ t. t ≡ as_maybe_text (view value.now)) }
{
    match value {
        Value::Null => Ok(Some(None)),
        Value::String(text) => Ok(Some(Some(Txt::from_text(alloc, text.as_str())?))),
        _ => Ok(None),
    }
}

/// Copies of the texts that the entries are, where all are texts.
fn all_texts(alloc: Global, entries: &Vec<Value>) -> Result<Option<Vec<Txt>>, NoMemory>
    ensures { IfOk result (λ o. option_map (λ v. v.items) o ≡ ok_of (all_read as_str (entries_of (items_view entries.now.items)))) }
{
    let mut texts = Vec::new(alloc);
    for entry in entries {
        match text(alloc, entry)? {
            Some(text) => texts.push(text)?,
            None => return Ok(None),
        }
    }
    Ok(Some(texts))
}

/// Copies of the texts of an array, where all its entries are texts.
pub(crate) fn texts(alloc: Global, value: &Value) -> Result<Option<Items<Txt>>, NoMemory>
    ensures { IfOk result (λ o. o ≡ as_texts (view value.now)) }
{
    match value.as_array() {
        Some(entries) => match all_texts(alloc, entries)? {
            Some(texts) => Ok(Some(Items::new(texts))),
            None => Ok(None),
        },
        None => Ok(None),
    }
}

/// The number, where a value of a field holds it.
fn held(number: i64) -> Option<i64>
    ensures { result ≡ as_held number }
{
    if -LARGEST <= number && number <= LARGEST {
        Some(number)
    } else {
        None
    }
}

/// The whole number that a value is, where it is one that a value of a field holds. One with a
/// point or an exponent is none, nor is -0.
pub(crate) fn amount(value: &Value) -> Option<i64>
    ensures { result ≡ as_amount (view value.now) }
{
    match value.as_i64() {
        Some(number) => held(number),
        None => None,
    }
}

/// The amount of a member.
pub(crate) fn amount_at(value: &Value, key: &str) -> Option<i64>
    ensures { result ≡ option_and_then as_amount (get key.now (view value.now)) }
{
    match value.get(key) {
        Some(member) => amount(member),
        None => None,
    }
}

/// The day YYYYMMDD that a value writes as YYYY-MM-DD, where it is one from 1970 to 2199.
pub(crate) fn day(value: &Value) -> Option<u32>
    ensures { result ≡ as_day (view value.now) }
{
    match value.as_str() {
        Some(text) => day_of_text(text),
        None => None,
    }
}

/// The text of a member.
pub(crate) fn text_at<'a>(value: &'a Value, key: &str) -> Option<&'a str>
    ensures { option_map (λ t. t.now) result ≡ text_at key.now (view value.now) }
{
    match value.get(key) {
        Some(member) => member.as_str(),
        None => None,
    }
}

/// Whether a member is true.
fn is_set(value: &Value, key: &str) -> bool
    ensures { result ≡ is_set key.now (view value.now) }
{
    match value.get(key) {
        Some(member) => match member.as_bool() {
            Some(set) => set,
            None => false,
        },
        None => false,
    }
}

/// Whether the options of an entry ask for a direction of money, `inflow` or `outflow`.
pub(crate) fn asks_direction(value: &Value) -> bool
    ensures { result ≡ asks_direction (view value.now) }
{
    match value.get("options") {
        Some(options) => is_set(options, "inflow") || is_set(options, "outflow"),
        None => false,
    }
}
