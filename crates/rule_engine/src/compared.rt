//! What conditions compare with.
ghost use Rattle.std.specs.Prelude.{◌≡◌, IfOk, option_map};
ghost use Rattle.serde_json.specs.View.{view};
ghost use Rattle.serde_json.specs.Find.{as_str, as_bool};
ghost use Rattle.rule_engine.specs.declared.rule.CondOp.TheVariants.{IsBetween};
ghost use Rattle.rule_engine.specs.declared.rule.CondValue.TheVariants.{Text as OneText, Texts, Number, Date as Day};
ghost use Rattle.rule_engine.specs.Reading.{as_texts, as_amount, as_day, as_maybe_text, maybe_value, id_value, text_value, between, amount_value, day_or_recurrence, day_value, flag_value, value_of};

use crate::rule::{CondField, CondOp, CondValue};
use crate::values::{amount, amount_at, day, maybe_text, text, texts};
use field_values::NoMemory;
use serde_json::Value;
use std::alloc::Global;

fn one_or_none(alloc: Global, value: &Value) -> Result<Option<CondValue>, NoMemory>
    ensures { IfOk result (λ o. o ≡ option_map maybe_value (as_maybe_text (view value.now))) }
{
    match maybe_text(alloc, value)? {
        Some(Some(text)) => Ok(Some(CondValue::Text(text))),
        Some(None) => Ok(Some(CondValue::Null)),
        None => Ok(None),
    }
}

fn one(alloc: Global, value: &Value) -> Result<Option<CondValue>, NoMemory>
    ensures { IfOk result (λ o. o ≡ option_map (λ t. OneText t) (as_str (view value.now))) }
{
    match text(alloc, value)? {
        Some(text) => Ok(Some(CondValue::Text(text))),
        None => Ok(None),
    }
}

fn many(alloc: Global, value: &Value) -> Result<Option<CondValue>, NoMemory>
    ensures { IfOk result (λ o. o ≡ option_map (λ ts. Texts ts) (as_texts (view value.now))) }
{
    match texts(alloc, value)? {
        Some(texts) => Ok(Some(CondValue::Texts(texts))),
        None => Ok(None),
    }
}

fn one_amount(value: &Value) -> Option<CondValue>
    ensures { result ≡ option_map (λ z. Number z) (as_amount (view value.now)) }
{
    match amount(value) {
        Some(number) => Some(CondValue::Number(number)),
        None => None,
    }
}

fn one_day(value: &Value) -> Option<CondValue>
    ensures { result ≡ option_map (λ n. Day n) (as_day (view value.now)) }
{
    match day(value) {
        Some(day) => Some(CondValue::Date(day)),
        None => None,
    }
}

/// What an id is compared with.
fn id_value(alloc: Global, op: CondOp, value: &Value) -> Result<Option<CondValue>, NoMemory>
    ensures { IfOk result (λ o. o ≡ id_value op (view value.now)) }
{
    match op {
        CondOp::Is | CondOp::IsNot => one_or_none(alloc, value),
        CondOp::OneOf | CondOp::NotOneOf => many(alloc, value),
        _ => Ok(None),
    }
}

/// What a text is compared with.
fn text_value(alloc: Global, op: CondOp, value: &Value) -> Result<Option<CondValue>, NoMemory>
    ensures { IfOk result (λ o. o ≡ text_value op (view value.now)) }
{
    match op {
        CondOp::Is | CondOp::IsNot | CondOp::Contains | CondOp::DoesNotContain => one(alloc, value),
        CondOp::OneOf | CondOp::NotOneOf => many(alloc, value),
        _ => Ok(None),
    }
}

fn between(value: &Value) -> Option<CondValue>
    ensures { result ≡ amount_value IsBetween (view value.now) }
{
    match (amount_at(value, "num1"), amount_at(value, "num2")) {
        (Some(num1), Some(num2)) => Some(CondValue::Between { num1, num2 }),
        _ => None,
    }
}

/// What an amount is compared with.
fn amount_value(op: CondOp, value: &Value) -> Option<CondValue>
    ensures { result ≡ amount_value op (view value.now) }
{
    match op {
        CondOp::Is | CondOp::IsApprox | CondOp::Gt | CondOp::Gte | CondOp::Lt | CondOp::Lte =>
            one_amount(value),
        CondOp::IsBetween => between(value),
        _ => None,
    }
}

/// A day, or a recurrence, which is an object, whatever it says.
fn day_or_recurrence(value: &Value) -> Option<CondValue>
    ensures { result ≡ day_or_recurrence (view value.now) }
{
    match value {
        Value::Object(_) => Some(CondValue::Recurrence),
        _ => one_day(value),
    }
}

/// What a day is compared with.
fn day_value(op: CondOp, value: &Value) -> Option<CondValue>
    ensures { result ≡ day_value op (view value.now) }
{
    match op {
        CondOp::Is | CondOp::IsApprox => day_or_recurrence(value),
        CondOp::Gt | CondOp::Gte | CondOp::Lt | CondOp::Lte => one_day(value),
        _ => None,
    }
}

/// What a flag is compared with.
fn flag_value(op: CondOp, value: &Value) -> Option<CondValue>
    ensures { result ≡ flag_value op (view value.now) }
{
    match op {
        CondOp::Is => match value.as_bool() {
            Some(set) => Some(CondValue::Flag(set)),
            None => None,
        },
        _ => None,
    }
}

/// What a column is compared with.
pub(crate) fn value_of(
    alloc: Global,
    field: CondField,
    op: CondOp,
    value: &Value,
) -> Result<Option<CondValue>, NoMemory>
    ensures { IfOk result (λ o. o ≡ value_of field op (view value.now)) }
{
    match field {
        CondField::Acct | CondField::Description | CondField::Category => {
            id_value(alloc, op, value)
        }
        CondField::ImportedDescription | CondField::Notes => text_value(alloc, op, value),
        CondField::Amount => Ok(amount_value(op, value)),
        CondField::Date => Ok(day_value(op, value)),
        CondField::Cleared => Ok(flag_value(op, value)),
    }
}
