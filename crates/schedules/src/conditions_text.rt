//! The text of the conditions of a new schedule.
ghost use Rattle.std.specs.Prelude.{◌≡◌, ◌++◌, string_bytes, IfOk, OnOk};
ghost use Rattle.json.specs.Print.{quoted};
ghost use Rattle.serde_json.specs.Read.{read};
ghost use Rattle.schedules.specs.Edits.{again, front_text, payee_text, amount_text, conditions_text};

use crate::floats::has_float;
use field_values::{NoMemory, Txt};
use itoa::Buffer;
use serde_json::Value;
use std::alloc::Global;

/// A recurrence without spaces, each object's keys in order; one with a number that has a fraction or an exponent, is `-0` or has
/// more than 64 bits, as it was given, like a text that is no JSON.
fn again(alloc: Global, text: &Txt) -> Result<String, NoMemory>
    ensures { IfOk result (λ s. string_bytes s ≡ again text.now (read text.now)) }
{
    match Value::from_str(alloc, text.as_str()) {
        Ok(value) => {
            if has_float(&value) {
                Ok(text.copy()?.into_string())
            } else {
                Ok(value.to_string(alloc)?)
            }
        }
        Err(error) => {
            if error.is_memory() {
                Err(NoMemory)
            } else {
                Ok(text.copy()?.into_string())
            }
        }
    }
}

/// Puts an id as a JSON text behind a text.
fn push_id(alloc: Global, text: &mut String, id: &Txt) -> Result<(), NoMemory>
    ensures { OnOk result (string_bytes text.new ≡ string_bytes text.old ++ quoted id.now) }
{
    let id = Value::String(id.copy()?.into_string()).to_string(alloc)?;
    text.push_str(id.as_str())?;
    Ok(())
}

/// Puts the condition on the payee, if there is one, behind others.
fn push_payee(alloc: Global, text: &mut String, payee: &Option<Txt>) -> Result<(), NoMemory>
    ensures { OnOk result (string_bytes text.new ≡ string_bytes text.old ++ payee_text payee.now) }
{
    match payee {
        None => Ok(()),
        Some(payee) => {
            text.push_str(r#"{"field":"description","op":"is","value":"#)?;
            push_id(alloc, text, payee)?;
            text.push_str("},")?;
            Ok(())
        }
    }
}

/// Puts the condition on the amount, which is the last one, behind others.
fn push_amount(text: &mut String, amount: i64) -> Result<(), NoMemory>
    ensures { OnOk result (string_bytes text.new ≡ string_bytes text.old ++ amount_text amount) }
{
    text.push_str(r#"{"field":"amount","op":"is","value":"#)?;
    let mut buffer = Buffer::new();
    text.push_str(buffer.format(amount))?;
    text.push_str("}]")?;
    Ok(())
}

/// The conditions on the date and the account, which are the first ones.
fn front_text(alloc: Global, account: &Txt, recur: &Txt) -> Result<String, NoMemory>
    ensures { IfOk result (λ s. string_bytes s ≡ front_text account.now recur.now) }
{
    let mut text = String::new(alloc);
    text.push_str(r#"[{"field":"date","op":"isapprox","value":"#)?;
    text.push_str(again(alloc, recur)?.as_str())?;
    text.push_str(r#"},{"field":"acct","op":"is","value":"#)?;
    push_id(alloc, &mut text, account)?;
    text.push_str("},")?;
    Ok(text)
}

/// The conditions of a new schedule.
pub(crate) fn conditions_text(
    alloc: Global,
    account: &Txt,
    payee: &Option<Txt>,
    amount: i64,
    recur: &Txt,
) -> Result<Txt, NoMemory>
    ensures { IfOk result (λ t. t ≡ conditions_text account.now payee.now amount recur.now) }
{
    let mut text = front_text(alloc, account, recur)?;
    push_payee(alloc, &mut text, payee)?;
    push_amount(&mut text, amount)?;
    Ok(Txt::new(text))
}
