//! Actions are read.
ghost use Rattle.std.specs.Prelude.{◌≡◌, IfOk, option_map, Option};
ghost use Rattle.serde_json.specs.View.{view};
ghost use Rattle.serde_json.specs.Find.{as_str};
ghost use Rattle.rule_engine.specs.Reading.{set_of, action_by, action_op, action_of};

use crate::rule::Action;
use crate::values::{maybe_text, text, text_at};
use field_values::NoMemory;
use serde_json::Value;
use std::alloc::Global;

/// The action of `set` with this column and this value.
fn set_of(alloc: Global, field: &str, value: &Value) -> Result<Option<Action>, NoMemory>
    ensures { IfOk result (λ o. o ≡ set_of field.now (view value.now)) }
{
    if field == "category" {
        return match maybe_text(alloc, value)? {
            Some(category) => Ok(Some(Action::SetCategory(category))),
            None => Ok(None),
        };
    }
    if field == "description" {
        return match maybe_text(alloc, value)? {
            Some(payee) => Ok(Some(Action::SetDescription(payee))),
            None => Ok(None),
        };
    }
    if field == "notes" {
        return match text(alloc, value)? {
            Some(text) => Ok(Some(Action::SetNotes(text))),
            None => Ok(None),
        };
    }
    if field == "cleared" {
        return match value.as_bool() {
            Some(set) => Ok(Some(Action::SetCleared(set))),
            None => Ok(None),
        };
    }
    Ok(None)
}

/// The action of this op and this value.
fn action_by(
    alloc: Global,
    op: &str,
    field: Option<&str>,
    value: &Value,
) -> Result<Option<Action>, NoMemory>
    ensures { IfOk result (λ o. o ≡ action_by op.now (option_map (λ f. f.now) field.entry) (view value.now)) }
{
    if op == "set" {
        return match field {
            Some(field) => set_of(alloc, field, value),
            None => Ok(None),
        };
    }
    if op == "prepend-notes" {
        return match text(alloc, value)? {
            Some(text) => Ok(Some(Action::PrependNotes(text))),
            None => Ok(None),
        };
    }
    if op == "append-notes" {
        return match text(alloc, value)? {
            Some(text) => Ok(Some(Action::AppendNotes(text))),
            None => Ok(None),
        };
    }
    if op == "link-schedule" {
        return match text(alloc, value)? {
            Some(id) => Ok(Some(Action::LinkSchedule(id))),
            None => Ok(None),
        };
    }
    Ok(None)
}

/// The op of an action, which is `set` where none is there.
fn action_op(op: Option<&Value>) -> Option<&str>
    ensures { option_map (λ t. t.now) result ≡ action_op (option_map (λ v. view v.now) op.entry) }
{
    match op {
        Some(op) => op.as_str(),
        None => Some("set"),
    }
}

/// The action that an entry is, where it is one.
#[tactic(auto, unfolding(crate::specs::Reading::action_of))]
pub(crate) fn action_of(alloc: Global, entry: &Value) -> Result<Option<Action>, NoMemory>
    ensures { IfOk result (λ o. o ≡ action_of (view entry.now)) }
{
    let Some(op) = action_op(entry.get("op")) else {
        return Ok(None);
    };
    let Some(value) = entry.get("value") else {
        return Ok(None);
    };
    action_by(alloc, op, text_at(entry, "field"), value)
}
