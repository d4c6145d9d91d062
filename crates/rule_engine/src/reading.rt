//! Rules are read from their rows.
ghost use Rattle.std.specs.Prelude.{◌≡◌, min, IfOk, IfErr, Ok, Some, option_map};
ghost use Rattle.serde_json.specs.View.{view, items_view};
ghost use Rattle.book_rows.specs.declared.fault.RulePart.TheVariants.{Conditions, Actions};
ghost use Rattle.book_rows.specs.declared.fault.EditFault.TheVariants.{BadRule};
ghost use Rattle.book_edits.specs.Faults.{IsEditFault};
ghost use Rattle.rule_engine.specs.Reading.{condition_of, field_word, op_word, text_at, action_of, entries_of, entries_in, all_read, or_bad, largest_place, read_part, stage_of, op_of, read_rule};

use crate::compared::value_of;
use crate::rule::{Action, Condition, Rule, RuleOp, Stage};
use crate::setting::action_of;
use crate::values::{asks_direction, text_at};
use crate::words::{field_word, op_word};
use book_rows::{EditFault, RulePart, RuleRow};
use field_values::{Items, NoMemory, Txt};
use serde_json::Value;
use std::alloc::Global;

/// The condition that an entry is, where it is one.
#[tactic(auto, unfolding(crate::specs::Reading::condition_of))]
fn condition_of(alloc: Global, entry: &Value) -> Result<Option<Condition>, NoMemory>
    ensures { IfOk result (λ o. o ≡ condition_of (view entry.now)) }
{
    if asks_direction(entry) {
        return Ok(None);
    }
    let Some(field) = text_at(entry, "field") else {
        return Ok(None);
    };
    let Some(field) = field_word(field) else {
        return Ok(None);
    };
    let Some(op) = text_at(entry, "op") else {
        return Ok(None);
    };
    let Some(op) = op_word(op) else {
        return Ok(None);
    };
    let Some(value) = entry.get("value") else {
        return Ok(None);
    };
    match value_of(alloc, field, op, value)? {
        Some(value) => Ok(Some(Condition { field, op, value })),
        None => Ok(None),
    }
}

/// The fault of a bad entry.
fn bad(part: RulePart, at: usize) -> EditFault
    ensures { result ≡ BadRule part (min at largest_place) }
{
    let at = match u32::try_from(at) {
        Ok(at) => at,
        Err(_) => u32::MAX,
    };
    EditFault::BadRule { part, at }
}

/// The conditions that all entries are.
fn all_conditions(alloc: Global, entries: &Vec<Value>) -> Result<Vec<Condition>, EditFault>
    ensures ok { IfOk result (λ v. or_bad Conditions (all_read condition_of (entries_of (items_view entries.now.items))) ≡ Ok v.items) }
    ensures err { IfErr result (IsEditFault (or_bad Conditions (all_read condition_of (entries_of (items_view entries.now.items))))) }
{
    let mut conditions = Vec::new(alloc);
    for (at, entry) in entries.iter().enumerate() {
        match condition_of(alloc, entry)? {
            Some(condition) => conditions.push(condition)?,
            None => return Err(bad(RulePart::Conditions, at)),
        }
    }
    Ok(conditions)
}

/// The actions that all entries are.
fn all_actions(alloc: Global, entries: &Vec<Value>) -> Result<Vec<Action>, EditFault>
    ensures ok { IfOk result (λ v. or_bad Actions (all_read action_of (entries_of (items_view entries.now.items))) ≡ Ok v.items) }
    ensures err { IfErr result (IsEditFault (or_bad Actions (all_read action_of (entries_of (items_view entries.now.items))))) }
{
    let mut actions = Vec::new(alloc);
    for (at, entry) in entries.iter().enumerate() {
        match action_of(alloc, entry)? {
            Some(action) => actions.push(action)?,
            None => return Err(bad(RulePart::Actions, at)),
        }
    }
    Ok(actions)
}

/// The entries of a text, where it is a JSON array.
fn entries_in(alloc: Global, text: &str) -> Result<Option<Vec<Value>>, NoMemory>
    ensures { IfOk result (λ o. option_map (λ v. entries_of (items_view v.items)) o ≡ entries_in (Some text.now)) }
{
    match Value::from_str(alloc, text) {
        Ok(Value::Array(entries)) => Ok(Some(entries)),
        Ok(_) => Ok(None),
        Err(error) => {
            if error.is_memory() {
                Err(NoMemory)
            } else {
                Ok(None)
            }
        }
    }
}

/// The conditions of a text.
pub(crate) fn conditions_in(alloc: Global, text: &str) -> Result<Vec<Condition>, EditFault>
    ensures ok { IfOk result (λ v. read_part Conditions condition_of (Some text.now) ≡ Ok v.items) }
    ensures err { IfErr result (IsEditFault (read_part Conditions condition_of (Some text.now))) }
{
    match entries_in(alloc, text)? {
        Some(entries) => all_conditions(alloc, &entries),
        None => Err(bad(RulePart::Conditions, 0)),
    }
}

/// The actions of a text.
pub(crate) fn actions_in(alloc: Global, text: &str) -> Result<Vec<Action>, EditFault>
    ensures ok { IfOk result (λ v. read_part Actions action_of (Some text.now) ≡ Ok v.items) }
    ensures err { IfErr result (IsEditFault (read_part Actions action_of (Some text.now))) }
{
    match entries_in(alloc, text)? {
        Some(entries) => all_actions(alloc, &entries),
        None => Err(bad(RulePart::Actions, 0)),
    }
}

/// The conditions of a text that may be absent.
#[tactic(auto, unfolding(crate::specs::Reading::all_read))]
fn maybe_conditions(alloc: Global, text: &Option<Txt>) -> Result<Vec<Condition>, EditFault>
    ensures ok { IfOk result (λ v. read_part Conditions condition_of text.now ≡ Ok v.items) }
    ensures err { IfErr result (IsEditFault (read_part Conditions condition_of text.now)) }
{
    match text {
        Some(text) => conditions_in(alloc, text.as_str()),
        None => Ok(Vec::new(alloc)),
    }
}

/// The actions of a text that may be absent.
#[tactic(auto, unfolding(crate::specs::Reading::all_read))]
fn maybe_actions(alloc: Global, text: &Option<Txt>) -> Result<Vec<Action>, EditFault>
    ensures ok { IfOk result (λ v. read_part Actions action_of text.now ≡ Ok v.items) }
    ensures err { IfErr result (IsEditFault (read_part Actions action_of text.now)) }
{
    match text {
        Some(text) => actions_in(alloc, text.as_str()),
        None => Ok(Vec::new(alloc)),
    }
}

/// The stage of a text.
fn stage_of(text: &Option<Txt>) -> Stage
    ensures { result ≡ stage_of text.now }
{
    match text {
        Some(text) => {
            if text.as_str() == "pre" {
                Stage::Pre
            } else if text.as_str() == "post" {
                Stage::Post
            } else {
                Stage::Plain
            }
        }
        None => Stage::Plain,
    }
}

/// How many conditions have to hold.
fn op_of(text: &Option<Txt>) -> RuleOp
    ensures { result ≡ op_of text.now }
{
    match text {
        Some(text) => {
            if text.as_str() == "or" {
                RuleOp::Or
            } else {
                RuleOp::And
            }
        }
        None => RuleOp::And,
    }
}

/// The rule of a row with this id, dead or alive. Its conditions are read before its actions.
///
/// # Errors
///
/// `BadRule` where a text is no JSON array, with the place 0, or else with the place of its first entry that is no condition or no
/// action by docs/FORMATS.md.
#[tactic(auto, unfolding(crate::specs::Reading::read_rule))]
pub fn read_rule(alloc: Global, id: &Txt, row: &RuleRow) -> Result<Rule, EditFault>
    ensures ok { IfOk result (λ rule. read_rule id.now row.now ≡ Ok rule) }
    ensures err { IfErr result (IsEditFault (read_rule id.now row.now)) }
{
    let conditions = maybe_conditions(alloc, &row.conditions)?;
    let actions = maybe_actions(alloc, &row.actions)?;
    Ok(Rule {
        id: id.copy()?,
        stage: stage_of(&row.stage),
        op: op_of(&row.conditions_op),
        conditions: Items::new(conditions),
        actions: Items::new(actions),
    })
}
