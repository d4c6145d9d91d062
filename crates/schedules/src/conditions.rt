//! Whether the JSON of a rule's conditions and actions can be read.
ghost use Rattle.std.specs.Prelude.{◌≡◌, Some, IfSome, option_map};
ghost use Rattle.serde_json.specs.View.{view, items_view};
ghost use Rattle.field_values.specs.Value.{HoldsNumber};
ghost use Rattle.schedules.specs.Conditions.{says, is_words, is_id, all_of, are_words, exact, amount_at, is_between, is_date, is_keyed, is_flag, is_same_op, is_list_op, is_part_op, is_near_op, is_order_op, is_account_field, is_payee_field, is_id_field, is_words_field, is_id_test, is_words_test, is_amount_test, is_date_test, is_flag_test, is_test, is_set, asks_way, is_condition, is_set_op, is_words_op, is_setting, is_action};

use crate::dates::day_of_text;
use field_values::value::LARGEST;
use serde_json::Value;

/// Whether a value is this text.
pub(crate) fn says(value: Option<&Value>, word: &str) -> bool
    ensures { result ≡ says (option_map (λ v. view v.now) value.entry) word.now }
{
    match value {
        None => false,
        Some(value) => match value.as_str() {
            None => false,
            Some(text) => text == word,
        },
    }
}

/// Whether a value is a text.
pub(crate) fn is_words(value: Option<&Value>) -> bool
    ensures { result ≡ is_words (option_map (λ v. view v.now) value.entry) }
{
    match value {
        None => false,
        Some(value) => value.as_str().is_some(),
    }
}

/// Whether a value is a text or null.
fn is_id(value: Option<&Value>) -> bool
    ensures { result ≡ is_id (option_map (λ v. view v.now) value.entry) }
{
    match value {
        None => false,
        Some(value) => value.as_str().is_some() || value.as_null().is_some(),
    }
}

/// Whether all entries are texts.
fn all_words(entries: &Vec<Value>) -> bool
    ensures { result ≡ all_of (λ d. is_words (Some d)) (items_view entries.now.items) }
{
    for entry in entries {
        if !is_words(Some(entry)) {
            return false;
        }
    }
    true
}

/// Whether a value is a list of texts.
fn are_words(value: Option<&Value>) -> bool
    ensures { result ≡ are_words (option_map (λ v. view v.now) value.entry) }
{
    match value {
        None => false,
        Some(value) => match value.as_array() {
            None => false,
            Some(entries) => all_words(entries),
        },
    }
}

/// A number, if it is no further from 0 than an amount may be.
fn exact(number: i64) -> Option<i64>
    ensures value { result ≡ exact number }
    ensures held { IfSome result (λ n. HoldsNumber n) }
{
    if -LARGEST <= number && number <= LARGEST {
        Some(number)
    } else {
        None
    }
}

/// The whole number of a value, if it may be an amount.
pub(crate) fn amount_at(value: Option<&Value>) -> Option<i64>
    ensures value { result ≡ amount_at (option_map (λ v. view v.now) value.entry) }
    ensures held { IfSome result (λ n. HoldsNumber n) }
{
    match value {
        None => None,
        Some(value) => match value.as_i64() {
            None => None,
            Some(number) => exact(number),
        },
    }
}

/// Whether a value is an object with the two ends of a range of amounts, in either order.
fn is_between(value: Option<&Value>) -> bool
    ensures { result ≡ is_between (option_map (λ v. view v.now) value.entry) }
{
    match value {
        None => false,
        Some(value) => {
            amount_at(value.get("num1")).is_some() && amount_at(value.get("num2")).is_some()
        }
    }
}

/// Whether a value is the text of a day.
fn is_date(value: Option<&Value>) -> bool
    ensures { result ≡ is_date (option_map (λ v. view v.now) value.entry) }
{
    match value {
        None => false,
        Some(value) => match value.as_str() {
            None => false,
            Some(text) => day_of_text(text).is_some(),
        },
    }
}

/// Whether a value is an object.
fn is_keyed(value: Option<&Value>) -> bool
    ensures { result ≡ is_keyed (option_map (λ v. view v.now) value.entry) }
{
    match value {
        None => false,
        Some(value) => value.is_object(),
    }
}

/// Whether a value is true or false.
fn is_flag(value: Option<&Value>) -> bool
    ensures { result ≡ is_flag (option_map (λ v. view v.now) value.entry) }
{
    match value {
        None => false,
        Some(value) => value.as_bool().is_some(),
    }
}

/// Whether an op asks for a value, or for any other.
fn is_same_op(op: Option<&Value>) -> bool
    ensures { result ≡ is_same_op (option_map (λ v. view v.now) op.entry) }
{
    says(op, "is") || says(op, "isNot")
}

/// Whether an op compares with a list.
fn is_list_op(op: Option<&Value>) -> bool
    ensures { result ≡ is_list_op (option_map (λ v. view v.now) op.entry) }
{
    says(op, "oneOf") || says(op, "notOneOf")
}

/// Whether an op looks for a part of a text.
fn is_part_op(op: Option<&Value>) -> bool
    ensures { result ≡ is_part_op (option_map (λ v. view v.now) op.entry) }
{
    says(op, "contains") || says(op, "doesNotContain")
}

/// Whether an op asks for a value, or one near to it.
pub(crate) fn is_near_op(op: Option<&Value>) -> bool
    ensures { result ≡ is_near_op (option_map (λ v. view v.now) op.entry) }
{
    says(op, "is") || says(op, "isapprox")
}

/// Whether an op asks for what is greater or less.
fn is_order_op(op: Option<&Value>) -> bool
    ensures { result ≡ is_order_op (option_map (λ v. view v.now) op.entry) }
{
    (says(op, "gt") || says(op, "gte")) || (says(op, "lt") || says(op, "lte"))
}

/// Whether a field is the account.
pub(crate) fn is_account_field(field: Option<&Value>) -> bool
    ensures { result ≡ is_account_field (option_map (λ v. view v.now) field.entry) }
{
    says(field, "acct") || says(field, "account")
}

/// Whether a field is the payee.
pub(crate) fn is_payee_field(field: Option<&Value>) -> bool
    ensures { result ≡ is_payee_field (option_map (λ v. view v.now) field.entry) }
{
    says(field, "description") || says(field, "payee")
}

/// Whether a field is an id.
fn is_id_field(field: Option<&Value>) -> bool
    ensures { result ≡ is_id_field (option_map (λ v. view v.now) field.entry) }
{
    is_account_field(field) || (is_payee_field(field) || says(field, "category"))
}

/// Whether a field is a text.
fn is_words_field(field: Option<&Value>) -> bool
    ensures { result ≡ is_words_field (option_map (λ v. view v.now) field.entry) }
{
    says(field, "imported_description") || (says(field, "imported_payee") || says(field, "notes"))
}

/// Whether an op and a value can test an id.
fn is_id_test(op: Option<&Value>, value: Option<&Value>) -> bool
    ensures { result ≡ is_id_test (option_map (λ v. view v.now) op.entry) (option_map (λ v. view v.now) value.entry) }
{
    (is_same_op(op) && is_id(value)) || (is_list_op(op) && are_words(value))
}

/// Whether an op and a value can test a text.
fn is_words_test(op: Option<&Value>, value: Option<&Value>) -> bool
    ensures { result ≡ is_words_test (option_map (λ v. view v.now) op.entry) (option_map (λ v. view v.now) value.entry) }
{
    ((is_same_op(op) || is_part_op(op)) && is_words(value)) || (is_list_op(op) && are_words(value))
}

/// Whether an op and a value can test an amount.
fn is_amount_test(op: Option<&Value>, value: Option<&Value>) -> bool
    ensures { result ≡ is_amount_test (option_map (λ v. view v.now) op.entry) (option_map (λ v. view v.now) value.entry) }
{
    ((is_near_op(op) || is_order_op(op)) && amount_at(value).is_some())
        || (says(op, "isbetween") && is_between(value))
}

/// Whether an op and a value can test a day.
fn is_date_test(op: Option<&Value>, value: Option<&Value>) -> bool
    ensures { result ≡ is_date_test (option_map (λ v. view v.now) op.entry) (option_map (λ v. view v.now) value.entry) }
{
    ((is_near_op(op) || is_order_op(op)) && is_date(value)) || (is_near_op(op) && is_keyed(value))
}

/// Whether an op and a value can test a flag.
fn is_flag_test(op: Option<&Value>, value: Option<&Value>) -> bool
    ensures { result ≡ is_flag_test (option_map (λ v. view v.now) op.entry) (option_map (λ v. view v.now) value.entry) }
{
    says(op, "is") && is_flag(value)
}

/// Whether a field, an op and a value go together.
#[tactic(auto, unfolding(crate::specs::Conditions::is_test))]
fn is_test(field: Option<&Value>, op: Option<&Value>, value: Option<&Value>) -> bool
    ensures { result ≡ is_test (option_map (λ v. view v.now) field.entry) (option_map (λ v. view v.now) op.entry) (option_map (λ v. view v.now) value.entry) }
{
    (is_id_field(field) && is_id_test(op, value))
        || ((is_words_field(field) && is_words_test(op, value))
            || ((says(field, "amount") && is_amount_test(op, value))
                || ((says(field, "date") && is_date_test(op, value))
                    || (says(field, "cleared") && is_flag_test(op, value)))))
}

/// Whether a value is true.
fn is_set(value: Option<&Value>) -> bool
    ensures { result ≡ is_set (option_map (λ v. view v.now) value.entry) }
{
    match value {
        None => false,
        Some(value) => match value.as_bool() {
            None => false,
            Some(set) => set,
        },
    }
}

/// Whether options ask for money coming in or going out alone.
fn asks_way(options: Option<&Value>) -> bool
    ensures { result ≡ asks_way (option_map (λ v. view v.now) options.entry) }
{
    match options {
        None => false,
        Some(options) => is_set(options.get("inflow")) || is_set(options.get("outflow")),
    }
}

/// Whether an entry is a condition.
#[tactic(auto, unfolding(crate::specs::Conditions::is_condition))]
pub(crate) fn is_condition(entry: &Value) -> bool
    ensures { result ≡ is_condition (view entry.now) }
{
    !asks_way(entry.get("options"))
        && is_test(entry.get("field"), entry.get("op"), entry.get("value"))
}

/// Whether the op of an action is the one that sets a field, which need not be said.
fn is_set_op(op: Option<&Value>) -> bool
    ensures { result ≡ is_set_op (option_map (λ v. view v.now) op.entry) }
{
    op.is_none() || says(op, "set")
}

/// Whether the op of an action takes a text.
fn is_words_op(op: Option<&Value>) -> bool
    ensures { result ≡ is_words_op (option_map (λ v. view v.now) op.entry) }
{
    says(op, "prepend-notes") || (says(op, "append-notes") || says(op, "link-schedule"))
}

/// Whether a field can be set to a value.
fn is_setting(field: Option<&Value>, value: Option<&Value>) -> bool
    ensures { result ≡ is_setting (option_map (λ v. view v.now) field.entry) (option_map (λ v. view v.now) value.entry) }
{
    ((says(field, "category") || says(field, "description")) && is_id(value))
        || ((says(field, "notes") && is_words(value)) || (says(field, "cleared") && is_flag(value)))
}

/// Whether an entry is an action.
#[tactic(auto, unfolding(crate::specs::Conditions::is_action))]
pub(crate) fn is_action(entry: &Value) -> bool
    ensures { result ≡ is_action (view entry.now) }
{
    (is_set_op(entry.get("op")) && is_setting(entry.get("field"), entry.get("value")))
        || (is_words_op(entry.get("op")) && is_words(entry.get("value")))
}

/// Whether each entry is a condition.
pub(crate) fn are_conditions(entries: &Vec<Value>) -> bool
    ensures { result ≡ all_of is_condition (items_view entries.now.items) }
{
    for entry in entries {
        if !is_condition(entry) {
            return false;
        }
    }
    true
}

/// Whether each entry is an action.
pub(crate) fn are_actions(entries: &Vec<Value>) -> bool
    ensures { result ≡ all_of is_action (items_view entries.now.items) }
{
    for entry in entries {
        if !is_action(entry) {
            return false;
        }
    }
    true
}
