//! What the rule of a schedule says.
ghost use Rattle.std.specs.Prelude.{◌≡◌, ◌<◌, option_map, option_and_then, is_some, IfOk, IfErr, IfSome, Ok, Some};
ghost use Rattle.std.specs.Option.{option_copied};
ghost use Rattle.serde_json.specs.Read.{read};
ghost use Rattle.serde_json.specs.View.{view, items_view};
ghost use Rattle.field_values.specs.Value.{HoldsNumber};
ghost use Rattle.book_rows.specs.declared.fault.EditFault.TheVariants.{BadRecur};
ghost use Rattle.book_rows.specs.declared.fault.RecurPart.TheVariants.{Rule};
ghost use Rattle.book_edits.specs.Faults.{IsEditFault};
ghost use Rattle.schedules.specs.Days.{said};
ghost use Rattle.schedules.specs.Reading.{or_recur};
ghost use Rattle.schedules.specs.Conditions.{is_condition, is_action};
ghost use Rattle.schedules.specs.Terms.{agreed, one_day, first_where, fits, names, words_of, middle, between, amount_meant, amount_in, days_meant, terms_in, entries_by, entries_of, terms_by, rule_terms, live_rule, terms_of};

use crate::conditions::{
    amount_at, are_actions, are_conditions, is_account_field, is_near_op, is_payee_field, is_words,
    says,
};
use crate::dates::day_of_text;
use crate::reading::read_value;
use crate::recurrence::{Ending, Frequency, Recurrence, Weekends};
use book_rows::{Book, EditFault, RecurPart, RuleRow, ScheduleRow};
use field_values::{NoMemory, Txt};
use serde_json::Value;
use std::alloc::Global;

/// What a schedule says: from which account, to whom, how much in cents, and when.
#[derive(Debug, Drop)]
pub(crate) struct Agreed {
    /// The id of the account.
    pub account: Txt,
    /// The id of the payee, if there is one.
    pub payee: Option<Txt>,
    /// The amount, in cents.
    pub amount: i64,
    /// The days.
    pub days: Recurrence,
}

/// The refusal for a rule that is none of a schedule.
fn no_rule() -> EditFault
    ensures { result ≡ BadRecur Rule }
{
    EditFault::BadRecur {
        part: RecurPart::Rule,
    }
}

/// One day alone, which does not move.
fn one_day(alloc: Global, day: u32) -> Recurrence
    requires { day < 84_006 }
    ensures { said result ≡ one_day day }
{
    Recurrence {
        frequency: Frequency::Daily,
        interval: 1,
        start: day,
        patterns: Vec::new(alloc),
        ending: Ending::Until(day),
        weekends: Weekends::Stay,
    }
}

/// What a condition is about.
#[derive(Clone, Copy, Debug, Drop, PartialEq, Eq)]
pub(crate) enum About {
    /// When.
    Date,
    /// From which account.
    Account,
    /// To whom.
    Payee,
    /// How much.
    Amount,
}

/// Whether an entry is about this; an account and a payee have to be named.
fn fits(about: About, entry: &Value) -> bool
    ensures { result ≡ fits about (view entry.now) }
{
    let field = entry.get("field");
    match about {
        About::Date => says(field, "date"),
        About::Amount => says(field, "amount"),
        About::Account => is_account_field(field) && names(entry),
        About::Payee => is_payee_field(field) && names(entry),
    }
}

/// Whether an entry names somebody or something.
fn names(entry: &Value) -> bool
    ensures { result ≡ names (view entry.now) }
{
    says(entry.get("op"), "is") && is_words(entry.get("value"))
}

/// The first entry about this.
fn first_about(about: About, entries: &Vec<Value>) -> Option<&Value>
    ensures { option_map (λ v. view v.now) result ≡ first_where (fits about) (items_view entries.now.items) }
{
    for entry in entries {
        if fits(about, entry) {
            return Some(entry);
        }
    }
    None
}

/// The text of an entry's value, if it is one.
fn words_of(alloc: Global, entry: Option<&Value>) -> Result<Option<Txt>, NoMemory>
    ensures { IfOk result (λ t. t ≡ option_and_then words_of (option_map (λ v. view v.now) entry.entry)) }
{
    match entry {
        None => Ok(None),
        Some(entry) => match entry.get("value") {
            None => Ok(None),
            Some(value) => match value.as_str() {
                None => Ok(None),
                Some(text) => Ok(Some(Txt::from_text(alloc, text)?)),
            },
        },
    }
}

/// The middle of two numbers; a half is rounded up.
fn middle(a: Option<i64>, b: Option<i64>) -> i64
    requires first { IfSome a (λ n. HoldsNumber n) }
    requires second { IfSome b (λ n. HoldsNumber n) }
    ensures { result ≡ middle a b }
{
    match (a, b) {
        (Some(a), Some(b)) => (a + b + 1).div_euclid(2),
        _ => 0,
    }
}

/// The middle of the two numbers of a value.
fn between(value: Option<&Value>) -> i64
    ensures { result ≡ between (option_map (λ v. view v.now) value.entry) }
{
    match value {
        None => 0,
        Some(value) => middle(amount_at(value.get("num1")), amount_at(value.get("num2"))),
    }
}

/// The amount that an entry about it means.
fn amount_meant(entry: &Value) -> i64
    ensures { result ≡ amount_meant (view entry.now) }
{
    let op = entry.get("op");
    let value = entry.get("value");
    if is_near_op(op) {
        amount_at(value).unwrap_or(0)
    } else if says(op, "isbetween") {
        between(value)
    } else {
        0
    }
}

/// The amount that entries mean; 0 where none is about it.
fn amount_in(entries: &Vec<Value>) -> i64
    ensures { result ≡ amount_in (items_view entries.now.items) }
{
    match first_about(About::Amount, entries) {
        None => 0,
        Some(entry) => amount_meant(entry),
    }
}

/// The days that the value of an entry about the date means.
fn days_meant(alloc: Global, value: Option<&Value>) -> Result<Recurrence, EditFault>
    ensures ok { IfOk result (λ r. days_meant (option_map (λ v. view v.now) value.entry) ≡ Ok (said r)) }
    ensures err { IfErr result (IsEditFault (or_recur (days_meant (option_map (λ v. view v.now) value.entry)))) }
{
    let Some(value) = value else {
        return Err(no_rule());
    };
    let Some(text) = value.as_str() else {
        return read_value(alloc, value);
    };
    match day_of_text(text) {
        Some(day) => Ok(one_day(alloc, day)),
        None => read_value(alloc, value),
    }
}

/// What readable conditions say.
#[tactic(auto, unfolding(crate::specs::Terms::terms_in))]
fn terms_in(alloc: Global, entries: &Vec<Value>) -> Result<Agreed, EditFault>
    ensures ok { IfOk result (λ t. terms_in (items_view entries.now.items) ≡ Ok (agreed t)) }
    ensures err { IfErr result (IsEditFault (or_recur (terms_in (items_view entries.now.items)))) }
{
    let Some(date) = first_about(About::Date, entries) else {
        return Err(no_rule());
    };
    let Some(account) = words_of(alloc, first_about(About::Account, entries))? else {
        return Err(no_rule());
    };
    let days = days_meant(alloc, date.get("value"))?;
    let payee = words_of(alloc, first_about(About::Payee, entries))?;
    Ok(Agreed {
        account,
        payee,
        amount: amount_in(entries),
        days,
    })
}

/// The value of a JSON text, if it is one.
fn value_in(alloc: Global, text: &Txt) -> Result<Option<Value>, NoMemory>
    ensures { IfOk result (λ o. option_map (λ v. view v) o ≡ read text.now) }
{
    match Value::from_str(alloc, text.as_str()) {
        Ok(value) => Ok(Some(value)),
        Err(error) => {
            if error.is_memory() {
                Err(NoMemory)
            } else {
                Ok(None)
            }
        }
    }
}

/// Whether a text, if it is there, is a list of actions.
fn has_actions(alloc: Global, text: &Option<Txt>) -> Result<bool, NoMemory>
    ensures { IfOk result (λ b. b ≡ is_some (entries_of is_action text.now)) }
{
    let Some(text) = text else {
        return Ok(true);
    };
    match value_in(alloc, text)? {
        None => Ok(false),
        Some(value) => match value.as_array() {
            None => Ok(false),
            Some(entries) => Ok(are_actions(entries)),
        },
    }
}

/// What conditions say, where each is readable and the actions are.
fn terms_by(
    alloc: Global,
    conditions: &Vec<Value>,
    actions: &Option<Txt>,
) -> Result<Agreed, EditFault>
    ensures ok { IfOk result (λ t. terms_by (entries_by is_condition (Some (items_view conditions.now.items))) actions.now ≡ Ok (agreed t)) }
    ensures err { IfErr result (IsEditFault (or_recur (terms_by (entries_by is_condition (Some (items_view conditions.now.items))) actions.now))) }
{
    if !are_conditions(conditions) {
        return Err(no_rule());
    }
    if !has_actions(alloc, actions)? {
        return Err(no_rule());
    }
    terms_in(alloc, conditions)
}

/// What a rule says as the rule of a schedule.
fn rule_terms(alloc: Global, row: &RuleRow) -> Result<Agreed, EditFault>
    ensures ok { IfOk result (λ t. rule_terms row.now ≡ Ok (agreed t)) }
    ensures err { IfErr result (IsEditFault (or_recur (rule_terms row.now))) }
{
    let Some(text) = &row.conditions else {
        return terms_by(alloc, &Vec::new(alloc), &row.actions);
    };
    let Some(value) = value_in(alloc, text)? else {
        return Err(no_rule());
    };
    match value.as_array() {
        None => Err(no_rule()),
        Some(conditions) => terms_by(alloc, conditions, &row.actions),
    }
}

/// The row of a rule that is live.
fn live_rule<'a>(book: &'a Book, id: &Txt) -> Option<&'a RuleRow>
    ensures { option_copied result ≡ live_rule book.now.rows id.now }
{
    match book.rule(id) {
        Some(row) => { if row.tombstone { None } else { Some(row) } }
        None => None,
    }
}

/// What a schedule says, by its rule.
pub(crate) fn terms_of(alloc: Global, book: &Book, row: &ScheduleRow) -> Result<Agreed, EditFault>
    ensures ok { IfOk result (λ t. terms_of book.now.rows row.now ≡ Ok (agreed t)) }
    ensures err { IfErr result (IsEditFault (or_recur (terms_of book.now.rows row.now))) }
{
    let Some(id) = &row.rule else {
        return Err(no_rule());
    };
    match live_rule(book, id) {
        None => Err(no_rule()),
        Some(rule) => rule_terms(alloc, rule),
    }
}
