//! Whether a condition holds on a transaction.
ghost use Rattle.std.specs.Prelude.{◌≡◌, IfOk};
ghost use Rattle.std.specs.Option.{option_copied};
ghost use Rattle.rule_engine.specs.Conditions.{mapped_by, with_ids, is_id, is_one_id, id_holds, or_empty, text_is, text_is_one, text_has, text_holds, is_near, is_between, number_holds, is_between_op, amount_holds, day_holds_by, day_holds, same_flag, flag_holds, holds_in};

use crate::days::are_within;
use crate::folding::{has_folded_part, is_same_text};
use crate::rule::{CondField, CondOp, CondValue, Condition};
use book_rows::{Book, TxRow};
use field_values::{NoMemory, Txt};
use std::alloc::Global;

/// Whether the condition holds on the transaction, which need not be in the book. A condition on the payee or the category compares
/// what the transaction's own id stands for with what the condition's ids stand for, by the mappings of the book.
#[tactic(auto, unfolding(crate::specs::Conditions::holds, crate::specs::Conditions::holds_in))]
pub fn holds(
    alloc: Global,
    book: &Book,
    condition: &Condition,
    row: &TxRow,
) -> Result<bool, NoMemory>
    ensures { IfOk result (λ b. b ≡ holds_in book.now.rows row.now condition.now) }
{
    let field = condition.field;
    let op = condition.op;
    let value = &condition.value;
    match field {
        CondField::Acct => Ok(id_holds(book, field, op, value, row.acct.as_ref())),
        CondField::Description => { Ok(id_holds(book, field, op, value, book.resolved_payee(row))) }
        CondField::Category => { Ok(id_holds(book, field, op, value, book.resolved_category(row))) }
        CondField::ImportedDescription => {
            text_holds(alloc, op, value, or_empty(&row.imported_description))
        }
        CondField::Notes => text_holds(alloc, op, value, or_empty(&row.notes)),
        CondField::Amount => Ok(amount_holds(op, value, row.amount)),
        CondField::Date => Ok(day_holds(op, value, row.date)),
        CondField::Cleared => Ok(flag_holds(op, value, row.cleared)),
    }
}

/// A text, which is empty where there is none.
pub(crate) fn or_empty(text: &Option<Txt>) -> &str
    ensures { result.now ≡ or_empty text.now }
{
    match text {
        Some(text) => text.as_str(),
        None => "",
    }
}

/// What an id in a condition on this field stands for.
fn mapped<'a>(book: &'a Book, field: CondField, id: &'a Txt) -> &'a Txt
    ensures { result.now ≡ mapped_by book.now.rows field id.now }
{
    match field {
        CondField::Description => book.mapped_payee(id),
        CondField::Category => book.mapped_category(id),
        _ => id,
    }
}

/// Whether a test of ids holds: each id of the value is taken for what it stands for.
fn id_holds(book: &Book, field: CondField, op: CondOp, value: &CondValue, id: Option<&Txt>) -> bool
    ensures { result ≡ id_holds op (with_ids (mapped_by book.now.rows field) value.now) (option_copied id.entry) }
{
    match op {
        CondOp::Is => is_id(book, field, value, id),
        CondOp::IsNot => !is_id(book, field, value, id),
        CondOp::OneOf => is_one_id(book, field, value, id),
        CondOp::NotOneOf => !is_one_id(book, field, value, id),
        _ => false,
    }
}

fn is_id(book: &Book, field: CondField, value: &CondValue, id: Option<&Txt>) -> bool
    ensures { result ≡ is_id (with_ids (mapped_by book.now.rows field) value.now) (option_copied id.entry) }
{
    match (value, id) {
        (CondValue::Null, None) => true,
        (CondValue::Text(text), Some(id)) => id == mapped(book, field, text),
        _ => false,
    }
}

fn is_one_id(book: &Book, field: CondField, value: &CondValue, id: Option<&Txt>) -> bool
    ensures { result ≡ is_one_id (with_ids (mapped_by book.now.rows field) value.now) (option_copied id.entry) }
{
    match (value, id) {
        (CondValue::Texts(texts), Some(id)) => {
            texts
                .as_slice()
                .iter()
                .any(|text| id == mapped(book, field, text))
        }
        _ => false,
    }
}

fn text_holds(alloc: Global, op: CondOp, value: &CondValue, text: &str) -> Result<bool, NoMemory>
    ensures { IfOk result (λ b. b ≡ text_holds op value.now text.now) }
{
    match op {
        CondOp::Is => Ok(text_is(value, text)),
        CondOp::IsNot => Ok(!text_is(value, text)),
        CondOp::OneOf => Ok(text_is_one(value, text)),
        CondOp::NotOneOf => Ok(!text_is_one(value, text)),
        CondOp::Contains => text_has(alloc, value, text),
        CondOp::DoesNotContain => Ok(!text_has(alloc, value, text)?),
        _ => Ok(false),
    }
}

fn text_is(value: &CondValue, text: &str) -> bool
    ensures { result ≡ text_is value.now text.now }
{
    match value {
        CondValue::Text(other) => is_same_text(text, other.as_str()),
        _ => false,
    }
}

fn text_is_one(value: &CondValue, text: &str) -> bool
    ensures { result ≡ text_is_one value.now text.now }
{
    match value {
        CondValue::Texts(texts) => {
            texts
                .as_slice()
                .iter()
                .any(|other| is_same_text(text, other.as_str()))
        }
        _ => false,
    }
}

fn text_has(alloc: Global, value: &CondValue, text: &str) -> Result<bool, NoMemory>
    ensures { IfOk result (λ b. b ≡ text_has value.now text.now) }
{
    match value {
        CondValue::Text(part) => has_folded_part(alloc, text, part.as_str()),
        _ => Ok(false),
    }
}

/// Whether an amount is within seven and a half in a hundred of a number, rounded to the nearest
/// cent, a half up.
fn is_near(number: i64, amount: i64) -> bool
    ensures { result ≡ is_near number amount }
{
    let allowed = (u128::from(number.unsigned_abs()) * 75 + 500) / 1_000;
    u128::from(amount.abs_diff(number)) <= allowed
}

fn is_between(num1: i64, num2: i64, amount: i64) -> bool
    ensures { result ≡ is_between num1 num2 amount }
{
    (num1 <= amount && amount <= num2) || (num2 <= amount && amount <= num1)
}

fn number_holds(op: CondOp, number: i64, amount: i64) -> bool
    ensures { result ≡ number_holds op number amount }
{
    match op {
        CondOp::Is => amount == number,
        CondOp::IsApprox => is_near(number, amount),
        CondOp::Gt => number < amount,
        CondOp::Gte => number <= amount,
        CondOp::Lt => amount < number,
        CondOp::Lte => amount <= number,
        _ => false,
    }
}

fn amount_holds(op: CondOp, value: &CondValue, amount: i64) -> bool
    ensures { result ≡ amount_holds op value.now amount }
{
    match value {
        CondValue::Number(number) => number_holds(op, *number, amount),
        CondValue::Between { num1, num2 } => {
            is_between_op(op) && is_between(*num1, *num2, amount)
        }
        _ => false,
    }
}

fn is_between_op(op: CondOp) -> bool
    ensures { result ≡ is_between_op op }
{
    match op {
        CondOp::IsBetween => true,
        _ => false,
    }
}

fn day_holds_by(op: CondOp, wanted: u32, day: u32) -> bool
    ensures { result ≡ day_holds_by op wanted day }
{
    match op {
        CondOp::Is => day == wanted,
        CondOp::IsApprox => are_within(2, day, wanted),
        CondOp::Gt => wanted < day,
        CondOp::Gte => wanted <= day,
        CondOp::Lt => day < wanted,
        CondOp::Lte => day <= wanted,
        _ => false,
    }
}

fn day_holds(op: CondOp, value: &CondValue, day: Option<u32>) -> bool
    ensures { result ≡ day_holds op value.now day }
{
    match (value, day) {
        (CondValue::Date(wanted), Some(day)) => day_holds_by(op, *wanted, day),
        _ => false,
    }
}

/// Whether two flags are the same.
#[tactic(auto, unfolding(crate::specs::Conditions::same_flag))]
pub(crate) fn same_flag(a: bool, b: bool) -> bool
    ensures { result ≡ same_flag a b }
{
    a == b
}

fn flag_holds(op: CondOp, value: &CondValue, set: bool) -> bool
    ensures { result ≡ flag_holds op value.now set }
{
    match (op, value) {
        (CondOp::Is, CondValue::Flag(wanted)) => same_flag(*wanted, set),
        _ => false,
    }
}
