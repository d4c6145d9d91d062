//! The words of conditions.
ghost use Rattle.std.specs.Prelude.{◌≡◌};
ghost use Rattle.rule_engine.specs.Reading.{field_word, text_op_word, order_op_word, op_word};

use crate::rule::{CondField, CondOp};

/// The column of a word.
pub(crate) fn field_word(text: &str) -> Option<CondField>
    ensures { result ≡ field_word text.now }
{
    if text == "acct" || text == "account" {
        Some(CondField::Acct)
    } else if text == "description" || text == "payee" {
        Some(CondField::Description)
    } else if text == "category" {
        Some(CondField::Category)
    } else if text == "imported_description" || text == "imported_payee" {
        Some(CondField::ImportedDescription)
    } else if text == "notes" {
        Some(CondField::Notes)
    } else if text == "amount" {
        Some(CondField::Amount)
    } else if text == "date" {
        Some(CondField::Date)
    } else if text == "cleared" {
        Some(CondField::Cleared)
    } else {
        None
    }
}

/// The test of a word, where it is one for ids or texts.
fn text_op_word(text: &str) -> Option<CondOp>
    ensures { result ≡ text_op_word text.now }
{
    if text == "is" {
        Some(CondOp::Is)
    } else if text == "isNot" {
        Some(CondOp::IsNot)
    } else if text == "oneOf" {
        Some(CondOp::OneOf)
    } else if text == "notOneOf" {
        Some(CondOp::NotOneOf)
    } else if text == "contains" {
        Some(CondOp::Contains)
    } else if text == "doesNotContain" {
        Some(CondOp::DoesNotContain)
    } else {
        None
    }
}

/// The test of a word, where it is one for amounts or days alone.
fn order_op_word(text: &str) -> Option<CondOp>
    ensures { result ≡ order_op_word text.now }
{
    if text == "isapprox" {
        Some(CondOp::IsApprox)
    } else if text == "isbetween" {
        Some(CondOp::IsBetween)
    } else if text == "gt" {
        Some(CondOp::Gt)
    } else if text == "gte" {
        Some(CondOp::Gte)
    } else if text == "lt" {
        Some(CondOp::Lt)
    } else if text == "lte" {
        Some(CondOp::Lte)
    } else {
        None
    }
}

/// The test of a word.
pub(crate) fn op_word(text: &str) -> Option<CondOp>
    ensures { result ≡ op_word text.now }
{
    match text_op_word(text) {
        Some(op) => Some(op),
        None => order_op_word(text),
    }
}
