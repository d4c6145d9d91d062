//! The forms of words: amounts, flags, dates, months, and how a rule runs.
ghost use Rattle.std.specs.Prelude.{◌≡◌};
ghost use Rattle.command_lines.specs.Forms.{amount_of, flag_of, date_of, month_of, stage_of, op_of};

use book_rows::{four_digits_at, two_digits_at};
use device_core::{RuleOp, Stage};
use itoa::Buffer;

/// The amount whose decimal text this is: with no plus, no leading zero and no minus before 0, and of 64 bits.
pub(crate) fn amount_in(text: &str) -> Option<i64>
    ensures { result ≡ amount_of text.now }
{
    let Ok(amount) = text.parse::<i64>() else {
        return None;
    };
    let mut buffer = Buffer::new();
    if buffer.format(amount) == text {
        Some(amount)
    } else {
        None
    }
}

/// The flag that `0` or `1` writes.
pub(crate) fn flag_in(text: &str) -> Option<bool>
    ensures { result ≡ flag_of text.now }
{
    if text == "1" {
        return Some(true);
    }
    if text == "0" {
        return Some(false);
    }
    None
}

/// The stage of a rule that a word names: `none` is neither of the others.
pub(crate) fn stage_in(text: &str) -> Option<Stage>
    ensures { result ≡ stage_of text.now }
{
    if text == "pre" {
        return Some(Stage::Pre);
    }
    if text == "none" {
        return Some(Stage::Plain);
    }
    if text == "post" {
        return Some(Stage::Post);
    }
    None
}

/// How many conditions of a rule have to hold, by a word.
pub(crate) fn op_in(text: &str) -> Option<RuleOp>
    ensures { result ≡ op_of text.now }
{
    if text == "and" {
        return Some(RuleOp::And);
    }
    if text == "or" {
        return Some(RuleOp::Or);
    }
    None
}

/// The number that eight digits write.
#[tactic(auto, unfolding(crate::specs::Forms::date_of))]
pub(crate) fn date_in(text: &str) -> Option<u32>
    ensures { result ≡ date_of text.now }
{
    let text = text.as_bytes();
    if text.len() != 8 {
        return None;
    }
    let year = four_digits_at(text, 0)?;
    let day = four_digits_at(text, 4)?;
    Some(10_000 * year + day)
}

/// The number YYYYMM that four digits, `-` and two digits write.
#[tactic(auto, unfolding(crate::specs::Forms::month_of))]
pub(crate) fn month_in(text: &str) -> Option<u32>
    ensures { result ≡ month_of text.now }
{
    let text = text.as_bytes();
    if text.len() != 7 || text[4] != b'-' {
        return None;
    }
    let year = four_digits_at(text, 0)?;
    let month = two_digits_at(text, 5)?;
    Some(100 * year + month)
}
