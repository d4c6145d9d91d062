//! Texts that are compared whatever their letters' case, by full case folding. In ASCII a letter has one other case and nothing else has
//! any, so texts of ASCII alone are compared byte by byte, and take no memory.
ghost use Rattle.std.specs.Prelude.{◌≡◌, IfOk, map};
ghost use Rattle.std.specs.Char.{to_ascii_lowercase};
ghost use Rattle.rule_engine.specs.Conditions.{folded, has_part, is_same_text};

use caseless::{default_case_fold_str, default_caseless_match_str};
use field_values::NoMemory;
use std::alloc::Global;

/// Whether two texts are one under case folding.
pub(crate) fn is_same_text(text: &str, other: &str) -> bool
    ensures { result ≡ is_same_text text.now other.now }
{
    if text.is_ascii() && other.is_ascii() {
        text.eq_ignore_ascii_case(other)
    } else {
        default_caseless_match_str(text, other)
    }
}

/// Whether a part stands somewhere in a text, both folded.
pub(crate) fn has_folded_part(alloc: Global, text: &str, part: &str) -> Result<bool, NoMemory>
    ensures { IfOk result (λ b. b ≡ has_part (folded part.now) (folded text.now)) }
{
    if text.is_ascii() && part.is_ascii() {
        return Ok(has_ascii_part(text.as_bytes(), part.as_bytes()));
    }
    let text = default_case_fold_str(alloc, text)?;
    let part = default_case_fold_str(alloc, part)?;
    Ok(has_part(text.as_str(), part.as_str()))
}

/// The same of texts of ASCII. At most places the first letter is another, and no more is looked at there.
fn has_ascii_part(text: &[u8], part: &[u8]) -> bool
    ensures { result ≡ has_part (map to_ascii_lowercase part.now) (map to_ascii_lowercase text.now) }
{
    let Some(first) = part.first() else {
        return true;
    };
    let first = first.to_ascii_lowercase();
    let mut at = 0;
    'starts: while at + part.len() <= text.len() {
        let is_begun = text[at].to_ascii_lowercase() == first;
        if is_begun && text[at..at + part.len()].eq_ignore_ascii_case(part) {
            return true;
        }
        at += 1;
    }
    false
}

fn has_part(text: &str, part: &str) -> bool
    ensures { result ≡ has_part part.now text.now }
{
    text.contains(part)
}
