//! Judges the values of options.
ghost use Rattle.std.specs.Prelude.{◌≡◌, IfSome};
ghost use Rattle.std.specs.List.{list_all};
ghost use Rattle.std.specs.Char.{is_ascii_digit};
ghost use Rattle.budget_top.specs.Words as spec;
ghost use Rattle.budget_top.specs.Words.{IsCountIn};

use crate::words::Mode;

/// The most that a count may be where no book is generated.
const MOST: u32 = 1_000_000;

/// The most transactions that are generated.
const MOST_GENERATED: u32 = 100_000;

/// The longest name.
const LONGEST_NAME: usize = 64;

/// Whether each byte is a digit.
fn are_digits(text: &[u8]) -> bool
    ensures { result ≡ list_all is_ascii_digit text.now }
{
    text.iter().all(u8::is_ascii_digit)
}

/// Whether a text has digits alone, and no `0` in front.
fn is_plain_number(text: &[u8]) -> bool
    ensures { result ≡ spec.is_plain_number text.now }
{
    are_digits(text) && !matches!(text, [b'0', ..])
}

/// The most that a count may be in a mode.
pub fn most_of(mode: Mode) -> u32
    ensures { result ≡ spec.most_of mode }
{
    match mode {
        Mode::Generate => MOST_GENERATED,
        Mode::Merge | Mode::Device | Mode::Serve | Mode::World => MOST,
    }
}

/// The number from 1 to a greatest one that a text says by its plain digits.
pub fn count_of(text: &str, most: u32) -> Option<u32>
    ensures is { result ≡ spec.count_of most text.now }
    ensures within { IfSome result (IsCountIn most) }
{
    if !is_plain_number(text.as_bytes()) {
        return None;
    }
    match text.parse::<u32>() {
        Ok(count) => (1..=most).contains(&count).then_some(count),
        Err(_) => None,
    }
}

/// Whether a byte may stand in a name.
fn is_name_byte(byte: u8) -> bool
    ensures { result ≡ spec.is_name_byte byte }
{
    byte.is_ascii_alphanumeric() || byte == b'-' || byte == b'_'
}

/// Whether each byte may stand in a name.
fn are_name_bytes(bytes: &[u8]) -> bool
    ensures { result ≡ list_all spec.is_name_byte bytes.now }
{
    bytes.iter().all(|byte| is_name_byte(*byte))
}

/// Whether the text is one to sixty-four of `0-9A-Za-z_-`.
pub fn is_name(text: &str) -> bool
    ensures { result ≡ spec.is_name text.now }
{
    (1..=LONGEST_NAME).contains(&text.len()) && are_name_bytes(text.as_bytes())
}
