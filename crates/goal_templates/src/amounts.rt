//! Amounts as texts.
ghost use Rattle.std.specs.Prelude.{◌≡◌, ◌+◌, ◌<◌, ◌^◌, ◌++◌, IfSome, OnOk, string_bytes};
ghost use Rattle.goal_templates.specs.Amounts.{cents_of, cents_text};

use book_rows::cents;
use field_values::NoMemory;
use itoa::Buffer;

/// The cents that a text writes.
#[tactic(auto, unfolding(crate::specs::Amounts::cents_of))]
pub(crate) fn cents_of(text: &str) -> Option<u64>
    ensures value { result ≡ cents_of text.now }
    ensures small { IfSome result (λ n. n < 10 ^ 15) }
{
    cents(text.as_bytes())
}

/// A digit.
fn digit(n: u64) -> char
    requires { n < 10 }
    ensures { result ≡ 48 + n }
{
    char::from(b'0' + n as u8)
}

/// Puts cents behind a text.
pub(crate) fn push_cents(text: &mut String, cents: u64) -> Result<(), NoMemory>
    ensures { OnOk result (string_bytes text.new ≡ string_bytes text.old ++ cents_text cents) }
{
    let mut buffer = Buffer::new();
    text.push_str(buffer.format(cents / 100))?;
    if cents % 100 != 0 {
        text.push('.')?;
        text.push(digit(cents / 10 % 10))?;
        text.push(digit(cents % 10))?;
    }
    Ok(())
}
