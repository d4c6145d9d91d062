//! Amounts of money as texts.
ghost use Rattle.std.specs.Prelude.{◌≡◌, ◌<◌, ◌^◌, IfSome};
ghost use Rattle.field_values.specs.Value.{HoldsNumber};
ghost use Rattle.rule_engine.specs.Days.{is_digit};
ghost use Rattle.bank_import.specs.Statement.{fraction, cents_from, amount_of_text};

/// The most digits before a point.
const MOST_DIGITS: usize = 13;

fn is_digit(byte: u8) -> bool
    ensures { result ≡ is_digit byte }
{
    byte >= b'0' && byte <= b'9'
}

/// The cents of a whole number and what follows it: a point, and one or two digits.
fn fraction(whole: u64, text: &[u8]) -> Option<u64>
    requires { whole < 10 ^ 13 }
    ensures value { result ≡ fraction whole text.now }
    ensures small { IfSome result (λ n. n < 10 ^ 15) }
{
    match text {
        [point, tenths] => {
            if *point == b'.' && is_digit(*tenths) {
                Some(whole * 100 + u64::from(*tenths - b'0') * 10)
            } else {
                None
            }
        }
        [point, tenths, hundredths] => {
            if *point == b'.' && is_digit(*tenths) && is_digit(*hundredths) {
                Some(whole * 100 + u64::from(*tenths - b'0') * 10 + u64::from(*hundredths - b'0'))
            } else {
                None
            }
        }
        _ => None,
    }
}

/// The cents of a text without a sign.
fn cents(text: &[u8]) -> Option<u64>
    ensures value { result ≡ cents_from 0 0 text.now }
    ensures small { IfSome result (λ n. n < 10 ^ 15) }
{
    let mut whole: u64 = 0;
    for (i, byte) in text.iter().enumerate() {
        let byte = *byte;
        if is_digit(byte) {
            if i >= MOST_DIGITS {
                return None;
            }
            whole = whole * 10 + u64::from(byte - b'0');
        } else if i == 0 {
            return None;
        } else {
            return fraction(whole, &text[i..]);
        }
    }
    if text.is_empty() {
        None
    } else {
        Some(whole * 100)
    }
}

/// The cents of a text: an optional `-`, 1 to 13 digits, and optionally a point with one or two digits.
#[tactic(auto, unfolding(crate::specs::Statement::amount_of_text))]
pub(crate) fn amount_of_text(text: &[u8]) -> Option<i64>
    ensures value { result ≡ amount_of_text text.now }
    ensures small { IfSome result HoldsNumber }
{
    match text {
        [] => None,
        [b'-', rest @ ..] => match cents(rest) {
            None => None,
            Some(n) => Some(-(n as i64)),
        },
        _ => match cents(text) {
            None => None,
            Some(n) => Some(n as i64),
        },
    }
}
