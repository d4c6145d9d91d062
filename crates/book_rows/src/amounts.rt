//! Amounts of money as texts.
ghost use Rattle.std.specs.Prelude.{◌≡◌, ◌<◌, ◌^◌, IfSome};
ghost use Rattle.book_rows.specs.Amounts.{fraction, cents_from};

/// The most digits before a point.
const MOST_DIGITS: usize = 13;

/// The cents of a whole number and what follows it: a point, and one or two digits.
fn fraction(whole: u64, text: &[u8]) -> Option<u64>
    requires { whole < 10 ^ 13 }
    ensures value { result ≡ fraction whole text.now }
    ensures small { IfSome result (λ n. n < 10 ^ 15) }
{
    match text {
        [point, tenths] => {
            if *point == b'.' && tenths.is_ascii_digit() {
                Some(whole * 100 + u64::from(*tenths - b'0') * 10)
            } else {
                None
            }
        }
        [point, tenths, hundredths] => {
            if *point == b'.' && tenths.is_ascii_digit() && hundredths.is_ascii_digit() {
                Some(whole * 100 + u64::from(*tenths - b'0') * 10 + u64::from(*hundredths - b'0'))
            } else {
                None
            }
        }
        _ => None,
    }
}

/// The cents of a text without a sign, if it is 1 to 13 digits, and optionally a point with one or two digits behind it.
pub fn cents(text: &[u8]) -> Option<u64>
    ensures value { result ≡ cents_from 0 0 text.now }
    ensures small { IfSome result (λ n. n < 10 ^ 15) }
{
    let mut whole: u64 = 0;
    for (i, byte) in text.iter().enumerate() {
        let byte = *byte;
        if byte.is_ascii_digit() {
            if i >= MOST_DIGITS {
                return None;
            }
            whole = whole * 10 + u64::from(byte - b'0');
        } else if i == 0 {
            return None;
        } else {
            return fraction(whole, &text[i..]);
        }
    }
    if text.is_empty() {
        None
    } else {
        Some(whole * 100)
    }
}
