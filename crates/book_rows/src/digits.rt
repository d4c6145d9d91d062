//! Numbers of a fixed count of digits, as in months, days and the ids of rows.
ghost use Rattle.std.specs.Prelude.{◌≡◌, ◌<◌, ◌+◌, IfSome, length};
ghost use Rattle.book_rows.specs.Months.{digit_of, two_at, four_at};

/// The number that a digit writes.
fn digit(byte: u8) -> Option<u32>
    ensures value { result ≡ digit_of byte }
    ensures small { IfSome result (λ n. n < 10) }
{
    if byte.is_ascii_digit() {
        Some((byte - b'0') as u32)
    } else {
        None
    }
}

/// The number that the two bytes from a place of a text on write, where both are digits 0 to 9.
pub fn two_digits_at(text: &[u8], at: usize) -> Option<u32>
    requires { at + 1 < length text.now }
    ensures value { result ≡ two_at text.now at }
    ensures small { IfSome result (λ n. n < 100) }
{
    let high = digit(text[at])?;
    let low = digit(text[at + 1])?;
    Some(10 * high + low)
}

/// The number that the four bytes from a place of a text on write, where all are digits 0 to 9.
pub fn four_digits_at(text: &[u8], at: usize) -> Option<u32>
    requires { at + 3 < length text.now }
    ensures value { result ≡ four_at text.now at }
    ensures small { IfSome result (λ n. n < 10_000) }
{
    let high = two_digits_at(text, at)?;
    let low = two_digits_at(text, at + 2)?;
    Some(100 * high + low)
}
