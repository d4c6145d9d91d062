//! Reading the text of a timestamp.
ghost use Rattle.std.specs.Prelude.{◌≡◌, ◌+◌, ◌<◌, None, Some, IfOk, IfSome, if◌then◌else◌, slice_index, drop, pos, ◌≤ℤ◌, unsigned_abs, true, ◌&&◌, zip};
ghost use Rattle.std.specs.List.{fold};
ghost use Rattle.jiff_core.specs.Calendar.{days_from_civil};
ghost use Rattle.jiff_core.specs.Date.{epoch_day};
ghost use Rattle.hybrid_clock.specs.Stamp.{stamp_text, IsStamp};
ghost use Rattle.hybrid_clock.specs.Reading as spec;
ghost use Rattle.hybrid_clock.specs.Reading.{form, is_allowed, digit_at, two_at, three_at, four_at, hex_value, hex_at, is_date, is_moment, millis_in, read_stamp};

use crate::node::{Node, is_zeros};
use crate::stamp::{Stamp, StampFault, WINDOW};
use jiff_core::civil::Date;

/// `0` stands for a digit, `X` for an upper-case hexadecimal one, `N` for a letter or digit,
/// and any other character for itself.
const FORM: [u8; 46] = *b"0000-00-00T00:00:00.000Z-XXXX-NNNNNNNNNNNNNNNN";

impl Stamp {
    /// The timestamp that a text writes.
    ///
    /// # Errors
    ///
    /// Tested in this order: `Length`, `BadByte`, `NoSuchMoment`, `BeyondWindow`, `ZeroNode`.
    #[tactic(auto, unfolding(crate::specs::Reading::read_stamp))]
    pub fn parse(text: &[u8]) -> Result<Stamp, StampFault>
        ensures is { result ≡ read_stamp text.now }
        ensures stamp { IfOk result (λ s. IsStamp s × (stamp_text s ≡ text.now)) }
    {
        let Ok(bytes) = <[u8; 46]>::try_from(text) else {
            return Err(StampFault::Length { len: text.len() });
        };
        if let Some(at) = misfit(&bytes) {
            return Err(StampFault::BadByte { at });
        }
        let Some(millis) = millis_of(&bytes) else {
            return Err(StampFault::NoSuchMoment);
        };
        let minute = millis / 60_000;
        if minute >= WINDOW {
            return Err(StampFault::BeyondWindow { minute });
        }
        let node = node_of(&bytes);
        if is_zeros(&node) {
            return Err(StampFault::ZeroNode);
        }
        Ok(Stamp {
            millis,
            counter: hex(&bytes),
            node: Node::of(node),
        })
    }
}

/// Whether a place of the form allows a byte.
fn is_allowed(place: u8, byte: u8) -> bool
    ensures { result ≡ is_allowed place byte }
{
    match place {
        b'0' => byte.is_ascii_digit(),
        b'X' => byte.is_ascii_digit() || matches!(byte, b'A'..=b'F'),
        b'N' => byte.is_ascii_alphanumeric(),
        _ => byte == place,
    }
}

/// Whether the form allows each byte at its place. It goes on behind one that it doesn't, so that a processor compares many at once.
fn is_formed(text: &[u8; 46]) -> bool
    ensures { result ≡ fold (λ b at. b && is_allowed at.0 at.1) true (zip form text.now) }
{
    FORM.iter()
        .zip(text.iter())
        .fold(true, |formed, (place, byte)| {
            formed & is_allowed(*place, *byte)
        })
}

/// The first place whose byte the form does not allow there.
#[tactic(auto, using(crate::proofs::Form::formed))]
fn misfit(text: &[u8; 46]) -> Option<usize>
    ensures { result ≡ spec.misfit text.now }
{
    if is_formed(text) {
        None
    } else {
        first_misfit(text)
    }
}

/// The same, where there may well be one.
#[tactic(auto, unfolding(crate::specs::Reading::misfit))]
fn first_misfit(text: &[u8; 46]) -> Option<usize>
    ensures { result ≡ spec.misfit text.now }
{
    FORM.iter()
        .zip(text.iter())
        .position(|(place, byte)| !is_allowed(*place, *byte))
}

/// The digit at a place where the form has one.
fn digit(text: &[u8; 46], at: usize) -> u16
    requires formed { spec.misfit text.now ≡ None }
    requires digit { slice_index form at ≡ 48 }
    ensures value { result ≡ digit_at text.now at }
    ensures bound { result < 10 }
{
    (text[at] - b'0') as u16
}

/// The number that two digits write.
fn two(text: &[u8; 46], at: usize) -> u8
    requires formed { spec.misfit text.now ≡ None }
    requires first { slice_index form at ≡ 48 }
    requires second { slice_index form (at + 1) ≡ 48 }
    ensures value { result ≡ two_at text.now at }
    ensures bound { result < 100 }
{
    (10 * digit(text, at) + digit(text, at + 1)) as u8
}

/// The number that four digits write, from the first place on.
fn year(text: &[u8; 46]) -> u16
    requires { spec.misfit text.now ≡ None }
    ensures value { result ≡ four_at text.now 0 }
    ensures bound { result < 10000 }
{
    1000 * digit(text, 0) + 100 * digit(text, 1) + 10 * digit(text, 2) + digit(text, 3)
}

/// The milliseconds in the text's second.
fn milli(text: &[u8; 46]) -> u16
    requires { spec.misfit text.now ≡ None }
    ensures value { result ≡ three_at text.now 20 }
    ensures bound { result < 1000 }
{
    100 * digit(text, 20) + 10 * digit(text, 21) + digit(text, 22)
}

/// The value of a hexadecimal digit where the form has one.
fn hex_digit(text: &[u8; 46], at: usize) -> u16
    requires formed { spec.misfit text.now ≡ None }
    requires digit { slice_index form at ≡ 88 }
    ensures value { result ≡ hex_value (slice_index text.now at) }
    ensures bound { result < 16 }
{
    let byte = text[at];
    if byte.is_ascii_digit() {
        (byte - b'0') as u16
    } else {
        (byte - b'A') as u16 + 10
    }
}

/// The counter.
fn hex(text: &[u8; 46]) -> u16
    requires { spec.misfit text.now ≡ None }
    ensures { result ≡ hex_at text.now 25 }
{
    4096 * hex_digit(text, 25)
        + 256 * hex_digit(text, 26)
        + 16 * hex_digit(text, 27)
        + hex_digit(text, 28)
}

/// The characters of the node.
fn node_of(text: &[u8; 46]) -> [u8; 16]
    ensures { result ≡ drop 30 text.now }
{
    let mut node = [b'0'; 16];
    node.copy_from_slice(&text[30..]);
    node
}

/// The number of a day from 1 January 1970 on, where the calendar has it.
fn day_number(year: u16, month: u8, day: u8) -> Option<u32>
    requires year { year < 10000 }
    requires month { month < 100 }
    requires day { day < 100 }
    ensures value { result ≡ (if is_date year month day then Some (unsigned_abs (days_from_civil (pos year) month day)) else None) }
    ensures bound { IfSome result (λ n. n < 2_932_897) }
{
    if year < 1970 {
        return None;
    }
    let Ok(date) = Date::new(year as i16, month as i8, day as i8) else {
        return None;
    };
    Some(number_of(date))
}

/// The number of a date from 1970 on.
fn number_of(date: Date) -> u32
    requires { pos 1970 ≤ℤ date.year }
    ensures value { epoch_day date ≡ pos result }
    ensures bound { result < 2_932_897 }
{
    date.to_unix_epoch_day() as u32
}

/// The milliseconds from the start of 1970 to the moment, where there is such a moment.
#[tactic(auto, unfolding(crate::specs::Reading::is_moment, crate::specs::Reading::millis_in))]
fn millis_of(text: &[u8; 46]) -> Option<u64>
    requires { spec.misfit text.now ≡ None }
    ensures { result ≡ (if is_moment text.now then Some (millis_in text.now) else None) }
{
    let day = day_number(year(text), two(text, 5), two(text, 8))?;
    let hour = two(text, 11);
    let minute = two(text, 14);
    let second = two(text, 17);
    if hour > 23 || minute > 59 || second > 59 {
        return None;
    }
    Some(
        86_400_000 * day as u64
            + 3_600_000 * hour as u64
            + 60_000 * minute as u64
            + 1000 * second as u64
            + milli(text) as u64,
    )
}
