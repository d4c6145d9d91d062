//! The order of two texts by the first of their bytes, without a call.
ghost use Rattle.std.specs.Prelude.{◌≡◌, ◌≤◌, ◌<◌, ◌+◌, length, min, drop, IfSome};
ghost use Rattle.std.specs.Ordering.{nat_cmp};
ghost use Rattle.std.specs.Cmp.Lexicographic.{slice_cmp};
ghost use Rattle.field_values.specs.Heads.{head_of, head_from, AreBytes};

use std::cmp::Ordering;

/// The first 16 bytes as a number.
pub(crate) fn front(bytes: &[u8]) -> u128
    requires { 16 ≤ length bytes.now }
    ensures { result ≡ head_of bytes.now }
{
    u128::from_be_bytes([
        bytes[0], bytes[1], bytes[2], bytes[3], bytes[4], bytes[5], bytes[6], bytes[7], bytes[8],
        bytes[9], bytes[10], bytes[11], bytes[12], bytes[13], bytes[14], bytes[15],
    ])
}

/// The first 8 bytes as a number.
fn eight(bytes: &[u8]) -> u64
    requires { 8 ≤ length bytes.now }
    ensures value { result ≡ head_from 8 0 bytes.now }
    ensures bytes { AreBytes bytes.now }
{
    u64::from_be_bytes([
        bytes[0], bytes[1], bytes[2], bytes[3], bytes[4], bytes[5], bytes[6], bytes[7],
    ])
}

/// The 8 bytes from a place on as a number.
fn eight_at(bytes: &[u8], at: usize) -> u64
    requires { at + 8 ≤ length bytes.now }
    ensures { result ≡ head_from 8 0 (drop at bytes.now) }
{
    eight(&bytes[at..])
}

/// The first 4 bytes as a number.
fn four(bytes: &[u8]) -> u32
    requires { 4 ≤ length bytes.now }
    ensures value { result ≡ head_from 4 0 bytes.now }
    ensures bytes { AreBytes bytes.now }
{
    u32::from_be_bytes([bytes[0], bytes[1], bytes[2], bytes[3]])
}

/// The 4 bytes from a place on as a number.
fn four_at(bytes: &[u8], at: usize) -> u32
    requires { at + 4 ≤ length bytes.now }
    ensures { result ≡ head_from 4 0 (drop at bytes.now) }
{
    four(&bytes[at..])
}

/// The order of texts of which the shorter has 4 to 7 bytes: by its first 4, by its last 4, then by the lengths.
fn order_of_short(own: &[u8], other: &[u8], shorter: usize) -> Ordering
    requires four { 4 ≤ shorter }
    requires short { shorter < 8 }
    requires shorter { shorter ≡ min (length own.now) (length other.now) }
    ensures { result ≡ slice_cmp nat_cmp own.now other.now }
{
    let (first, first_other) = (four(own), four(other));
    if first != first_other {
        return first.cmp(&first_other);
    }
    let at = shorter - 4;
    let (last, last_other) = (four_at(own, at), four_at(other, at));
    if last != last_other {
        return last.cmp(&last_other);
    }
    own.len().cmp(&other.len())
}

/// The order of texts of which the shorter has 8 bytes or more, where their first 16 tell it: by the first 8, by the last 8 of
/// those, then by the lengths.
fn order_of_long(own: &[u8], other: &[u8], shorter: usize) -> Option<Ordering>
    requires eight { 8 ≤ shorter }
    requires shorter { shorter ≡ min (length own.now) (length other.now) }
    ensures { IfSome result (λ o. o ≡ slice_cmp nat_cmp own.now other.now) }
{
    let (first, first_other) = (eight(own), eight(other));
    if first != first_other {
        return Some(first.cmp(&first_other));
    }
    let at = (shorter - 8).min(8);
    let (last, last_other) = (eight_at(own, at), eight_at(other, at));
    if last != last_other {
        return Some(last.cmp(&last_other));
    }
    if shorter <= 16 {
        Some(own.len().cmp(&other.len()))
    } else {
        None
    }
}

/// The order of two texts where their first 16 bytes and their lengths tell it at once. Nothing is told of texts of which one is
/// shorter than 4 bytes.
pub fn order_of_fronts(own: &[u8], other: &[u8]) -> Option<Ordering>
    ensures { IfSome result (λ o. o ≡ slice_cmp nat_cmp own.now other.now) }
{
    let shorter = own.len().min(other.len());
    if 8 <= shorter {
        order_of_long(own, other, shorter)
    } else if 4 <= shorter {
        Some(order_of_short(own, other, shorter))
    } else {
        None
    }
}
