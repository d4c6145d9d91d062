//! The fields of a message, one after the other.
ghost use Rattle.std.specs.Prelude.{◌≢◌, ◌≤◌, ◌<◌, ◌^◌, ◌+◌, length, IfOk, IfErr};
ghost use Rattle.sync_wire.specs.Reading.{Gives};
ghost use Rattle.sync_wire.specs.Fields.{tagged_of, payload_of, digits, number_at, fixed_at, bytes_at, payload_at, field_at, IsPlaced};
ghost use Rattle.sync_wire.specs.declared.fault.WireFault.TheVariants.{NoMemory};

use crate::fault::WireFault;
use crate::layout::{Layout, allows};

/// What a field holds.
#[derive(Clone, Copy)]
pub(crate) enum Held<'a> {
    Number(u64),
    /// Eight or four bytes, which no field of ours has.
    Fixed,
    Bytes { end: usize, bytes: &'a [u8] },
}

/// A field.
#[derive(Clone, Copy)]
pub(crate) struct Field<'a> {
    pub number: u64,
    pub content: Held<'a>,
}

/// The number whose bytes stand at the front, at most `left` of them.
#[tactic(auto, unfolding(crate::specs::Fields::digits))]
fn digits(at: usize, end: usize, left: u8, bytes: &[u8]) -> Result<(u128, &[u8]), WireFault>
    requires { left ≤ 10 }
    ensures value { Gives (λ x. (x.0, x.1.now)) result (digits at end left bytes.now) }
    ensures bound { IfOk result (λ x. x.0 < 128 ^ left) }
    ensures shorter { IfOk result (λ x. length x.1.now < length bytes.now) }
    ensures memory { IfErr result (λ e. e ≢ NoMemory) }
{
    if left == 0 {
        return Err(WireFault::LongVarint { at });
    }
    match bytes {
        [] => Err(WireFault::Truncated { at: end }),
        [byte, rest @ ..] => {
            if *byte < 128 {
                return Ok((*byte as u128, rest));
            }
            let (high, rest) = digits(at, end, left - 1, rest)?;
            Ok(((*byte as u128 - 128) + 128 * high, rest))
        }
    }
}

/// The number at the front.
#[tactic(auto, unfolding(crate::specs::Fields::number_at))]
fn number_at(end: usize, bytes: &[u8]) -> Result<(u64, &[u8]), WireFault>
    requires { length bytes.now ≤ end }
    ensures value { Gives (λ x. (x.0, x.1.now)) result (number_at end bytes.now) }
    ensures shorter { IfOk result (λ x. length x.1.now < length bytes.now) }
    ensures memory { IfErr result (λ e. e ≢ NoMemory) }
{
    let at = end - bytes.len();
    let (number, rest) = digits(at, end, 10, bytes)?;
    if number < 18_446_744_073_709_551_616 {
        Ok((number as u64, rest))
    } else {
        Err(WireFault::LongVarint { at })
    }
}

/// What a field of this many bytes holds.
#[tactic(auto, unfolding(crate::specs::Fields::fixed_at))]
fn fixed_at<'a>(
    width: usize,
    end: usize,
    bytes: &'a [u8],
) -> Result<(Held<'a>, &'a [u8]), WireFault>
    ensures value { Gives (λ x. (payload_of x.0, x.1.now)) result (fixed_at width end bytes.now) }
    ensures placed { IfOk result (λ x. IsPlaced (payload_of x.0)) }
    ensures shorter { IfOk result (λ x. length x.1.now ≤ length bytes.now) }
    ensures memory { IfErr result (λ e. e ≢ NoMemory) }
{
    if bytes.len() < width {
        return Err(WireFault::Truncated { at: end });
    }
    let (_, rest) = bytes.split_at(width);
    Ok((Held::Fixed, rest))
}

/// A length, and so many bytes.
#[tactic(auto, unfolding(crate::specs::Fields::bytes_at))]
fn bytes_at<'a>(end: usize, bytes: &'a [u8]) -> Result<(Held<'a>, &'a [u8]), WireFault>
    requires { length bytes.now ≤ end }
    ensures value { Gives (λ x. (payload_of x.0, x.1.now)) result (bytes_at end bytes.now) }
    ensures placed { IfOk result (λ x. IsPlaced (payload_of x.0)) }
    ensures shorter { IfOk result (λ x. length x.1.now ≤ length bytes.now) }
    ensures memory { IfErr result (λ e. e ≢ NoMemory) }
{
    let (len, rest) = number_at(end, bytes)?;
    if (rest.len() as u64) < len {
        return Err(WireFault::Truncated { at: end });
    }
    let (bytes, rest) = rest.split_at(len as usize);
    Ok((
        Held::Bytes {
            end: end - rest.len(),
            bytes,
        },
        rest,
    ))
}

/// What a field of this type holds.
#[tactic(auto, unfolding(crate::specs::Fields::payload_at))]
fn payload_at<'a>(kind: u64, end: usize, bytes: &'a [u8]) -> Result<(Held<'a>, &'a [u8]), WireFault>
    requires { length bytes.now ≤ end }
    ensures value { Gives (λ x. (payload_of x.0, x.1.now)) result (payload_at kind end bytes.now) }
    ensures placed { IfOk result (λ x. IsPlaced (payload_of x.0)) }
    ensures shorter { IfOk result (λ x. length x.1.now ≤ length bytes.now) }
    ensures memory { IfErr result (λ e. e ≢ NoMemory) }
{
    if kind == 0 {
        let (number, rest) = number_at(end, bytes)?;
        Ok((Held::Number(number), rest))
    } else if kind == 2 {
        bytes_at(end, bytes)
    } else if kind == 1 {
        fixed_at(8, end, bytes)
    } else {
        fixed_at(4, end, bytes)
    }
}

/// The field at the front.
#[tactic(auto, unfolding(crate::specs::Fields::field_at))]
pub(crate) fn field_at<'a>(
    layout: Layout,
    end: usize,
    bytes: &'a [u8],
) -> Result<(Field<'a>, &'a [u8]), WireFault>
    requires { length bytes.now ≤ end }
    ensures value { Gives (λ x. (tagged_of x.0, x.1.now)) result (field_at layout end bytes.now) }
    ensures placed { IfOk result (λ x. IsPlaced (payload_of x.0.content)) }
    ensures shorter { IfOk result (λ x. length x.1.now < length bytes.now) }
    ensures memory { IfErr result (λ e. e ≢ NoMemory) }
{
    let at = end - bytes.len();
    let (tag, rest) = number_at(end, bytes)?;
    let number = tag / 8;
    let kind = tag % 8;
    if !allows(layout, number, kind) {
        return Err(WireFault::BadTag { at });
    }
    let (content, rest) = payload_at(kind, end, rest)?;
    Ok((Field { number, content }, rest))
}
