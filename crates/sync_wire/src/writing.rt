//! The fields that are written.
ghost use Rattle.std.specs.Prelude.{◌≡◌, ◌<◌, ◌^◌, ◌+◌, ◌++◌, length, IfOk, OnOk, OnErr};
ghost use Rattle.std.specs.List.{flat_map, AllByRecursion};
ghost use Rattle.field_merge.specs.Messages.{IsMessage, AreMessages};
ghost use Rattle.sync_wire.specs.Canon.{number_within, bytes_field, text_field, content_bytes, envelope_spelled, parts_of, message_field};
ghost use Rattle.sync_wire.specs.Laws.{HasTexts};

use field_merge::Message;
use field_values::NoMemory;
use std::alloc::Global;

/// Room for the contents of most messages.
const CONTENT_ROOM: usize = 128;

/// Room for most envelopes.
const ENVELOPE_ROOM: usize = CONTENT_ROOM + 64;

/// Writes a number that one byte and so many more hold.
#[tactic(auto, using(crate::proofs::Numbers::number_rules))]
fn put_number(out: &mut Vec<u8>, more: u8, number: u64) -> Result<(), NoMemory>
    requires fits { number < 128 ^ (more + 1) }
    requires short { more < 10 }
    ensures { OnOk result (out.new.items ≡ out.old.items ++ number_within more number) }
{
    if more == 0 || number < 128 {
        out.push(number as u8)?;
        return Ok(());
    }
    out.push((number % 128 + 128) as u8)?;
    put_number(out, more - 1, number / 128)?;
    Ok(())
}

/// Writes a field that holds bytes.
#[tactic(auto, unfolding(crate::specs::Canon::bytes_field, crate::specs::Canon::number_bytes))]
fn put_bytes(out: &mut Vec<u8>, number: u64, bytes: &[u8]) -> Result<(), NoMemory>
    requires { number < 1000 }
    ensures { OnOk result (out.new.items ≡ out.old.items ++ bytes_field number bytes.now) }
{
    put_number(out, 9, 8 * number + 2)?;
    put_number(out, 9, bytes.len() as u64)?;
    out.extend_from_slice(bytes)?;
    Ok(())
}

/// Writes a field that holds a text, where it has a byte.
pub(crate) fn put_text(out: &mut Vec<u8>, number: u64, bytes: &[u8]) -> Result<(), NoMemory>
    requires { number < 1000 }
    ensures bytes { OnOk result (out.new.items ≡ out.old.items ++ text_field number bytes.now) }
    ensures memory { OnErr result (0 < length bytes.now) }
{
    match bytes {
        [] => Ok(()),
        [_, ..] => put_bytes(out, number, bytes),
    }
}

/// The content of a message.
pub(crate) fn content_of(alloc: Global, message: &Message) -> Result<Vec<u8>, NoMemory>
    requires { IsMessage message.now }
    ensures bytes { IfOk result (λ v. v.items ≡ content_bytes message.now) }
    ensures texts { IfOk result (λ _. HasTexts message.now) }
{
    let value = message.value.text(alloc)?;
    let mut out = Vec::with_capacity(alloc, CONTENT_ROOM)?;
    put_text(&mut out, 1, message.field.dataset().as_bytes())?;
    put_text(&mut out, 2, message.field.row().as_bytes())?;
    put_text(&mut out, 3, message.field.column().as_bytes())?;
    put_text(&mut out, 4, value.bytes())?;
    Ok(out)
}

/// The envelope of a message.
fn envelope_of(alloc: Global, message: &Message) -> Result<Vec<u8>, NoMemory>
    requires { IsMessage message.now }
    ensures bytes { IfOk result (λ v. v.items ≡ envelope_spelled (parts_of message.now)) }
    ensures texts { IfOk result (λ _. HasTexts message.now) }
{
    let content = content_of(alloc, message)?;
    let mut stamp = [0u8; 46];
    message.stamp.write_text(&mut stamp);
    let mut out = Vec::with_capacity(alloc, ENVELOPE_ROOM)?;
    put_text(&mut out, 1, &stamp)?;
    put_bytes(&mut out, 3, &content)?;
    Ok(out)
}

/// Writes the envelope of a message as a field.
fn put_message(alloc: Global, out: &mut Vec<u8>, message: &Message) -> Result<(), NoMemory>
    requires { IsMessage message.now }
    ensures bytes { OnOk result (out.new.items ≡ out.old.items ++ message_field message.now) }
    ensures texts { OnOk result (HasTexts message.now) }
{
    let envelope = envelope_of(alloc, message)?;
    put_bytes(out, 1, &envelope)
}

/// Writes the envelopes of messages, each as a field.
pub(crate) fn put_messages(
    alloc: Global,
    out: &mut Vec<u8>,
    messages: &[Message],
) -> Result<(), NoMemory>
    requires { AreMessages messages.now }
    ensures bytes { OnOk result (out.new.items ≡ out.old.items ++ flat_map message_field messages.now) }
    ensures texts { OnOk result (AllByRecursion HasTexts messages.now) }
    ensures memory { OnErr result (0 < length messages.now) }
{
    for message in messages {
        put_message(alloc, out, message)?;
    }
    Ok(())
}

/// What is in memory has a length of 64 bits.
pub(crate) fn fits(bytes: &[u8])
    ensures { length bytes.now < 2 ^ 64 }
{
    let _len = bytes.len();
}
