//! The reply to a request.
ghost use Rattle.std.specs.Prelude.{◌≡◌, ◌≢◌, ◌≤◌, ◌<◌, length, true, false, IfOk, OnErr, IfErr, None};
ghost use Rattle.field_merge.specs.Messages.{AreMessages};
ghost use Rattle.sync_wire.specs.declared.fault.WireFault.TheVariants.{NoMemory as OutOfMemory};
ghost use Rattle.sync_wire.specs.declared.layout.Layout.TheVariants as layouts;
ghost use Rattle.sync_wire.specs.Reading.{Gives, answer};
ghost use Rattle.sync_wire.specs.Fields.{tagged_of, payload_of, IsPlaced};
ghost use Rattle.sync_wire.specs.Spelling.{BeginsWithKept};
ghost use Rattle.sync_wire.specs.Wire.{response_check, response_kept, response_at, IsResponse, IsResponseFault};
ghost use Rattle.sync_wire.specs.Canon.{response_bytes};
ghost use Rattle.sync_wire.specs.Laws.{ResponseTexts};
ghost use Rattle.sync_wire.specs.Gather.{with_response_field};

use crate::envelope::{envelope_at, no_messages, pushed};
use crate::fault::WireFault;
use crate::fields::{Field, Held, field_at};
use crate::layout::Layout;
use crate::text::{no_text, text_of};
use crate::writing::{fits, put_messages, put_text};
use field_merge::Message;
use field_values::{Items, NoMemory, Txt};
use std::alloc::Global;

/// What the server replies.
#[derive(Debug, Drop)]
pub struct SyncResponse {
    /// The messages that the device asked for, which are those of the envelopes that are not encrypted.
    pub messages: Items<Message>,
    /// Whether an envelope is encrypted. Such a reply can be read, and cannot be written.
    pub encrypted: bool,
    /// The text of the trie of all messages that the server has.
    pub merkle: Txt,
}

impl SyncResponse {
    /// An equal reply.
    pub fn copy(&self, alloc: Global) -> Result<SyncResponse, NoMemory>
        ensures { IfOk result (λ response. response ≡ self.now) }
    {
        Ok(SyncResponse {
            messages: self.messages.copy(alloc)?,
            encrypted: self.encrypted,
            merkle: self.merkle.copy()?,
        })
    }
}

/// The reply with what the field says.
fn take_field(
    alloc: Global,
    mut response: SyncResponse,
    field: Field<'_>,
) -> Result<SyncResponse, WireFault>
    requires placed { IsPlaced (payload_of field.content) }
    requires valid { AreMessages response.messages }
    ensures value { Gives (λ r. r) result (answer (response_check (tagged_of field.entry)) (with_response_field response (tagged_of field.entry))) }
    ensures valid { IfOk result (λ r. AreMessages r.messages) }
    ensures memory { IfErr result (λ e. e ≡ OutOfMemory → response_check (tagged_of field.entry) ≡ None) }
    ensures kept { IfErr result (λ e. e ≡ OutOfMemory → response_kept field.entry.number ≡ true) }
{
    if let Held::Bytes { end, bytes } = field.content {
        if field.number == 1 {
            match envelope_at(alloc, end, bytes)? {
                Some(message) => response.messages = pushed(response.messages, message)?,
                None => response.encrypted = true,
            }
        } else if field.number == 2 {
            response.merkle = text_of(alloc, end, bytes)?;
        }
    }
    Ok(response)
}

/// The reply that the bytes spell.
fn response_at(alloc: Global, end: usize, bytes: &[u8]) -> Result<SyncResponse, WireFault>
    requires { length bytes.now ≤ end }
    ensures value { Gives (λ r. r) result (response_at end bytes.now) }
    ensures valid { IfOk result (λ r. AreMessages r.messages) }
    ensures memory { IfErr result (λ e. e ≡ OutOfMemory → BeginsWithKept response_check response_kept layouts.Response end bytes.now) }
{
    let mut response = SyncResponse {
        messages: no_messages(alloc),
        encrypted: false,
        merkle: no_text(alloc),
    };
    let mut rest = bytes;
    'fields: while !rest.is_empty() {
        let (field, after) = field_at(Layout::Response, end, rest)?;
        response = take_field(alloc, response, field)?;
        rest = after;
    }
    Ok(response)
}

/// The reply that the bytes mean, or their first fault in reading order.
pub fn read_response(alloc: Global, bytes: &[u8]) -> Result<SyncResponse, WireFault>
    ensures found { IfOk result (IsResponse bytes.now) }
    ensures valid { IfOk result (λ r. AreMessages r.messages) }
    ensures fault { IfErr result (λ e. e ≢ OutOfMemory → IsResponseFault bytes.now e) }

    // A fault is told before memory is taken for the field in which it is.
    ensures memory { IfErr result (λ e. e ≡ OutOfMemory → BeginsWithKept response_check response_kept layouts.Response (length bytes.now) bytes.now) }
{
    response_at(alloc, bytes.len(), bytes)
}

/// The bytes of a reply.
fn response_bytes(alloc: Global, response: &SyncResponse) -> Result<Vec<u8>, NoMemory>
    requires { AreMessages response.now.messages }
    ensures bytes { IfOk result (λ v. v.items ≡ response_bytes response.now) }
    ensures texts { IfOk result (λ _. ResponseTexts response.now) }
    ensures memory { OnErr result (0 < length (response_bytes response.now)) }
{
    let mut out = Vec::new(alloc);
    put_messages(alloc, &mut out, response.messages.as_slice())?;
    put_text(&mut out, 2, response.merkle.bytes())?;
    Ok(out)
}

/// A reply in its one spelling: it reads back as the reply.
pub fn write_response(alloc: Global, response: &SyncResponse) -> Result<Items<u8>, NoMemory>
    requires plain { response.now.encrypted ≡ false }
    requires valid { AreMessages response.now.messages }
    ensures bytes { IfOk result (λ b. b ≡ response_bytes response.now) }
    ensures meaning { IfOk result (λ b. IsResponse b response.now) }

    // Where nothing is to be written, no memory is taken.
    ensures memory { OnErr result (0 < length (response_bytes response.now)) }
{
    let bytes = response_bytes(alloc, response)?;
    fits(&bytes);
    Ok(Items::new(bytes))
}
