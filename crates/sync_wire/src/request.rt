//! A request.
ghost use Rattle.std.specs.Prelude.{◌≡◌, ◌≢◌, ◌≤◌, ◌<◌, length, true, false, IfOk, OnErr, IfErr, None};
ghost use Rattle.field_merge.specs.Messages.{AreMessages};
ghost use Rattle.sync_wire.specs.declared.fault.WireFault.TheVariants.{NoMemory as OutOfMemory};
ghost use Rattle.sync_wire.specs.declared.layout.Layout.TheVariants as layouts;
ghost use Rattle.sync_wire.specs.Reading.{Gives, answer};
ghost use Rattle.sync_wire.specs.Fields.{tagged_of, payload_of, IsPlaced};
ghost use Rattle.sync_wire.specs.Spelling.{BeginsWithKept};
ghost use Rattle.sync_wire.specs.Wire.{request_check, request_kept, request_at, IsRequest, IsRequestFault};
ghost use Rattle.sync_wire.specs.Canon.{request_bytes};
ghost use Rattle.sync_wire.specs.Laws.{RequestTexts};
ghost use Rattle.sync_wire.specs.Gather.{with_request_field};

use crate::envelope::{envelope_at, no_messages, pushed};
use crate::fault::WireFault;
use crate::fields::{Field, Held, field_at};
use crate::layout::Layout;
use crate::text::{no_text, text_of};
use crate::writing::{fits, put_messages, put_text};
use field_merge::Message;
use field_values::{Items, NoMemory, Txt};
use std::alloc::Global;

/// What a device asks of the server.
#[derive(Debug, Drop)]
pub struct SyncRequest {
    /// The messages that it hands in, which are those of the envelopes that are not encrypted.
    pub messages: Items<Message>,
    /// Whether an envelope is encrypted. Such a request can be read, and cannot be written.
    pub encrypted: bool,
    /// Which file it speaks of.
    pub file: Txt,
    /// The file's group.
    pub group: Txt,
    /// It asks for the messages with later timestamps than this text.
    pub since: Txt,
}

impl SyncRequest {
    /// An equal request.
    pub fn copy(&self, alloc: Global) -> Result<SyncRequest, NoMemory>
        ensures { IfOk result (λ request. request ≡ self.now) }
    {
        Ok(SyncRequest {
            messages: self.messages.copy(alloc)?,
            encrypted: self.encrypted,
            file: self.file.copy()?,
            group: self.group.copy()?,
            since: self.since.copy()?,
        })
    }
}

/// The request with what the field says.
fn take_field(
    alloc: Global,
    mut request: SyncRequest,
    field: Field<'_>,
) -> Result<SyncRequest, WireFault>
    requires placed { IsPlaced (payload_of field.content) }
    requires valid { AreMessages request.messages }
    ensures value { Gives (λ r. r) result (answer (request_check (tagged_of field.entry)) (with_request_field request (tagged_of field.entry))) }
    ensures valid { IfOk result (λ r. AreMessages r.messages) }
    ensures memory { IfErr result (λ e. e ≡ OutOfMemory → request_check (tagged_of field.entry) ≡ None) }
    ensures kept { IfErr result (λ e. e ≡ OutOfMemory → request_kept field.entry.number ≡ true) }
{
    if let Held::Bytes { end, bytes } = field.content {
        if field.number == 1 {
            match envelope_at(alloc, end, bytes)? {
                Some(message) => request.messages = pushed(request.messages, message)?,
                None => request.encrypted = true,
            }
        } else if field.number == 2 {
            request.file = text_of(alloc, end, bytes)?;
        } else if field.number == 3 {
            request.group = text_of(alloc, end, bytes)?;
        } else if field.number == 6 {
            request.since = text_of(alloc, end, bytes)?;
        }
    }
    Ok(request)
}

/// The request that the bytes spell.
fn request_at(alloc: Global, end: usize, bytes: &[u8]) -> Result<SyncRequest, WireFault>
    requires { length bytes.now ≤ end }
    ensures value { Gives (λ r. r) result (request_at end bytes.now) }
    ensures valid { IfOk result (λ r. AreMessages r.messages) }
    ensures memory { IfErr result (λ e. e ≡ OutOfMemory → BeginsWithKept request_check request_kept layouts.Request end bytes.now) }
{
    let mut request = SyncRequest {
        messages: no_messages(alloc),
        encrypted: false,
        file: no_text(alloc),
        group: no_text(alloc),
        since: no_text(alloc),
    };
    let mut rest = bytes;
    'fields: while !rest.is_empty() {
        let (field, after) = field_at(Layout::Request, end, rest)?;
        request = take_field(alloc, request, field)?;
        rest = after;
    }
    Ok(request)
}

/// The request that the bytes mean, or their first fault in reading order.
pub fn read_request(alloc: Global, bytes: &[u8]) -> Result<SyncRequest, WireFault>
    ensures found { IfOk result (IsRequest bytes.now) }
    ensures valid { IfOk result (λ r. AreMessages r.messages) }
    ensures fault { IfErr result (λ e. e ≢ OutOfMemory → IsRequestFault bytes.now e) }

    // A fault is told before memory is taken for the field in which it is.
    ensures memory { IfErr result (λ e. e ≡ OutOfMemory → BeginsWithKept request_check request_kept layouts.Request (length bytes.now) bytes.now) }
{
    request_at(alloc, bytes.len(), bytes)
}

/// The bytes of a request.
fn request_bytes(alloc: Global, request: &SyncRequest) -> Result<Vec<u8>, NoMemory>
    requires { AreMessages request.now.messages }
    ensures bytes { IfOk result (λ v. v.items ≡ request_bytes request.now) }
    ensures texts { IfOk result (λ _. RequestTexts request.now) }
    ensures memory { OnErr result (0 < length (request_bytes request.now)) }
{
    let mut out = Vec::new(alloc);
    put_messages(alloc, &mut out, request.messages.as_slice())?;
    put_text(&mut out, 2, request.file.bytes())?;
    put_text(&mut out, 3, request.group.bytes())?;
    put_text(&mut out, 6, request.since.bytes())?;
    Ok(out)
}

/// A request in its one spelling: it reads back as the request.
pub fn write_request(alloc: Global, request: &SyncRequest) -> Result<Items<u8>, NoMemory>
    requires plain { request.now.encrypted ≡ false }
    requires valid { AreMessages request.now.messages }
    ensures bytes { IfOk result (λ b. b ≡ request_bytes request.now) }
    ensures meaning { IfOk result (λ b. IsRequest b request.now) }

    // Where nothing is to be written, no memory is taken.
    ensures memory { OnErr result (0 < length (request_bytes request.now)) }
{
    let bytes = request_bytes(alloc, request)?;
    fits(&bytes);
    Ok(Items::new(bytes))
}
