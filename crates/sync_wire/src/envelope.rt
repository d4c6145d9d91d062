//! An envelope.
ghost use Rattle.std.specs.Prelude.{◌≡◌, ◌≢◌, ◌≤◌, ◌++◌, ◌∷◌, [], length, IfOk, IfErr, IfSome, None};
ghost use Rattle.field_merge.specs.Messages.{IsMessage};
ghost use Rattle.sync_wire.specs.declared.fault.WireFault.TheVariants.{NoMemory as OutOfMemory};
ghost use Rattle.sync_wire.specs.Reading.{Gives, answer, fault_of};
ghost use Rattle.sync_wire.specs.Fields.{tagged_of, payload_of, IsPlaced};
ghost use Rattle.sync_wire.specs.Envelope.{outline_seen, envelope_check, outline_at, message_in, envelope_at};
ghost use Rattle.sync_wire.specs.Gather.{with_part};

use crate::content::{content_at, message_from};
use crate::fault::WireFault;
use crate::fields::{Field, Held, field_at};
use crate::layout::Layout;
use crate::text::text_at;
use field_merge::Message;
use field_values::{Items, NoMemory};
use hybrid_clock::Stamp;
use std::alloc::Global;

/// What the fields of an envelope say. The content is not read yet.
#[derive(Clone, Copy)]
pub(crate) struct Outlined<'a> {
    pub stamp: &'a [u8],
    pub encrypted: bool,
    pub content_end: usize,
    pub content: &'a [u8],
}

/// The outline with what the field says.
fn take_part<'a>(mut outline: Outlined<'a>, field: Field<'a>) -> Result<Outlined<'a>, WireFault>
    requires field { IsPlaced (payload_of field.content) }
    requires outline { length outline.content.now ≤ outline.content_end }
    ensures value { Gives outline_seen result (answer (envelope_check (tagged_of field.entry)) (with_part (outline_seen outline.entry) (tagged_of field.entry))) }
    ensures placed { IfOk result (λ o. length o.content.now ≤ o.content_end) }
    ensures memory { IfErr result (λ e. e ≢ OutOfMemory) }
{
    match field.content {
        Held::Number(number) => {
            if field.number == 2 {
                outline.encrypted = number > 0;
            }
        }
        Held::Fixed => {}
        Held::Bytes { end, bytes } => {
            if field.number == 1 {
                outline.stamp = text_at(end, bytes)?.as_bytes();
            } else if field.number == 3 {
                outline.content_end = end;
                outline.content = bytes;
            }
        }
    }
    Ok(outline)
}

/// The outline that the bytes spell. A timestamp or a content that is not there is empty.
fn outline_at(end: usize, bytes: &[u8]) -> Result<Outlined<'_>, WireFault>
    requires { length bytes.now ≤ end }
    ensures value { Gives outline_seen result (outline_at end bytes.now) }
    ensures placed { IfOk result (λ o. length o.content.now ≤ o.content_end) }
    ensures memory { IfErr result (λ e. e ≢ OutOfMemory) }
{
    let mut outline = Outlined {
        stamp: &[],
        encrypted: false,
        content_end: 0,
        content: &[],
    };
    let mut rest = bytes;
    'fields: while !rest.is_empty() {
        let (field, after) = field_at(Layout::Envelope, end, rest)?;
        outline = take_part(outline, field)?;
        rest = after;
    }
    Ok(outline)
}

/// What follows at an envelope's end. `None`: it is encrypted.
#[tactic(auto, unfolding(crate::specs::Envelope::message_in))]
fn message_in(
    alloc: Global,
    start: usize,
    outline: Outlined<'_>,
) -> Result<Option<Message>, WireFault>
    requires { length outline.content.now ≤ outline.content_end }
    ensures value { Gives (λ o. o) result (message_in start (outline_seen outline.entry)) }
    ensures valid { IfOk result (λ o. IfSome o IsMessage) }
    ensures memory { IfErr result (λ e. e ≡ OutOfMemory → fault_of (message_in start (outline_seen outline.entry)) ≡ None) }
{
    if outline.encrypted {
        return match Stamp::parse(outline.stamp) {
            Ok(_) => Ok(None),
            Err(_) => Err(WireFault::BadStamp { at: start }),
        };
    }
    let texts = content_at(outline.content_end, outline.content)?;
    let Ok(stamp) = Stamp::parse(outline.stamp) else {
        return Err(WireFault::BadStamp { at: start });
    };
    let message = message_from(alloc, start, stamp, texts)?;
    Ok(Some(message))
}

/// What the bytes of an envelope hold: its message, or none where it is encrypted.
#[tactic(auto, unfolding(crate::specs::Envelope::envelope_at))]
pub(crate) fn envelope_at(
    alloc: Global,
    end: usize,
    bytes: &[u8],
) -> Result<Option<Message>, WireFault>
    requires { length bytes.now ≤ end }
    ensures value { Gives (λ o. o) result (envelope_at end bytes.now) }
    ensures valid { IfOk result (λ o. IfSome o IsMessage) }
    ensures memory { IfErr result (λ e. e ≡ OutOfMemory → fault_of (envelope_at end bytes.now) ≡ None) }
{
    let start = end - bytes.len();
    let outline = outline_at(end, bytes)?;
    message_in(alloc, start, outline)
}

/// The messages with one more.
pub(crate) fn pushed(messages: Items<Message>, message: Message) -> Result<Items<Message>, NoMemory>
    ensures { IfOk result (λ ms. ms ≡ messages ++ message ∷ []) }
{
    let mut messages = messages.into_vec();
    messages.push(message)?;
    Ok(Items::new(messages))
}

/// No messages.
pub(crate) fn no_messages(alloc: Global) -> Items<Message>
    ensures { result ≡ [] }
{
    Items::new(Vec::new(alloc))
}
