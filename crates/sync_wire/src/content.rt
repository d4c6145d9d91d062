//! The content of an envelope.
ghost use Rattle.std.specs.Prelude.{◌≡◌, ◌≢◌, ◌≤◌, length, IfOk, IfErr, None};
ghost use Rattle.field_values.specs.Names.{field_of, names_fault};
ghost use Rattle.hybrid_clock.specs.Stamp.{IsStamp};
ghost use Rattle.field_merge.specs.Messages.{IsMessage};
ghost use Rattle.sync_wire.specs.declared.fault.WireFault.TheVariants.{NoMemory as OutOfMemory};
ghost use Rattle.sync_wire.specs.Reading.{Gives, answer};
ghost use Rattle.sync_wire.specs.Fields.{tagged_of, payload_of, IsPlaced};
ghost use Rattle.sync_wire.specs.Envelope.{texts_seen, content_check, content_at, message_from};
ghost use Rattle.sync_wire.specs.Gather.{with_text};

use crate::fault::WireFault;
use crate::fields::{Field as WireField, Held, field_at};
use crate::layout::Layout;
use crate::text::text_at;
use field_merge::Message;
use field_values::{Field, NameFault, Value};
use hybrid_clock::Stamp;
use std::alloc::Global;

/// What the fields of a content say.
#[derive(Clone, Copy)]
pub(crate) struct Texts<'a> {
    pub dataset: &'a str,
    pub row: &'a str,
    pub column: &'a str,
    pub value: &'a str,
}

/// The texts with what the field says.
fn take_text<'a>(mut texts: Texts<'a>, field: WireField<'a>) -> Result<Texts<'a>, WireFault>
    requires { IsPlaced (payload_of field.content) }
    ensures value { Gives texts_seen result (answer (content_check (tagged_of field.entry)) (with_text (texts_seen texts.entry) (tagged_of field.entry))) }
    ensures memory { IfErr result (λ e. e ≢ OutOfMemory) }
{
    if let Held::Bytes { end, bytes } = field.content {
        if field.number == 1 {
            texts.dataset = text_at(end, bytes)?;
        } else if field.number == 2 {
            texts.row = text_at(end, bytes)?;
        } else if field.number == 3 {
            texts.column = text_at(end, bytes)?;
        } else if field.number == 4 {
            texts.value = text_at(end, bytes)?;
        }
    }
    Ok(texts)
}

/// The texts that the bytes spell. A text that is not there is empty.
pub(crate) fn content_at(end: usize, bytes: &[u8]) -> Result<Texts<'_>, WireFault>
    requires { length bytes.now ≤ end }
    ensures value { Gives texts_seen result (content_at end bytes.now) }
    ensures memory { IfErr result (λ e. e ≢ OutOfMemory) }
{
    let mut texts = Texts {
        dataset: "",
        row: "",
        column: "",
        value: "",
    };
    let mut rest = bytes;
    'fields: while !rest.is_empty() {
        let (field, after) = field_at(Layout::Content, end, rest)?;
        texts = take_text(texts, field)?;
        rest = after;
    }
    Ok(texts)
}

/// The message of these texts, whose envelope begins at `start`.
pub(crate) fn message_from(
    alloc: Global,
    start: usize,
    stamp: Stamp,
    texts: Texts<'_>,
) -> Result<Message, WireFault>
    requires { IsStamp stamp }
    ensures value { Gives (λ m. m) result (message_from start stamp (texts_seen texts.entry)) }
    ensures valid { IfOk result IsMessage }
    ensures memory { IfErr result (λ e. e ≡ OutOfMemory → names_fault (field_of texts.entry.dataset.now texts.entry.row.now texts.entry.column.now) ≡ None) }
{
    let field = match Field::make(alloc, texts.dataset, texts.row, texts.column) {
        Ok(field) => field,
        Err(NameFault::NoMemory) => return Err(WireFault::NoMemory),
        Err(_) => return Err(WireFault::BadMessage { at: start }),
    };
    let value = Value::read(alloc, texts.value)?;
    Ok(Message {
        stamp,
        field,
        value,
    })
}
