//! The content of a message under a timestamp.
ghost use Rattle.std.specs.Prelude.{◌≡◌, ◌≢◌, IfOk, IfErr};
ghost use Rattle.hybrid_clock.specs.Stamp.{IsStamp};
ghost use Rattle.field_merge.specs.declared.message.Message.{Message};
ghost use Rattle.field_merge.specs.Messages.{IsMessage};
ghost use Rattle.sync_wire.specs.declared.fault.WireFault.TheVariants.{NoMemory as OutOfMemory};
ghost use Rattle.sync_wire.specs.Canon.{content_bytes};
ghost use Rattle.sync_wire.specs.Wire.{IsMessageContent, IsContentFault};

use crate::content::{content_at, message_from};
use crate::fault::WireFault;
use crate::writing::{content_of, fits};
use field_merge::Message;
use field_values::{Items, NoMemory};
use hybrid_clock::Stamp;
use std::alloc::Global;

/// The message under the timestamp that the bytes are the content of, or their first fault in reading order. Names that are
/// none are told at the place 0.
pub fn read_message(alloc: Global, stamp: &Stamp, bytes: &[u8]) -> Result<Message, WireFault>
    requires { IsStamp stamp.now }
    ensures found { IfOk result (IsMessageContent stamp.now bytes.now) }
    ensures valid { IfOk result IsMessage }
    ensures fault { IfErr result (λ e. e ≢ OutOfMemory → IsContentFault stamp.now bytes.now e) }

    // A fault is told before memory is taken.
    ensures memory { IfErr result (λ e. e ≡ OutOfMemory → ((m : Message) × IsMessageContent stamp.now bytes.now m)) }
{
    let texts = content_at(bytes.len(), bytes)?;
    message_from(alloc, 0, *stamp, texts)
}

/// The content of a message, without its timestamp, in its one spelling: it reads back as the message.
pub fn write_message(alloc: Global, message: &Message) -> Result<Items<u8>, NoMemory>
    requires { IsMessage message.now }
    ensures bytes { IfOk result (λ b. b ≡ content_bytes message.now) }
    ensures meaning { IfOk result (λ b. IsMessageContent message.now.stamp b message.now) }
{
    let bytes = content_of(alloc, message)?;
    fits(&bytes);
    Ok(Items::new(bytes))
}
