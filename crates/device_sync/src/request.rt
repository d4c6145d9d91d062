//! What a device asks.
ghost use Rattle.std.specs.Prelude.{◌≡◌, ◌/◌, ◌*◌, ◌<◌, false, string_bytes, IfOk};
ghost use Rattle.hybrid_clock.specs.Moments as moments;
ghost use Rattle.hybrid_clock.specs.Stamp.{window};
ghost use Rattle.field_merge.specs.Messages.{AreMessages};
ghost use Rattle.sync_wire.specs.Wire.{IsRequest};
ghost use Rattle.sync_wire.specs.Canon.{request_bytes};
ghost use Rattle.device_sync.specs.Requests.{head_text, request_text, first_since};

use field_values::{NoMemory, Txt, TxtFault};
use hybrid_clock::{Stamp, moment_text};
use std::alloc::Global;
use sync_wire::{SyncRequest, write_request};

/// The head of a request with a body of so many bytes.
#[tactic(auto, unfolding(crate::specs::Requests::head_text))]
fn head_text(alloc: Global, token: &Txt, size: usize) -> Result<String, NoMemory>
    ensures { IfOk result (λ text. string_bytes text ≡ head_text token.now size) }
{
    let token = token.as_str();
    Ok(format!(in alloc;
        "POST /sync/sync HTTP/1.1\r\nHost: localhost\r\nContent-Type: application/actual-sync\r\nX-ACTUAL-TOKEN: {token}\r\nContent-Length: {size}\r\nConnection: close\r\n\r\n"
    )?)
}

/// The text of a request: head and body.
#[tactic(auto, unfolding(crate::specs::Requests::request_text))]
pub fn request_text(alloc: Global, token: &Txt, request: &SyncRequest) -> Result<Vec<u8>, NoMemory>
    requires plain { request.now.encrypted ≡ false }
    requires valid { AreMessages request.now.messages }
    ensures text { IfOk result (λ text. text.items ≡ request_text token.now request.now) }
    ensures means { IfOk result (λ _. IsRequest (request_bytes request.now) request.now) }
{
    let body = write_request(alloc, request)?;
    let head = head_text(alloc, token, body.len())?;
    let mut text = head.into_bytes();
    text.extend_from_slice(body.as_slice())?;
    Ok(text)
}

/// The text of a moment.
pub(crate) fn moment(alloc: Global, millis: u64) -> Result<Txt, NoMemory>
    requires { millis < 60_000 * window }
    ensures { IfOk result (λ text. text ≡ moments.moment_text millis) }
{
    match Txt::make(alloc, &moment_text(millis)) {
        Ok(text) => Ok(text),
        // It is a text of digits, letters and signs.
        Err(TxtFault::NotUtf8 { .. }) => Err(NoMemory),
        Err(TxtFault::NoMemory) => Err(NoMemory),
    }
}

/// From where a device asks first: from the text of the last sync, where it is a timestamp's, else from five minutes before the reading.
pub(crate) fn first_since(alloc: Global, synced: Option<Txt>, reading: u64) -> Result<Txt, NoMemory>
    requires { reading / 60_000 < window }
    ensures { IfOk result (λ text. text ≡ first_since synced reading) }
{
    match synced {
        Some(text) => {
            if Stamp::parse(text.bytes()).is_ok() {
                return Ok(text);
            }
            moment(alloc, reading.saturating_sub(300_000))
        }
        None => moment(alloc, reading.saturating_sub(300_000)),
    }
}
