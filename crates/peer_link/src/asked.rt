//! Whether bytes are the request of a device for the server's group.
ghost use Rattle.std.specs.Prelude.{◌≡◌, ◌++◌, ◌^◌, ◌<◌, ℕ, List, length, drop, is_none, true, false, IfOk};
ghost use Rattle.std.specs.List.{position};
ghost use Rattle.device_sync.specs.Replies.{place_of};
ghost use Rattle.device_sync.specs.Requests.{head_text};
ghost use Rattle.std.specs.Str.{bytes_eq};
ghost use Rattle.peer_link.specs.Asked.{is_for_group, is_no_digit};
ghost use Rattle.peer_link.specs.Peer.{AsksGroup};
ghost use Rattle.peer_link.specs.Place.{token};

use crate::place::{FILE, GROUP, TOKEN};
use device_sync::request_text;
use field_values::{NoMemory, Txt};
use std::alloc::Global;
use sync_wire::{SyncRequest, WireFault, bytes_are_read, read_request};

/// What stands in front of the length in the head of a request.
const FRONT: &str =
    "POST /sync/sync HTTP/1.1\r\nHost: localhost\r\nContent-Type: application/actual-sync\r\nX-ACTUAL-TOKEN: local\r\nContent-Length: ";

/// What stands behind it.
const BACK: &str = "\r\nConnection: close\r\n\r\n";

/// The bytes from a place on.
fn from(bytes: &[u8], at: usize) -> &[u8]
    ensures { result.now ≡ drop at bytes.now }
{
    if at > bytes.len() {
        return &bytes[bytes.len()..];
    }
    &bytes[at..]
}

/// How many bytes there are.
fn count_of(bytes: &[u8]) -> usize
    ensures { result ≡ length bytes.now }
{
    bytes.len()
}

/// Whether a fault is want of memory.
fn is_memory(fault: WireFault) -> bool
    ensures { result ≡ is_none (place_of fault) }
{
    match fault {
        WireFault::Truncated { at: _ } => false,
        WireFault::BadTag { at: _ } => false,
        WireFault::LongVarint { at: _ } => false,
        WireFault::NotUtf8 { at: _ } => false,
        WireFault::BadStamp { at: _ } => false,
        WireFault::BadMessage { at: _ } => false,
        WireFault::NoMemory => true,
    }
}

/// Where the first byte stands that is no digit.
fn end_of_digits(bytes: &[u8]) -> Option<usize>
    ensures { result ≡ position is_no_digit bytes.now }
{
    bytes.iter().position(|byte| !byte.is_ascii_digit())
}

/// The body of a request, where the bytes are one that a device writes.
fn body_of(bytes: &[u8]) -> &[u8]
    ensures { (size : ℕ) (body : List ℕ) → size < 2 ^ 64 → bytes.now ≡ head_text token size ++ body → result.now ≡ body }
{
    let behind = from(bytes, FRONT.len());
    match end_of_digits(behind) {
        Some(count) => from(from(behind, count), BACK.len()),
        None => behind,
    }
}

/// Whether bytes are those of a text.
fn is_text(bytes: &[u8], text: &str) -> bool
    ensures { result ≡ bytes_eq bytes.now text.now }
{
    bytes == text.as_bytes()
}

/// Whether a request is for the server's group.
fn is_for_group(request: &SyncRequest) -> bool
    ensures { result ≡ is_for_group request.now }
{
    !request.encrypted
        && !request.since.bytes().is_empty()
        && is_text(request.file.bytes(), FILE)
        && is_text(request.group.bytes(), GROUP)
}

/// Whether bytes are the text of such a request.
pub(crate) fn asks_group(alloc: Global, bytes: &[u8]) -> Result<bool, NoMemory>
    ensures asks { IfOk result (λ asks. asks ≡ true → AsksGroup bytes.now) }
    ensures foreign { IfOk result (λ asks. asks ≡ false → AsksGroup bytes.now → ⊥) }
{
    bytes_are_read();
    // There are fewer bytes than 2 to the 64, since their number is a `usize`.
    let _count = count_of(bytes);
    let request = match read_request(alloc, body_of(bytes)) {
        Ok(request) => request,
        Err(fault) => {
            if is_memory(fault) {
                return Err(NoMemory);
            }
            return Ok(false);
        }
    };
    if !is_for_group(&request) {
        return Ok(false);
    }
    let token = Txt::from_text(alloc, TOKEN)?;
    let text = request_text(alloc, &token, &request)?;
    let same = text.as_slice() == bytes;
    Ok(same)
}
