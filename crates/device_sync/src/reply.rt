//! What the bytes are that come back from a server.
ghost use Rattle.std.specs.Prelude.{◌≡◌, ◌≤◌, ◌+◌, ℕ, length, Some, IfOk};
ghost use Rattle.field_merge.specs.Messages.{AreMessages};
ghost use Rattle.device_sync.specs.Replies.{IsReply, IsJudged, bad, meant, most_bytes, place_of};
ghost use Rattle.device_sync.specs.Judged.{got_of, messages_in};

use crate::head::head_of;
use field_merge::Message;
use field_values::{Items, NoMemory};
use minute_trie::{Trie, TrieFault};
use std::alloc::Global;
use sync_wire::{SyncResponse, WireFault, read_response};

/// The most bytes of a reply, head and body.
const MOST_BYTES: usize = 268_435_456;

/// A reply that was judged.
#[derive(Drop)]
pub enum Judged {
    /// An answer: its messages, and the trie of all that the server has.
    Answer {
        messages: Items<Message>,
        trie: Trie,
    },
    /// A status other than 200.
    Refusal {
        status: u16,
    },
    /// No reply that can be taken. `at` is the first place that is wrong: 268,435,456 where there are more bytes, 0 where they do not begin with
    /// a head that has their length, the place of a fault in the body, or the end where an envelope is encrypted or the trie can't be read.
    Bad {
        at: usize,
    },
}

/// The place of a fault in a body.
fn place_of(fault: WireFault) -> Option<usize>
    ensures { result ≡ place_of fault }
{
    match fault {
        WireFault::Truncated { at } => Some(at),
        WireFault::BadTag { at } => Some(at),
        WireFault::LongVarint { at } => Some(at),
        WireFault::NotUtf8 { at } => Some(at),
        WireFault::BadStamp { at } => Some(at),
        WireFault::BadMessage { at } => Some(at),
        WireFault::NoMemory => None,
    }
}

/// A reply whose body begins at this place and has a fault.
fn bad_body(start: usize, fault: WireFault) -> Result<Judged, NoMemory>
    ensures place { IfOk result (λ judged. (place : ℕ) × ((place_of fault ≡ Some place) × (got_of judged ≡ bad (start + place)))) }
    ensures valid { IfOk result (λ judged. AreMessages (messages_in judged)) }
{
    let Some(place) = place_of(fault) else {
        return Err(NoMemory);
    };
    match start.checked_add(place) {
        Some(at) => Ok(Judged::Bad { at }),
        // No place in a body is so far behind its head.
        None => Err(NoMemory),
    }
}

/// What an answer says that ends at this place.
fn meaning(alloc: Global, end: usize, answer: SyncResponse) -> Result<Judged, NoMemory>
    requires { AreMessages answer.messages }
    ensures value { IfOk result (λ judged. got_of judged ≡ meant end answer) }
    ensures valid { IfOk result (λ judged. AreMessages (messages_in judged)) }
{
    if answer.encrypted {
        return Ok(Judged::Bad { at: end });
    }
    match Trie::from_json(alloc, &answer.merkle) {
        Ok(trie) => Ok(Judged::Answer {
            messages: answer.messages,
            trie,
        }),
        Err(TrieFault::NoMemory) => Err(NoMemory),
        Err(_) => Ok(Judged::Bad { at: end }),
    }
}

/// Judges a reply with the status 200 and this body.
fn judge_body(alloc: Global, bytes: &[u8], body: &[u8]) -> Result<Judged, NoMemory>
    requires short { length bytes.now ≤ most_bytes }
    requires within { length body.now ≤ length bytes.now }
    requires reply { IsReply bytes.now 200 body.now }
    ensures judged { IfOk result (λ judged. IsJudged bytes.now (got_of judged)) }
    ensures valid { IfOk result (λ judged. AreMessages (messages_in judged)) }
{
    match read_response(alloc, body) {
        Ok(answer) => meaning(alloc, bytes.len(), answer),
        Err(fault) => bad_body(bytes.len() - body.len(), fault),
    }
}

/// Judges a reply: first by its length, then by its head, its status, the bytes of its body, its envelopes and its trie.
pub fn judge(alloc: Global, bytes: &[u8]) -> Result<Judged, NoMemory>
    ensures judged { IfOk result (λ judged. IsJudged bytes.now (got_of judged)) }
    ensures valid { IfOk result (λ judged. AreMessages (messages_in judged)) }
{
    if bytes.len() > MOST_BYTES {
        return Ok(Judged::Bad { at: MOST_BYTES });
    }
    let Some(head) = head_of(bytes) else {
        return Ok(Judged::Bad { at: 0 });
    };
    if head.status != 200 {
        return Ok(Judged::Refusal {
            status: head.status,
        });
    }
    judge_body(alloc, bytes, &bytes[head.len..])
}
