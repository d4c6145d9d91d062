//! A request, as it comes by a connection.
ghost use Rattle.std.specs.Prelude.{◌≡◌, ◌≢◌, ◌++◌, ◌+◌, ◌<◌, ℕ, List, length};
ghost use Rattle.std.specs.Io.KnownBytes.{Consumes};
ghost use Rattle.budget_ports.specs.Connections.{Stays};
ghost use Rattle.budget_ports.specs.Faults.{count_after};
ghost use Rattle.sync_server.specs.Outside.{IsAll};
ghost use Rattle.sync_server.specs.Asking.{IsBodyEnd, IsAsked, body_failed, asking_failed, IsReadAs, refusal_for};
ghost use Rattle.sync_server.specs.declared.asking.BodyEnd.TheVariants.{NoMemory as OutOfMemory};

use crate::head::{HeadEnd, take_head};
use crate::refusal::Refusal;
use crate::routes::Routes;
use budget_ports::Door;
use std::alloc::Global;
use sync_wire::{SyncRequest, WireFault, read_request};

/// How reading a body ended.
pub(crate) enum BodyEnd {
    /// It is whole.
    Whole,
    /// The bytes ended.
    Ended,
    /// A read failed.
    Failed,
    /// Memory ran out.
    NoMemory,
}

/// What comes by a connection.
#[derive(Drop)]
pub(crate) enum Asked {
    /// A request that nothing refuses before the keeper is asked.
    Request(SyncRequest),
    /// What is refused.
    Refused(Refusal),
    /// Bytes that end before a request is whole.
    Ended,
    /// Bytes up to a read that failed, before anything was decided.
    Failed,
}

/// Takes bytes until there are as many as this, or they end.
pub(crate) fn take_body<D: Door>(taken: &mut Vec<u8>, end: usize, door: &mut D) -> BodyEnd
    ensures took { result ≢ OutOfMemory → (more : List ℕ) × (taken.new.items ≡ taken.old.items ++ more) × Consumes (D.left door.old) (D.left door.new) more }
    ensures end { IsBodyEnd end (length taken.new.items) (D.left door.new) result }
    ensures others { Stays (D.waiting door.old) (D.waiting door.new) × Stays (D.outs door.old) (D.outs door.new) }
    ensures count { D.faults door.new ≡ count_after (body_failed result) (D.faults door.old) }
{
    let mut buffer = [0u8; 4096];
    'reads: while taken.len() < end {
        let part = (end - taken.len()).min(4096);
        let count = match door.read(&mut buffer[..part]) {
            Ok(0) => return BodyEnd::Ended,
            Ok(count) => count,
            Err(_) => return BodyEnd::Failed,
        };
        if taken.extend_from_slice(&buffer[..count]).is_err() {
            return BodyEnd::NoMemory;
        }
    }
    BodyEnd::Whole
}

/// Why a body is refused in which this is wrong.
fn refusal_for(fault: WireFault) -> Refusal
    ensures { result ≡ refusal_for fault }
{
    match fault {
        WireFault::Truncated { at: _ } => Refusal::BadMessage,
        WireFault::BadTag { at: _ } => Refusal::BadMessage,
        WireFault::LongVarint { at: _ } => Refusal::BadMessage,
        WireFault::NotUtf8 { at: _ } => Refusal::BadMessage,
        WireFault::BadStamp { at: _ } => Refusal::BadMessage,
        WireFault::BadMessage { at: _ } => Refusal::BadMessage,
        WireFault::NoMemory => Refusal::NoMemory,
    }
}

/// The request that a whole body means, unless it is refused before the keeper is asked.
fn read_body(alloc: Global, body: &[u8]) -> Result<SyncRequest, Refusal>
    ensures { IsReadAs body.now result }
{
    let request = match read_request(alloc, body) {
        Ok(request) => request,
        Err(fault) => return Err(refusal_for(fault)),
    };
    if request.encrypted {
        return Err(Refusal::EncryptedMessage);
    }
    if request.since.bytes().is_empty() {
        return Err(Refusal::SinceRequired);
    }
    Ok(request)
}

/// Takes a request from a connection: a head, which is judged, and then its body.
pub(crate) fn ask<D: Door>(alloc: Global, routes: &Routes, token: &[u8], door: &mut D) -> Asked
    ensures asked { (came : List ℕ) × IsAll (D.left door.old) came × IsAsked token.now came result }
    ensures others { Stays (D.waiting door.old) (D.waiting door.new) × Stays (D.outs door.old) (D.outs door.new) }
    ensures count { D.faults door.new ≡ count_after (asking_failed result) (D.faults door.old) }
{
    let mut taken = Vec::new(alloc);
    let (start, count) = match take_head(routes, token, &mut taken, door) {
        HeadEnd::Whole { start, count } => (start, count as usize),
        HeadEnd::Refused(refusal) => return Asked::Refused(refusal),
        HeadEnd::Ended => return Asked::Ended,
        HeadEnd::Failed => return Asked::Failed,
        HeadEnd::NoMemory => return Asked::Refused(Refusal::NoMemory),
    };
    let end = start + count;
    match take_body(&mut taken, end, door) {
        BodyEnd::Whole => match read_body(alloc, &taken[start..end]) {
            Ok(request) => Asked::Request(request),
            Err(refusal) => Asked::Refused(refusal),
        },
        BodyEnd::Ended => Asked::Ended,
        BodyEnd::Failed => Asked::Failed,
        BodyEnd::NoMemory => Asked::Refused(Refusal::NoMemory),
    }
}
