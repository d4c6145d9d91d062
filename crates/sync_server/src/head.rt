//! The head of a request, read piece by piece.
ghost use Rattle.std.specs.Prelude.{◌≡◌, ◌≢◌, ◌≤◌, [], length};
ghost use Rattle.std.specs.Io.KnownBytes.{Consumes};
ghost use Rattle.httparse.specs.Spans.{IsRequestWithin, IsRequestOf};
ghost use Rattle.budget_ports.specs.Connections.{Stays};
ghost use Rattle.budget_ports.specs.Faults.{count_after};
ghost use Rattle.sync_server.specs.Taking.{IsGlance, IsHeadEnd, has_failed};
ghost use Rattle.sync_server.specs.declared.head.HeadEnd.TheVariants.{NoMemory as OutOfMemory};

use crate::judge::judge_head;
use crate::refusal::Refusal;
use crate::routes::Routes;
use budget_ports::Door;
use httparse::Status;
use httparse::spans::{EMPTY_HEADER_SPAN, HeaderSpan, RequestSpans, parse_request};

/// What bytes say of a head in front.
pub(crate) enum Glance {
    /// It is whole, and takes a body of this many bytes, which begins at this place.
    Whole { start: usize, count: u64 },
    /// It is whole and refused, or no bytes can complete it.
    Refused(Refusal),
    /// It is not whole.
    NotYet,
}

/// How reading a head ended.
pub(crate) enum HeadEnd {
    /// It is whole, and takes a body of this many bytes, which begins at this place.
    Whole { start: usize, count: u64 },
    /// It is refused.
    Refused(Refusal),
    /// The bytes ended.
    Ended,
    /// A read failed.
    Failed,
    /// Memory ran out.
    NoMemory,
}

/// What a whole head says.
fn judge_whole(
    routes: &Routes,
    token: &[u8],
    bytes: &[u8],
    headers: &[HeaderSpan],
    head: &RequestSpans,
) -> Glance
    requires within { IsRequestWithin bytes.now headers.now head.now }
    requires whole { IsRequestOf bytes.now headers.now head.now }
    requires room { length headers.now ≤ 64 }
    ensures { IsGlance token.now bytes.now result }
{
    match judge_head(routes, token, bytes, headers, head) {
        Ok(count) => Glance::Whole {
            start: head.len,
            count,
        },
        Err(refusal) => Glance::Refused(refusal),
    }
}

/// What the bytes say of a head in front.
fn look(routes: &Routes, token: &[u8], bytes: &[u8]) -> Glance
    ensures { IsGlance token.now bytes.now result }
{
    let mut headers = [EMPTY_HEADER_SPAN; 64];
    match parse_request(bytes, &mut headers) {
        Ok(Status::Complete(head)) => judge_whole(routes, token, bytes, &headers, &head),
        Ok(Status::Partial) => Glance::NotYet,
        Err(_) => Glance::Refused(Refusal::BadRequest),
    }
}

/// Takes bytes until a head is whole, or no bytes can complete one, or 65,536 hold none, or they end. A whole head is judged before
/// another byte is taken.
pub(crate) fn take_head<D: Door>(
    routes: &Routes,
    token: &[u8],
    taken: &mut Vec<u8>,
    door: &mut D,
) -> HeadEnd
    requires { taken.old.items ≡ [] }
    ensures took { result ≢ OutOfMemory → Consumes (D.left door.old) (D.left door.new) taken.new.items }
    ensures few { length taken.new.items ≤ 65536 }
    ensures end { IsHeadEnd token.now taken.new.items (D.left door.new) result }
    ensures others { Stays (D.waiting door.old) (D.waiting door.new) × Stays (D.outs door.old) (D.outs door.new) }
    ensures count { D.faults door.new ≡ count_after (has_failed result) (D.faults door.old) }
{
    let mut buffer = [0u8; 4096];
    'reads: loop {
        match look(routes, token, taken) {
            Glance::Whole { start, count } => return HeadEnd::Whole { start, count },
            Glance::Refused(refusal) => return HeadEnd::Refused(refusal),
            Glance::NotYet => {}
        }
        let room = 65536 - taken.len();
        if room == 0 {
            return HeadEnd::Refused(Refusal::TooLarge);
        }
        let part = room.min(4096);
        let count = match door.read(&mut buffer[..part]) {
            Ok(0) => return HeadEnd::Ended,
            Ok(count) => count,
            Err(_) => return HeadEnd::Failed,
        };
        if taken.extend_from_slice(&buffer[..count]).is_err() {
            return HeadEnd::NoMemory;
        }
    }
}
