//! The head of a reply.
ghost use Rattle.std.specs.Prelude.{◌≡◌, ◌≤◌, ℕ, List, length, map, drop, All, true, IfSome, IfNone};
ghost use Rattle.std.specs.List.{list_all};
ghost use Rattle.httparse.specs.Spans.{IsHeaderWithin, header_bytes};
ghost use Rattle.device_sync.specs.Replies.{IsReply, fits_length};

use httparse::Status;
use httparse::spans::{EMPTY_HEADER_SPAN, HeaderSpan, parse_response};
use sync_server::length_in;

/// The most fields of a head.
const MOST_FIELDS: usize = 64;

/// What the head of a reply says.
#[derive(Clone, Copy, Debug)]
pub(crate) struct Head {
    pub(crate) status: u16,
    /// How many bytes the head has.
    pub(crate) len: usize,
}

/// Whether a field, where it is a Content-Length, has this length.
fn fits_length(bytes: &[u8], header: &HeaderSpan, size: usize) -> bool
    requires { IsHeaderWithin (length bytes.now) header.now }
    ensures { result ≡ fits_length size (header_bytes bytes.now header.now) }
{
    if !header
        .name
        .of(bytes)
        .eq_ignore_ascii_case(b"Content-Length")
    {
        return true;
    }
    match length_in(header.value.of(bytes)) {
        Some(length) => length == size as u64,
        None => false,
    }
}

/// Whether each Content-Length among fields has this length.
fn fit_lengths(bytes: &[u8], headers: &[HeaderSpan], size: usize) -> bool
    requires { All (IsHeaderWithin (length bytes.now)) headers.now }
    ensures { result ≡ list_all (fits_length size) (map (header_bytes bytes.now) headers.now) }
{
    for header in headers {
        if !fits_length(bytes, header, size) {
            return false;
        }
    }
    true
}

/// The head with which bytes begin, where they are a reply.
pub(crate) fn head_of(bytes: &[u8]) -> Option<Head>
    ensures within { IfSome result (λ head. head.len ≤ length bytes.now) }
    ensures reply { IfSome result (λ head. IsReply bytes.now head.status (drop head.len bytes.now)) }
    ensures none { IfNone result ((status : ℕ) (body : List ℕ) → IsReply bytes.now status body → ⊥) }
{
    let mut headers = [EMPTY_HEADER_SPAN; MOST_FIELDS];
    let head = match parse_response(bytes, &mut headers) {
        Ok(Status::Complete(head)) => head,
        _ => return None,
    };
    if !fit_lengths(bytes, &headers[..head.headers], bytes.len() - head.len) {
        return None;
    }
    Some(Head {
        status: head.code,
        len: head.len,
    })
}
