//! What the head of a request decides.
ghost use Rattle.std.specs.Prelude.{◌≡◌, ◌<◌, ◌≤◌, length, map, All, codes, true, None, position};
ghost use Rattle.std.specs.List.{list_any, list_all};
ghost use Rattle.std.specs.Char.{is_ascii_digit};
ghost use Rattle.std.specs.Str.{bytes_eq};
ghost use Rattle.std.specs.Str.Parse.{digits_value};
ghost use Rattle.httparse.specs.Grammar.{RequestHead};
ghost use Rattle.httparse.specs.Spans.{IsHeaderWithin, IsRequestWithin, IsRequestAt, header_bytes};
ghost use Rattle.sync_server.specs.Heads.{has_name, values_under, length_in, length_told, body_length, is_token, is_question, path_of, judged, judge_head};
ghost use Rattle.sync_server.specs.Headers.{agree, agree_at, agreed};

use crate::refusal::Refusal;
use crate::routes::Routes;
use httparse::spans::{HeaderSpan, RequestSpans};

/// Whether a field has this name, in letters of either case.
fn is_named(bytes: &[u8], header: &HeaderSpan, name: &[u8]) -> bool
    requires { IsHeaderWithin (length bytes.now) header.now }
    ensures { result ≡ has_name name.now (header_bytes bytes.now header.now) }
{
    header.name.of(bytes).eq_ignore_ascii_case(name)
}

/// Whether there is a field of this name.
fn has_field(bytes: &[u8], headers: &[HeaderSpan], name: &[u8]) -> bool
    requires { All (IsHeaderWithin (length bytes.now)) headers.now }
    ensures { result ≡ list_any (has_name name.now) (map (header_bytes bytes.now) headers.now) }
{
    for header in headers {
        if is_named(bytes, header, name) {
            return true;
        }
    }
    false
}

/// Whether the first field of a token's name has this token as its value.
fn has_token(bytes: &[u8], headers: &[HeaderSpan], token: &[u8]) -> bool
    requires { All (IsHeaderWithin (length bytes.now)) headers.now }
    ensures { result ≡ is_token token.now (values_under (codes "x-actual-token") (map (header_bytes bytes.now) headers.now)) }
{
    for header in headers {
        if is_named(bytes, header, b"x-actual-token") {
            return header.value.of(bytes) == token;
        }
    }
    false
}

/// Whether all bytes are digits.
fn are_digits(text: &[u8]) -> bool
    ensures { result ≡ list_all is_ascii_digit text.now }
{
    text.iter().all(|b| b.is_ascii_digit())
}

/// The number that some digits write.
fn number_of(text: &[u8]) -> u64
    requires long { length text.now ≤ 18 }
    requires digits { list_all is_ascii_digit text.now ≡ true }
    ensures { result ≡ digits_value 10 text.now }
{
    let mut number = 0;
    for digit in text {
        number = number * 10 + (*digit as u64 - 48);
    }
    number
}

/// The length that the value of a `Content-Length` tells: the number that 1 to 18 digits write.
pub fn length_in(text: &[u8]) -> Option<u64>
    ensures { result ≡ length_in text.now }
{
    if text.is_empty() || text.len() > 18 || !are_digits(text) {
        return None;
    }
    Some(number_of(text))
}

/// The length that was told, with one more that is told.
fn agree(found: Option<u64>, told: Option<u64>) -> Result<Option<u64>, Refusal>
    ensures { result ≡ agree found told }
{
    match (found, told) {
        (_, None) => Err(Refusal::BadRequest),
        (None, Some(n)) => Ok(Some(n)),
        (Some(m), Some(n)) => {
            if n == m {
                Ok(Some(m))
            } else {
                Err(Refusal::BadRequest)
            }
        }
    }
}

/// The length that was told, with what one more field says of it.
fn agree_at(bytes: &[u8], header: &HeaderSpan, found: Option<u64>) -> Result<Option<u64>, Refusal>
    requires { IsHeaderWithin (length bytes.now) header.now }
    ensures { result ≡ agree_at found (header_bytes bytes.now header.now) }
{
    if is_named(bytes, header, b"content-length") {
        agree(found, length_in(header.value.of(bytes)))
    } else {
        Ok(found)
    }
}

/// The length of the body that all fields of its name tell.
fn agreed(bytes: &[u8], headers: &[HeaderSpan]) -> Result<u64, Refusal>
    requires { All (IsHeaderWithin (length bytes.now)) headers.now }
    ensures { result ≡ agreed None (map (header_bytes bytes.now) headers.now) }
{
    let mut found = None;
    for header in headers {
        match agree_at(bytes, header, found) {
            Ok(now) => found = now,
            Err(refusal) => return Err(refusal),
        }
    }
    match found {
        Some(length) => Ok(length),
        None => Err(Refusal::LengthRequired),
    }
}

/// The length of the body, which each of the values tells.
fn length_told(bytes: &[u8], headers: &[HeaderSpan]) -> Result<u64, Refusal>
    requires { All (IsHeaderWithin (length bytes.now)) headers.now }
    ensures { result ≡ length_told (values_under (codes "content-length") (map (header_bytes bytes.now) headers.now)) }
{
    agreed(bytes, headers)
}

/// The length of a body that is not too long.
fn body_length(bytes: &[u8], headers: &[HeaderSpan]) -> Result<u64, Refusal>
    requires { All (IsHeaderWithin (length bytes.now)) headers.now }
    ensures { result ≡ body_length (map (header_bytes bytes.now) headers.now) }
{
    match length_told(bytes, headers) {
        Ok(length) => {
            if length > 67_108_864 {
                return Err(Refusal::TooLarge);
            }
            Ok(length)
        }
        Err(refusal) => Err(refusal),
    }
}

/// Where the first question mark stands.
fn question_at(target: &[u8]) -> Option<usize>
    ensures { result ≡ position is_question target.now }
{
    target.iter().position(|b| *b == 63)
}

/// What stands before the first question mark, or all where there is none.
fn before_question(target: &[u8]) -> &[u8]
    ensures { result.now ≡ path_of target.now }
{
    match question_at(target) {
        Some(i) => &target[..i],
        None => target,
    }
}

/// Whether the path of a target is that of a sync.
fn has_path(routes: &Routes, target: &[u8]) -> bool
    ensures { result ≡ bytes_eq (path_of target.now) (codes "/sync/sync") }
{
    routes.has_sync(before_question(target))
}

/// The length of the body that follows, or the first refusal.
fn judged(
    routes: &Routes,
    token: &[u8],
    bytes: &[u8],
    target: &[u8],
    method: &[u8],
    headers: &[HeaderSpan],
) -> Result<u64, Refusal>
    requires { All (IsHeaderWithin (length bytes.now)) headers.now }
    ensures { result ≡ judged token.now target.now method.now (map (header_bytes bytes.now) headers.now) }
{
    if !has_path(routes, target) {
        return Err(Refusal::NotFound);
    }
    if method != b"POST".as_slice() {
        return Err(Refusal::MethodNotAllowed);
    }
    if has_field(bytes, headers, b"transfer-encoding") {
        return Err(Refusal::LengthRequired);
    }
    let length = body_length(bytes, headers)?;
    if !has_token(bytes, headers, token) {
        return Err(Refusal::TokenNotFound);
    }
    Ok(length)
}

/// The length of the body that follows a head, or the first refusal: by path, method, the fields that tell the length, and the token.
pub(crate) fn judge_head(
    routes: &Routes,
    token: &[u8],
    bytes: &[u8],
    headers: &[HeaderSpan],
    head: &RequestSpans,
) -> Result<u64, Refusal>
    requires within { IsRequestWithin bytes.now headers.now head.now }
    ensures { (h : RequestHead) → IsRequestAt bytes.now headers.now head.now h → result ≡ judge_head token.now h }
{
    let fields = &headers[..head.headers];
    judged(
        routes,
        token,
        bytes,
        head.path.of(bytes),
        head.method.of(bytes),
        fields,
    )
}
