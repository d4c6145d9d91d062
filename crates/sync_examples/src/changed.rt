//! A request and a reply of which one byte is another one, and such that say what isn't so of their length or of a trie: what the server
//! answers, and what a device makes of them. The tables are what checks/peers.py writes, which knows docs/FORMATS.md and no program.
use crate::serving::told;
use crate::sides::bytes_of;
use crate::talks::{End, T0, device_of, link_to, syncs, target_of};
use budget_ports::{MemoryKeeper, ScriptLink};
use device_sync::{SyncFault, Synced, Target};
use field_values::Items;
use std::alloc::Global;
use std::test::Fail;

/// 170 bytes.
const REQUEST: &str = "^99||#;\x010";

const REQUEST_0: [(usize, &str); 10] = [
    (71, "bad-request"),
    (78, "bad-message"),
    (6, "accepted"),
    (2, "bad-message"),
    (4, "file-not-found"),
    (1, "bad-message"),
    (1, "since-required"),
    (4, "file-has-reset"),
    (2, "bad-message"),
    (1, "accepted"),
];

const REQUEST_255: [(usize, &str); 4] = [
    (41, "bad-request"),
    (7, "token-not-found"),
    (23, "bad-request"),
    (99, "bad-message"),
];

const REQUEST_TURNED: [(usize, &str); 4] = [
    (41, "bad-request"),
    (7, "token-not-found"),
    (23, "bad-request"),
    (99, "bad-message"),
];

/// 202 bytes.
const REPLY: &str = "~104$#\x12\x12{\"hash\":189847234}";

const REPLY_0: [(usize, &str); 23] = [
    (98, "reply 0"),
    (1, "reply here"),
    (1, "reply 100"),
    (1, "reply here"),
    (1, "reply 152"),
    (46, "reply 100"),
    (1, "reply here"),
    (1, "reply 162"),
    (1, "reply here"),
    (1, "reply 152"),
    (10, "reply 100"),
    (1, "reply here"),
    (1, "reply 164"),
    (4, "reply 100"),
    (1, "reply here"),
    (1, "reply 170"),
    (4, "reply 100"),
    (1, "reply here"),
    (1, "reply 176"),
    (6, "synced 1 1"),
    (1, "reply here"),
    (1, "reply 184"),
    (18, "reply 202"),
];

const REPLY_255: [(usize, &str); 24] = [
    (13, "reply 0"),
    (3, "synced 1 1"),
    (14, "reply 0"),
    (25, "synced 1 1"),
    (33, "reply 0"),
    (7, "synced 1 1"),
    (3, "reply 0"),
    (1, "reply here"),
    (1, "reply 202"),
    (1, "reply here"),
    (1, "reply 182"),
    (47, "reply here"),
    (1, "reply 182"),
    (1, "reply here"),
    (1, "reply 182"),
    (11, "reply here"),
    (1, "reply 182"),
    (5, "reply here"),
    (1, "reply 182"),
    (5, "reply here"),
    (1, "reply 182"),
    (7, "reply here"),
    (1, "reply 202"),
    (18, "reply here"),
];

const REPLY_TURNED: [(usize, &str); 23] = [
    (13, "reply 0"),
    (3, "synced 1 1"),
    (14, "reply 0"),
    (25, "synced 1 1"),
    (33, "reply 0"),
    (7, "synced 1 1"),
    (3, "reply 0"),
    (1, "apart 0 189847234"),
    (1, "reply 202"),
    (1, "reply 162"),
    (1, "reply 182"),
    (46, "reply here"),
    (1, "reply 161"),
    (3, "reply 182"),
    (10, "reply here"),
    (2, "reply 182"),
    (4, "reply here"),
    (2, "reply 182"),
    (4, "reply here"),
    (2, "reply 182"),
    (6, "reply here"),
    (2, "reply 202"),
    (18, "reply here"),
];

const REQUESTS: [(&str, &str); 12] = [
    ("^99||#;\x010", "accepted"),
    ("^100||#;\x010", "cut"),
    ("^98||#;\x010", "bad-message"),
    ("^96||#;\x010", "since-required"),
    ("^84||#;\x010", "since-required"),
    ("^0||#;\x010", "since-required"),
    ("^99||#;\x010#;\x010", "accepted"),
    ("^67108864||#;\x010", "cut"),
    ("^67108865||#;\x010", "too-large"),
    ("^99|Content-Length: 99||#;\x010", "accepted"),
    ("^99|Content-Length: 98||#;\x010", "bad-request"),
    ("^99|Content-Length: 0099||#;\x010", "accepted"),
];

const REPLIES: [(&str, &str); 39] = [
    ("~104$#\x12\x12{\"hash\":189847234}", "synced 1 1"),
    ("~105$#\x12\x12{\"hash\":189847234}", "reply 0"),
    ("~103$#\x12\x12{\"hash\":189847234}", "reply 0"),
    ("~0$#\x12\x12{\"hash\":189847234}", "reply 0"),
    ("~104$", "reply 0"),
    (
        "~104|Content-Length: 104$#\x12\x12{\"hash\":189847234}",
        "synced 1 1",
    ),
    (
        "~104|Content-Length: 103$#\x12\x12{\"hash\":189847234}",
        "reply 0",
    ),
    ("~0104$#\x12\x12{\"hash\":189847234}", "synced 1 1"),
    ("~+104$#\x12\x12{\"hash\":189847234}", "reply 0"),
    (
        "HTTP/1.1 200 OK||#\x12\x12{\"hash\":189847234}",
        "synced 1 1",
    ),
    (
        "HTTP/1.1 200 OK|Transfer-Encoding: chunked||#\x12\x12{\"hash\":189847234}",
        "synced 1 1",
    ),
    (
        "HTTP/1.1 299 OK||#\x12\x12{\"hash\":189847234}",
        "status 299",
    ),
    ("HTTP/1.1 200 OK||\x12\x0a{\"hash\":0}", "synced 1 0"),
    ("HTTP/1.1 200 OK||\x12\x02{}", "synced 1 0"),
    (
        "HTTP/1.1 200 OK||\x12\x16{\"0\":{},\"1\":{},\"2\":{}}",
        "synced 1 0",
    ),
    (
        "HTTP/1.1 200 OK||\x12\x19{\"3\":{\"hash\":0},\"hash\":0}",
        "reply 46",
    ),
    ("HTTP/1.1 200 OK||\x12\x0e{\"0\":{\"3\":{}}}", "reply 35"),
    ("HTTP/1.1 200 OK||\x12\x13{\"hash\":2147483648}", "reply 40"),
    (
        "HTTP/1.1 200 OK||\x12\x14{\"hash\":-2147483649}",
        "reply 41",
    ),
    (
        "HTTP/1.1 200 OK||\x12\x13{\"hash\":2147483647}",
        "apart 0 2147483647",
    ),
    (
        "HTTP/1.1 200 OK||\x12\x14{\"hash\":-2147483648}",
        "apart 0 -2147483648",
    ),
    (
        "HTTP/1.1 200 OK||\x12\"{\"0\":{\"hash\":2147483648},\"hash\":0}",
        "reply 55",
    ),
    ("HTTP/1.1 200 OK||\x12\x0b{\"hash\":-0}", "reply 32"),
    ("HTTP/1.1 200 OK||\x12\x0c{\"hash\":0.0}", "reply 33"),
    ("HTTP/1.1 200 OK||\x12\x0c{\"hash\":0e1}", "reply 33"),
    ("HTTP/1.1 200 OK||\x12\x0c{\"hash\":\"0\"}", "reply 33"),
    ("HTTP/1.1 200 OK||\x12\x0d{\"hash\":null}", "reply 34"),
    ("HTTP/1.1 200 OK||\x12\x0b{\"hash\":01}", "reply 32"),
    ("HTTP/1.1 200 OK||\x12\x02[]", "reply 23"),
    ("HTTP/1.1 200 OK||\x12\x010", "reply 22"),
    ("HTTP/1.1 200 OK||\x12\x00", "reply 21"),
    ("HTTP/1.1 200 OK||\x12\x0b{\"hash\":0}}", "reply 32"),
    ("HTTP/1.1 200 OK||\x12\t{\"hash\":0", "reply 30"),
    ("HTTP/1.1 200 OK||\x12\x0e {\"hash\" : 0}\t", "synced 1 0"),
    ("HTTP/1.1 200 OK||\x12\x0f{\"h\\u0061sh\":0}", "synced 1 0"),
    (
        "HTTP/1.1 200 OK||\x12\x13{\"hash\":1,\"hash\":0}",
        "synced 1 0",
    ),
    ("HTTP/1.1 200 OK||\x12\x11{\"0\":[],\"hash\":0}", "reply 38"),
    (
        "HTTP/1.1 200 OK||\x12\u{fa}\x01{\"0\":{\"0\":{\"0\":{\"0\":{\"0\":{\"0\":{\"0\":{\"0\":{\"0\":{\"0\":{\"0\":{\"0\":{\"0\":{\"0\":{\"0\":{\"0\":{\"hash\":1},\"hash\":1},\"hash\":1},\"hash\":1},\"hash\":1},\"hash\":1},\"hash\":1},\"hash\":1},\"hash\":1},\"hash\":1},\"hash\":1},\"hash\":1},\"hash\":1},\"hash\":1},\"hash\":1},\"hash\":1},\"hash\":1}",
        "apart 0 1",
    ),
    (
        "HTTP/1.1 200 OK||\x12\u{89}\x02{\"0\":{\"0\":{\"0\":{\"0\":{\"0\":{\"0\":{\"0\":{\"0\":{\"0\":{\"0\":{\"0\":{\"0\":{\"0\":{\"0\":{\"0\":{\"0\":{\"0\":{\"hash\":1},\"hash\":1},\"hash\":1},\"hash\":1},\"hash\":1},\"hash\":1},\"hash\":1},\"hash\":1},\"hash\":1},\"hash\":1},\"hash\":1},\"hash\":1},\"hash\":1},\"hash\":1},\"hash\":1},\"hash\":1},\"hash\":1},\"hash\":1}",
        "reply 287",
    ),
];

/// What the server writes for the word of a table: of an accepted request the trie of its message.
const ANSWERS: [(&str, &str); 12] = [
    ("cut", ""),
    ("accepted", "~389$\x12\u{82}\x03@"),
    ("bad-request", "HTTP/1.1 400 Bad Request_11$bad-request"),
    ("not-found", "HTTP/1.1 404 Not Found_9$not-found"),
    (
        "method-not-allowed",
        "HTTP/1.1 405 Method Not Allowed_18$method-not-allowed",
    ),
    (
        "length-required",
        "HTTP/1.1 411 Length Required_15$length-required",
    ),
    ("too-large", "HTTP/1.1 413 Payload Too Large_9$too-large"),
    (
        "token-not-found",
        "HTTP/1.1 401 Unauthorized_15$token-not-found",
    ),
    ("bad-message", "HTTP/1.1 400 Bad Request_11$bad-message"),
    (
        "since-required",
        "HTTP/1.1 422 Unprocessable Entity_14$since-required",
    ),
    (
        "file-not-found",
        "HTTP/1.1 400 Bad Request_14$file-not-found",
    ),
    (
        "file-has-reset",
        "HTTP/1.1 400 Bad Request_14$file-has-reset",
    ),
];

/// What a byte is changed to.
#[derive(Clone, Copy)]
enum Change {
    To(u8),
    Turned,
}

/// The bytes with another one at this place.
fn changed(alloc: Global, bytes: &[u8], place: usize, change: Change) -> Result<Vec<u8>, Fail> {
    let mut changed = bytes.to_vec(alloc)?;
    if let Some(byte) = changed.get_mut(place) {
        *byte = match change {
            Change::To(other) => other,
            Change::Turned => *byte ^ 128,
        };
    }
    Ok(changed)
}

/// What a server without messages answers to one connection.
fn answered(alloc: Global, request: Vec<u8>) -> Result<Vec<u8>, Fail> {
    let mut connections = Vec::new(alloc);
    connections.push(Items::new(request))?;
    told(alloc, &[], &[], connections)
}

/// What a word says that it answers.
fn meant(alloc: Global, word: &str) -> Result<Vec<u8>, Fail> {
    for (known, side) in ANSWERS {
        if known == word {
            let mut bytes = bytes_of(alloc, side)?;
            bytes.push(b'\n')?;
            return Ok(bytes);
        }
    }
    Err(Fail::new("a word without an answer"))
}

/// The first place of a request at which a change is answered otherwise than its row says, or how many places the rows have.
fn first_answered_otherwise(
    alloc: Global,
    rows: &[(usize, &str)],
    change: Change,
) -> Result<usize, Fail> {
    let request = bytes_of(alloc, REQUEST)?;
    let mut place = 0usize;
    for (count, word) in rows {
        let meant = meant(alloc, word)?;
        for _ in 0..*count {
            let request = changed(alloc, request.as_slice(), place, change)?;
            if answered(alloc, request)?.as_slice() != meant.as_slice() {
                return Ok(place);
            }
            place = place.saturating_add(1);
        }
    }
    Ok(place)
}

#[test]
fn changed_requests_are_answered(rt: HostRuntime) -> Result<(), Fail> {
    let alloc = rt.alloc();
    assert_eq!(rt; bytes_of(alloc, REQUEST)?.len(), 170);
    assert_eq!(rt;
        first_answered_otherwise(alloc, &REQUEST_0, Change::To(0))?,
        170
    );
    assert_eq!(rt;
        first_answered_otherwise(alloc, &REQUEST_255, Change::To(255))?,
        170
    );
    assert_eq!(rt;
        first_answered_otherwise(alloc, &REQUEST_TURNED, Change::Turned)?,
        170
    );
    Ok(())
}

#[test]
fn lengths_are_believed(rt: HostRuntime) -> Result<(), Fail> {
    for (side, word) in REQUESTS {
        let told = answered(rt.alloc(), bytes_of(rt.alloc(), side)?)?;
        let meant = meant(rt.alloc(), word)?;
        assert_eq!(rt; told.as_slice(), meant.as_slice(), "{side}");
    }
    Ok(())
}

/// What one sync of a new device comes to, with this target.
fn made_with(alloc: Global, link: &mut ScriptLink, target: &Target) -> Result<Vec<End>, Fail> {
    let mut keeper = MemoryKeeper::new(alloc);
    let mut device = device_of(alloc, b"aa", None)?;
    syncs(alloc, &mut device, &mut keeper, link, target, &[T0])
}

/// What one sync of a new device over a link comes to.
fn made_over(alloc: Global, link: &mut ScriptLink) -> Result<Vec<End>, Fail> {
    let target = target_of(alloc)?;
    made_with(alloc, link, &target)
}

/// What a sync of a device without messages comes to, where each reply is this one.
fn made(alloc: Global, reply: Vec<u8>) -> Result<End, Fail> {
    let mut link = link_to(alloc, reply)?;
    let ends = made_over(alloc, &mut link)?;
    match ends.as_slice().first() {
        Some(end) => Ok(*end),
        None => Err(Fail::new("no sync")),
    }
}

/// What a sync comes to, as the tables write it; `here` is the place that was changed.
fn words(alloc: Global, end: End, place: usize) -> Result<String, Fail> {
    Ok(match end {
        Ok(Synced { requests, received }) => format!(in alloc; "synced {requests} {received}")?,
        Err(SyncFault::BadReply { at }) => {
            if at == place && at > 0 {
                format!(in alloc; "reply here")?
            } else {
                format!(in alloc; "reply {at}")?
            }
        }
        Err(SyncFault::Refused { status }) => format!(in alloc; "status {status}")?,
        Err(SyncFault::OutOfSync { mine, theirs }) => format!(in alloc; "apart {mine} {theirs}")?,
        Err(_) => format!(in alloc; "another fault")?,
    })
}

/// The first place of a reply at which a device makes something else of a change than its row says, or how many places the rows have.
fn first_made_otherwise(
    alloc: Global,
    rows: &[(usize, &str)],
    change: Change,
) -> Result<usize, Fail> {
    let reply = bytes_of(alloc, REPLY)?;
    let mut place = 0usize;
    for (count, meant) in rows {
        for _ in 0..*count {
            let reply = changed(alloc, reply.as_slice(), place, change)?;
            let told = words(alloc, made(alloc, reply)?, place)?;
            if told.as_str() != *meant {
                return Ok(place);
            }
            place = place.saturating_add(1);
        }
    }
    Ok(place)
}

#[test]
fn changed_replies_are_judged(rt: HostRuntime) -> Result<(), Fail> {
    let alloc = rt.alloc();
    assert_eq!(rt; bytes_of(alloc, REPLY)?.len(), 202);
    assert_eq!(rt; first_made_otherwise(alloc, &REPLY_0, Change::To(0))?, 202);
    assert_eq!(rt;
        first_made_otherwise(alloc, &REPLY_255, Change::To(255))?,
        202
    );
    assert_eq!(rt;
        first_made_otherwise(alloc, &REPLY_TURNED, Change::Turned)?,
        202
    );
    Ok(())
}

#[test]
fn tries_and_lengths_are_judged(rt: HostRuntime) -> Result<(), Fail> {
    for (side, meant) in REPLIES {
        let end = made(rt.alloc(), bytes_of(rt.alloc(), side)?)?;
        let told = words(rt.alloc(), end, 0)?;
        assert_eq!(rt; told.as_str(), meant, "{side}");
    }
    Ok(())
}
