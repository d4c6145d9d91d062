//! Connections, by `serve_one`.
use crate::sides::{bytes_of, sides_of};
use budget_ports::{Keeper, MemoryDoor, MemoryKeeper, PortFault, Record};
use field_values::{Items, Txt};
use std::alloc::Global;
use std::test::Fail;
use sync_server::{ServerState, serve_one};

/// Puts a text under a name.
fn put(alloc: Global, keeper: &mut MemoryKeeper, name: &str, text: &str) -> Result<(), PortFault> {
    let name = Txt::from_text(alloc, name)?;
    let text = Txt::from_text(alloc, text)?;
    keeper.put(&name, &text)
}

/// Keeps a record in the group `away` that keeps no message.
fn keep_bad(alloc: Global, keeper: &mut MemoryKeeper) -> Result<(), PortFault> {
    let group = Txt::from_text(alloc, "away")?;
    let record = Record {
        key: Txt::from_text(alloc, "x")?,
        body: Txt::from_text(alloc, "x")?,
    };
    keeper.append(&group, &[record])
}

/// A keeper that has a file `home` of the group `home`, and a file `other` of the group `away`. Calls fail whose numbers are here; three
/// have been made.
fn keeper_of(alloc: Global, fails: &[u64]) -> Result<MemoryKeeper, Fail> {
    let mut keeper = MemoryKeeper::with_faults(alloc, fails.to_vec(alloc)?);
    put(alloc, &mut keeper, "file/home", "home")?;
    put(alloc, &mut keeper, "file/other", "away")?;
    keep_bad(alloc, &mut keeper)?;
    Ok(keeper)
}

/// Serves so many connections, one after the other, with the token `local`.
fn visit(
    alloc: Global,
    keeper: &mut MemoryKeeper,
    door: &mut MemoryDoor,
    count: usize,
) -> Result<(), Fail> {
    let token = Txt::from_text(alloc, "local")?;
    let mut state = ServerState::new(alloc, &token)?;
    'visits: for _ in 0..count {
        let _served = serve_one(alloc, &mut state, keeper, door);
    }
    Ok(())
}

/// Serves so many connections over a keeper of which these calls fail.
fn serve_over(
    alloc: Global,
    fails: &[u64],
    door: &mut MemoryDoor,
    count: usize,
) -> Result<(), Fail> {
    let mut keeper = keeper_of(alloc, fails)?;
    visit(alloc, &mut keeper, door, count)
}

/// What was written to the connections, one behind the other and each with a line feed behind it.
fn written(alloc: Global, door: &MemoryDoor, count: usize) -> Result<Vec<u8>, Fail> {
    let mut text = Vec::new(alloc);
    for at in 0..count {
        text.extend_from_slice(door.written(at).unwrap_or(&[]))?;
        text.push(b'\n')?;
    }
    Ok(text)
}

/// What the connections are told, one behind the other and each with a line feed behind it. Calls of the keeper fail whose numbers are here,
/// and a read of a connection gives no more bytes than the pieces say.
pub(crate) fn told(
    alloc: Global,
    fails: &[u64],
    pieces: &[usize],
    connections: Vec<Items<u8>>,
) -> Result<Vec<u8>, Fail> {
    let count = connections.len();
    let mut door = MemoryDoor::new(alloc, connections, pieces.to_vec(alloc)?, 1000)?;
    serve_over(alloc, fails, &mut door, count)?;
    written(alloc, &door, count)
}

/// Heads that are refused, and bytes that end early.
const HEADS: [&str; 20] = [
    // no head
    "POST /sync/sync HTTP/1.1 || = HTTP/1.1 400 Bad Request_11$bad-request",
    "\x01 = HTTP/1.1 400 Bad Request_11$bad-request",
    "POST /sync/sync HTTP/1.1|a:b|a:b|a:b|a:b|a:b|a:b|a:b|a:b|a:b|a:b|a:b|a:b|a:b|a:b|a:b|a:b|a:b|a:b|a:b|a:b|a:b|a:b|a:b|a:b|a:b|a:b|a:b|a:b|a:b|a:b|a:b|a:b|a:b|a:b|a:b|a:b|a:b|a:b|a:b|a:b|a:b|a:b|a:b|a:b|a:b|a:b|a:b|a:b|a:b|a:b|a:b|a:b|a:b|a:b|a:b|a:b|a:b|a:b|a:b|a:b|a:b|a:b|a:b|a:b|a:b|| = HTTP/1.1 400 Bad Request_11$bad-request",
    // the path is told before the method, and all else before the token
    "GET /sync HTTP/1.1|| = HTTP/1.1 404 Not Found_9$not-found",
    "POST /sync/sync/ HTTP/1.1|| = HTTP/1.1 404 Not Found_9$not-found",
    "GET /sync/sync HTTP/1.1|Content-Length: 1000|| = HTTP/1.1 405 Method Not Allowed_18$method-not-allowed",
    "post /sync/sync?a HTTP/1.1|| = HTTP/1.1 405 Method Not Allowed_18$method-not-allowed",
    "POST /sync/sync HTTP/1.1|| = HTTP/1.1 411 Length Required_15$length-required",
    "POST /sync/sync HTTP/1.1|X-ACTUAL-TOKEN: local|Transfer-Encoding: chunked|Content-Length: 2|| = HTTP/1.1 411 Length Required_15$length-required",
    "POST /sync/sync HTTP/1.1|Content-Length: +1|| = HTTP/1.1 400 Bad Request_11$bad-request",
    "POST /sync/sync HTTP/1.1|X-ACTUAL-TOKEN: local|Content-Length: 7|Content-Length: 8|| = HTTP/1.1 400 Bad Request_11$bad-request",
    "POST /sync/sync HTTP/1.1|X-ACTUAL-TOKEN: local|Content-Length: 1234567890123456789|| = HTTP/1.1 400 Bad Request_11$bad-request",
    "POST /sync/sync HTTP/1.1|Content-Length: 67108865|| = HTTP/1.1 413 Payload Too Large_9$too-large",
    "POST /sync/sync HTTP/1.1|Content-Length: 67108864|| = HTTP/1.1 401 Unauthorized_15$token-not-found",
    "POST /sync/sync HTTP/1.1|Content-Length: 0|X-ACTUAL-TOKEN: loca|X-ACTUAL-TOKEN: local|| = HTTP/1.1 401 Unauthorized_15$token-not-found",
    // what is accepted: other letters of a name, a query, HTTP/1.0, one number twice; no body, and so no timestamp
    "|POST /sync/sync?a=b HTTP/1.0|x-actual-token:  local |content-length: 0|Content-Length: 00|| = HTTP/1.1 422 Unprocessable Entity_14$since-required",
    // bytes that end early
    " = ",
    "POST /sync/sync HTTP/1.1|X-ACTUAL = ",
    "^67108864|| = ",
    "^144||#;.2024-01-05T09:55:02.000Z-0000-000000000000000 = ",
];

/// Bodies that are refused behind a good head.
const BODIES: [&str; 23] = [
    // bytes that are no request
    "^1||` = HTTP/1.1 400 Bad Request_11$bad-message",
    "^2||`\x05 = HTTP/1.1 400 Bad Request_11$bad-message",
    "^1||\x00 = HTTP/1.1 400 Bad Request_11$bad-message",
    "^1||\x0b = HTTP/1.1 400 Bad Request_11$bad-message",
    "^2||(\x01 = HTTP/1.1 400 Bad Request_11$bad-message",
    "^3||=\x00\x00 = HTTP/1.1 400 Bad Request_11$bad-message",
    "^10||\u{80}\u{80}\u{80}\u{80}\u{80}\u{80}\u{80}\u{80}\u{80}\u{80} = HTTP/1.1 400 Bad Request_11$bad-message",
    "^9||\u{80}\u{80}\u{80}\u{80}\u{80}\u{80}\u{80}\u{80}\u{80} = HTTP/1.1 400 Bad Request_11$bad-message",
    "^10||\u{80}\u{80}\u{80}\u{80}\u{80}\u{80}\u{80}\u{80}\u{80}\x02 = HTTP/1.1 400 Bad Request_11$bad-message",
    "^5||\x12\x03a\u{ff}b = HTTP/1.1 400 Bad Request_11$bad-message",
    "^4||\x12\x02a\u{c3} = HTTP/1.1 400 Bad Request_11$bad-message",
    "^2||`\x00 = HTTP/1.1 400 Bad Request_11$bad-message",
    "^7||`\x05`\x01x\x1a\x00 = HTTP/1.1 400 Bad Request_11$bad-message",
    "^7||`\x05`\x01x\x10\x01 = HTTP/1.1 400 Bad Request_11$bad-message",
    // an encrypted envelope, also where there is no timestamp to ask from
    "^58||`2`.<\x10\x01\x12\x04home = HTTP/1.1 400 Bad Request_17$encrypted-message",
    "^221||`J`.<\x10\x02\x1a\x16`\x05notes\x12\x01n\x1a\x04note\"\x04S:hi%\x12\x04none\x1a\x04away2.2024-01-05T09:55:02.000Z-0000-0000000000000000 = HTTP/1.1 400 Bad Request_17$encrypted-message",
    // no timestamp to ask from, also of a file that is not there
    "^0|| = HTTP/1.1 422 Unprocessable Entity_14$since-required",
    "^9||I\x00\x00\x00\x00\x00\x00\x00\x00 = HTTP/1.1 422 Unprocessable Entity_14$since-required",
    "^96||#\x12\x04none\x1a\x04home = HTTP/1.1 422 Unprocessable Entity_14$since-required",
    // another file, another group, and a group with a record that keeps no message
    "^99||#\x12\x04none\x1a\x04home2\x010 = HTTP/1.1 400 Bad Request_14$file-not-found",
    "^3||2\x010 = HTTP/1.1 400 Bad Request_14$file-not-found",
    "^99||#\x12\x04home\x1a\x04away2\x010 = HTTP/1.1 400 Bad Request_14$file-has-reset",
    "^100||#\x12\x05other\x1a\x04away2\x010 = HTTP/1.1 500 Internal Server Error_10$bad-record",
];

/// Requests, one after the other: what one hands in the next one gets.
const KEPT: [&str; 6] = [
    // nothing is kept so far
    "^15||;\x010 = ~12$\x12`{\"hash\":0}",
    // a message of its own is not answered back
    "^144||#;.2024-01-05T09:55:02.000Z-0000-0000000000000000 = ~389$\x12\u{82}\x03@",
    // the one that was there before is told, and the own one not
    "^145||%;.2024-01-05T09:55:03.000Z-0000-0000000000000000 = ~456$#\x12\u{f1}\x02&",
    // without messages, from the first one on, and from the last one on
    "^60||;.< = ~457$%\x12\u{f1}\x02&",
    "^60||;.> = ~372$\x12\u{f1}\x02&",
    // messages that were there before are told, also where the request has them
    "^184||#%;\x010 = ~541$#%\x12\u{f1}\x02&",
];

/// Tables, each served over a keeper and a state of its own.
const TABLES: [&[&str]; 3] = [&HEADS, &BODIES, &KEPT];

#[test]
fn replies(rt: HostRuntime) -> Result<(), Fail> {
    for rows in TABLES {
        for pieces in [&[] as &[usize], &[1], &[10, 100]] {
            let (connections, meant) = sides_of(rt.alloc(), rows)?;
            let text = told(rt.alloc(), &[], pieces, connections)?;
            assert_eq!(rt; text.as_slice(), meant.as_slice());
        }
    }
    Ok(())
}

/// A request with a message while a call of the keeper fails, and then one for all messages: nothing of the first was kept.
const FAULTS: [&str; 2] = [
    "^99||#;\x010 = HTTP/1.1 503 Service Unavailable_12$keeper-fault",
    "^15||;\x010 = ~12$\x12`{\"hash\":0}",
];

/// The calls of a request: the text of the file, the records of the group, the append.
#[test]
fn tells_that_the_keeper_failed(rt: HostRuntime) -> Result<(), Fail> {
    for call in 3..6 {
        let (connections, meant) = sides_of(rt.alloc(), &FAULTS)?;
        let text = told(rt.alloc(), &[call], &[], connections)?;
        assert_eq!(rt; text.as_slice(), meant.as_slice());
    }
    Ok(())
}

/// A request for all messages, ended early at each byte.
fn cut_short(alloc: Global) -> Result<Vec<Items<u8>>, Fail> {
    let whole = bytes_of(alloc, "^15||;\x010")?;
    let mut connections = Vec::new(alloc);
    for count in 0..whole.len() {
        let front = whole.as_slice().get(..count).unwrap_or(&[]);
        connections.push(Items::new(front.to_vec(alloc)?))?;
    }
    Ok(connections)
}

#[test]
fn tells_nothing_to_a_part(rt: HostRuntime) -> Result<(), Fail> {
    let connections = cut_short(rt.alloc())?;
    assert_eq!(rt; connections.len(), 86);
    let text = told(rt.alloc(), &[], &[], connections)?;
    assert_eq!(rt; text.as_slice(), [b'\n'; 86].as_slice());
    Ok(())
}
