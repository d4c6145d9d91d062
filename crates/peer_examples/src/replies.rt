//! Bytes that are sent over a link whose far end is the server, and what comes back.
use crate::pieces::{
    ALL, ASK, BODY, BOTH, FRONT_OF_BOTH, FRONT_OF_ONE, HOME, NONE, OF_ONE, OF_OTHER, ONE, Pieces,
    TELL, add_bytes,
};
use budget_ports::{Link, PortFault};
use peer_link::PeerLink;
use std::alloc::Global;
use std::test::Fail;

/// What is sent over one link, one after the other, and what comes back, or that the link fails.
const ROWS: [(Pieces, Pieces); 15] = [
    // no request
    (&[], &["failed"]),
    (&["GET / HTTP/1.1\r\n\r\n"], &["failed"]),
    // a request that ends early, and one with a byte behind it
    (&[ASK, "15", BODY, HOME, "2\x01"], &["failed"]),
    (&[ASK, "15", BODY, HOME, ALL, " "], &["failed"]),
    // another length, another token, and another path
    (&[ASK, "14", BODY, HOME, ALL], &["failed"]),
    (
        &[
            "POST /sync/sync HTTP/1.1\r\nHost: localhost\r\nContent-Type: application/actual-sync\r\nX-ACTUAL-TOKEN: other\r\nContent-Length: 15",
            BODY,
            HOME,
            ALL,
        ],
        &["failed"],
    ),
    (
        &[
            "POST /sync/list HTTP/1.1\r\nHost: localhost\r\nContent-Type: application/actual-sync\r\nX-ACTUAL-TOKEN: local\r\nContent-Length: 15",
            BODY,
            HOME,
            ALL,
        ],
        &["failed"],
    ),
    // another file, and another group, for which there are messages
    (
        &[ASK, "15", BODY, "\x12\x04away\x1a\x04home", ALL],
        &["failed"],
    ),
    (
        &[ASK, "189", BODY, OF_ONE, "\x12\x04home\x1a\x04away", ALL],
        &["failed"],
    ),
    // nothing that says from where on it asks
    (&[ASK, "12", BODY, HOME], &["failed"]),
    // of all those nothing was kept
    (&[ASK, "15", BODY, HOME, ALL], &[TELL, "12", BODY, NONE]),
    // a device hands in messages, which are not told to it, and then another one
    (
        &[ASK, "189", BODY, OF_ONE, HOME, ALL],
        &[TELL, "406", BODY, FRONT_OF_ONE, ONE],
    ),
    (
        &[ASK, "184", BODY, OF_OTHER, HOME, ALL],
        &[TELL, "588", BODY, OF_ONE, FRONT_OF_BOTH, BOTH],
    ),
    // what is no request changes nothing
    (&[ASK, "15", BODY, HOME, "2\x01"], &["failed"]),
    (
        &[ASK, "15", BODY, HOME, ALL],
        &[TELL, "757", BODY, OF_ONE, OF_OTHER, FRONT_OF_BOTH, BOTH],
    ),
];

/// What comes back for bytes.
fn asked(link: &mut PeerLink, sent: &[u8]) -> Result<Vec<u8>, PortFault> {
    link.send(sent)?;
    link.receive()
}

/// Adds what comes back.
fn add_reply(text: &mut Vec<u8>, link: &mut PeerLink, sent: &[u8]) -> Result<(), Fail> {
    match asked(link, sent) {
        Ok(reply) => text.extend_from_slice(reply.as_slice())?,
        Err(PortFault::Failed) => text.extend_from_slice(b"failed")?,
        Err(PortFault::NoMemory) => text.extend_from_slice(b"no memory")?,
    }
    Ok(())
}

/// Adds what comes back for pieces.
fn add_replied(
    text: &mut Vec<u8>,
    alloc: Global,
    link: &mut PeerLink,
    sent: Pieces,
) -> Result<(), Fail> {
    let mut bytes = Vec::new(alloc);
    add_bytes(&mut bytes, sent)?;
    add_reply(text, link, bytes.as_slice())?;
    text.push(b'\n')?;
    Ok(())
}

/// Adds what comes back for all rows.
fn add_all(text: &mut Vec<u8>, alloc: Global) -> Result<(), Fail> {
    let mut link = PeerLink::new(alloc)?;
    for (sent, _) in ROWS {
        add_replied(text, alloc, &mut link, sent)?;
    }
    Ok(())
}

/// Adds what should come back for all rows.
fn add_meant(text: &mut Vec<u8>) -> Result<(), Fail> {
    for (_, reply) in ROWS {
        add_bytes(text, reply)?;
        text.push(b'\n')?;
    }
    Ok(())
}

#[test]
fn replies(rt: HostRuntime) -> Result<(), Fail> {
    let mut told = Vec::new(rt.alloc());
    add_all(&mut told, rt.alloc())?;
    let mut meant = Vec::new(rt.alloc());
    add_meant(&mut meant)?;
    assert_eq!(rt; told.as_slice(), meant.as_slice());
    Ok(())
}
