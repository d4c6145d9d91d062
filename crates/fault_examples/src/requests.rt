//! The run of a server with three requests, while a call of the door or of the keeper fails.
use crate::contents::{bytes_of, holds};
use crate::running::{NEVER, ended};
use crate::short::ShortKeeper;
use budget_ports::{Keeper, MemoryDoor, MemoryKeeper, MemorySink, MemorySource, ScriptLink};
use field_values::Items;
use std::alloc::Global;
use std::collections::VecDeque;
use std::test::Fail;

/// Three requests, of which each character is a byte: a device hands a message in, another one does so too, and a third one asks for all.
const REQUESTS: [&str; 3] = [
    "POST /sync/sync HTTP/1.1\r\nHost: localhost\r\nContent-Type: application/actual-sync\r\nX-ACTUAL-TOKEN: local\r\nContent-Length: 144\r\nConnection: close\r\n\r\n\nR\n.2024-01-05T10:00:00.000Z-0000-00000000000000aa\x1a \n\ncategories\x12\x04food\x1a\x04name\"\x06S:Food\x12\x04home\x1a\x04home2.2024-01-05T09:55:00.000Z-0000-0000000000000000",
    "POST /sync/sync HTTP/1.1\r\nHost: localhost\r\nContent-Type: application/actual-sync\r\nX-ACTUAL-TOKEN: local\r\nContent-Length: 145\r\nConnection: close\r\n\r\n\nS\n.2024-01-05T10:00:01.000Z-0000-00000000000000bb\x1a!\n\ncategories\x12\x04food\x1a\x04name\"\x07S:Meals\x12\x04home\x1a\x04home2.2024-01-05T09:55:01.000Z-0000-0000000000000000",
    "POST /sync/sync HTTP/1.1\r\nHost: localhost\r\nContent-Type: application/actual-sync\r\nX-ACTUAL-TOKEN: local\r\nContent-Length: 15\r\nConnection: close\r\n\r\n\x12\x04home\x1a\x04home2\x010",
];

/// The replies that they get, as a call fails or not, and that of a connection that gets none.
const REPLIES: [&str; 9] = [
    "",
    "HTTP/1.1 200 OK\r\nContent-Type: application/actual-sync\r\nContent-Length: 389\r\nConnection: close\r\n\r\n\x12\u{82}\x03{\"1\":{\"2\":{\"2\":{\"2\":{\"1\":{\"1\":{\"0\":{\"0\":{\"2\":{\"0\":{\"2\":{\"0\":{\"1\":{\"2\":{\"2\":{\"0\":{\"hash\":195473800},\"hash\":195473800},\"hash\":195473800},\"hash\":195473800},\"hash\":195473800},\"hash\":195473800},\"hash\":195473800},\"hash\":195473800},\"hash\":195473800},\"hash\":195473800},\"hash\":195473800},\"hash\":195473800},\"hash\":195473800},\"hash\":195473800},\"hash\":195473800},\"hash\":195473800},\"hash\":195473800}",
    "HTTP/1.1 200 OK\r\nContent-Type: application/actual-sync\r\nContent-Length: 474\r\nConnection: close\r\n\r\n\nS\n.2024-01-05T10:00:01.000Z-0000-00000000000000bb\x1a!\n\ncategories\x12\x04food\x1a\x04name\"\x07S:Meals\x12\u{82}\x03{\"1\":{\"2\":{\"2\":{\"2\":{\"1\":{\"1\":{\"0\":{\"0\":{\"2\":{\"0\":{\"2\":{\"0\":{\"1\":{\"2\":{\"2\":{\"0\":{\"hash\":195473800},\"hash\":195473800},\"hash\":195473800},\"hash\":195473800},\"hash\":195473800},\"hash\":195473800},\"hash\":195473800},\"hash\":195473800},\"hash\":195473800},\"hash\":195473800},\"hash\":195473800},\"hash\":195473800},\"hash\":195473800},\"hash\":195473800},\"hash\":195473800},\"hash\":195473800},\"hash\":195473800}",
    "HTTP/1.1 200 OK\r\nContent-Type: application/actual-sync\r\nContent-Length: 456\r\nConnection: close\r\n\r\n\nR\n.2024-01-05T10:00:00.000Z-0000-00000000000000aa\x1a \n\ncategories\x12\x04food\x1a\x04name\"\x06S:Food\x12\u{f1}\x02{\"1\":{\"2\":{\"2\":{\"2\":{\"1\":{\"1\":{\"0\":{\"0\":{\"2\":{\"0\":{\"2\":{\"0\":{\"1\":{\"2\":{\"2\":{\"0\":{\"hash\":16148298},\"hash\":16148298},\"hash\":16148298},\"hash\":16148298},\"hash\":16148298},\"hash\":16148298},\"hash\":16148298},\"hash\":16148298},\"hash\":16148298},\"hash\":16148298},\"hash\":16148298},\"hash\":16148298},\"hash\":16148298},\"hash\":16148298},\"hash\":16148298},\"hash\":16148298},\"hash\":16148298}",
    "HTTP/1.1 200 OK\r\nContent-Type: application/actual-sync\r\nContent-Length: 541\r\nConnection: close\r\n\r\n\nR\n.2024-01-05T10:00:00.000Z-0000-00000000000000aa\x1a \n\ncategories\x12\x04food\x1a\x04name\"\x06S:Food\nS\n.2024-01-05T10:00:01.000Z-0000-00000000000000bb\x1a!\n\ncategories\x12\x04food\x1a\x04name\"\x07S:Meals\x12\u{f1}\x02{\"1\":{\"2\":{\"2\":{\"2\":{\"1\":{\"1\":{\"0\":{\"0\":{\"2\":{\"0\":{\"2\":{\"0\":{\"1\":{\"2\":{\"2\":{\"0\":{\"hash\":16148298},\"hash\":16148298},\"hash\":16148298},\"hash\":16148298},\"hash\":16148298},\"hash\":16148298},\"hash\":16148298},\"hash\":16148298},\"hash\":16148298},\"hash\":16148298},\"hash\":16148298},\"hash\":16148298},\"hash\":16148298},\"hash\":16148298},\"hash\":16148298},\"hash\":16148298},\"hash\":16148298}",
    "HTTP/1.1 200 OK\r\nContent-Type: application/actual-sync\r\nContent-Length: 389\r\nConnection: close\r\n\r\n\x12\u{82}\x03{\"1\":{\"2\":{\"2\":{\"2\":{\"1\":{\"1\":{\"0\":{\"0\":{\"2\":{\"0\":{\"2\":{\"0\":{\"1\":{\"2\":{\"2\":{\"0\":{\"hash\":189847234},\"hash\":189847234},\"hash\":189847234},\"hash\":189847234},\"hash\":189847234},\"hash\":189847234},\"hash\":189847234},\"hash\":189847234},\"hash\":189847234},\"hash\":189847234},\"hash\":189847234},\"hash\":189847234},\"hash\":189847234},\"hash\":189847234},\"hash\":189847234},\"hash\":189847234},\"hash\":189847234}",
    "HTTP/1.1 200 OK\r\nContent-Type: application/actual-sync\r\nContent-Length: 473\r\nConnection: close\r\n\r\n\nR\n.2024-01-05T10:00:00.000Z-0000-00000000000000aa\x1a \n\ncategories\x12\x04food\x1a\x04name\"\x06S:Food\x12\u{82}\x03{\"1\":{\"2\":{\"2\":{\"2\":{\"1\":{\"1\":{\"0\":{\"0\":{\"2\":{\"0\":{\"2\":{\"0\":{\"1\":{\"2\":{\"2\":{\"0\":{\"hash\":189847234},\"hash\":189847234},\"hash\":189847234},\"hash\":189847234},\"hash\":189847234},\"hash\":189847234},\"hash\":189847234},\"hash\":189847234},\"hash\":189847234},\"hash\":189847234},\"hash\":189847234},\"hash\":189847234},\"hash\":189847234},\"hash\":189847234},\"hash\":189847234},\"hash\":189847234},\"hash\":189847234}",
    "HTTP/1.1 503 Service Unavailable\r\nContent-Type: text/plain\r\nContent-Length: 12\r\nConnection: close\r\n\r\nkeeper-fault",
    "HTTP/1.1 507 Insufficient Storage\r\nContent-Type: text/plain\r\nContent-Length: 9\r\nConnection: close\r\n\r\nno-memory",
];

/// What may be kept behind the run: the records of the group, each as a line, and the group of the file.
const CONTENTS: [&str; 5] = [
    "",
    "home\n",
    "2024-01-05T10:00:01.000Z-0000-00000000000000bb\tcategories\tfood\tname\tS:Meals\nhome\n",
    "2024-01-05T10:00:00.000Z-0000-00000000000000aa\tcategories\tfood\tname\tS:Food\n2024-01-05T10:00:01.000Z-0000-00000000000000bb\tcategories\tfood\tname\tS:Meals\nhome\n",
    "2024-01-05T10:00:00.000Z-0000-00000000000000aa\tcategories\tfood\tname\tS:Food\nhome\n",
];

/// The call of the door that fails, the status, what is told of the connections, the reply that each gets, what is kept.
const DOOR: [(u64, u8, &str, [usize; 3], usize); 15] = [
    (0, 8, "", [0, 0, 0], 1),
    (1, 0, "1 cut\n2 200\n3 200\n", [0, 1, 2], 2),
    (2, 0, "1 cut\n2 200\n3 200\n", [0, 1, 2], 2),
    (3, 0, "1 cut\n2 200\n3 200\n", [0, 3, 4], 3),
    (4, 0, "1 200\n2 200\n3 200\n", [5, 3, 4], 3),
    (5, 8, "1 200\n", [5, 0, 0], 4),
    (6, 0, "1 200\n2 cut\n3 200\n", [5, 0, 6], 4),
    (7, 0, "1 200\n2 cut\n3 200\n", [5, 0, 6], 4),
    (8, 0, "1 200\n2 cut\n3 200\n", [5, 0, 4], 3),
    (9, 0, "1 200\n2 200\n3 200\n", [5, 3, 4], 3),
    (10, 8, "1 200\n2 200\n", [5, 3, 0], 3),
    (11, 0, "1 200\n2 200\n3 cut\n", [5, 3, 0], 3),
    (12, 0, "1 200\n2 200\n3 cut\n", [5, 3, 0], 3),
    (13, 0, "1 200\n2 200\n3 200\n", [5, 3, 4], 3),
    (14, 0, "1 200\n2 200\n3 200\n", [5, 3, 4], 3),
];

/// The same of the keeper.
const KEEPER: [(u64, u8, &str, [usize; 3], usize); 8] = [
    (0, 6, "", [0, 0, 0], 0),
    (1, 0, "1 503\n2 200\n3 200\n", [7, 1, 2], 2),
    (2, 0, "1 503\n2 200\n3 200\n", [7, 1, 2], 2),
    (3, 0, "1 503\n2 200\n3 200\n", [7, 1, 2], 2),
    (4, 0, "1 200\n2 503\n3 200\n", [5, 7, 6], 4),
    (5, 0, "1 200\n2 503\n3 200\n", [5, 7, 6], 4),
    (6, 0, "1 200\n2 200\n3 503\n", [5, 3, 7], 3),
    (7, 0, "1 200\n2 200\n3 200\n", [5, 3, 4], 3),
];

/// The same of a keeper of which the call finds no memory.
const WANTS: [(u64, u8, &str, [usize; 3], usize); 8] = [
    (0, 7, "", [0, 0, 0], 0),
    (1, 0, "1 507\n2 200\n3 200\n", [8, 1, 2], 2),
    (2, 0, "1 507\n2 200\n3 200\n", [8, 1, 2], 2),
    (3, 0, "1 507\n2 200\n3 200\n", [8, 1, 2], 2),
    (4, 0, "1 200\n2 507\n3 200\n", [5, 8, 6], 4),
    (5, 0, "1 200\n2 507\n3 200\n", [5, 8, 6], 4),
    (6, 0, "1 200\n2 200\n3 507\n", [5, 3, 8], 3),
    (7, 0, "1 200\n2 200\n3 200\n", [5, 3, 4], 3),
];

/// The text with this number.
fn text_at(texts: &[&'static str], number: usize) -> &'static str {
    match texts.get(number) {
        Some(text) => text,
        None => "none",
    }
}

/// What is meant to be told of the connections, the replies that they are meant to get, and what is meant to be kept.
type Meant = (&'static str, [usize; 3], usize);

/// How a run ended, and whether it told of the connections what is meant, whether they got the replies that are meant, and whether that is
/// kept which is meant.
type Told = (u8, bool, bool, bool);

/// The three requests.
fn connections_of(alloc: Global) -> Result<Vec<Items<u8>>, Fail> {
    let mut connections = Vec::new(alloc);
    for request in REQUESTS {
        connections.push(Items::new(bytes_of(alloc, request)?))?;
    }
    Ok(connections)
}

/// The three connections of which each request comes in pieces of 200 bytes, and this call fails.
fn door_of(alloc: Global, call: u64) -> Result<MemoryDoor, Fail> {
    let connections = connections_of(alloc)?;
    let pieces = [200].to_vec(alloc)?;
    let fails = [call].to_vec(alloc)?;
    Ok(MemoryDoor::with_faults(alloc, connections, pieces, 2000, fails)?)
}

/// The status of a run over a keeper, a sink, a source and a door.
fn status_by<K: Keeper>(
    alloc: Global,
    keeper: &mut K,
    sink: &mut MemorySink,
    source: &mut MemorySource,
    door: &mut MemoryDoor,
) -> Result<u8, Fail> {
    let mut link = ScriptLink::new(alloc, VecDeque::new(alloc));
    ended(
        alloc,
        "serve --count 3",
        source,
        sink,
        keeper,
        &mut link,
        door,
    )
}

/// The status of a run over a keeper, a sink and a door.
fn status_over<K: Keeper>(
    alloc: Global,
    keeper: &mut K,
    sink: &mut MemorySink,
    door: &mut MemoryDoor,
) -> Result<u8, Fail> {
    let mut source = MemorySource::new(alloc, Vec::new(alloc));
    status_by(alloc, keeper, sink, &mut source, door)
}

/// Whether a connection got the reply with this number.
fn has_got(alloc: Global, door: &MemoryDoor, at: usize, number: usize) -> Result<bool, Fail> {
    let reply = bytes_of(alloc, text_at(REPLIES.as_slice(), number))?;
    Ok(door.written(at) == Some(reply.as_slice()))
}

/// Whether the replies with these numbers were written, and nothing else.
fn has_written(alloc: Global, door: &MemoryDoor, replies: [usize; 3]) -> Result<bool, Fail> {
    for (at, number) in (0..3).zip(replies) {
        if !has_got(alloc, door, at, number)? {
            return Ok(false);
        }
    }
    Ok(true)
}

/// How a run ended over a keeper and a door, and whether it told these lines of the connections.
fn lines_over<K: Keeper>(
    alloc: Global,
    keeper: &mut K,
    door: &mut MemoryDoor,
    lines: &str,
) -> Result<(u8, bool), Fail> {
    let mut sink = MemorySink::new(alloc, 200)?;
    let status = status_over(alloc, keeper, &mut sink, door)?;
    Ok((status, sink.written() == lines.as_bytes()))
}

/// How a run ended over a keeper, whether it told these lines of the connections, and whether the replies with these numbers were written.
fn served<K: Keeper>(
    alloc: Global,
    keeper: &mut K,
    call: u64,
    lines: &str,
    replies: [usize; 3],
) -> Result<(u8, bool, bool), Fail> {
    let mut door = door_of(alloc, call)?;
    let (status, told) = lines_over(alloc, keeper, &mut door, lines)?;
    let written = has_written(alloc, &door, replies)?;
    Ok((status, told, written))
}

/// What a run comes to over a keeper, of which this call of the door fails.
fn told<K: Keeper>(alloc: Global, keeper: &mut K, call: u64, meant: Meant) -> Result<Told, Fail> {
    let (status, told, written) = served(alloc, keeper, call, meant.0, meant.1)?;
    let contents = text_at(CONTENTS.as_slice(), meant.2);
    let kept = holds(alloc, keeper, "home", "file/home", contents)?;
    Ok((status, told, written, kept))
}

/// What a run comes to of which this call of the door fails.
fn told_of(alloc: Global, call: u64, meant: Meant) -> Result<Told, Fail> {
    let mut keeper = MemoryKeeper::new(alloc);
    told(alloc, &mut keeper, call, meant)
}

#[test]
fn tells_that_the_door_failed(rt: HostRuntime) -> Result<(), Fail> {
    for (call, status, lines, replies, contents) in DOOR {
        let told = told_of(rt.alloc(), call, (lines, replies, contents))?;
        assert_eq!(rt; told, (status, true, true, true), "at {call}");
    }
    Ok(())
}

/// What a run comes to of which this call of the keeper fails.
fn told_of_keeper(alloc: Global, call: u64, meant: Meant) -> Result<Told, Fail> {
    let fails = [call].to_vec(alloc)?;
    let mut keeper = MemoryKeeper::with_faults(alloc, fails);
    told(alloc, &mut keeper, NEVER, meant)
}

#[test]
fn tells_that_the_keeper_failed(rt: HostRuntime) -> Result<(), Fail> {
    for (call, status, lines, replies, contents) in KEEPER {
        let told = told_of_keeper(rt.alloc(), call, (lines, replies, contents))?;
        assert_eq!(rt; told, (status, true, true, true), "at {call}");
    }
    Ok(())
}

/// What a run comes to of which this call of the keeper finds no memory.
fn told_of_wants(alloc: Global, call: u64, meant: Meant) -> Result<Told, Fail> {
    let mut keeper = ShortKeeper::new(alloc, call);
    told(alloc, &mut keeper, NEVER, meant)
}

/// A server is used again after it was short of memory.
#[test]
fn tells_that_memory_ran_out(rt: HostRuntime) -> Result<(), Fail> {
    for (call, status, lines, replies, contents) in WANTS {
        let told = told_of_wants(rt.alloc(), call, (lines, replies, contents))?;
        assert_eq!(rt; told, (status, true, true, true), "at {call}");
    }
    Ok(())
}
