ghost use Rattle.std.specs.Prelude.{◌≡◌, IfOk};

use budget_ports::{
    Door, Failed, Keeper, Link, ListClock, MemoryDoor, MemoryKeeper, MemorySink, MemorySource,
    PortFault, Record, ScriptLink, Sink, Source, WallClock,
};
use field_values::{Items, NoMemory, Txt};
use std::alloc::Global;
use std::collections::VecDeque;
use std::test::Fail;

/// The answer of a read with room for three bytes, and what then stands there.
fn read_of(source: &mut MemorySource) -> (Result<usize, Failed>, [u8; 3]) {
    let mut buffer = *b"...";
    let answer = source.read(&mut buffer);
    (answer, buffer)
}

/// The answer of a source of these bytes to a read with room for eight.
fn read_at_once(alloc: Global, bytes: &[u8]) -> Result<Result<usize, Failed>, Fail> {
    let mut source = MemorySource::new(alloc, bytes.to_vec(alloc)?);
    let mut buffer = [0; 8];
    Ok(source.read(&mut buffer))
}

/// A source of five bytes whose second read fails.
fn source(alloc: Global) -> Result<MemorySource, Fail> {
    let bytes = b"money".to_vec(alloc)?;
    let calls = [1].to_vec(alloc)?;
    Ok(MemorySource::with_faults(bytes, calls))
}

/// Five bytes, read three at a time, while the second read fails.
#[test]
fn source_goes_on_after_a_fault(rt: HostRuntime) -> Result<(), Fail> {
    let mut source = source(rt.alloc())?;
    let rows: [(Result<usize, Failed>, [u8; 3]); 4] = [
        (Ok(3), *b"mon"),
        (Err(Failed), *b"..."),
        (Ok(2), *b"ey."),
        (Ok(0), *b"..."),
    ];
    for (answer, filled) in rows {
        assert_eq!(rt; read_of(&mut source), (answer, filled));
    }
    assert_eq!(rt; read_at_once(rt.alloc(), b"money")?, Ok(5));
    Ok(())
}

/// The answers of a write and of a flush behind it.
fn write_of<S: Sink>(sink: &mut S, bytes: &[u8]) -> (Result<usize, Failed>, Result<(), Failed>) {
    let written = sink.write(bytes);
    (written, sink.flush())
}

/// The answer of a sink with room for so many bytes to a write.
fn write_in(alloc: Global, room: usize, bytes: &[u8]) -> Result<Result<usize, Failed>, Fail> {
    let mut small = MemorySink::new(alloc, room)?;
    Ok(small.write(bytes))
}

/// A sink with room for four bytes whose second call fails.
fn sink(alloc: Global) -> Result<MemorySink, Fail> {
    let calls = [1].to_vec(alloc)?;
    Ok(MemorySink::with_faults(alloc, 4, calls)?)
}

/// A room of four bytes: call 1, which is the first flush, fails, and the write of three bytes finds
/// room for two.
#[test]
fn sink_refuses_what_finds_no_room(rt: HostRuntime) -> Result<(), Fail> {
    let mut sink = sink(rt.alloc())?;
    let rows: [(&[u8], Result<usize, Failed>, Result<(), Failed>); 3] = [
        (b"ab", Ok(2), Err(Failed)),
        (b"cde", Err(Failed), Ok(())),
        (b"cd", Ok(2), Ok(())),
    ];
    for (bytes, written, flushed) in rows {
        assert_eq!(rt; write_of(&mut sink, bytes), (written, flushed));
    }
    assert_eq!(rt; sink.written(), b"abcd".as_slice());
    assert_eq!(rt; write_in(rt.alloc(), 1, b"ab")?, Err(Failed));
    Ok(())
}

/// A record, as a copy of another.
fn kept(alloc: Global, key: &str, body: &str) -> Result<Record, NoMemory>
    ensures { IfOk result (λ r. r ≡ record { key = key.now; body = body.now }) }
{
    let first = Record {
        key: Txt::from_text(alloc, key)?,
        body: Txt::from_text(alloc, body)?,
    };
    first.copy()
}

/// Appends `b`, `a` and `b` again to a group.
fn append_three(alloc: Global, keeper: &mut MemoryKeeper, group: &Txt) -> Result<(), PortFault> {
    let b = kept(alloc, "b", "2")?;
    let a = kept(alloc, "a", "1")?;
    let again = kept(alloc, "b", "3")?;
    keeper.append(group, &[b, a, again])
}

/// Appends `c` to a group.
fn append_one(alloc: Global, keeper: &mut MemoryKeeper, group: &Txt) -> Result<(), PortFault> {
    let c = kept(alloc, "c", "4")?;
    keeper.append(group, &[c])
}

/// Appends three records, or else one, to a group of this name.
fn append_to(
    alloc: Global,
    keeper: &mut MemoryKeeper,
    group: &str,
    three: bool,
) -> Result<(), PortFault> {
    let group = Txt::from_text(alloc, group)?;
    match three {
        true => append_three(alloc, keeper, &group),
        false => append_one(alloc, keeper, &group),
    }
}

/// The records of a group after a key, each as its key and its body.
fn shown(
    alloc: Global,
    keeper: &mut MemoryKeeper,
    group: &str,
    after: &str,
) -> Result<String, PortFault> {
    let group = Txt::from_text(alloc, group)?;
    let after = Txt::from_text(alloc, after)?;
    let found = keeper.since(&group, &after)?;
    let mut text = String::new(alloc);
    for record in found.as_slice() {
        push(&mut text, record.key.as_str())?;
        push(&mut text, record.body.as_str())?;
    }
    Ok(text)
}

fn push(text: &mut String, more: &str) -> Result<(), NoMemory> {
    text.push_str(more)?;
    Ok(())
}

/// What a keeper shows of groups after keys, each with a line feed behind it.
fn all_shown(
    alloc: Global,
    keeper: &mut MemoryKeeper,
    rows: &[(&str, &str)],
) -> Result<String, PortFault> {
    let mut text = String::new(alloc);
    for (group, after) in rows {
        push(&mut text, shown(alloc, keeper, group, after)?.as_str())?;
        push(&mut text, "\n")?;
    }
    Ok(text)
}

/// The answers to three records for one group, one for another and one more for the first.
fn appends(alloc: Global, keeper: &mut MemoryKeeper) -> [Result<(), PortFault>; 3] {
    [
        append_to(alloc, keeper, "book", true),
        append_to(alloc, keeper, "bookshelf", false),
        append_to(alloc, keeper, "book", false),
    ]
}

/// A keeper whose third call fails.
fn failing_keeper(alloc: Global) -> Result<MemoryKeeper, Fail> {
    Ok(MemoryKeeper::with_faults(alloc, [2].to_vec(alloc)?))
}

/// A keeper whose third call fails, so that its batch is not there afterwards.
#[test]
fn keeper_keeps_records(rt: HostRuntime) -> Result<(), Fail> {
    let alloc = rt.alloc();
    let mut keeper = failing_keeper(alloc)?;
    let answers = appends(alloc, &mut keeper);
    assert_eq!(rt; answers, [Ok(()), Ok(()), Err(PortFault::Failed)]);
    let rows = [("book", ""), ("book", "a"), ("bookshelf", "b"), ("boo", "")];
    let text = all_shown(alloc, &mut keeper, &rows)?;
    assert_eq!(rt; text.as_str(), "a1b2\nb2\nc4\n\n");
    Ok(())
}

fn put(alloc: Global, keeper: &mut MemoryKeeper, name: &str, text: &str) -> Result<(), PortFault> {
    let name = Txt::from_text(alloc, name)?;
    let text = Txt::from_text(alloc, text)?;
    keeper.put(&name, &text)
}

/// The text of a name, or `none`.
fn text_of(alloc: Global, keeper: &mut MemoryKeeper, name: &str) -> Result<Txt, PortFault> {
    let name = Txt::from_text(alloc, name)?;
    match keeper.get(&name)? {
        Some(text) => Ok(text),
        None => Ok(Txt::from_text(alloc, "none")?),
    }
}

/// Puts texts under names, one after the other.
fn put_all(
    alloc: Global,
    keeper: &mut MemoryKeeper,
    rows: &[(&str, &str)],
) -> Result<(), PortFault> {
    for (name, text) in rows {
        put(alloc, keeper, name, text)?;
    }
    Ok(())
}

/// The texts of names, each with a space behind it.
fn texts_of(alloc: Global, keeper: &mut MemoryKeeper, names: &[&str]) -> Result<String, PortFault> {
    let mut text = String::new(alloc);
    for name in names {
        push(&mut text, text_of(alloc, keeper, name)?.as_str())?;
        push(&mut text, " ")?;
    }
    Ok(text)
}

/// The texts of the names `a`, `b` and `c` in a keeper, and how many names have one.
fn texts_and_count(alloc: Global, keeper: &mut MemoryKeeper) -> Result<(String, usize), PortFault> {
    let count = keeper.names()?.len();
    Ok((texts_of(alloc, keeper, &["a", "b", "c"])?, count))
}

/// Texts under names, of which the second `put` of one replaces the first.
#[test]
fn keeper_keeps_texts(rt: HostRuntime) -> Result<(), Fail> {
    let alloc = rt.alloc();
    let mut keeper = MemoryKeeper::new(alloc);
    put_all(alloc, &mut keeper, &[("b", "1"), ("a", "2"), ("b", "3")])?;
    let (texts, count) = texts_and_count(alloc, &mut keeper)?;
    assert_eq!(rt; (texts.as_str(), count), ("2 3 none ", 2));
    Ok(())
}

/// A list of readings, and then its last one again.
#[test]
fn clock_gives_its_list(rt: HostRuntime) -> Result<(), Fail> {
    let mut clock = ListClock::new([1_704_448_800_000, 5].to_vec(rt.alloc())?);
    for reading in [1_704_448_800_000, 5, 5] {
        assert_eq!(rt; clock.now(), reading);
    }
    Ok(())
}

/// A link that will give `a` and `b`, while its second call fails.
fn link(alloc: Global) -> Result<ScriptLink, Fail> {
    let mut replies = VecDeque::new(alloc);
    replies.push_back(Items::new(b"a".to_vec(alloc)?))?;
    replies.push_back(Items::new(b"b".to_vec(alloc)?))?;
    let calls = [1].to_vec(alloc)?;
    Ok(ScriptLink::with_faults(alloc, replies, calls))
}

/// The reply that comes, as its only byte; where it isn't one byte, a dot.
fn reply_of(link: &mut ScriptLink) -> Result<u8, PortFault> {
    match link.receive()?.as_slice() {
        [byte] => Ok(*byte),
        _ => Ok(b'.'),
    }
}

/// A call that fails uses up no reply, and behind the last reply the same one comes again.
#[test]
fn script_goes_on_after_a_fault(rt: HostRuntime) -> Result<(), Fail> {
    let mut link = link(rt.alloc())?;
    let failed = Err(PortFault::Failed);
    for (sent, reply) in [
        (Some(b"1"), failed),
        (Some(b"2"), Ok(b'a')),
        (Some(b"3"), Ok(b'b')),
        (Some(b"4"), Ok(b'b')),
        (None, failed),
        (Some(b"4"), Ok(b'b')),
        (None, failed),
    ] {
        if let Some(bytes) = sent {
            assert_eq!(rt; link.send(bytes), Ok(()));
        }
        assert_eq!(rt; reply_of(&mut link), reply);
    }
    Ok(())
}

/// Two connections that bring these bytes.
fn connections_of(alloc: Global, first: &[u8], second: &[u8]) -> Result<Vec<Items<u8>>, Fail> {
    let mut connections = Vec::new(alloc);
    connections.push(Items::new(first.to_vec(alloc)?))?;
    connections.push(Items::new(second.to_vec(alloc)?))?;
    Ok(connections)
}

/// A door before which `money` and `ab` wait, whose bytes come by one and then by three at a time,
/// with room for four bytes each.
fn door(alloc: Global, calls: &[u64]) -> Result<MemoryDoor, Fail> {
    let connections = connections_of(alloc, b"money", b"ab")?;
    let pieces = [1, 3].to_vec(alloc)?;
    Ok(MemoryDoor::with_faults(alloc, connections, pieces, 4, calls.to_vec(alloc)?)?)
}

/// The answer of a read with room for four bytes, and what then stands there.
fn piece_of(door: &mut MemoryDoor) -> (Result<usize, Failed>, [u8; 4]) {
    let mut buffer = *b"....";
    let answer = door.read(&mut buffer);
    (answer, buffer)
}

/// A connection comes in pieces, after a failed call too; the next one begins with its first piece,
/// and past the last one there are no bytes.
#[test]
fn door_lets_in_one_after_the_other(rt: HostRuntime) -> Result<(), Fail> {
    let mut door = door(rt.alloc(), &[2])?;
    let rows: [(bool, Result<usize, Failed>, [u8; 4]); 6] = [
        (true, Ok(1), *b"m..."),
        (false, Err(Failed), *b"...."),
        (false, Ok(3), *b"one."),
        (true, Ok(1), *b"a..."),
        (false, Ok(1), *b"b..."),
        (true, Ok(0), *b"...."),
    ];
    for (next, answer, filled) in rows {
        if next {
            assert_eq!(rt; door.accept(), Ok(()));
        }
        assert_eq!(rt; piece_of(&mut door), (answer, filled));
    }
    Ok(())
}

/// A door before which two connections wait that bring nothing, with room for four bytes each.
fn quiet_door(alloc: Global) -> Result<MemoryDoor, Fail> {
    let connections = connections_of(alloc, b"", b"")?;
    Ok(MemoryDoor::new(alloc, connections, Vec::new(alloc), 4)?)
}

/// The answers past the last connection: of two calls that close it, of one that lets the next in, and of a write.
fn ended(
    door: &mut MemoryDoor,
) -> (
    Result<(), Failed>,
    Result<(), Failed>,
    Result<(), Failed>,
    Result<usize, Failed>,
) {
    let closed = door.close();
    let again = door.close();
    let next = door.accept();
    (closed, again, next, door.write(b"f"))
}

/// What is written goes to the connection that is open, where all of it finds room; before the first
/// one and past the last one nothing can be written, and what was closed can't be closed again.
#[test]
fn door_keeps_what_is_written(rt: HostRuntime) -> Result<(), Fail> {
    let mut door = quiet_door(rt.alloc())?;
    let rows: [(bool, &[u8], Result<usize, Failed>); 5] = [
        (false, b"a", Err(Failed)),
        (true, b"abc", Ok(3)),
        (false, b"de", Err(Failed)),
        (true, b"abcd", Ok(4)),
        (false, b"e", Err(Failed)),
    ];
    for (next, bytes, answer) in rows {
        if next {
            assert_eq!(rt; door.accept(), Ok(()));
        }
        assert_eq!(rt; door.write(bytes), answer);
    }
    let failed = Err(Failed);
    assert_eq!(rt; ended(&mut door), (Ok(()), failed, Ok(()), Err(Failed)));
    let rows: [(usize, Option<&[u8]>); 3] = [(0, Some(b"abc")), (1, Some(b"abcd")), (2, None)];
    for (connection, written) in rows {
        assert_eq!(rt; door.written(connection), written);
    }
    Ok(())
}
