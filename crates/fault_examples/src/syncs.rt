//! The run of a device with a sync of two turns, while a call of the link or of the keeper fails.
use crate::contents::{bytes_of, holds};
use crate::running::{NEVER, ended};
use crate::short::{ShortKeeper, ShortLink};
use budget_ports::{Keeper, Link, MemoryDoor, MemoryKeeper, MemorySink, MemorySource, ScriptLink};
use field_values::Items;
use std::alloc::Global;
use std::collections::VecDeque;
use std::test::Fail;

/// A device makes a message, syncs, and tells what it has. A `>` is a TAB.
const LINES: &str = r"set>categories>food>name>S:Food
sync
messages>
";

/// The replies of a server that had two messages, of which the first request asks for one. Each character is a byte.
const REPLIES: [&str; 2] = [
    "HTTP/1.1 200 OK\r\nContent-Type: application/actual-sync\r\nContent-Length: 640\r\nConnection: close\r\n\r\n\nS\n.2024-01-05T10:00:01.000Z-0000-00000000000000bb\x1a!\n\ncategories\x12\x04food\x1a\x04name\"\x07S:Meals\x12\u{a8}\x04{\"1\":{\"2\":{\"2\":{\"2\":{\"1\":{\"1\":{\"0\":{\"0\":{\"2\":{\"0\":{\"1\":{\"2\":{\"2\":{\"2\":{\"0\":{\"0\":{\"hash\":-2138327547},\"hash\":-2138327547},\"hash\":-2138327547},\"hash\":-2138327547},\"hash\":-2138327547},\"hash\":-2138327547},\"2\":{\"0\":{\"1\":{\"2\":{\"2\":{\"0\":{\"hash\":16148298},\"hash\":16148298},\"hash\":16148298},\"hash\":16148298},\"hash\":16148298},\"hash\":16148298},\"hash\":-2139238065},\"hash\":-2139238065},\"hash\":-2139238065},\"hash\":-2139238065},\"hash\":-2139238065},\"hash\":-2139238065},\"hash\":-2139238065},\"hash\":-2139238065},\"hash\":-2139238065},\"hash\":-2139238065},\"hash\":-2139238065}",
    "HTTP/1.1 200 OK\r\nContent-Type: application/actual-sync\r\nContent-Length: 808\r\nConnection: close\r\n\r\n\nR\n.2024-01-05T09:00:00.000Z-0000-00000000000000bb\x1a \n\ncategories\x12\x04rent\x1a\x04name\"\x06S:Rent\nR\n.2024-01-05T10:00:00.000Z-0000-00000000000000aa\x1a \n\ncategories\x12\x04food\x1a\x04name\"\x06S:Food\nS\n.2024-01-05T10:00:01.000Z-0000-00000000000000bb\x1a!\n\ncategories\x12\x04food\x1a\x04name\"\x07S:Meals\x12\u{a8}\x04{\"1\":{\"2\":{\"2\":{\"2\":{\"1\":{\"1\":{\"0\":{\"0\":{\"2\":{\"0\":{\"1\":{\"2\":{\"2\":{\"2\":{\"0\":{\"0\":{\"hash\":-2138327547},\"hash\":-2138327547},\"hash\":-2138327547},\"hash\":-2138327547},\"hash\":-2138327547},\"hash\":-2138327547},\"2\":{\"0\":{\"1\":{\"2\":{\"2\":{\"0\":{\"hash\":16148298},\"hash\":16148298},\"hash\":16148298},\"hash\":16148298},\"hash\":16148298},\"hash\":16148298},\"hash\":-2139238065},\"hash\":-2139238065},\"hash\":-2139238065},\"hash\":-2139238065},\"hash\":-2139238065},\"hash\":-2139238065},\"hash\":-2139238065},\"hash\":-2139238065},\"hash\":-2139238065},\"hash\":-2139238065},\"hash\":-2139238065}",
];

/// What the device replies: where nothing fails, and where the link fails in the first turn or in the second one.
const OUTPUTS: [&str; 3] = [
    "ok 1\nwrites 1\nok 1\nrequests 2 received 2\nok 3\n2024-01-05T09:00:00.000Z-0000-00000000000000bb\tcategories\trent\tname\tS:Rent\n2024-01-05T10:00:00.000Z-0000-00000000000000aa\tcategories\tfood\tname\tS:Food\n2024-01-05T10:00:01.000Z-0000-00000000000000bb\tcategories\tfood\tname\tS:Meals\n",
    "ok 1\nwrites 1\nrefused E29 sync-failed link\nok 1\n2024-01-05T10:00:00.000Z-0000-00000000000000aa\tcategories\tfood\tname\tS:Food\n",
    "ok 1\nwrites 1\nrefused E29 sync-failed link\nok 2\n2024-01-05T10:00:00.000Z-0000-00000000000000aa\tcategories\tfood\tname\tS:Food\n2024-01-05T10:00:01.000Z-0000-00000000000000bb\tcategories\tfood\tname\tS:Meals\n",
];

/// What may be kept behind the run: the records of the device, each as a line, and the text of the last sync.
const CONTENTS: [&str; 5] = [
    "",
    "2024-01-05T10:00:00.000Z-0000-00000000000000aa\tcategories\tfood\tname\tS:Food\n",
    "2024-01-05T10:00:00.000Z-0000-00000000000000aa\tcategories\tfood\tname\tS:Food\n2024-01-05T10:00:01.000Z-0000-00000000000000bb\tcategories\tfood\tname\tS:Meals\n",
    "2024-01-05T09:00:00.000Z-0000-00000000000000bb\tcategories\trent\tname\tS:Rent\n2024-01-05T10:00:00.000Z-0000-00000000000000aa\tcategories\tfood\tname\tS:Food\n2024-01-05T10:00:01.000Z-0000-00000000000000bb\tcategories\tfood\tname\tS:Meals\n2024-01-05T10:00:01.000Z-0002-00000000000000aa\n",
    "2024-01-05T09:00:00.000Z-0000-00000000000000bb\tcategories\trent\tname\tS:Rent\n2024-01-05T10:00:00.000Z-0000-00000000000000aa\tcategories\tfood\tname\tS:Food\n2024-01-05T10:00:01.000Z-0000-00000000000000bb\tcategories\tfood\tname\tS:Meals\n",
];

/// The call of the link that fails, the status, which of the outputs is written, how many bytes of it, what is kept.
const LINK: [(u64, u8, usize, usize, usize); 5] = [
    (0, 1, 1, 123, 1),
    (1, 1, 1, 123, 1),
    (2, 1, 2, 199, 2),
    (3, 1, 2, 199, 2),
    (4, 0, 0, 272, 3),
];

/// The same of the keeper.
const KEEPER: [(u64, u8, usize, usize, usize); 7] = [
    (0, 6, 0, 0, 0),
    (1, 6, 0, 0, 0),
    (2, 6, 0, 14, 1),
    (3, 6, 0, 14, 1),
    (4, 6, 0, 14, 2),
    (5, 6, 0, 14, 4),
    (6, 0, 0, 272, 3),
];

/// The same of a link of which the call finds no memory, and of such a keeper.
const LINK_WANTS: [(u64, u8, usize, usize, usize); 5] = [
    (0, 7, 0, 14, 1),
    (1, 7, 0, 14, 1),
    (2, 7, 0, 14, 2),
    (3, 7, 0, 14, 2),
    (4, 0, 0, 272, 3),
];

const KEEPER_WANTS: [(u64, u8, usize, usize, usize); 7] = [
    (0, 7, 0, 0, 0),
    (1, 7, 0, 0, 0),
    (2, 7, 0, 14, 1),
    (3, 7, 0, 14, 1),
    (4, 7, 0, 14, 2),
    (5, 7, 0, 14, 4),
    (6, 0, 0, 272, 3),
];

/// Which of the outputs is meant to be written, how many bytes of it, and what is meant to be kept.
type Meant = (usize, usize, usize);

/// How a run ended, and whether it wrote what is meant and whether that is kept which is meant.
type Told = (u8, bool, bool);

/// The replies, in order.
fn replies(alloc: Global) -> Result<VecDeque<Items<u8>>, Fail> {
    let mut replies = VecDeque::new(alloc);
    for reply in REPLIES {
        replies.push_back(Items::new(bytes_of(alloc, reply)?))?;
    }
    Ok(replies)
}

/// The device's lines.
fn input_of(alloc: Global) -> Result<Vec<u8>, Fail> {
    let lines = LINES.replace(alloc, '>', "\t")?;
    Ok(lines.as_bytes().to_vec(alloc)?)
}

/// The status of a run over a keeper, a sink, a link and a source.
fn status_from<K: Keeper, L: Link>(
    alloc: Global,
    keeper: &mut K,
    sink: &mut MemorySink,
    link: &mut L,
    source: &mut MemorySource,
) -> Result<u8, Fail> {
    let mut door = MemoryDoor::new(alloc, Vec::new(alloc), Vec::new(alloc), 0)?;
    ended(
        alloc,
        "device --node aa",
        source,
        sink,
        keeper,
        link,
        &mut door,
    )
}

/// The status of a run over a keeper, a sink and a link.
fn status_over<K: Keeper, L: Link>(
    alloc: Global,
    keeper: &mut K,
    sink: &mut MemorySink,
    link: &mut L,
) -> Result<u8, Fail> {
    let mut source = MemorySource::new(alloc, input_of(alloc)?);
    status_from(alloc, keeper, sink, link, &mut source)
}

/// The first bytes of the output with this number.
fn output_at(number: usize, bytes: usize) -> &'static str {
    match OUTPUTS.get(number) {
        Some(output) => output.get(..bytes).unwrap_or("less"),
        None => "none",
    }
}

/// The contents with this number.
fn contents_at(number: usize) -> &'static str {
    match CONTENTS.get(number) {
        Some(contents) => contents,
        None => "none",
    }
}

/// How a run ended over a keeper and a link, and whether it wrote this.
fn written<K: Keeper, L: Link>(
    alloc: Global,
    keeper: &mut K,
    link: &mut L,
    output: &str,
) -> Result<(u8, bool), Fail> {
    let mut sink = MemorySink::new(alloc, 2000)?;
    let status = status_over(alloc, keeper, &mut sink, link)?;
    Ok((status, sink.written() == output.as_bytes()))
}

/// What a run comes to over a keeper and a link.
fn told<K: Keeper, L: Link>(
    alloc: Global,
    keeper: &mut K,
    link: &mut L,
    meant: Meant,
) -> Result<Told, Fail> {
    let (status, written) = written(alloc, keeper, link, output_at(meant.0, meant.1))?;
    let contents = contents_at(meant.2);
    let kept = holds(alloc, keeper, "device", "synced/home/home", contents)?;
    Ok((status, written, kept))
}

/// The link, of which this call fails.
fn link_of(alloc: Global, call: u64) -> Result<ScriptLink, Fail> {
    let replies = replies(alloc)?;
    let fails = [call].to_vec(alloc)?;
    Ok(ScriptLink::with_faults(alloc, replies, fails))
}

/// What a run comes to over a keeper, of which this call of the link fails.
fn told_over<K: Keeper>(
    alloc: Global,
    keeper: &mut K,
    call: u64,
    meant: Meant,
) -> Result<Told, Fail> {
    let mut link = link_of(alloc, call)?;
    told(alloc, keeper, &mut link, meant)
}

/// What a run comes to of which this call of the link fails.
fn told_of_link(alloc: Global, call: u64, meant: Meant) -> Result<Told, Fail> {
    let mut keeper = MemoryKeeper::new(alloc);
    told_over(alloc, &mut keeper, call, meant)
}

#[test]
fn tells_that_the_link_failed(rt: HostRuntime) -> Result<(), Fail> {
    for (call, status, output, bytes, contents) in LINK {
        let told = told_of_link(rt.alloc(), call, (output, bytes, contents))?;
        assert_eq!(rt; told, (status, true, true), "at {call}");
    }
    Ok(())
}

/// What a run comes to of which this call of the keeper fails.
fn told_of_keeper(alloc: Global, call: u64, meant: Meant) -> Result<Told, Fail> {
    let fails = [call].to_vec(alloc)?;
    let mut keeper = MemoryKeeper::with_faults(alloc, fails);
    told_over(alloc, &mut keeper, NEVER, meant)
}

#[test]
fn tells_that_the_keeper_failed(rt: HostRuntime) -> Result<(), Fail> {
    for (call, status, output, bytes, contents) in KEEPER {
        let told = told_of_keeper(rt.alloc(), call, (output, bytes, contents))?;
        assert_eq!(rt; told, (status, true, true), "at {call}");
    }
    Ok(())
}

/// What a run comes to over a keeper, of which this call of the link finds no memory.
fn told_over_wants<K: Keeper>(
    alloc: Global,
    keeper: &mut K,
    call: u64,
    meant: Meant,
) -> Result<Told, Fail> {
    let mut link = ShortLink::new(alloc, replies(alloc)?, call);
    told(alloc, keeper, &mut link, meant)
}

/// What a run comes to of which this call of the link finds no memory.
fn told_of_link_wants(alloc: Global, call: u64, meant: Meant) -> Result<Told, Fail> {
    let mut keeper = MemoryKeeper::new(alloc);
    told_over_wants(alloc, &mut keeper, call, meant)
}

#[test]
fn tells_that_the_link_wants_memory(rt: HostRuntime) -> Result<(), Fail> {
    for (call, status, output, bytes, contents) in LINK_WANTS {
        let told = told_of_link_wants(rt.alloc(), call, (output, bytes, contents))?;
        assert_eq!(rt; told, (status, true, true), "at {call}");
    }
    Ok(())
}

/// What a run comes to of which this call of the keeper finds no memory.
fn told_of_keeper_wants(alloc: Global, call: u64, meant: Meant) -> Result<Told, Fail> {
    let mut keeper = ShortKeeper::new(alloc, call);
    told_over(alloc, &mut keeper, NEVER, meant)
}

#[test]
fn tells_that_the_keeper_wants_memory(rt: HostRuntime) -> Result<(), Fail> {
    for (call, status, output, bytes, contents) in KEEPER_WANTS {
        let told = told_of_keeper_wants(rt.alloc(), call, (output, bytes, contents))?;
        assert_eq!(rt; told, (status, true, true), "at {call}");
    }
    Ok(())
}
