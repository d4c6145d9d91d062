//! Runs of a device whose lines `sync` are answered by replies that were written before, the last one again and again.
ghost use Rattle.std.specs.Prelude.{◌≡◌, ◌≤◌};

use crate::table::{T0, written_to};
use budget_ports::{ListClock, MemoryDoor, MemoryKeeper, MemorySink, MemorySource, ScriptLink};
use budget_top::run_in_memory;
use field_values::{Items, Steps, Txt};
use std::alloc::Global;
use std::collections::VecDeque;
use std::marker::Brand;
use std::sync::ledger::{Blank, Ledger};
use std::test::Fail;

/// A run: what it reads, the replies, each reading of the clock, the status, and what it writes.
struct Run {
    input: &'static str,
    replies: &'static [&'static str],
    reading: u64,
    status: u8,
    output: &'static str,
}

/// Replies: with a trie that no messages have, with that of no messages, and refusals. Each character is a byte.
const ELSE: &str = "HTTP/1.1 200 OK\r\n\r\n\x12\x0a{\"hash\":1}";

const NONE: &str = "HTTP/1.1 200 OK\r\n\r\n\x12\x0a{\"hash\":0}";

const REFUSED: &str = "HTTP/1.1 401 Unauthorized\r\nContent-Length: 15\r\n\r\ntoken-not-found";

const CUT: &str = "HTTP/1.1 200 OK\r\nContent-Length: 13\r\n\r\n\x12\x0a{\"hash\":0}";

/// An answer of a server that holds one message, whose time is more than five minutes ahead of the reading by a millisecond, or is not.
const AHEAD: &str =
    "HTTP/1.1 200 OK\r\n\r\n\nS\n.2024-01-05T10:05:00.001Z-0000-00000000000000bb\x1a!\n\ncategories\x12\x04food\x1a\x04name\"\x07S:Meals\x12\u{a4}\x03{\"1\":{\"2\":{\"2\":{\"2\":{\"1\":{\"1\":{\"0\":{\"0\":{\"2\":{\"0\":{\"2\":{\"0\":{\"2\":{\"0\":{\"0\":{\"2\":{\"hash\":-1862945150},\"hash\":-1862945150},\"hash\":-1862945150},\"hash\":-1862945150},\"hash\":-1862945150},\"hash\":-1862945150},\"hash\":-1862945150},\"hash\":-1862945150},\"hash\":-1862945150},\"hash\":-1862945150},\"hash\":-1862945150},\"hash\":-1862945150},\"hash\":-1862945150},\"hash\":-1862945150},\"hash\":-1862945150},\"hash\":-1862945150},\"hash\":-1862945150}";

const NOT_AHEAD: &str =
    "HTTP/1.1 200 OK\r\n\r\n\nS\n.2024-01-05T10:05:00.000Z-0000-00000000000000bb\x1a!\n\ncategories\x12\x04food\x1a\x04name\"\x07S:Meals\x12\u{a4}\x03{\"1\":{\"2\":{\"2\":{\"2\":{\"1\":{\"1\":{\"0\":{\"0\":{\"2\":{\"0\":{\"2\":{\"0\":{\"2\":{\"0\":{\"0\":{\"2\":{\"hash\":-1634426349},\"hash\":-1634426349},\"hash\":-1634426349},\"hash\":-1634426349},\"hash\":-1634426349},\"hash\":-1634426349},\"hash\":-1634426349},\"hash\":-1634426349},\"hash\":-1634426349},\"hash\":-1634426349},\"hash\":-1634426349},\"hash\":-1634426349},\"hash\":-1634426349},\"hash\":-1634426349},\"hash\":-1634426349},\"hash\":-1634426349},\"hash\":-1634426349}";

const RUNS: [Run; 7] = [
    // after a hundred answers there is no agreement, and nothing is kept
    Run {
        input: "sync\nmessages\t0\n",
        replies: &[ELSE],
        reading: T0,
        status: 1,
        output: "refused E29 sync-failed out-of-sync 0 1\nok 0\n",
    },
    // a message that is too far ahead of the clock, and one that is not
    Run {
        input: "sync\nmessages\t0\n",
        replies: &[AHEAD],
        reading: T0,
        status: 1,
        output: "refused E26 clock-drift 1704449100001 1704448800000\nok 0\n",
    },
    Run {
        input: "sync\nmessages\t0\nsync\n",
        replies: &[NOT_AHEAD],
        reading: T0,
        status: 0,
        output: "ok 1\nrequests 1 received 1\nok 1\n2024-01-05T10:05:00.000Z-0000-00000000000000bb\tcategories\tfood\tname\tS:Meals\nok 1\nrequests 1 received 0\n",
    },
    // no server, a refusal, and a reply that breaks off; the line behind it is answered
    Run {
        input: "sync\ntrie\n",
        replies: &[],
        reading: T0,
        status: 1,
        output: "refused E29 sync-failed link\nok 1\n{\"hash\":0}\n",
    },
    Run {
        input: "sync\nsync\n",
        replies: &[REFUSED, NONE],
        reading: T0,
        status: 1,
        output: "refused E29 sync-failed status 401\nok 1\nrequests 1 received 0\n",
    },
    Run {
        input: "sync\nsync\n",
        replies: &[CUT, NONE],
        reading: T0,
        status: 1,
        output: "refused E29 sync-failed reply 0\nok 1\nrequests 1 received 0\n",
    },
    // a reading past the window: the server is not asked
    Run {
        input: "sync\n",
        replies: &[NONE],
        reading: 2_582_803_260_000,
        status: 1,
        output: "refused E28 clock-beyond 2582803260000\n",
    },
];

/// The bytes that a text stands for.
fn bytes_of(alloc: Global, text: &str) -> Result<Vec<u8>, Fail> {
    let mut bytes = Vec::new(alloc);
    for letter in text.chars() {
        bytes.push(u8::try_from(letter).unwrap_or(0))?;
    }
    Ok(bytes)
}

/// A link that gives the replies.
fn link_of(alloc: Global, run: &Run) -> Result<ScriptLink, Fail> {
    let mut replies = VecDeque::new(alloc);
    for reply in run.replies {
        replies.push_back(Items::new(bytes_of(alloc, reply)?))?;
    }
    Ok(ScriptLink::new(alloc, replies))
}

/// The words `device --node aa`.
fn words_of(alloc: Global) -> Result<Items<Txt>, Fail> {
    let mut words = Vec::new(alloc);
    for word in ["device", "--node", "aa"] {
        words.push(Txt::from_text(alloc, word)?)?;
    }
    Ok(Items::new(words))
}

/// The status of a run, with a counter of steps that nobody reads.
fn status_of<G: Ledger>(
    blank: Blank,
    alloc: Global,
    words: &Items<Txt>,
    source: &mut MemorySource,
    sink: &mut MemorySink,
    link: &mut ScriptLink,
    door: &mut MemoryDoor,
    clock: &mut ListClock,
) -> u8
    requires name { blank.name ≡ G.name }
    requires parts { blank.parts ≡ G.parts }
    requires some { 1 ≤ G.parts }
{
    let mut keeper = MemoryKeeper::new(alloc);
    let mut steps = Steps::<G>::new(blank);
    run_in_memory(
        alloc,
        words,
        source,
        sink,
        &mut keeper,
        link,
        door,
        clock,
        &mut steps,
    )
}

fn source_of(alloc: Global, run: &Run) -> Result<MemorySource, Fail> {
    let input = run.input.as_bytes().to_vec(alloc)?;
    Ok(MemorySource::new(alloc, input))
}

fn clock_of(alloc: Global, run: &Run) -> Result<ListClock, Fail> {
    Ok(ListClock::new([run.reading].to_vec(alloc)?))
}

/// The status of a run of these words over a source, a sink, a link and a door.
fn ended_by(
    alloc: Global,
    words: &Items<Txt>,
    source: &mut MemorySource,
    sink: &mut MemorySink,
    link: &mut ScriptLink,
    door: &mut MemoryDoor,
    run: &Run,
) -> Result<u8, Fail> {
    let mut clock = clock_of(alloc, run)?;
    Ok(status_of::<Brand>(
        Blank::new(1),
        alloc,
        words,
        source,
        sink,
        link,
        door,
        &mut clock,
    ))
}

/// The status of a run over a source, a sink, a link and a door.
fn ended_over(
    alloc: Global,
    source: &mut MemorySource,
    sink: &mut MemorySink,
    link: &mut ScriptLink,
    door: &mut MemoryDoor,
    run: &Run,
) -> Result<u8, Fail> {
    let words = words_of(alloc)?;
    ended_by(alloc, &words, source, sink, link, door, run)
}

/// The status of a run over a source, a sink and a link, in which nobody connects.
fn ended_from(
    alloc: Global,
    source: &mut MemorySource,
    sink: &mut MemorySink,
    link: &mut ScriptLink,
    run: &Run,
) -> Result<u8, Fail> {
    let mut door = MemoryDoor::new(alloc, Vec::new(alloc), Vec::new(alloc), 0)?;
    ended_over(alloc, source, sink, link, &mut door, run)
}

/// The status of a run over a sink and a link.
fn ended_with(
    alloc: Global,
    sink: &mut MemorySink,
    link: &mut ScriptLink,
    run: &Run,
) -> Result<u8, Fail> {
    let mut source = source_of(alloc, run)?;
    ended_from(alloc, &mut source, sink, link, run)
}

/// The status of a run over a sink.
fn ended(alloc: Global, sink: &mut MemorySink, run: &Run) -> Result<u8, Fail> {
    let mut link = link_of(alloc, run)?;
    ended_with(alloc, sink, &mut link, run)
}

/// The status of a run, and all that it wrote.
fn outcome(alloc: Global, run: &Run) -> Result<(u8, String), Fail> {
    let mut sink = MemorySink::new(alloc, 2_000)?;
    let status = ended(alloc, &mut sink, run)?;
    Ok((status, written_to(alloc, &sink)?))
}

#[test]
fn syncs_are_told(rt: HostRuntime) -> Result<(), Fail> {
    for run in &RUNS {
        let (status, told) = outcome(rt.alloc(), run)?;
        assert_eq!(rt; (status, told.as_str()), (run.status, run.output));
    }
    Ok(())
}
