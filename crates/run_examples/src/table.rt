//! Runs over objects in memory, and tables of lines with their replies.
ghost use Rattle.std.specs.Prelude.{◌≡◌, ◌≤◌};

use budget_ports::{ListClock, MemoryDoor, MemoryKeeper, MemorySink, MemorySource, ScriptLink};
use budget_top::run_in_memory;
use field_values::{Items, NoMemory, Steps, Txt};
use std::alloc::Global;
use std::collections::VecDeque;
use std::marker::Brand;
use std::str;
use std::sync::ledger::{Blank, Ledger};
use std::test::Fail;

/// 2024-01-05T10:00:00.000Z.
pub(crate) const T0: u64 = 1_704_448_800_000;

/// A run: its words, what it reads, what each connection sends, the calls of the source, of the sink and of the door that fail, and each
/// reading of its clock.
#[derive(Clone, Copy)]
pub(crate) struct Run<'a> {
    pub(crate) words: &'a str,
    pub(crate) input: &'a str,
    pub(crate) connections: &'a [&'a [u8]],
    pub(crate) source_fails: &'a [u64],
    pub(crate) sink_fails: &'a [u64],
    pub(crate) door_fails: &'a [u64],
    pub(crate) reading: u64,
}

/// A run of the device `aa` that reads nothing, and in which nothing fails.
pub(crate) const DEVICE: Run<'static> = Run {
    words: "device --node aa",
    input: "",
    connections: &[],
    source_fails: &[],
    sink_fails: &[],
    door_fails: &[],
    reading: T0,
};

/// The words that stand between blanks; the empty text has none.
fn words_of(alloc: Global, text: &str) -> Result<Items<Txt>, Fail> {
    let mut words = Vec::new(alloc);
    if !text.is_empty() {
        for word in text.split(' ') {
            words.push(Txt::from_text(alloc, word)?)?;
        }
    }
    Ok(Items::new(words))
}

fn source_of(alloc: Global, run: &Run<'_>) -> Result<MemorySource, Fail> {
    let input = run.input.as_bytes().to_vec(alloc)?;
    let fails = run.source_fails.to_vec(alloc)?;
    Ok(MemorySource::with_faults(input, fails))
}

fn sink_of(alloc: Global, run: &Run<'_>) -> Result<MemorySink, Fail> {
    let fails = run.sink_fails.to_vec(alloc)?;
    Ok(MemorySink::with_faults(alloc, 20_000, fails)?)
}

fn clock_of(alloc: Global, run: &Run<'_>) -> Result<ListClock, Fail> {
    Ok(ListClock::new([run.reading].to_vec(alloc)?))
}

/// What each connection sends.
fn connections_of(alloc: Global, run: &Run<'_>) -> Result<Vec<Items<u8>>, Fail> {
    let mut connections = Vec::new(alloc);
    for bytes in run.connections {
        connections.push(Items::new(bytes.to_vec(alloc)?))?;
    }
    Ok(connections)
}

fn door_of(alloc: Global, run: &Run<'_>) -> Result<MemoryDoor, Fail> {
    let connections = connections_of(alloc, run)?;
    let fails = run.door_fails.to_vec(alloc)?;
    let pieces = Vec::new(alloc);
    Ok(MemoryDoor::with_faults(alloc, connections, pieces, 1000, fails)?)
}

/// The status of a run without a server for a device, with a counter of steps that nobody reads.
fn status_of<G: Ledger>(
    blank: Blank,
    alloc: Global,
    words: &Items<Txt>,
    source: &mut MemorySource,
    sink: &mut MemorySink,
    keeper: &mut MemoryKeeper,
    door: &mut MemoryDoor,
    clock: &mut ListClock,
) -> u8
    requires name { blank.name ≡ G.name }
    requires parts { blank.parts ≡ G.parts }
    requires some { 1 ≤ G.parts }
{
    let mut link = ScriptLink::new(alloc, VecDeque::new(alloc));
    let mut steps = Steps::<G>::new(blank);
    run_in_memory(
        alloc, words, source, sink, keeper, &mut link, door, clock, &mut steps,
    )
}

/// The status of a run of these words over a source, a sink, a keeper and a door.
fn ended_by(
    alloc: Global,
    words: &Items<Txt>,
    source: &mut MemorySource,
    sink: &mut MemorySink,
    keeper: &mut MemoryKeeper,
    door: &mut MemoryDoor,
    run: &Run<'_>,
) -> Result<u8, Fail> {
    let mut clock = clock_of(alloc, run)?;
    Ok(status_of::<Brand>(
        Blank::new(1),
        alloc,
        words,
        source,
        sink,
        keeper,
        door,
        &mut clock,
    ))
}

/// The status of a run over a source, a sink, a keeper and a door.
fn ended_over(
    alloc: Global,
    source: &mut MemorySource,
    sink: &mut MemorySink,
    keeper: &mut MemoryKeeper,
    door: &mut MemoryDoor,
    run: &Run<'_>,
) -> Result<u8, Fail> {
    let words = words_of(alloc, run.words)?;
    ended_by(alloc, &words, source, sink, keeper, door, run)
}

/// The status of a run over a source, a sink and a keeper.
fn ended_from(
    alloc: Global,
    source: &mut MemorySource,
    sink: &mut MemorySink,
    keeper: &mut MemoryKeeper,
    run: &Run<'_>,
) -> Result<u8, Fail> {
    let mut door = door_of(alloc, run)?;
    ended_over(alloc, source, sink, keeper, &mut door, run)
}

/// The status of a run over a keeper and a sink.
fn ended(
    alloc: Global,
    sink: &mut MemorySink,
    keeper: &mut MemoryKeeper,
    run: &Run<'_>,
) -> Result<u8, Fail> {
    let mut source = source_of(alloc, run)?;
    ended_from(alloc, &mut source, sink, keeper, run)
}

/// All that was written to a sink.
pub(crate) fn written_to(alloc: Global, sink: &MemorySink) -> Result<String, Fail> {
    let text = str::from_utf8(sink.written()).unwrap_or("no text");
    Ok(String::from_str(alloc, text)?)
}

/// The status of a run over a keeper, and all that it wrote.
pub(crate) fn outcome(
    alloc: Global,
    keeper: &mut MemoryKeeper,
    run: &Run<'_>,
) -> Result<(u8, String), Fail> {
    let mut sink = sink_of(alloc, run)?;
    let status = ended(alloc, &mut sink, keeper, run)?;
    Ok((status, written_to(alloc, &sink)?))
}

/// A side of rows with 64 letters `x` for each `*`.
fn with_long(alloc: Global, side: &str) -> Result<String, NoMemory> {
    let long = side.replace(
        alloc,
        '*',
        "xxxxxxxxxxxxxxxxxxxxxxxxxxxxxxxxxxxxxxxxxxxxxxxxxxxxxxxxxxxxxxxx",
    )?;
    Ok(long)
}

/// A side of rows with a line feed for each `|`, and 64 letters `x` for each `*`.
fn with_feeds(alloc: Global, side: &str) -> Result<String, NoMemory> {
    let feeds = side.replace(alloc, '|', "\n")?;
    with_long(alloc, feeds.as_str())
}

/// A side of rows, with a TAB for each `>`, a line feed for each `|`, and 64 letters `x` for each `*`.
fn written(alloc: Global, side: &str) -> Result<String, NoMemory> {
    let tabs = side.replace(alloc, '>', "\t")?;
    with_feeds(alloc, tabs.as_str())
}

/// A side of the rows `LINE = REPLY`.
#[derive(Clone, Copy)]
enum Side {
    Lines,
    Replies,
}

/// This side of a row.
fn side_in(row: &str, side: Side) -> &str {
    let (line, reply) = row.split_once(" = ").unwrap_or((row, ""));
    match side {
        Side::Lines => line,
        Side::Replies => reply,
    }
}

/// Adds this side of each row of a table.
fn add_side(lines: &mut String, table: &str, side: Side) -> Result<(), NoMemory> {
    for row in table.split('\n') {
        lines.push_str(side_in(row, side))?;
        lines.push_str("\n")?;
    }
    Ok(())
}

/// This side of tables.
fn side_of(alloc: Global, tables: &[&str], side: Side) -> Result<String, NoMemory> {
    let mut lines = String::new(alloc);
    for table in tables {
        add_side(&mut lines, table, side)?;
    }
    written(alloc, lines.as_str())
}

/// The status and the text of a run of these words in which nothing fails.
pub(crate) fn run_of<'a>(
    alloc: Global,
    words: &'a str,
    input: &'a str,
) -> Result<(u8, String), Fail> {
    let mut keeper = MemoryKeeper::new(alloc);
    let run = Run {
        words,
        input,
        ..DEVICE
    };
    outcome(alloc, &mut keeper, &run)
}

/// The same of the lines of tables.
fn run_of_lines(alloc: Global, words: &str, tables: &[&str]) -> Result<(u8, String), Fail> {
    let lines = side_of(alloc, tables, Side::Lines)?;
    run_of(alloc, words, lines.as_str())
}

/// What a run told otherwise than these replies, and these behind it; nothing where it told them. The status tells whether a line was refused.
fn otherwise(alloc: Global, status: u8, told: String, replies: &str) -> Result<String, NoMemory> {
    if told.as_str() == replies && status == u8::from(replies.contains("refused ")) {
        return Ok(String::new(alloc));
    }
    let mut told = told;
    told.push_str("instead of\n")?;
    told.push_str(replies)?;
    Ok(told)
}

/// What a run told otherwise than the replies of the tables; nothing where it told them.
fn compared(alloc: Global, status: u8, told: String, tables: &[&str]) -> Result<String, NoMemory> {
    let replies = side_of(alloc, tables, Side::Replies)?;
    otherwise(alloc, status, told, replies.as_str())
}

/// What the device `aa` replies to the lines of the tables, one run for all of them, otherwise than the tables say that it replies; nothing
/// where it replies what they say.
pub(crate) fn talk(alloc: Global, tables: &[&str]) -> Result<String, Fail> {
    talk_of(alloc, DEVICE.words, tables)
}

/// The same of a run of these words.
pub(crate) fn talk_of(alloc: Global, words: &str, tables: &[&str]) -> Result<String, Fail> {
    let (status, told) = run_of_lines(alloc, words, tables)?;
    Ok(compared(alloc, status, told, tables)?)
}
