//! What is told of many events, counted.
use command_lines::Reply;
use field_values::Txt;
use std::alloc::Global;
use std::collections::BTreeSet;
use std::test::Fail;

/// What was told.
#[derive(Drop)]
pub(crate) struct Told {
    /// The writes of all edits that were acknowledged, and of those in whose middle a device stopped that kept them.
    pub(crate) writes: u64,
    /// The numbers that these edits wrote.
    pub(crate) kept: BTreeSet<u32>,
    /// How many requests were sent.
    pub(crate) requests: u32,
    /// How many replies were sent.
    pub(crate) replies: u32,
    /// How many messages were new to those who took them.
    pub(crate) received: u64,
    /// How many events did not happen.
    pub(crate) refused: u64,
}

impl Told {
    /// Nothing.
    pub(crate) fn new(alloc: Global) -> Told {
        Told {
            writes: 0,
            kept: BTreeSet::new(alloc),
            requests: 0,
            replies: 0,
            received: 0,
            refused: 0,
        }
    }
}

/// What a reply tells first. A line that is none is not told.
pub(crate) fn first_line(reply: &Reply) -> Result<&str, Fail> {
    match reply {
        Reply::Done { lines } => match lines.as_slice().first() {
            Some(line) => Ok(line.as_str()),
            None => Ok(""),
        },
        Reply::Refused { number: 30, .. } => Err(Fail::new("no line of a world")),
        Reply::Refused { .. } => Ok("refused"),
    }
}

/// The first number behind the word of a line, or 0.
fn number_of(line: &str) -> u32 {
    let (_, rest) = line.split_once(" ").unwrap_or((line, ""));
    let (number, _) = rest.split_once(" ").unwrap_or((rest, ""));
    number.parse().unwrap_or(0)
}

/// Notes so many writes, which wrote this number.
fn note_writes(told: &mut Told, number: Option<u32>, writes: u32) -> Result<(), Fail> {
    told.writes = told.writes.saturating_add(writes as u64);
    if let Some(number) = number {
        told.kept.insert(number)?;
    }
    Ok(())
}

/// Notes that one more was sent: they are numbered from 0.
fn note_sent(count: &mut u32, number: u32) -> Result<(), Fail> {
    if *count != number {
        return Err(Fail::new("the number of what was sent"));
    }
    *count = count.saturating_add(1);
    Ok(())
}

/// Notes what was told of an event, which writes this number where it happens.
pub(crate) fn note(told: &mut Told, number: Option<u32>, line: &str) -> Result<(), Fail> {
    let (word, _) = line.split_once(" ").unwrap_or((line, ""));
    match word {
        "writes" => note_writes(told, number, number_of(line))?,
        // An edit in whose middle a device stops writes one field.
        "stopped" if number.is_some() => note_writes(told, number, 1)?,
        "request" => note_sent(&mut told.requests, number_of(line))?,
        "reply" => note_sent(&mut told.replies, number_of(line))?,
        "received" => told.received = told.received.saturating_add(number_of(line) as u64),
        "refused" => told.refused = told.refused.saturating_add(1),
        _ => (),
    }
    Ok(())
}

/// The number that a message writes, if it writes the name of a payee or the amount of a transaction.
fn number_in(line: &str) -> Option<u32> {
    let (_, value) = line
        .split_once("\tname\tS:")
        .or(line.split_once("\tamount\tN:"))?;
    value.parse().ok()
}

/// The numbers above 0 that messages write.
pub(crate) fn numbers_in(alloc: Global, lines: &[Txt]) -> Result<BTreeSet<u32>, Fail> {
    let mut numbers = BTreeSet::new(alloc);
    for line in lines {
        let number = number_in(line.as_str()).unwrap_or(0);
        if number > 0 {
            numbers.insert(number)?;
        }
    }
    Ok(numbers)
}
