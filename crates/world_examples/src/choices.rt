//! What may happen among many devices, and the lines by which it does.
ghost use Rattle.std.specs.Prelude.{◌<◌};

use crate::chance::Draws;
use std::alloc::Global;
use std::test::Fail;

/// How many devices there are.
pub(crate) const DEVICES: u32 = 16;

/// 2024-01-05T10:00:00.000Z.
pub(crate) const T0: u64 = 1_704_448_800_000;

/// How far behind a clock may be, in milliseconds. A clock takes nothing that is more than 300,000 ahead of what it reads.
const BEHIND: u64 = 310_000;

/// What may happen.
#[derive(Clone, Copy, Debug, PartialEq, Eq)]
pub(crate) enum Choice {
    /// A payee gets a name, which no other edit does.
    Own,
    /// One of ten transactions gets an amount.
    Shared,
    /// An undo.
    Undo,
    /// A redo.
    Redo,
    /// A device asks.
    Ask,
    /// A request is served.
    Serve,
    /// A reply is taken.
    Take,
    /// A device stops, and what it makes is lost.
    Lose,
    /// A device stops, and what it makes is kept.
    Keep,
    /// The server stops, and what a request brings is lost.
    HaltWithout,
    /// The server stops, and what a request brings is kept.
    HaltWith,
}

impl Choice {
    /// What happens by a number below 100.
    pub(crate) fn of(drawn: u32) -> Choice {
        match drawn {
            0..=27 => Choice::Own,
            28..=39 => Choice::Shared,
            40..=42 => Choice::Undo,
            43..=44 => Choice::Redo,
            45..=61 => Choice::Ask,
            62..=78 => Choice::Serve,
            79..=93 => Choice::Take,
            94..=95 => Choice::Lose,
            96..=97 => Choice::Keep,
            98 => Choice::HaltWithout,
            _ => Choice::HaltWith,
        }
    }

    /// Whether the number of the event is written where it happens.
    pub(crate) fn writes_number(self) -> bool {
        matches!(self, Choice::Own | Choice::Shared | Choice::Keep)
    }
}

/// One of the devices, or once in a while one that isn't there.
fn device_of(draws: &mut Draws) -> u32 {
    1 + draws.below(DEVICES + 1)
}

/// What a clock reads at an event: one of twenty is behind.
fn reading_of(draws: &mut Draws, at: u32) -> u64 {
    let now = T0 + 100 * at as u64;
    if draws.below(20) == 0 {
        now - BEHIND
    } else {
        now
    }
}

/// One of the last twelve of so many that were sent, or the next one, which isn't there.
fn sent(draws: &mut Draws, count: u32) -> u32 {
    count.saturating_sub(draws.below(13))
}

/// The edit of an event.
fn edit_text(alloc: Global, draws: &mut Draws, choice: Choice, at: u32) -> Result<String, Fail> {
    let transaction = draws.below(10);
    let text = match choice {
        Choice::Undo => String::from_str(alloc, "undo")?,
        Choice::Redo => String::from_str(alloc, "redo")?,
        Choice::Shared => {
            format!(in alloc; "set\ttransactions\tt{transaction}\tamount\tN:{at}")?
        }
        _ => format!(in alloc; "set\tpayees\tp{at}\tname\tS:{at}")?,
    };
    Ok(text)
}

/// The line of an edit, or of a stop.
fn edit_line(alloc: Global, draws: &mut Draws, choice: Choice, at: u32) -> Result<String, Fail> {
    let device = device_of(draws);
    let reading = reading_of(draws, at);
    let edit = edit_text(alloc, draws, choice, at)?;
    let edit = edit.as_str();
    let line = match choice {
        Choice::Lose => format!(in alloc; "stop\t{device}\t0\t{reading}\t{edit}")?,
        Choice::Keep => format!(in alloc; "stop\t{device}\t1\t{reading}\t{edit}")?,
        _ => format!(in alloc; "edit\t{device}\t{reading}\t{edit}")?,
    };
    Ok(line)
}

/// The line by which a device asks for what is later than some three hundred events ago.
fn ask_line(alloc: Global, draws: &mut Draws, at: u32) -> Result<String, Fail> {
    let device = device_of(draws);
    let tens = (at / 100).saturating_sub(3);
    let minute = tens / 6;
    let ten = tens % 6;
    let line = format!(in alloc; "ask\t{device}\t2024-01-05T10:0{minute}:{ten}")?;
    Ok(line)
}

/// The line by which the server answers, or stops.
fn serve_line(
    alloc: Global,
    draws: &mut Draws,
    choice: Choice,
    requests: u32,
) -> Result<String, Fail> {
    let request = sent(draws, requests);
    let line = match choice {
        Choice::HaltWithout => format!(in alloc; "halt\t{request}\t0")?,
        Choice::HaltWith => format!(in alloc; "halt\t{request}\t1")?,
        _ => format!(in alloc; "serve\t{request}")?,
    };
    Ok(line)
}

/// The line by which a device takes a reply.
fn take_line(alloc: Global, draws: &mut Draws, at: u32, replies: u32) -> Result<String, Fail> {
    let device = device_of(draws);
    let reply = sent(draws, replies);
    let reading = reading_of(draws, at);
    let line = format!(in alloc; "take\t{device}\t{reply}\t{reading}")?;
    Ok(line)
}

/// The line of an event, before which so many requests and replies were sent.
pub(crate) fn line_of(
    alloc: Global,
    draws: &mut Draws,
    choice: Choice,
    at: u32,
    requests: u32,
    replies: u32,
) -> Result<String, Fail> {
    match choice {
        Choice::Ask => ask_line(alloc, draws, at),
        Choice::Serve | Choice::HaltWithout | Choice::HaltWith => {
            serve_line(alloc, draws, choice, requests)
        }
        Choice::Take => take_line(alloc, draws, at, replies),
        _ => edit_line(alloc, draws, choice, at),
    }
}
