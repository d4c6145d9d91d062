//! The replies to the lines of a world.
ghost use Rattle.std.specs.Prelude.{◌≡◌, IfOk, Some};
ghost use Rattle.std.specs.Fmt.{decimal};
ghost use Rattle.command_lines.specs.declared.reply.Reply.TheVariants.{Refused};
ghost use Rattle.world_lines.specs.Replies.{compared, fault_reply, no_device, one_line, outcome_reply, shown_reply};

use command_lines::{Reply, faulty_reply, refusal_reply, wrote_reply};
use field_values::{Items, NoMemory, Txt};
use std::alloc::Global;
use sync_world::{Outcome, WorldFault};

/// A reply of one line.
fn one_line(alloc: Global, line: Txt) -> Result<Reply, NoMemory>
    ensures { IfOk result (λ r. r ≡ one_line line) }
{
    let mut lines = Vec::new(alloc);
    lines.push(line)?;
    Ok(Reply::Done {
        lines: Items::new(lines),
    })
}

/// The reply to an event that happened.
pub(crate) fn outcome_reply(alloc: Global, outcome: &Outcome) -> Result<Reply, NoMemory>
    ensures { IfOk result (λ r. r ≡ outcome_reply outcome.now) }
{
    match outcome {
        Outcome::Wrote { writes, made } => wrote_reply(alloc, *writes, made),
        Outcome::Asked { request } => {
            let text = format!(in alloc; "request {request}")?;
            one_line(alloc, Txt::new(text))
        }
        Outcome::Served { reply, messages } => {
            let text = format!(in alloc; "reply {reply} {messages}")?;
            one_line(alloc, Txt::new(text))
        }
        Outcome::Took { received } => {
            let text = format!(in alloc; "received {received}")?;
            one_line(alloc, Txt::new(text))
        }
        Outcome::Stopped => one_line(alloc, Txt::from_text(alloc, "stopped")?),
        Outcome::Halted => one_line(alloc, Txt::from_text(alloc, "halted")?),
    }
}

/// A refusal of a number.
fn refused_number(alloc: Global, number: u8, code: &str, detail: u32) -> Result<Reply, NoMemory>
    ensures { IfOk result (λ r. r ≡ Refused number code.now (decimal detail)) }
{
    let detail = format!(in alloc; "{detail}")?;
    Ok(Reply::Refused {
        number,
        code: Txt::from_text(alloc, code)?,
        detail: Txt::new(detail),
    })
}

/// That there is no device with this number.
pub(crate) fn no_device_reply(alloc: Global, number: u32) -> Result<Reply, NoMemory>
    ensures { IfOk result (λ r. r ≡ no_device number) }
{
    refused_number(alloc, 33, "no-such-device", number)
}

/// The reply to an event that did not happen. A want of memory has none.
pub(crate) fn fault_reply(alloc: Global, fault: &WorldFault) -> Result<Reply, NoMemory>
    ensures { IfOk result (λ r. fault_reply fault.now ≡ Some r) }
{
    match fault {
        WorldFault::NoSuchDevice { device } => no_device_reply(alloc, *device),
        WorldFault::NoSuchRequest { request } => {
            refused_number(alloc, 34, "no-such-request", *request)
        }
        WorldFault::NoSuchReply { reply } => refused_number(alloc, 35, "no-such-reply", *reply),
        WorldFault::Line(refusal) => refusal_reply(alloc, refusal),
        WorldFault::NoMemory => Err(NoMemory),
    }
}

/// What a device answers to a line behind `show`: the name of a cell stands two words further on there.
pub(crate) fn shown_reply(alloc: Global, reply: Reply) -> Result<Reply, NoMemory>
    ensures { IfOk result (λ r. r ≡ shown_reply reply) }
{
    match reply {
        Reply::Refused { number, .. } if number == 30 => faulty_reply(alloc, 4),
        other => Ok(other),
    }
}

/// Whether two sets are equal.
pub(crate) fn compared_reply(alloc: Global, is_same: bool) -> Result<Reply, NoMemory>
    ensures { IfOk result (λ r. r ≡ compared is_same) }
{
    let text = if is_same { "equal 1" } else { "equal 0" };
    one_line(alloc, Txt::from_text(alloc, text)?)
}
