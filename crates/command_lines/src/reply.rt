//! The replies to lines, and their texts.
ghost use Rattle.std.specs.Prelude.{◌≡◌, ◌++◌, ◌∷◌, [], codes, string_bytes, IfOk, OnOk, Some};
ghost use Rattle.std.specs.Fmt.{decimal};
ghost use Rattle.command_lines.specs.declared.reply.Reply.TheVariants.{Done, Refused};
ghost use Rattle.command_lines.specs.Replies.{wrote, added, faulty, refused, refused_clock, reply_text_of, detail_text};
ghost use Rattle.field_merge.specs.Lines.{ended};

use crate::refusal::edit_refusal;
use device_core::LineRefusal;
use field_merge::push_escaped;
use field_values::{Items, NoMemory, Txt};
use hybrid_clock::ClockFault;
use itoa::Buffer;
use std::alloc::Global;

/// Room for most texts of a reply.
const ROOM: usize = 32;

/// What is replied to a line.
#[derive(Debug, Drop)]
pub enum Reply {
    /// The line was done, and these lines tell of it, each without its end.
    Done { lines: Items<Txt> },
    /// The line was refused and has changed nothing, but for what the turns of a sync have brought. The
    /// detail names what it was refused for, as it stands; it may be empty.
    Refused { number: u8, code: Txt, detail: Txt },
}

impl Reply {
    /// An equal reply.
    pub fn copy(&self, alloc: Global) -> Result<Reply, NoMemory>
        ensures { IfOk result (λ reply. reply ≡ self.now) }
    {
        match self {
            Reply::Done { lines } => Ok(Reply::Done {
                lines: lines.copy(alloc)?,
            }),
            Reply::Refused {
                number,
                code,
                detail,
            } => Ok(Reply::Refused {
                number: *number,
                code: code.copy()?,
                detail: detail.copy()?,
            }),
        }
    }
}

/// A reply of one line.
pub(crate) fn one_line(alloc: Global, line: Txt) -> Result<Reply, NoMemory>
    ensures { IfOk result (λ r. r ≡ Done (line ∷ [])) }
{
    let mut lines = Vec::new(alloc);
    lines.push(line)?;
    Ok(Reply::Done {
        lines: Items::new(lines),
    })
}

/// A refusal with this code and detail.
pub(crate) fn refusal(alloc: Global, number: u8, code: &str, detail: Txt) -> Result<Reply, NoMemory>
    ensures { IfOk result (λ r. r ≡ Refused number code.now detail) }
{
    Ok(Reply::Refused {
        number,
        code: Txt::from_text(alloc, code)?,
        detail,
    })
}

/// A text that ends with a count.
fn counted(alloc: Global, before: &str, count: u64) -> Result<String, NoMemory>
    ensures { IfOk result (λ t. string_bytes t ≡ before.now ++ decimal count) }
{
    let mut digits = Buffer::new();
    let mut text = String::with_capacity(alloc, ROOM)?;
    text.push_str(before)?;
    text.push_str(digits.format(count))?;
    Ok(text)
}

/// The text of a number.
pub(crate) fn number_text(alloc: Global, number: u64) -> Result<Txt, NoMemory>
    ensures { IfOk result (λ t. t ≡ decimal number) }
{
    let mut digits = Buffer::new();
    Txt::from_text(alloc, digits.format(number))
}

/// The reply to an edit that made so many writes: `writes N`, then `made ID` for each row that it
/// made under an id of its own.
pub fn wrote_reply(alloc: Global, writes: u32, made: &Items<Txt>) -> Result<Reply, NoMemory>
    ensures { IfOk result (λ r. r ≡ wrote writes made.now) }
{
    let mut lines = Vec::new(alloc);
    lines.push(Txt::new(counted(alloc, "writes ", writes as u64)?))?;
    for id in made.as_slice() {
        lines.push(made_line(alloc, id)?)?;
    }
    Ok(Reply::Done {
        lines: Items::new(lines),
    })
}

/// `made ID`.
fn made_line(alloc: Global, id: &Txt) -> Result<Txt, NoMemory>
    ensures { IfOk result (λ t. t ≡ codes "made " ++ id.now) }
{
    let id = id.as_str();
    let text = format!(in alloc; "made {id}")?;
    Ok(Txt::new(text))
}

/// The reply to messages that were received: `added N`, of which N were new.
pub fn added_reply(alloc: Global, count: u64) -> Result<Reply, NoMemory>
    ensures { IfOk result (λ r. r ≡ added count) }
{
    let text = counted(alloc, "added ", count)?;
    one_line(alloc, Txt::new(text))
}

/// The reply to a line whose word at the index `word` is the first that is not of its form.
pub fn faulty_reply(alloc: Global, word: u32) -> Result<Reply, NoMemory>
    ensures { IfOk result (λ r. r ≡ faulty word) }
{
    let detail = number_text(alloc, word as u64)?;
    refusal(alloc, 30, "bad-command", detail)
}

/// The reply to a timestamp that the clock refused.
fn clock_refusal(alloc: Global, fault: &ClockFault) -> Result<Reply, NoMemory>
    ensures { IfOk result (λ r. r ≡ refused_clock fault.now) }
{
    match fault {
        ClockFault::Drift { logical, reading } => {
            let detail = format!(in alloc; "{logical} {reading}")?;
            refusal(alloc, 26, "clock-drift", Txt::new(detail))
        }
        ClockFault::Overflow { counter } => {
            refusal(
                alloc,
                27,
                "clock-overflow",
                number_text(alloc, *counter as u64)?,
            )
        }
        ClockFault::Beyond { reading } => {
            refusal(alloc, 28, "clock-beyond", number_text(alloc, *reading)?)
        }
    }
}

/// The reply to a line that the device refused. A refusal for want of memory has no reply, and is
/// handed on as such.
pub fn refusal_reply(alloc: Global, refusal: &LineRefusal) -> Result<Reply, NoMemory>
    ensures { IfOk result (λ r. refused refusal.now ≡ Some r) }
{
    match refusal {
        LineRefusal::Edit(fault) => edit_refusal(alloc, fault),
        LineRefusal::Clock(fault) => clock_refusal(alloc, fault),
        LineRefusal::NoMemory => Err(NoMemory),
    }
}

/// Puts a line and its end behind a text.
fn push_ended(text: &mut String, line: &str) -> Result<(), NoMemory>
    ensures { OnOk result (string_bytes text.new ≡ string_bytes text.old ++ ended line.now) }
{
    text.push_str(line)?;
    text.push('\n')?;
    Ok(())
}

/// The text of the reply with these lines.
fn done_text(alloc: Global, lines: &[Txt]) -> Result<String, NoMemory>
    ensures { IfOk result (λ t. string_bytes t ≡ reply_text_of (Done lines.now)) }
{
    let mut text = counted(alloc, "ok ", lines.len() as u64)?;
    text.push('\n')?;
    for line in lines {
        push_ended(&mut text, line.as_str())?;
    }
    Ok(text)
}

/// Puts a refusal's detail, escaped, behind its code.
fn push_detail(text: &mut String, detail: &str) -> Result<(), NoMemory>
    ensures { OnOk result (string_bytes text.new ≡ string_bytes text.old ++ detail_text detail.now) }
{
    if detail.is_empty() {
        return Ok(());
    }
    text.push(' ')?;
    push_escaped(text, detail)
}

/// The text of a refusal.
fn refused_text(alloc: Global, number: u8, code: &str, detail: &str) -> Result<String, NoMemory>
    ensures { IfOk result (λ t. string_bytes t ≡ reply_text_of (Refused number code.now detail.now)) }
{
    let mut text = format!(in alloc; "refused E{number} {code}")?;
    push_detail(&mut text, detail)?;
    text.push('\n')?;
    Ok(text)
}

/// The text of a reply: `ok N` and its N lines, or `refused En CODE DETAIL`, where the detail is
/// escaped as the parts of a message's line are, and left out with its blank where it is empty.
/// Each line ends with a LF.
pub fn reply_text(alloc: Global, reply: &Reply) -> Result<Txt, NoMemory>
    ensures { IfOk result (λ t. t ≡ reply_text_of reply.now) }
{
    let text = match reply {
        Reply::Done { lines } => done_text(alloc, lines.as_slice())?,
        Reply::Refused {
            number,
            code,
            detail,
        } => refused_text(alloc, *number, code.as_str(), detail.as_str())?,
    };
    Ok(Txt::new(text))
}
