//! The records that a keeper keeps of messages.
ghost use Rattle.std.specs.Prelude.{◌≡◌, ◌++◌, ◌∷◌, IfOk, OnErr, Some, true, is_ok};
ghost use Rattle.std.specs.Result.{result_ok};
ghost use Rattle.std.specs.Option.{ForSome};
ghost use Rattle.hybrid_clock.specs.Stamp.{IsStamp, stamp_text};
ghost use Rattle.hybrid_clock.specs.Reading.{read_stamp};
ghost use Rattle.field_merge.specs.Lines.{reading};
ghost use Rattle.field_merge.specs.Messages.{IsMessage, message_body};
ghost use Rattle.field_merge.specs.declared.message.Message.{Message};
ghost use Rattle.kept_messages.specs.Records.{record_of, message_in};

use budget_ports::Record;
use field_merge::{LineFault, Message, push_body, read_line};
use field_values::{NoMemory, Txt, Value};
use hybrid_clock::Stamp;
use std::alloc::Global;

/// The most bytes that the text of a number takes.
const LONGEST_NUMBER: usize = 17;

/// The text of a timestamp, in memory of its own.
pub fn stamp_text(alloc: Global, stamp: &Stamp) -> Result<Txt, NoMemory>
    requires { IsStamp stamp.now }
    ensures { IfOk result (λ t. t ≡ stamp_text stamp.now) }
{
    let mut text = [0u8; 46];
    stamp.write_text(&mut text);
    match Txt::make(alloc, &text) {
        Ok(text) => Ok(text),
        Err(_) => Err(NoMemory),
    }
}

/// Room for what stands behind the timestamp, where nothing in it needs an escape: the names, three TABs, a mark of the value and its text.
fn room_for(message: &Message) -> usize {
    let field = &message.field;
    let text = match &message.value {
        Value::Null => 0,
        Value::Number(_) => LONGEST_NUMBER,
        Value::Text(text) | Value::Other(text) => text.bytes().len(),
    };
    let names = field.dataset().len() + field.row().len() + field.column().len();
    names.saturating_add(text).saturating_add(5)
}

/// What stands behind the timestamp in a message's line.
fn body(alloc: Global, message: &Message) -> Result<Txt, NoMemory>
    requires { IsMessage message.now }
    ensures { IfOk result (λ t. t ≡ message_body message.now) }
{
    let mut body = String::with_capacity(alloc, room_for(message))?;
    push_body(&mut body, message)?;
    Ok(Txt::new(body))
}

/// The record that keeps a message: under the text of its timestamp, the rest of its line.
pub fn write_record(alloc: Global, message: &Message) -> Result<Record, NoMemory>
    requires { IsMessage message.now }
    ensures { IfOk result (λ r. r ≡ record_of message.now) }
{
    Ok(Record {
        key: stamp_text(alloc, &message.stamp)?,
        body: body(alloc, message)?,
    })
}

/// The line of a record: its key, a TAB and its body.
fn record_line(alloc: Global, kept: &Record) -> Result<Txt, NoMemory>
    ensures { IfOk result (λ t. t ≡ kept.now.key ++ 9 ∷ kept.now.body) }
{
    let (key, body) = (kept.key.as_str(), kept.body.as_str());
    let mut line = String::with_capacity(
        alloc,
        key.len().saturating_add(body.len()).saturating_add(1),
    )?;
    line.push_str(key)?;
    line.push('\t')?;
    line.push_str(body)?;
    Ok(Txt::new(line))
}

/// Whether a text is a timestamp's.
fn is_stamp(text: &Txt) -> bool
    ensures { result ≡ is_ok (read_stamp text.now) }
{
    Stamp::parse(text.bytes()).is_ok()
}

/// The message of a line, if it is a message's.
fn message_of_line(alloc: Global, line: &Txt) -> Result<Option<Message>, NoMemory>
    ensures message { IfOk result (λ m. m ≡ result_ok (reading line.now)) }
    ensures valid { IfOk result (λ m. ForSome m IsMessage) }
{
    match read_line(alloc, line) {
        Ok(message) => Ok(Some(message)),
        Err(LineFault::NoMemory) => Err(NoMemory),
        Err(_) => Ok(None),
    }
}

/// The message that a record keeps, if it keeps one. A key that is no timestamp is told before memory is
/// taken.
pub fn read_record(alloc: Global, kept: &Record) -> Result<Option<Message>, NoMemory>
    ensures message { IfOk result (λ m. m ≡ message_in kept.now) }
    ensures valid { IfOk result (λ m. ForSome m IsMessage) }
    ensures memory { OnErr result (is_ok (read_stamp kept.now.key) ≡ true) }
{
    if !is_stamp(&kept.key) {
        return Ok(None);
    }
    let line = record_line(alloc, kept)?;
    message_of_line(alloc, &line)
}
