//! The answers of the lines that only read.
ghost use Rattle.std.specs.Prelude.{◌≡◌, ◌≢◌, OnOk, IfOk, map, false};
ghost use Rattle.std.specs.Option.{option_copied};
ghost use Rattle.field_values.specs.Names.{field_of};
ghost use Rattle.field_values.specs.Value.{value_text, IsValue};
ghost use Rattle.field_merge.specs.Escapes.{escaped};
ghost use Rattle.field_merge.specs.Messages.{message_line, AreMessages};
ghost use Rattle.field_merge.specs.Log.{fields, value_in};
ghost use Rattle.minute_trie.specs.Trie.{trie_of};
ghost use Rattle.minute_trie.specs.Json.{trie_text};
ghost use Rattle.kept_messages.specs.Pairs.{pairs_of};
ghost use Rattle.envelope_cells.specs.Parts.{AreSums};
ghost use Rattle.device_core.specs.Books.{rows_of};
ghost use Rattle.command_lines.specs.Readings.{answer, book_answer, shown, IsReading, AsksRows};

use crate::book_answer::{balance_reply, broken_reply, cell_reply, register_reply, sheet_reply};
use crate::command::Command;
use crate::goal_answer::goals_reply;
use crate::reply::{Reply, one_line};
use crate::schedule_answer::status_reply;
use crate::text_lines::lines_in;
use crate::track_answer::{track_cell_reply, track_sheet_reply};
use book_rows::Book;
use device_core::Device;
use envelope_cells::CellValues;
use field_merge::{Log, Message, message_lines, push_escaped, write_line};
use field_values::{Field, Items, NameFault, NoMemory, Txt, Value};
use std::alloc::Global;

/// The lines of messages.
fn lines_of(alloc: Global, messages: &[Message]) -> Result<Items<Txt>, NoMemory>
    requires { AreMessages messages.now }
    ensures { IfOk result (λ lines. lines ≡ map message_line messages.now) }
{
    let mut lines = Vec::new(alloc);
    for message in messages {
        lines.push(write_line(alloc, message)?)?;
    }
    Ok(Items::new(lines))
}

/// The lines of the latest message of each field.
fn field_lines(alloc: Global, log: &Log) -> Result<Items<Txt>, NoMemory>
    requires { log.now.spent ≡ false }
    ensures { IfOk result (λ lines. lines ≡ map message_line (fields log.now.messages)) }
{
    // No message's line has a LF.
    message_lines();
    let text = log.field_lines()?;
    let lines = lines_in(alloc, text.as_str())?;
    Ok(lines)
}

/// The text of a value, escaped as the parts of a message's line are.
fn escaped_text(alloc: Global, value: &Value) -> Result<Txt, NoMemory>
    requires { IsValue value.now }
    ensures { IfOk result (λ t. t ≡ escaped (value_text value.now)) }
{
    let plain = value.text(alloc)?;
    let mut text = String::new(alloc);
    push_escaped(&mut text, plain.as_str())?;
    Ok(Txt::new(text))
}

/// Hands a want of memory on, and no other fault.
fn memory_aside(fault: NameFault) -> Result<(), NoMemory>
    ensures { OnOk result (fault ≢ NameFault.NoMemory) }
{
    match fault {
        NameFault::NoMemory => Err(NoMemory),
        _ => Ok(()),
    }
}

/// The value of the field with these names. Names that no field may have are no field's.
fn value_at<'a>(
    alloc: Global,
    log: &'a Log,
    dataset: &Txt,
    row: &Txt,
    column: &Txt,
) -> Result<Option<&'a Value>, NoMemory>
    requires live { log.now.spent ≡ false }
    requires valid { AreMessages log.now.messages }
    ensures { IfOk result (λ v. option_copied v ≡ value_in log.now.messages (field_of dataset.now row.now column.now)) }
{
    match Field::make(alloc, dataset.as_str(), row.as_str(), column.as_str()) {
        Ok(field) => Ok(log.value(&field)),
        Err(fault) => {
            memory_aside(fault)?;
            Ok(None)
        }
    }
}

/// The text of the value of the field with these names, or `none`.
fn shown_value(
    alloc: Global,
    log: &Log,
    dataset: &Txt,
    row: &Txt,
    column: &Txt,
) -> Result<Txt, NoMemory>
    requires live { log.now.spent ≡ false }
    requires valid { AreMessages log.now.messages }
    ensures { IfOk result (λ t. t ≡ shown (value_in log.now.messages (field_of dataset.now row.now column.now))) }
{
    match value_at(alloc, log, dataset, row, column) {
        Ok(Some(value)) => escaped_text(alloc, value),
        Ok(None) => Txt::from_text(alloc, "none"),
        Err(fault) => Err(fault),
    }
}

/// The JSON text of the trie of a device's messages.
fn trie_line(device: &Device) -> Result<Txt, NoMemory>
    requires { device.now.spent ≡ false }
    ensures { IfOk result (λ t. t ≡ trie_text (trie_of (pairs_of device.now.state.messages))) }
{
    device.trie().to_json()
}

/// What the books, which are the rows that the values of the fields make, answer to a line that asks of their rows, beside the sums of
/// their categories.
fn book_reply(
    alloc: Global,
    book: &Book,
    sums: &CellValues,
    command: &Command,
) -> Result<Reply, NoMemory>
    requires live { book.now.spent ≡ false }
    requires sums { AreSums sums.now book.now.rows }
    requires asks { AsksRows command.now }
    ensures { IfOk result (λ r. r ≡ book_answer book.now.rows command.now) }
{
    match command {
        Command::Balance { account } => balance_reply(alloc, book, account),
        Command::Register { account } => register_reply(alloc, book, account),
        Command::Broken => broken_reply(alloc, book),
        Command::ScheduleStatus { id, day } => status_reply(alloc, book, id, *day),
        Command::Goals { month } => goals_reply(alloc, book, *month),
        Command::TrackCell { month, name } => track_cell_reply(alloc, book, sums, *month, name),
        Command::TrackSheet { month } => track_sheet_reply(alloc, book, sums, *month),
        _ => unreachable!(),
    }
}

/// What a device's books answer to a line that asks of their rows.
fn told_of_books(alloc: Global, device: &Device, command: &Command) -> Result<Reply, NoMemory>
    requires live { device.now.spent ≡ false }
    requires asks { AsksRows command.now }
    ensures { IfOk result (λ r. r ≡ book_answer (rows_of device.now.state.messages) command.now) }
{
    book_reply(alloc, device.book(), device.sums(), command)
}

/// The reply to a line that only reads: `fields`, `messages`, `value`, `trie`, `balance`, `register`, `cell`, `sheet`, `broken`, `schedule-status`,
/// `goals`, `track-cell` or `track-sheet`. It is told by the device's messages alone, so devices that have the same messages reply the same.
pub fn read_reply(alloc: Global, device: &Device, command: &Command) -> Result<Reply, NoMemory>
    requires live { device.now.spent ≡ false }
    requires reading { IsReading command.now }
    ensures { IfOk result (λ r. r ≡ answer device.now.state.messages command.now) }
{
    let log = device.log();
    match command {
        Command::Fields => Ok(Reply::Done {
            lines: field_lines(alloc, log)?,
        }),
        Command::Messages { since } => Ok(Reply::Done {
            lines: lines_of(alloc, device.outgoing(since.bytes())?.as_slice())?,
        }),
        Command::Value {
            dataset,
            row,
            column,
        } => one_line(alloc, shown_value(alloc, log, dataset, row, column)?),
        Command::Trie => one_line(alloc, trie_line(device)?),
        Command::Cell { month, name } => cell_reply(alloc, device, *month, name),
        Command::Sheet { month } => sheet_reply(alloc, device, *month),
        Command::Balance { .. }
        | Command::Register { .. }
        | Command::Broken
        | Command::ScheduleStatus { .. }
        | Command::Goals { .. }
        | Command::TrackCell { .. }
        | Command::TrackSheet { .. } => told_of_books(alloc, device, command),
        Command::Edit(_)
        | Command::Undo
        | Command::Redo
        | Command::Receive { .. }
        | Command::Sync => unreachable!(),
    }
}
