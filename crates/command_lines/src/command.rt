//! The commands of lines.
ghost use Rattle.std.specs.Prelude.{◌≡◌, ◌<◌, IfOk, IfErr, OnErr, false};
ghost use Rattle.field_merge.specs.Lines.{parts};
ghost use Rattle.command_lines.specs.declared.command.CommandFault.TheVariants.{NoMemory as OutOfMemory};
ghost use Rattle.command_lines.specs.Commands.{set_words, receive_words, fields_words, messages_words, value_words, trie_words, line_words, is_too_long, command, IsRead, IsCommand, HoldsText};
ghost use Rattle.command_lines.specs.Unread.{command_of_unread, IsFaultOf, ReadsTextIn};

use crate::edit_lines::row_line;
use crate::words::{Words, cut_word};
use device_core::{BookEdit, Edit};
use field_merge::Message;
use field_values::{Field, NameFault, NoMemory, Txt, Value};
use std::alloc::{AllocFailed, Global};

/// What a line commands.
#[derive(Debug, Drop)]
pub enum Command {
    /// `set DATASET ROW COLUMN VALUE`, or another line that edits the books: an edit of the device's own.
    Edit(Edit),
    /// `undo`: takes back the latest edit that was not undone.
    Undo,
    /// `redo`: takes back the latest undo.
    Redo,
    /// `receive STAMP DATASET ROW COLUMN VALUE`: a message of another device.
    Receive { message: Message },
    /// `fields`: the latest message of each field.
    Fields,
    /// `messages SINCE`: the messages whose timestamp's text is greater than this text, by bytes.
    Messages { since: Txt },
    /// `value DATASET ROW COLUMN`: the value of the field with these names, if there is one.
    Value { dataset: Txt, row: Txt, column: Txt },
    /// `trie`: the JSON text of the trie of all messages.
    Trie,
    /// `balance ACCOUNT`: the sum of an account's transactions.
    Balance { account: Txt },
    /// `register ACCOUNT`: an account's transactions.
    Register { account: Txt },
    /// `cell MONTH NAME`: what one cell of a month YYYYMM tells.
    Cell { month: u32, name: Txt },
    /// `sheet MONTH`: all cells of a month YYYYMM.
    Sheet { month: u32 },
    /// `broken`: the transfers and splits that are wrong.
    Broken,
    /// `schedule-status ID DAY`: how a schedule stands on a day YYYYMMDD.
    ScheduleStatus { id: Txt, day: u32 },
    /// `goals MONTH`: what the templates in the notes of categories get in a month YYYYMM, and which of their lines are none.
    Goals { month: u32 },
    /// `track-cell MONTH NAME`: what one cell of the tracking budget tells of a month YYYYMM.
    TrackCell { month: u32, name: Txt },
    /// `track-sheet MONTH`: all cells of the tracking budget of a month YYYYMM.
    TrackSheet { month: u32 },
    /// `sync`: hands the server what the device has, and takes what the server has.
    Sync,
}

impl Command {
    /// An equal command.
    pub fn copy(&self, alloc: Global) -> Result<Command, NoMemory>
        ensures value { IfOk result (λ command. command ≡ self.now) }

        // A command without texts takes no memory, so it is always copied.
        ensures memory { OnErr result (HoldsText self.now) }
    {
        match self {
            Command::Edit(edit) => Ok(Command::Edit(edit.copy(alloc)?)),
            Command::Receive { message } => Ok(Command::Receive {
                message: message.copy()?,
            }),
            Command::Undo => Ok(Command::Undo),
            Command::Redo => Ok(Command::Redo),
            Command::Fields => Ok(Command::Fields),
            Command::Messages { since } => Ok(Command::Messages {
                since: since.copy()?,
            }),
            Command::Value {
                dataset,
                row,
                column,
            } => Ok(Command::Value {
                dataset: dataset.copy()?,
                row: row.copy()?,
                column: column.copy()?,
            }),
            Command::Trie => Ok(Command::Trie),
            Command::Balance { account } => Ok(Command::Balance {
                account: account.copy()?,
            }),
            Command::Register { account } => Ok(Command::Register {
                account: account.copy()?,
            }),
            Command::Cell { month, name } => Ok(Command::Cell {
                month: *month,
                name: name.copy()?,
            }),
            Command::Sheet { month } => Ok(Command::Sheet { month: *month }),
            Command::Broken => Ok(Command::Broken),
            Command::ScheduleStatus { id, day } => Ok(Command::ScheduleStatus {
                id: id.copy()?,
                day: *day,
            }),
            Command::Goals { month } => Ok(Command::Goals { month: *month }),
            Command::TrackCell { month, name } => Ok(Command::TrackCell {
                month: *month,
                name: name.copy()?,
            }),
            Command::TrackSheet { month } => Ok(Command::TrackSheet { month: *month }),
            Command::Sync => Ok(Command::Sync),
        }
    }
}

/// Why a line is no command.
#[derive(Clone, Copy, Debug, PartialEq, Eq)]
pub enum CommandFault {
    /// The word at the index `word`, counted from 0, is the first that is not of its form. A missing
    /// word stands behind the others, so its index is their number, and the first word too many is
    /// at fault at its own. Word 0 is the line's name, which is at fault too where the line is above
    /// 1,048,576 bytes.
    BadCommand { word: u32 },
    /// Memory ran out.
    NoMemory,
}

impl From<NoMemory> for CommandFault {
    ghost from_gives = { λ _ fault. fault ≡ OutOfMemory };

    fn from(_error: NoMemory) -> CommandFault {
        CommandFault::NoMemory
    }
}

impl<T: Drop> From<AllocFailed<T>> for CommandFault {
    ghost from_gives = { λ _ fault. fault ≡ OutOfMemory };

    fn from(_error: AllocFailed<T>) -> CommandFault {
        CommandFault::NoMemory
    }
}

/// The most bytes that a line may have, without its line feed: a line of a device, and a message line that is merged.
pub const LONGEST_LINE: usize = 1_048_576;

/// The words behind `set`. Its names are judged by the edit.
fn set(alloc: Global, words: &mut Words<'_>) -> Result<Command, CommandFault>
    ensures read { IsRead (command_of_unread set_words words.old) result }
    ensures valid { IfOk result IsCommand }
    ensures memory { IfErr result (IsFaultOf set_words words.old) }
{
    let dataset = words.text(alloc)?;
    let row = words.text(alloc)?;
    let column = words.text(alloc)?;
    let value = words.text(alloc)?;
    words.end()?;
    let value = Value::read(alloc, value.as_str())?;
    Ok(Command::Edit(Edit::Book(BookEdit::Set {
        dataset,
        row,
        column,
        value,
    })))
}

/// The words behind `receive`.
fn receive(alloc: Global, words: &mut Words<'_>) -> Result<Command, CommandFault>
    ensures read { IsRead (command_of_unread receive_words words.old) result }
    ensures valid { IfOk result IsCommand }
    ensures memory { IfErr result (IsFaultOf receive_words words.old) }
{
    let stamp = words.stamp(alloc)?;
    let dataset = words.name(alloc)?;
    let row = words.name(alloc)?;
    let column = words.name(alloc)?;
    let value = words.text(alloc)?;
    words.end()?;
    let value = Value::read(alloc, value.as_str())?;
    match Field::make(alloc, dataset.as_str(), row.as_str(), column.as_str()) {
        Ok(field) => Ok(Command::Receive {
            message: Message {
                stamp,
                field,
                value,
            },
        }),
        Err(fault) => match fault {
            NameFault::NoMemory => Err(CommandFault::NoMemory),
            // The names are those of a field.
            _ => unreachable!(),
        },
    }
}

/// The words behind `fields`.
fn fields(words: &Words<'_>) -> Result<Command, CommandFault>
    ensures read { IsRead (command_of_unread fields_words words.now) result }
    ensures valid { IfOk result IsCommand }
    ensures memory { IfErr result (IsFaultOf fields_words words.now) }
{
    words.end()?;
    Ok(Command::Fields)
}

/// The words behind `messages`.
fn messages(alloc: Global, words: &mut Words<'_>) -> Result<Command, CommandFault>
    ensures read { IsRead (command_of_unread messages_words words.old) result }
    ensures valid { IfOk result IsCommand }
    ensures memory { IfErr result (IsFaultOf messages_words words.old) }
{
    let since = words.text(alloc)?;
    words.end()?;
    Ok(Command::Messages { since })
}

/// The words behind `value`. Names that no field has are fine.
fn value(alloc: Global, words: &mut Words<'_>) -> Result<Command, CommandFault>
    ensures read { IsRead (command_of_unread value_words words.old) result }
    ensures valid { IfOk result IsCommand }
    ensures memory { IfErr result (IsFaultOf value_words words.old) }
{
    let dataset = words.text(alloc)?;
    let row = words.text(alloc)?;
    let column = words.text(alloc)?;
    words.end()?;
    Ok(Command::Value {
        dataset,
        row,
        column,
    })
}

/// The words behind `trie`.
fn trie(words: &Words<'_>) -> Result<Command, CommandFault>
    ensures read { IsRead (command_of_unread trie_words words.now) result }
    ensures valid { IfOk result IsCommand }
    ensures memory { IfErr result (IsFaultOf trie_words words.now) }
{
    words.end()?;
    Ok(Command::Trie)
}

/// The words behind a line's name.
fn command_of(alloc: Global, name: &str, words: &mut Words<'_>) -> Result<Command, CommandFault>
    requires { words.old.last ≡ 0 }
    ensures read { IsRead (command_of_unread (line_words name.now) words.old) result }
    ensures valid { IfOk result IsCommand }
    ensures memory { IfErr result (IsFaultOf (line_words name.now) words.old) }
{
    match name {
        "set" => set(alloc, words),
        "receive" => receive(alloc, words),
        "fields" => fields(words),
        "messages" => messages(alloc, words),
        "value" => value(alloc, words),
        "trie" => trie(words),
        _ => row_line(alloc, name, words),
    }
}

/// The command of a line, which stands without its end. The words are judged from left to right.
///
/// # Errors
///
/// `BadCommand` for the first word that is not of its form, and at 0 for a line above 1,048,576 bytes.
pub fn read_command(alloc: Global, line: &Txt) -> Result<Command, CommandFault>
    ensures read { IsRead (command line.now) result }
    ensures valid { IfOk result IsCommand }

    // Memory runs out only where the line is not too long, its name is that of a line with words, and the next word has no bad escape.
    ensures memory { IfErr result (λ fault. fault ≡ OutOfMemory → (is_too_long line.now ≡ false) × ReadsTextIn (parts line.now)) }
{
    if line.bytes().len() > LONGEST_LINE {
        return Err(CommandFault::BadCommand { word: 0 });
    }
    let (name, rest) = cut_word(line.as_str());
    let mut words = Words::new(rest);
    command_of(alloc, name, &mut words)
}
