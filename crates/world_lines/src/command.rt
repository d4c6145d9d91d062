//! The commands of the lines of a world.
ghost use Rattle.std.specs.Prelude.{◌≡◌, ◌≤◌, ◌^◌, ◌<◌, IfOk, drop, length};
ghost use Rattle.field_merge.specs.Lines.{parts};
ghost use Rattle.command_lines.specs.Commands.{IsCommand, longest_line, of_words};
ghost use Rattle.command_lines.specs.Readings.{IsReading};
ghost use Rattle.sync_world.specs.Members.{IsEvent, IsWorldEdit};
ghost use Rattle.world_lines.specs.Words.{IsReadAs};
ghost use Rattle.world_lines.specs.Lines.{command_at, edit_at, edit_of, is_barred, is_one_of, is_wanted, placed, question_at, question_of, questions};

use crate::words::text_behind;
use command_lines::{Command, CommandFault, first_bad_is_told, read_command};
use field_values::Txt;
use std::alloc::Global;
use sync_world::{Event, WorldEdit};

/// What a line commands in a world that has begun.
#[derive(Debug, Drop)]
pub enum WorldCommand {
    /// A line that lets an event happen.
    Happens(Event),
    /// `show I LINE`: what a device answers to a line that only reads.
    Show { device: u32, command: Command },
    /// `equal I J`: whether two devices have the same messages.
    Equal { one: u32, other: u32 },
}

/// Whether a line of a device is one that no device of a world takes.
fn is_barred(name: &str) -> bool
    ensures { result ≡ is_barred name.now }
{
    name == "sync" || name == "receive"
}

/// Whether a line of a device with this name only reads.
fn is_question(name: &str) -> bool
    ensures { result ≡ is_one_of questions name.now }
{
    matches!(
        name,
        "fields"
            | "messages"
            | "value"
            | "trie"
            | "balance"
            | "register"
            | "cell"
            | "sheet"
            | "broken"
            | "schedule-status"
            | "goals"
            | "track-cell"
            | "track-sheet"
    )
}

/// Whether a line of a device with this name is one that only reads, where such are wanted, or else one that doesn't.
fn is_wanted(reads: bool, name: &str) -> bool
    ensures { result ≡ is_wanted reads name.now }
{
    if reads {
        is_question(name)
    } else {
        !is_question(name)
    }
}

/// The command of a device's line that stands behind others, from this index on.
fn command_behind(alloc: Global, rest: &str, index: u32) -> Result<Command, CommandFault>
    requires index { index < 8 }
    requires short { length rest.now ≤ longest_line }
    ensures read { IsReadAs (placed index (of_words (parts rest.now))) result }
    ensures valid { IfOk result IsCommand }
{
    // The index that is told of a bad word is within the words.
    first_bad_is_told();
    let text = Txt::from_text(alloc, rest)?;
    match read_command(alloc, &text) {
        Ok(command) => Ok(command),
        Err(CommandFault::BadCommand { word }) => Err(CommandFault::BadCommand {
            word: word + index,
        }),
        Err(CommandFault::NoMemory) => Err(CommandFault::NoMemory),
    }
}

/// The line of a device whose words stand from an index on among those of a line. Its kind is told by its name alone, before its other words.
fn command_at(
    alloc: Global,
    line: &str,
    words: &[Txt],
    index: u32,
    reads: bool,
) -> Result<Command, CommandFault>
    requires words { words.now ≡ parts line.now }
    requires index { index < 8 }
    requires short { length line.now ≤ longest_line }
    ensures read { IsReadAs (command_at words.now index reads) result }
    ensures valid { IfOk result IsCommand }
{
    if index as usize >= words.len() {
        return Err(CommandFault::BadCommand { word: index });
    }
    let name = words[index as usize].as_str();
    if is_barred(name) {
        return Err(CommandFault::BadCommand { word: 0 });
    }
    if !is_wanted(reads, name) {
        return Err(CommandFault::BadCommand { word: index });
    }
    match text_behind(line, index) {
        Some(rest) => command_behind(alloc, rest, index),
        None => Err(CommandFault::BadCommand { word: index }),
    }
}

/// What an edit, an undo or a redo changes. Another command is at fault at its first word.
fn edit_of(command: Command, index: u32) -> Result<WorldEdit, CommandFault>
    requires { IsCommand command }
    ensures edit { result ≡ edit_of index command }
    ensures valid { IfOk result IsWorldEdit }
{
    match command {
        Command::Edit(edit) => Ok(WorldEdit::Line(edit)),
        Command::Undo => Ok(WorldEdit::Undo),
        Command::Redo => Ok(WorldEdit::Redo),
        _ => Err(CommandFault::BadCommand { word: index }),
    }
}

/// A command that only reads. Another one is at fault at its first word.
fn question_of(command: Command, index: u32) -> Result<Command, CommandFault>
    ensures question { result ≡ question_of index command }
    ensures reads { IfOk result IsReading }
{
    match command {
        Command::Edit(_)
        | Command::Undo
        | Command::Redo
        | Command::Receive { .. }
        | Command::Sync => { Err(CommandFault::BadCommand { word: index }) }
        other => Ok(other),
    }
}

/// The edit whose words stand from an index on.
pub(crate) fn edit_at(
    alloc: Global,
    line: &str,
    words: &[Txt],
    index: u32,
) -> Result<WorldEdit, CommandFault>
    requires words { words.now ≡ parts line.now }
    requires index { index < 8 }
    requires short { length line.now ≤ longest_line }
    ensures read { IsReadAs (edit_at words.now index) result }
    ensures valid { IfOk result IsWorldEdit }
{
    let command = command_at(alloc, line, words, index, false)?;
    edit_of(command, index)
}

/// The line that only reads whose words stand from an index on.
pub(crate) fn question_at(
    alloc: Global,
    line: &str,
    words: &[Txt],
    index: u32,
) -> Result<Command, CommandFault>
    requires words { words.now ≡ parts line.now }
    requires index { index < 8 }
    requires short { length line.now ≤ longest_line }
    ensures read { IsReadAs (question_at words.now index) result }
    ensures reads { IfOk result IsReading }
{
    let command = command_at(alloc, line, words, index, true)?;
    question_of(command, index)
}
