//! The lines of a world.
ghost use Rattle.std.specs.Prelude.{◌≡◌, ◌≤◌, IfOk, IfErr, OnOk, length};
ghost use Rattle.command_lines.specs.Commands.{longest_line};
ghost use Rattle.field_merge.specs.Lines.{parts};
ghost use Rattle.world_lines.specs.Words.{IsReadAs};
ghost use Rattle.world_lines.specs.Lines.{ask_line, begins, count_line, edit_line, equal_line, halt_line, serve_line, show_line, stop_line, take_line, line_named, world_command, IsWorldCommand};

use crate::command::{WorldCommand, edit_at, question_at};
use crate::reading::{flag_at, long_number_at, number_at, text_at};
use command_lines::CommandFault;
use field_values::Txt;
use std::alloc::Global;
use sync_world::Event;

/// The most devices of a world.
const MOST_DEVICES: u32 = 16;

/// Nothing, where a line has so many words. The next one is one too many, and at fault.
fn only(words: &[Txt], count: u32) -> Result<(), CommandFault>
    ensures ok { OnOk result (length words.now ≡ count) }
    ensures err { IfErr result (λ fault. (fault ≡ CommandFault.BadCommand count) × (length words.now ≡ count → ⊥)) }
{
    if words.len() == count as usize {
        return Ok(());
    }
    Err(CommandFault::BadCommand { word: count })
}

/// Of how many devices the words of `devices` begin a world.
pub(crate) fn count_devices(words: &[Txt]) -> Result<u32, CommandFault>
    ensures count { result ≡ count_line words.now }
    ensures some { IfOk result (λ count. (1 ≤ count) × (count ≤ 16)) }
{
    let count = number_at(words, 1)?;
    if count == 0 || count > MOST_DEVICES {
        return Err(CommandFault::BadCommand { word: 1 });
    }
    only(words, 2)?;
    Ok(count)
}

/// The words of `serve`.
fn serve(words: &[Txt]) -> Result<WorldCommand, CommandFault>
    ensures { result ≡ serve_line words.now }
{
    let request = number_at(words, 1)?;
    only(words, 2)?;
    Ok(WorldCommand::Happens(Event::Serve { request }))
}

/// The words of `take`.
fn take(words: &[Txt]) -> Result<WorldCommand, CommandFault>
    ensures { result ≡ take_line words.now }
{
    let device = number_at(words, 1)?;
    let reply = number_at(words, 2)?;
    let reading = long_number_at(words, 3)?;
    only(words, 4)?;
    Ok(WorldCommand::Happens(Event::Take {
        device,
        reply,
        reading,
    }))
}

/// The words of `halt`.
fn halt(words: &[Txt]) -> Result<WorldCommand, CommandFault>
    ensures { result ≡ halt_line words.now }
{
    let request = number_at(words, 1)?;
    let whole = flag_at(words, 2)?;
    only(words, 3)?;
    Ok(WorldCommand::Happens(Event::Halt { request, whole }))
}

/// The words of `equal`.
fn equal(words: &[Txt]) -> Result<WorldCommand, CommandFault>
    ensures { result ≡ equal_line words.now }
{
    let one = number_at(words, 1)?;
    let other = number_at(words, 2)?;
    only(words, 3)?;
    Ok(WorldCommand::Equal { one, other })
}

/// The words of `ask`.
fn ask(alloc: Global, words: &[Txt]) -> Result<WorldCommand, CommandFault>
    ensures { IsReadAs (ask_line words.now) result }
{
    let device = number_at(words, 1)?;
    let since = text_at(alloc, words, 2)?;
    only(words, 3)?;
    Ok(WorldCommand::Happens(Event::Ask { device, since }))
}

/// The words of `edit`.
fn edit(alloc: Global, line: &str, words: &[Txt]) -> Result<WorldCommand, CommandFault>
    requires words { words.now ≡ parts line.now }
    requires short { length line.now ≤ longest_line }
    ensures read { IsReadAs (edit_line words.now) result }
    ensures valid { IfOk result IsWorldCommand }
{
    let device = number_at(words, 1)?;
    let reading = long_number_at(words, 2)?;
    let edit = edit_at(alloc, line, words, 3)?;
    Ok(WorldCommand::Happens(Event::Edit {
        device,
        edit,
        reading,
    }))
}

/// The words of `stop`.
fn stop(alloc: Global, line: &str, words: &[Txt]) -> Result<WorldCommand, CommandFault>
    requires words { words.now ≡ parts line.now }
    requires short { length line.now ≤ longest_line }
    ensures read { IsReadAs (stop_line words.now) result }
    ensures valid { IfOk result IsWorldCommand }
{
    let device = number_at(words, 1)?;
    let whole = flag_at(words, 2)?;
    let reading = long_number_at(words, 3)?;
    let edit = edit_at(alloc, line, words, 4)?;
    Ok(WorldCommand::Happens(Event::Stop {
        device,
        edit,
        reading,
        whole,
    }))
}

/// The words of `show`.
fn show(alloc: Global, line: &str, words: &[Txt]) -> Result<WorldCommand, CommandFault>
    requires words { words.now ≡ parts line.now }
    requires short { length line.now ≤ longest_line }
    ensures read { IsReadAs (show_line words.now) result }
    ensures valid { IfOk result IsWorldCommand }
{
    let device = number_at(words, 1)?;
    let command = question_at(alloc, line, words, 2)?;
    Ok(WorldCommand::Show { device, command })
}

/// Whether the words are those of the line that begins a world.
pub(crate) fn begins(words: &[Txt]) -> bool
    ensures { result ≡ begins words.now }
{
    match words {
        [name, ..] => name.as_str() == "devices",
        [] => false,
    }
}

/// The command that the words of a line make in a world that has begun. They are judged from left to right.
///
/// # Errors
///
/// `BadCommand` for the first word that is not of its form: a missing one stands behind the others, and the line of a device within it
/// counts its words in the whole line, and is at fault at its first one where its name isn't one of the wanted kind. `sync` and `receive`, which no
/// device of a world takes, are told at 0, and so is `devices`, since a world has begun.
pub(crate) fn read_world_line(
    alloc: Global,
    line: &str,
    words: &[Txt],
) -> Result<WorldCommand, CommandFault>
    requires words { words.now ≡ parts line.now }
    requires short { length line.now ≤ longest_line }
    ensures read { IsReadAs (world_command words.now) result }
    ensures valid { IfOk result IsWorldCommand }
{
    let [name, ..] = words else {
        return Err(CommandFault::BadCommand { word: 0 });
    };
    match name.as_str() {
        "edit" => edit(alloc, line, words),
        "ask" => ask(alloc, words),
        "serve" => serve(words),
        "take" => take(words),
        "stop" => stop(alloc, line, words),
        "halt" => halt(words),
        "show" => show(alloc, line, words),
        "equal" => equal(words),
        _ => Err(CommandFault::BadCommand { word: 0 }),
    }
}
