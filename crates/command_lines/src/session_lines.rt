//! The lines of a session.
ghost use Rattle.std.specs.Prelude.{◌≡◌, IfOk, IfErr};
ghost use Rattle.command_lines.specs.Commands.{undo_words, redo_words, sync_words, words_of_session_lines, IsRead, IsCommand};
ghost use Rattle.command_lines.specs.Unread.{command_of_unread, IsFaultOf};

use crate::command::{Command, CommandFault};
use crate::words::Words;

/// The words behind `undo`.
fn undo(words: &Words<'_>) -> Result<Command, CommandFault>
    ensures read { IsRead (command_of_unread undo_words words.now) result }
    ensures valid { IfOk result IsCommand }
    ensures memory { IfErr result (IsFaultOf undo_words words.now) }
{
    words.end()?;
    Ok(Command::Undo)
}

/// The words behind `redo`.
fn redo(words: &Words<'_>) -> Result<Command, CommandFault>
    ensures read { IsRead (command_of_unread redo_words words.now) result }
    ensures valid { IfOk result IsCommand }
    ensures memory { IfErr result (IsFaultOf redo_words words.now) }
{
    words.end()?;
    Ok(Command::Redo)
}

/// The words behind `sync`.
fn sync(words: &Words<'_>) -> Result<Command, CommandFault>
    ensures read { IsRead (command_of_unread sync_words words.now) result }
    ensures valid { IfOk result IsCommand }
    ensures memory { IfErr result (IsFaultOf sync_words words.now) }
{
    words.end()?;
    Ok(Command::Sync)
}

/// The words behind a name that may be one of the lines of a session.
#[tactic(auto, unfolding(crate::specs::Commands::words_of_session_lines))]
pub(crate) fn session_line(name: &str, words: &Words<'_>) -> Result<Command, CommandFault>
    requires { words.now.last ≡ 0 }
    ensures read { IsRead (command_of_unread (words_of_session_lines name.now) words.now) result }
    ensures valid { IfOk result IsCommand }
    ensures memory { IfErr result (IsFaultOf (words_of_session_lines name.now) words.now) }
{
    match name {
        "undo" => undo(words),
        "redo" => redo(words),
        "sync" => sync(words),
        _ => Err(CommandFault::BadCommand { word: 0 }),
    }
}
