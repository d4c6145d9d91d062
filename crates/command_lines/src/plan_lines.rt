//! The lines about what a month is to have: by the templates in the notes of categories, and by the tracking budget.
ghost use Rattle.std.specs.Prelude.{◌≡◌, IfOk, IfErr};
ghost use Rattle.command_lines.specs.Commands.{goals_words, goals_apply_words, track_cell_words, track_sheet_words, words_of_plan_lines, IsRead, IsCommand};
ghost use Rattle.command_lines.specs.Unread.{command_of_unread, IsFaultOf};

use crate::command::{Command, CommandFault};
use crate::session_lines::session_line;
use crate::words::Words;
use device_core::Edit;
use std::alloc::Global;

/// The words behind `goals`: a month.
fn goals(alloc: Global, words: &mut Words<'_>) -> Result<Command, CommandFault>
    ensures read { IsRead (command_of_unread goals_words words.old) result }
    ensures valid { IfOk result IsCommand }
    ensures memory { IfErr result (IsFaultOf goals_words words.old) }
{
    let month = words.month(alloc)?;
    words.end()?;
    Ok(Command::Goals { month })
}

/// The words behind `goals-apply`: a month.
fn goals_apply(alloc: Global, words: &mut Words<'_>) -> Result<Command, CommandFault>
    ensures read { IsRead (command_of_unread goals_apply_words words.old) result }
    ensures valid { IfOk result IsCommand }
    ensures memory { IfErr result (IsFaultOf goals_apply_words words.old) }
{
    let month = words.month(alloc)?;
    words.end()?;
    Ok(Command::Edit(Edit::GoalsApply { month }))
}

/// The words behind `track-cell`: a month, and the name of a cell.
fn track_cell(alloc: Global, words: &mut Words<'_>) -> Result<Command, CommandFault>
    ensures read { IsRead (command_of_unread track_cell_words words.old) result }
    ensures valid { IfOk result IsCommand }
    ensures memory { IfErr result (IsFaultOf track_cell_words words.old) }
{
    let month = words.month(alloc)?;
    let name = words.text(alloc)?;
    words.end()?;
    Ok(Command::TrackCell { month, name })
}

/// The words behind `track-sheet`: a month.
fn track_sheet(alloc: Global, words: &mut Words<'_>) -> Result<Command, CommandFault>
    ensures read { IsRead (command_of_unread track_sheet_words words.old) result }
    ensures valid { IfOk result IsCommand }
    ensures memory { IfErr result (IsFaultOf track_sheet_words words.old) }
{
    let month = words.month(alloc)?;
    words.end()?;
    Ok(Command::TrackSheet { month })
}

/// The words behind a name that may be one of the lines about what a month is to have.
#[tactic(auto, unfolding(crate::specs::Commands::words_of_plan_lines))]
pub(crate) fn plan_line(
    alloc: Global,
    name: &str,
    words: &mut Words<'_>,
) -> Result<Command, CommandFault>
    requires { words.old.last ≡ 0 }
    ensures read { IsRead (command_of_unread (words_of_plan_lines name.now) words.old) result }
    ensures valid { IfOk result IsCommand }
    ensures memory { IfErr result (IsFaultOf (words_of_plan_lines name.now) words.old) }
{
    match name {
        "goals" => goals(alloc, words),
        "goals-apply" => goals_apply(alloc, words),
        "track-cell" => track_cell(alloc, words),
        "track-sheet" => track_sheet(alloc, words),
        _ => session_line(name, words),
    }
}
