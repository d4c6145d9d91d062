//! The lines that edit schedules, and the one that asks how a schedule stands.
ghost use Rattle.std.specs.Prelude.{◌≡◌, IfOk, IfErr};
ghost use Rattle.command_lines.specs.Commands.{schedule_add_words, schedule_post_words, schedule_skip_words, schedule_delete_words, schedule_status_words, words_of_schedule_lines, IsRead, IsCommand};
ghost use Rattle.command_lines.specs.Unread.{command_of_unread, IsFaultOf};

use crate::command::{Command, CommandFault};
use crate::statement_lines::statement_line;
use crate::words::Words;
use device_core::{Edit, ScheduleEdit};
use std::alloc::Global;

/// The words behind `schedule-add`: an id or none, a name, an account, a payee or none, an amount, and a recurrence, whose text is
/// judged by the edit.
fn schedule_add(alloc: Global, words: &mut Words<'_>) -> Result<Command, CommandFault>
    ensures read { IsRead (command_of_unread schedule_add_words words.old) result }
    ensures valid { IfOk result IsCommand }
    ensures memory { IfErr result (IsFaultOf schedule_add_words words.old) }
{
    let id = words.id_or_none(alloc)?;
    let name = words.text(alloc)?;
    let account = words.text(alloc)?;
    let payee = words.id_or_none(alloc)?;
    let amount = words.amount(alloc)?;
    let recur = words.text(alloc)?;
    words.end()?;
    Ok(Command::Edit(Edit::Schedule(ScheduleEdit::Add {
        id,
        name,
        account,
        payee,
        amount,
        recur,
    })))
}

/// The words behind `schedule-post`: a schedule.
fn schedule_post(alloc: Global, words: &mut Words<'_>) -> Result<Command, CommandFault>
    ensures read { IsRead (command_of_unread schedule_post_words words.old) result }
    ensures valid { IfOk result IsCommand }
    ensures memory { IfErr result (IsFaultOf schedule_post_words words.old) }
{
    let id = words.text(alloc)?;
    words.end()?;
    Ok(Command::Edit(Edit::Schedule(ScheduleEdit::Post { id })))
}

/// The words behind `schedule-skip`: a schedule.
fn schedule_skip(alloc: Global, words: &mut Words<'_>) -> Result<Command, CommandFault>
    ensures read { IsRead (command_of_unread schedule_skip_words words.old) result }
    ensures valid { IfOk result IsCommand }
    ensures memory { IfErr result (IsFaultOf schedule_skip_words words.old) }
{
    let id = words.text(alloc)?;
    words.end()?;
    Ok(Command::Edit(Edit::Schedule(ScheduleEdit::Skip { id })))
}

/// The words behind `schedule-delete`: a schedule.
fn schedule_delete(alloc: Global, words: &mut Words<'_>) -> Result<Command, CommandFault>
    ensures read { IsRead (command_of_unread schedule_delete_words words.old) result }
    ensures valid { IfOk result IsCommand }
    ensures memory { IfErr result (IsFaultOf schedule_delete_words words.old) }
{
    let id = words.text(alloc)?;
    words.end()?;
    Ok(Command::Edit(Edit::Schedule(ScheduleEdit::Delete { id })))
}

/// The words behind `schedule-status`: a schedule and a day, which is judged by the answer.
fn schedule_status(alloc: Global, words: &mut Words<'_>) -> Result<Command, CommandFault>
    ensures read { IsRead (command_of_unread schedule_status_words words.old) result }
    ensures valid { IfOk result IsCommand }
    ensures memory { IfErr result (IsFaultOf schedule_status_words words.old) }
{
    let id = words.text(alloc)?;
    let day = words.date(alloc)?;
    words.end()?;
    Ok(Command::ScheduleStatus { id, day })
}

/// The words behind a name that may be one of the lines about schedules.
#[tactic(auto, unfolding(crate::specs::Commands::words_of_schedule_lines))]
pub(crate) fn schedule_line(
    alloc: Global,
    name: &str,
    words: &mut Words<'_>,
) -> Result<Command, CommandFault>
    requires { words.old.last ≡ 0 }
    ensures read { IsRead (command_of_unread (words_of_schedule_lines name.now) words.old) result }
    ensures valid { IfOk result IsCommand }
    ensures memory { IfErr result (IsFaultOf (words_of_schedule_lines name.now) words.old) }
{
    match name {
        "schedule-add" => schedule_add(alloc, words),
        "schedule-post" => schedule_post(alloc, words),
        "schedule-skip" => schedule_skip(alloc, words),
        "schedule-delete" => schedule_delete(alloc, words),
        "schedule-status" => schedule_status(alloc, words),
        _ => statement_line(alloc, name, words),
    }
}
