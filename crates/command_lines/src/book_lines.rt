//! The lines that budget a month, and those that ask of the books.
ghost use Rattle.std.specs.Prelude.{◌≡◌, IfOk, IfErr};
ghost use Rattle.command_lines.specs.Commands.{budget_words, carryover_words, hold_words, move_amount_words, track_words, track_carryover_words, balance_words, register_words, cell_words, sheet_words, broken_words, words_of_month_lines, words_of_book_lines, IsRead, IsCommand};
ghost use Rattle.command_lines.specs.Unread.{command_of_unread, IsFaultOf};

use crate::command::{Command, CommandFault};
use crate::pair_lines::pair_line;
use crate::words::Words;
use device_core::{BookEdit, Edit};
use std::alloc::Global;

/// The words behind `budget`: a month, a category and an amount.
fn budget(alloc: Global, words: &mut Words<'_>) -> Result<Command, CommandFault>
    ensures read { IsRead (command_of_unread budget_words words.old) result }
    ensures valid { IfOk result IsCommand }
    ensures memory { IfErr result (IsFaultOf budget_words words.old) }
{
    let month = words.month(alloc)?;
    let category = words.text(alloc)?;
    let amount = words.amount(alloc)?;
    words.end()?;
    Ok(Command::Edit(Edit::Book(BookEdit::Budget {
        month,
        category,
        amount,
    })))
}

/// The words behind `carryover`: a month, a category, and whether it carries over.
fn carryover(alloc: Global, words: &mut Words<'_>) -> Result<Command, CommandFault>
    ensures read { IsRead (command_of_unread carryover_words words.old) result }
    ensures valid { IfOk result IsCommand }
    ensures memory { IfErr result (IsFaultOf carryover_words words.old) }
{
    let month = words.month(alloc)?;
    let category = words.text(alloc)?;
    let carries = words.flag(alloc)?;
    words.end()?;
    Ok(Command::Edit(Edit::Book(BookEdit::Carryover {
        month,
        category,
        flag: carries,
    })))
}

/// The words behind `hold`: a month and an amount.
fn hold(alloc: Global, words: &mut Words<'_>) -> Result<Command, CommandFault>
    ensures read { IsRead (command_of_unread hold_words words.old) result }
    ensures valid { IfOk result IsCommand }
    ensures memory { IfErr result (IsFaultOf hold_words words.old) }
{
    let month = words.month(alloc)?;
    let amount = words.amount(alloc)?;
    words.end()?;
    Ok(Command::Edit(Edit::Book(BookEdit::Hold { month, amount })))
}

/// The words behind `move`: a month, two categories and an amount.
fn move_amount(alloc: Global, words: &mut Words<'_>) -> Result<Command, CommandFault>
    ensures read { IsRead (command_of_unread move_amount_words words.old) result }
    ensures valid { IfOk result IsCommand }
    ensures memory { IfErr result (IsFaultOf move_amount_words words.old) }
{
    let month = words.month(alloc)?;
    let from = words.text(alloc)?;
    let to = words.text(alloc)?;
    let amount = words.amount(alloc)?;
    words.end()?;
    Ok(Command::Edit(Edit::Book(BookEdit::Move {
        month,
        from,
        to,
        amount,
    })))
}

/// The words behind `track`: a month, a category and an amount.
fn track(alloc: Global, words: &mut Words<'_>) -> Result<Command, CommandFault>
    ensures read { IsRead (command_of_unread track_words words.old) result }
    ensures valid { IfOk result IsCommand }
    ensures memory { IfErr result (IsFaultOf track_words words.old) }
{
    let month = words.month(alloc)?;
    let category = words.text(alloc)?;
    let amount = words.amount(alloc)?;
    words.end()?;
    Ok(Command::Edit(Edit::Book(BookEdit::Track {
        month,
        category,
        amount,
    })))
}

/// The words behind `track-carryover`: a month, a category, and whether it carries over.
fn track_carryover(alloc: Global, words: &mut Words<'_>) -> Result<Command, CommandFault>
    ensures read { IsRead (command_of_unread track_carryover_words words.old) result }
    ensures valid { IfOk result IsCommand }
    ensures memory { IfErr result (IsFaultOf track_carryover_words words.old) }
{
    let month = words.month(alloc)?;
    let category = words.text(alloc)?;
    let carries = words.flag(alloc)?;
    words.end()?;
    Ok(Command::Edit(Edit::Book(BookEdit::TrackCarryover {
        month,
        category,
        flag: carries,
    })))
}

/// The words behind `balance`: an account.
fn balance(alloc: Global, words: &mut Words<'_>) -> Result<Command, CommandFault>
    ensures read { IsRead (command_of_unread balance_words words.old) result }
    ensures valid { IfOk result IsCommand }
    ensures memory { IfErr result (IsFaultOf balance_words words.old) }
{
    let account = words.text(alloc)?;
    words.end()?;
    Ok(Command::Balance { account })
}

/// The words behind `register`: an account.
fn register(alloc: Global, words: &mut Words<'_>) -> Result<Command, CommandFault>
    ensures read { IsRead (command_of_unread register_words words.old) result }
    ensures valid { IfOk result IsCommand }
    ensures memory { IfErr result (IsFaultOf register_words words.old) }
{
    let account = words.text(alloc)?;
    words.end()?;
    Ok(Command::Register { account })
}

/// The words behind `cell`: a month, and the name of a cell.
fn cell(alloc: Global, words: &mut Words<'_>) -> Result<Command, CommandFault>
    ensures read { IsRead (command_of_unread cell_words words.old) result }
    ensures valid { IfOk result IsCommand }
    ensures memory { IfErr result (IsFaultOf cell_words words.old) }
{
    let month = words.month(alloc)?;
    let name = words.text(alloc)?;
    words.end()?;
    Ok(Command::Cell { month, name })
}

/// The words behind `sheet`: a month.
fn sheet(alloc: Global, words: &mut Words<'_>) -> Result<Command, CommandFault>
    ensures read { IsRead (command_of_unread sheet_words words.old) result }
    ensures valid { IfOk result IsCommand }
    ensures memory { IfErr result (IsFaultOf sheet_words words.old) }
{
    let month = words.month(alloc)?;
    words.end()?;
    Ok(Command::Sheet { month })
}

/// The words behind `broken`.
fn broken(words: &Words<'_>) -> Result<Command, CommandFault>
    ensures read { IsRead (command_of_unread broken_words words.now) result }
    ensures valid { IfOk result IsCommand }
    ensures memory { IfErr result (IsFaultOf broken_words words.now) }
{
    words.end()?;
    Ok(Command::Broken)
}

/// The words behind a name that may be one of the lines that budget a month.
#[tactic(auto, unfolding(crate::specs::Commands::words_of_month_lines))]
pub(crate) fn month_line(
    alloc: Global,
    name: &str,
    words: &mut Words<'_>,
) -> Result<Command, CommandFault>
    requires { words.old.last ≡ 0 }
    ensures read { IsRead (command_of_unread (words_of_month_lines name.now) words.old) result }
    ensures valid { IfOk result IsCommand }
    ensures memory { IfErr result (IsFaultOf (words_of_month_lines name.now) words.old) }
{
    match name {
        "budget" => budget(alloc, words),
        "carryover" => carryover(alloc, words),
        "hold" => hold(alloc, words),
        "move" => move_amount(alloc, words),
        "track" => track(alloc, words),
        "track-carryover" => track_carryover(alloc, words),
        _ => book_line(alloc, name, words),
    }
}

/// The words behind a name that may be one of the lines that ask of the books.
#[tactic(auto, unfolding(crate::specs::Commands::words_of_book_lines))]
pub(crate) fn book_line(
    alloc: Global,
    name: &str,
    words: &mut Words<'_>,
) -> Result<Command, CommandFault>
    requires { words.old.last ≡ 0 }
    ensures read { IsRead (command_of_unread (words_of_book_lines name.now) words.old) result }
    ensures valid { IfOk result IsCommand }
    ensures memory { IfErr result (IsFaultOf (words_of_book_lines name.now) words.old) }
{
    match name {
        "balance" => balance(alloc, words),
        "register" => register(alloc, words),
        "cell" => cell(alloc, words),
        "sheet" => sheet(alloc, words),
        "broken" => broken(words),
        _ => pair_line(alloc, name, words),
    }
}
