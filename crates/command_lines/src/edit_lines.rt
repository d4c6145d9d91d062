//! The lines that edit the rows of the books.
ghost use Rattle.std.specs.Prelude.{◌≡◌, IfOk, IfErr};
ghost use Rattle.command_lines.specs.Commands.{account_rename_words, group_rename_words, category_rename_words, payee_rename_words, category_move_words, note_words, account_reopen_words, account_close_words, account_offbudget_words, group_delete_words, category_delete_words, payee_delete_words, payee_merge_words, account_add_words, group_add_words, category_add_words, payee_add_words, tx_add_words, words_of_row_lines, words_of_state_lines, words_of_add_lines, IsRead, IsCommand};
ghost use Rattle.command_lines.specs.Unread.{command_of_unread, IsFaultOf};

use crate::book_lines::month_line;
use crate::command::{Command, CommandFault};
use crate::rule_lines::ids;
use crate::words::Words;
use device_core::{BookEdit, Edit};
use field_values::Items;
use std::alloc::Global;

/// The words behind `account-rename`: an account and its new name.
fn account_rename(alloc: Global, words: &mut Words<'_>) -> Result<Command, CommandFault>
    ensures read { IsRead (command_of_unread account_rename_words words.old) result }
    ensures valid { IfOk result IsCommand }
    ensures memory { IfErr result (IsFaultOf account_rename_words words.old) }
{
    let id = words.text(alloc)?;
    let name = words.text(alloc)?;
    words.end()?;
    Ok(Command::Edit(Edit::Book(BookEdit::AccountRename { id, name })))
}

/// The words behind `group-rename`: a group and its new name.
fn group_rename(alloc: Global, words: &mut Words<'_>) -> Result<Command, CommandFault>
    ensures read { IsRead (command_of_unread group_rename_words words.old) result }
    ensures valid { IfOk result IsCommand }
    ensures memory { IfErr result (IsFaultOf group_rename_words words.old) }
{
    let id = words.text(alloc)?;
    let name = words.text(alloc)?;
    words.end()?;
    Ok(Command::Edit(Edit::Book(BookEdit::GroupRename { id, name })))
}

/// The words behind `category-rename`: a category and its new name.
fn category_rename(alloc: Global, words: &mut Words<'_>) -> Result<Command, CommandFault>
    ensures read { IsRead (command_of_unread category_rename_words words.old) result }
    ensures valid { IfOk result IsCommand }
    ensures memory { IfErr result (IsFaultOf category_rename_words words.old) }
{
    let id = words.text(alloc)?;
    let name = words.text(alloc)?;
    words.end()?;
    Ok(Command::Edit(Edit::Book(BookEdit::CategoryRename { id, name })))
}

/// The words behind `payee-rename`: a payee and its new name.
fn payee_rename(alloc: Global, words: &mut Words<'_>) -> Result<Command, CommandFault>
    ensures read { IsRead (command_of_unread payee_rename_words words.old) result }
    ensures valid { IfOk result IsCommand }
    ensures memory { IfErr result (IsFaultOf payee_rename_words words.old) }
{
    let id = words.text(alloc)?;
    let name = words.text(alloc)?;
    words.end()?;
    Ok(Command::Edit(Edit::Book(BookEdit::PayeeRename { id, name })))
}

/// The words behind `category-move`: a category and the group that it moves to.
fn category_move(alloc: Global, words: &mut Words<'_>) -> Result<Command, CommandFault>
    ensures read { IsRead (command_of_unread category_move_words words.old) result }
    ensures valid { IfOk result IsCommand }
    ensures memory { IfErr result (IsFaultOf category_move_words words.old) }
{
    let id = words.text(alloc)?;
    let group = words.text(alloc)?;
    words.end()?;
    Ok(Command::Edit(Edit::Book(BookEdit::CategoryMove { id, group })))
}

/// The words behind `note`: an id and the text that is noted under it.
fn note(alloc: Global, words: &mut Words<'_>) -> Result<Command, CommandFault>
    ensures read { IsRead (command_of_unread note_words words.old) result }
    ensures valid { IfOk result IsCommand }
    ensures memory { IfErr result (IsFaultOf note_words words.old) }
{
    let id = words.text(alloc)?;
    let text = words.text(alloc)?;
    words.end()?;
    Ok(Command::Edit(Edit::Book(BookEdit::Note { id, text })))
}

/// The words behind `account-reopen`: an account.
fn account_reopen(alloc: Global, words: &mut Words<'_>) -> Result<Command, CommandFault>
    ensures read { IsRead (command_of_unread account_reopen_words words.old) result }
    ensures valid { IfOk result IsCommand }
    ensures memory { IfErr result (IsFaultOf account_reopen_words words.old) }
{
    let id = words.text(alloc)?;
    words.end()?;
    Ok(Command::Edit(Edit::Book(BookEdit::AccountReopen { id })))
}

/// The words behind `account-close`: an account.
fn account_close(alloc: Global, words: &mut Words<'_>) -> Result<Command, CommandFault>
    ensures read { IsRead (command_of_unread account_close_words words.old) result }
    ensures valid { IfOk result IsCommand }
    ensures memory { IfErr result (IsFaultOf account_close_words words.old) }
{
    let id = words.text(alloc)?;
    words.end()?;
    Ok(Command::Edit(Edit::Book(BookEdit::AccountClose { id })))
}

/// The words behind `account-offbudget`: an account, and whether it stands outside the budget.
fn account_offbudget(alloc: Global, words: &mut Words<'_>) -> Result<Command, CommandFault>
    ensures read { IsRead (command_of_unread account_offbudget_words words.old) result }
    ensures valid { IfOk result IsCommand }
    ensures memory { IfErr result (IsFaultOf account_offbudget_words words.old) }
{
    let id = words.text(alloc)?;
    let off = words.flag(alloc)?;
    words.end()?;
    Ok(Command::Edit(Edit::Book(BookEdit::AccountOffbudget { id, offbudget: off })))
}

/// The words behind `group-delete`: a group.
fn group_delete(alloc: Global, words: &mut Words<'_>) -> Result<Command, CommandFault>
    ensures read { IsRead (command_of_unread group_delete_words words.old) result }
    ensures valid { IfOk result IsCommand }
    ensures memory { IfErr result (IsFaultOf group_delete_words words.old) }
{
    let id = words.text(alloc)?;
    words.end()?;
    Ok(Command::Edit(Edit::Book(BookEdit::GroupDelete { id })))
}

/// The words behind `category-delete`: a category; and one to which it is handed on, if there is one.
fn category_delete(alloc: Global, words: &mut Words<'_>) -> Result<Command, CommandFault>
    ensures read { IsRead (command_of_unread category_delete_words words.old) result }
    ensures valid { IfOk result IsCommand }
    ensures memory { IfErr result (IsFaultOf category_delete_words words.old) }
{
    let id = words.text(alloc)?;
    if words.is_done() {
        return Ok(Command::Edit(Edit::Book(BookEdit::CategoryDelete { id })));
    }
    let to = words.text(alloc)?;
    words.end()?;
    Ok(Command::Edit(Edit::Book(BookEdit::CategoryDeleteTo { id, to })))
}

/// The words behind `payee-delete`: a payee.
fn payee_delete(alloc: Global, words: &mut Words<'_>) -> Result<Command, CommandFault>
    ensures read { IsRead (command_of_unread payee_delete_words words.old) result }
    ensures valid { IfOk result IsCommand }
    ensures memory { IfErr result (IsFaultOf payee_delete_words words.old) }
{
    let id = words.text(alloc)?;
    words.end()?;
    Ok(Command::Edit(Edit::Book(BookEdit::PayeeDelete { id })))
}

/// The words behind `payee-merge`: the payee that stays, and those that become it, one or more.
fn payee_merge(alloc: Global, words: &mut Words<'_>) -> Result<Command, CommandFault>
    ensures read { IsRead (command_of_unread payee_merge_words words.old) result }
    ensures valid { IfOk result IsCommand }
    ensures memory { IfErr result (IsFaultOf payee_merge_words words.old) }
{
    let to = words.text(alloc)?;
    let ids = ids(alloc, words)?;
    Ok(Command::Edit(Edit::Book(BookEdit::PayeeMerge {
        to,
        ids: Items::new(ids),
    })))
}

/// The words behind `account-add`: an id or none, a name, and whether the account stands outside the budget.
fn account_add(alloc: Global, words: &mut Words<'_>) -> Result<Command, CommandFault>
    ensures read { IsRead (command_of_unread account_add_words words.old) result }
    ensures valid { IfOk result IsCommand }
    ensures memory { IfErr result (IsFaultOf account_add_words words.old) }
{
    let id = words.id_or_none(alloc)?;
    let name = words.text(alloc)?;
    let off = words.flag(alloc)?;
    words.end()?;
    Ok(Command::Edit(Edit::Book(BookEdit::AccountAdd {
        id,
        name,
        offbudget: off,
    })))
}

/// The words behind `group-add`: an id or none, a name, and whether the group takes income.
fn group_add(alloc: Global, words: &mut Words<'_>) -> Result<Command, CommandFault>
    ensures read { IsRead (command_of_unread group_add_words words.old) result }
    ensures valid { IfOk result IsCommand }
    ensures memory { IfErr result (IsFaultOf group_add_words words.old) }
{
    let id = words.id_or_none(alloc)?;
    let name = words.text(alloc)?;
    let income = words.flag(alloc)?;
    words.end()?;
    Ok(Command::Edit(Edit::Book(BookEdit::GroupAdd { id, name, income })))
}

/// The words behind `category-add`: an id or none, a group and a name.
fn category_add(alloc: Global, words: &mut Words<'_>) -> Result<Command, CommandFault>
    ensures read { IsRead (command_of_unread category_add_words words.old) result }
    ensures valid { IfOk result IsCommand }
    ensures memory { IfErr result (IsFaultOf category_add_words words.old) }
{
    let id = words.id_or_none(alloc)?;
    let group = words.text(alloc)?;
    let name = words.text(alloc)?;
    words.end()?;
    Ok(Command::Edit(Edit::Book(BookEdit::CategoryAdd { id, group, name })))
}

/// The words behind `payee-add`: an id or none, and a name.
fn payee_add(alloc: Global, words: &mut Words<'_>) -> Result<Command, CommandFault>
    ensures read { IsRead (command_of_unread payee_add_words words.old) result }
    ensures valid { IfOk result IsCommand }
    ensures memory { IfErr result (IsFaultOf payee_add_words words.old) }
{
    let id = words.id_or_none(alloc)?;
    let name = words.text(alloc)?;
    words.end()?;
    Ok(Command::Edit(Edit::Book(BookEdit::PayeeAdd { id, name })))
}

/// The words behind `tx-add`: an id or none, an account, a date, an amount, a payee or none, a category or none, and notes.
fn tx_add(alloc: Global, words: &mut Words<'_>) -> Result<Command, CommandFault>
    ensures read { IsRead (command_of_unread tx_add_words words.old) result }
    ensures valid { IfOk result IsCommand }
    ensures memory { IfErr result (IsFaultOf tx_add_words words.old) }
{
    let id = words.id_or_none(alloc)?;
    let account = words.text(alloc)?;
    let date = words.date(alloc)?;
    let amount = words.amount(alloc)?;
    let payee = words.id_or_none(alloc)?;
    let category = words.id_or_none(alloc)?;
    let notes = words.text(alloc)?;
    words.end()?;
    Ok(Command::Edit(Edit::Book(BookEdit::TxAdd {
        id,
        account,
        date,
        amount,
        payee,
        category,
        notes,
    })))
}

/// The words behind a name that may be one of the lines that give a row a name, a place or a note.
#[tactic(auto, unfolding(crate::specs::Commands::words_of_row_lines))]
pub(crate) fn row_line(
    alloc: Global,
    name: &str,
    words: &mut Words<'_>,
) -> Result<Command, CommandFault>
    requires { words.old.last ≡ 0 }
    ensures read { IsRead (command_of_unread (words_of_row_lines name.now) words.old) result }
    ensures valid { IfOk result IsCommand }
    ensures memory { IfErr result (IsFaultOf (words_of_row_lines name.now) words.old) }
{
    match name {
        "account-rename" => account_rename(alloc, words),
        "group-rename" => group_rename(alloc, words),
        "category-rename" => category_rename(alloc, words),
        "payee-rename" => payee_rename(alloc, words),
        "category-move" => category_move(alloc, words),
        "note" => note(alloc, words),
        _ => state_line(alloc, name, words),
    }
}

/// The words behind a name that may be one of the lines that open, close or delete rows.
#[tactic(auto, unfolding(crate::specs::Commands::words_of_state_lines))]
pub(crate) fn state_line(
    alloc: Global,
    name: &str,
    words: &mut Words<'_>,
) -> Result<Command, CommandFault>
    requires { words.old.last ≡ 0 }
    ensures read { IsRead (command_of_unread (words_of_state_lines name.now) words.old) result }
    ensures valid { IfOk result IsCommand }
    ensures memory { IfErr result (IsFaultOf (words_of_state_lines name.now) words.old) }
{
    match name {
        "account-reopen" => account_reopen(alloc, words),
        "account-close" => account_close(alloc, words),
        "account-offbudget" => account_offbudget(alloc, words),
        "group-delete" => group_delete(alloc, words),
        "category-delete" => category_delete(alloc, words),
        "payee-delete" => payee_delete(alloc, words),
        "payee-merge" => payee_merge(alloc, words),
        _ => add_line(alloc, name, words),
    }
}

/// The words behind a name that may be one of the lines that add a row.
#[tactic(auto, unfolding(crate::specs::Commands::words_of_add_lines))]
pub(crate) fn add_line(
    alloc: Global,
    name: &str,
    words: &mut Words<'_>,
) -> Result<Command, CommandFault>
    requires { words.old.last ≡ 0 }
    ensures read { IsRead (command_of_unread (words_of_add_lines name.now) words.old) result }
    ensures valid { IfOk result IsCommand }
    ensures memory { IfErr result (IsFaultOf (words_of_add_lines name.now) words.old) }
{
    match name {
        "account-add" => account_add(alloc, words),
        "group-add" => group_add(alloc, words),
        "category-add" => category_add(alloc, words),
        "payee-add" => payee_add(alloc, words),
        "tx-add" => tx_add(alloc, words),
        _ => month_line(alloc, name, words),
    }
}
