//! The lines that edit a transaction and those that hang together with it.
ghost use Rattle.std.specs.Prelude.{◌≡◌, ◌≢◌, ◌<◌, [], List, ℕ, ℤ, length, map, IfOk, IfErr, OnOk, Ok, Option as Choice};
ghost use Rattle.command_lines.specs.declared.command.Command.{Command};
ghost use Rattle.split_transfer.specs.declared.edit.TxChange.TheVariants.{Date, Amount, Account, Payee, Category, Notes, Cleared, Schedule};
ghost use Rattle.command_lines.specs.Commands.{tx_set_words, change_words, change, tx_delete_words, split_words, transfer_words, share_of, words_of_pair_lines, IsRead, IsCommand, IsCommandFault};
ghost use Rattle.command_lines.specs.Forms.{Wanted, Share, some_shares, word, date_word, amount_word, flag_word, id_word};
ghost use Rattle.command_lines.specs.Unread.{command_of_unread, HasText, IsFaultOf};

use crate::command::{Command, CommandFault};
use crate::rule_lines::rule_line;
use crate::words::Words;
use device_core::{Edit, PairEdit, SplitPart, TxChange};
use field_values::Items;
use std::alloc::Global;

/// The word behind `date`: a date.
fn date_change(alloc: Global, words: &mut Words<'_>) -> Result<TxChange, CommandFault>
    ensures ok { IfOk result (λ c. (id : List ℕ) → command_of_unread (date_word (λ v. change (Date v) id)) words.old ≡ command_of_unread (change c id) words.new) }
    ensures err { IfErr result (λ fault. (id : List ℕ) → IsCommandFault (command_of_unread (date_word (λ v. change (Date v) id)) words.old) fault) }
{
    match words.date(alloc) {
        Ok(read) => Ok(TxChange::Date(read)),
        Err(fault) => Err(fault),
    }
}

/// The word behind `amount`: an amount.
fn amount_change(alloc: Global, words: &mut Words<'_>) -> Result<TxChange, CommandFault>
    ensures ok { IfOk result (λ c. (id : List ℕ) → command_of_unread (amount_word (λ v. change (Amount v) id)) words.old ≡ command_of_unread (change c id) words.new) }
    ensures err { IfErr result (λ fault. (id : List ℕ) → IsCommandFault (command_of_unread (amount_word (λ v. change (Amount v) id)) words.old) fault) }
{
    match words.amount(alloc) {
        Ok(read) => Ok(TxChange::Amount(read)),
        Err(fault) => Err(fault),
    }
}

/// The word behind `account`: an account.
fn account_change(alloc: Global, words: &mut Words<'_>) -> Result<TxChange, CommandFault>
    ensures ok { IfOk result (λ c. (id : List ℕ) → command_of_unread (word (λ v. change (Account v) id)) words.old ≡ command_of_unread (change c id) words.new) }
    ensures err { IfErr result (λ fault. (id : List ℕ) → IsCommandFault (command_of_unread (word (λ v. change (Account v) id)) words.old) fault) }
{
    match words.text(alloc) {
        Ok(read) => Ok(TxChange::Account(read)),
        Err(fault) => Err(fault),
    }
}

/// The word behind `payee`: a payee, or a hyphen for none.
fn payee_change(alloc: Global, words: &mut Words<'_>) -> Result<TxChange, CommandFault>
    ensures ok { IfOk result (λ c. (id : List ℕ) → command_of_unread (id_word (λ v. change (Payee v) id)) words.old ≡ command_of_unread (change c id) words.new) }
    ensures err { IfErr result (λ fault. (id : List ℕ) → IsCommandFault (command_of_unread (id_word (λ v. change (Payee v) id)) words.old) fault) }
{
    match words.id_or_none(alloc) {
        Ok(read) => Ok(TxChange::Payee(read)),
        Err(fault) => Err(fault),
    }
}

/// The word behind `category`: a category, or a hyphen for none.
fn category_change(alloc: Global, words: &mut Words<'_>) -> Result<TxChange, CommandFault>
    ensures ok { IfOk result (λ c. (id : List ℕ) → command_of_unread (id_word (λ v. change (Category v) id)) words.old ≡ command_of_unread (change c id) words.new) }
    ensures err { IfErr result (λ fault. (id : List ℕ) → IsCommandFault (command_of_unread (id_word (λ v. change (Category v) id)) words.old) fault) }
{
    match words.id_or_none(alloc) {
        Ok(read) => Ok(TxChange::Category(read)),
        Err(fault) => Err(fault),
    }
}

/// The word behind `notes`: any text.
fn notes_change(alloc: Global, words: &mut Words<'_>) -> Result<TxChange, CommandFault>
    ensures ok { IfOk result (λ c. (id : List ℕ) → command_of_unread (word (λ v. change (Notes v) id)) words.old ≡ command_of_unread (change c id) words.new) }
    ensures err { IfErr result (λ fault. (id : List ℕ) → IsCommandFault (command_of_unread (word (λ v. change (Notes v) id)) words.old) fault) }
{
    match words.text(alloc) {
        Ok(read) => Ok(TxChange::Notes(read)),
        Err(fault) => Err(fault),
    }
}

/// The word behind `cleared`: a flag.
fn cleared_change(alloc: Global, words: &mut Words<'_>) -> Result<TxChange, CommandFault>
    ensures ok { IfOk result (λ c. (id : List ℕ) → command_of_unread (flag_word (λ v. change (Cleared v) id)) words.old ≡ command_of_unread (change c id) words.new) }
    ensures err { IfErr result (λ fault. (id : List ℕ) → IsCommandFault (command_of_unread (flag_word (λ v. change (Cleared v) id)) words.old) fault) }
{
    match words.flag(alloc) {
        Ok(read) => Ok(TxChange::Cleared(read)),
        Err(fault) => Err(fault),
    }
}

/// The word behind `schedule`: a schedule, or a hyphen for none.
fn schedule_change(alloc: Global, words: &mut Words<'_>) -> Result<TxChange, CommandFault>
    ensures ok { IfOk result (λ c. (id : List ℕ) → command_of_unread (id_word (λ v. change (Schedule v) id)) words.old ≡ command_of_unread (change c id) words.new) }
    ensures err { IfErr result (λ fault. (id : List ℕ) → IsCommandFault (command_of_unread (id_word (λ v. change (Schedule v) id)) words.old) fault) }
{
    match words.id_or_none(alloc) {
        Ok(read) => Ok(TxChange::Schedule(read)),
        Err(fault) => Err(fault),
    }
}

/// What a column of a transaction gets: the word behind the column's name, which is the word that was read last.
#[tactic(auto, unfolding(crate::specs::Commands::change_words))]
fn change_of(alloc: Global, column: &str, words: &mut Words<'_>) -> Result<TxChange, CommandFault>
    ensures ok { IfOk result (λ c. (id : List ℕ) → command_of_unread (change_words id column.now) words.old ≡ command_of_unread (change c id) words.new) }
    ensures err { IfErr result (λ fault. (id : List ℕ) → IsCommandFault (command_of_unread (change_words id column.now) words.old) fault) }
{
    match column {
        "date" => date_change(alloc, words),
        "amount" => amount_change(alloc, words),
        "account" => account_change(alloc, words),
        "payee" => payee_change(alloc, words),
        "category" => category_change(alloc, words),
        "notes" => notes_change(alloc, words),
        "cleared" => cleared_change(alloc, words),
        "schedule" => schedule_change(alloc, words),
        _ => Err(words.at_last()),
    }
}

/// The words behind `tx-set`: a transaction, one of its columns, and what it gets.
fn tx_set(alloc: Global, words: &mut Words<'_>) -> Result<Command, CommandFault>
    ensures read { IsRead (command_of_unread tx_set_words words.old) result }
    ensures valid { IfOk result IsCommand }
    ensures memory { IfErr result (IsFaultOf tx_set_words words.old) }
{
    let id = words.text(alloc)?;
    let column = words.text(alloc)?;
    let change = change_of(alloc, column.as_str(), words)?;
    words.end()?;
    Ok(Command::Edit(Edit::Pair(PairEdit::TxSet { id, change })))
}

/// The words behind `tx-delete`: a transaction.
fn tx_delete(alloc: Global, words: &mut Words<'_>) -> Result<Command, CommandFault>
    ensures read { IsRead (command_of_unread tx_delete_words words.old) result }
    ensures valid { IfOk result IsCommand }
    ensures memory { IfErr result (IsFaultOf tx_delete_words words.old) }
{
    let id = words.text(alloc)?;
    words.end()?;
    Ok(Command::Edit(Edit::Pair(PairEdit::TxDelete { id })))
}

/// The two words of a part of a split: an amount, and a category or a hyphen for none.
fn part(alloc: Global, words: &mut Words<'_>) -> Result<SplitPart, CommandFault>
    ensures ok { IfOk result (λ p. (next : ℤ → Choice (List ℕ) → Wanted) → command_of_unread (amount_word (λ n. id_word (next n))) words.old ≡ command_of_unread (next p.amount p.category) words.new) }
    ensures err { IfErr result (λ fault. (next : ℤ → Choice (List ℕ) → Wanted) → IsCommandFault (command_of_unread (amount_word (λ n. id_word (next n))) words.old) fault) }
    ensures there { OnOk result (HasText words.old.words) }
    ensures fewer { OnOk result (length words.new.words < length words.old.words) }
    ensures memory { IfErr result (λ fault. fault ≡ CommandFault.NoMemory → HasText words.old.words) }
{
    let amount = words.amount(alloc)?;
    let category = words.id_or_none(alloc)?;
    Ok(SplitPart { amount, category })
}

/// Adds the part that the next two words are. Behind other parts there are words.
fn push_part(
    alloc: Global,
    words: &mut Words<'_>,
    parts: &mut Vec<SplitPart>,
) -> Result<(), CommandFault>
    requires { parts.old.items ≢ [] → words.old.words ≢ [] }
    ensures ok { OnOk result ((made : List Share → Command) → command_of_unread (some_shares (map share_of parts.old.items) made) words.old ≡ command_of_unread (some_shares (map share_of parts.new.items) made) words.new) }
    ensures err { IfErr result (λ fault. (made : List Share → Command) → IsCommandFault (command_of_unread (some_shares (map share_of parts.old.items) made) words.old) fault) }
    ensures some { OnOk result (parts.new.items ≢ []) }
    ensures there { OnOk result (HasText words.old.words) }
    ensures fewer { OnOk result (length words.new.words < length words.old.words) }
    ensures memory { IfErr result (λ fault. fault ≡ CommandFault.NoMemory → HasText words.old.words) }
{
    let part = part(alloc, words)?;
    parts.push(part)?;
    Ok(())
}

/// The parts of a split, one or more, to the end of the line.
fn parts(alloc: Global, words: &mut Words<'_>) -> Result<Vec<SplitPart>, CommandFault>
    ensures ok { IfOk result (λ ps. (made : List Share → Command) → command_of_unread (some_shares [] made) words.old ≡ Ok (made (map share_of ps.items))) }
    ensures err { IfErr result (λ fault. (made : List Share → Command) → IsCommandFault (command_of_unread (some_shares [] made) words.old) fault) }
{
    let mut parts = Vec::new(alloc);
    push_part(alloc, words, &mut parts)?;
    'parts: while !words.is_done() {
        push_part(alloc, words, &mut parts)?;
    }
    Ok(parts)
}

/// The words behind `split`: a transaction and its parts.
fn split(alloc: Global, words: &mut Words<'_>) -> Result<Command, CommandFault>
    ensures read { IsRead (command_of_unread split_words words.old) result }
    ensures valid { IfOk result IsCommand }
    ensures memory { IfErr result (IsFaultOf split_words words.old) }
{
    let id = words.text(alloc)?;
    let parts = parts(alloc, words)?;
    Ok(Command::Edit(Edit::Pair(PairEdit::Split {
        id,
        parts: Items::new(parts),
    })))
}

/// The words behind `transfer`: two accounts, a day, an amount and what is noted.
fn transfer(alloc: Global, words: &mut Words<'_>) -> Result<Command, CommandFault>
    ensures read { IsRead (command_of_unread transfer_words words.old) result }
    ensures valid { IfOk result IsCommand }
    ensures memory { IfErr result (IsFaultOf transfer_words words.old) }
{
    let from = words.text(alloc)?;
    let to = words.text(alloc)?;
    let date = words.date(alloc)?;
    let amount = words.amount(alloc)?;
    let notes = words.text(alloc)?;
    words.end()?;
    Ok(Command::Edit(Edit::Pair(PairEdit::Transfer {
        from,
        to,
        date,
        amount,
        notes,
    })))
}

/// The words behind a name that may be one of the lines that edit a transaction and those that hang together with it.
#[tactic(auto, unfolding(crate::specs::Commands::words_of_pair_lines))]
pub(crate) fn pair_line(
    alloc: Global,
    name: &str,
    words: &mut Words<'_>,
) -> Result<Command, CommandFault>
    requires { words.old.last ≡ 0 }
    ensures read { IsRead (command_of_unread (words_of_pair_lines name.now) words.old) result }
    ensures valid { IfOk result IsCommand }
    ensures memory { IfErr result (IsFaultOf (words_of_pair_lines name.now) words.old) }
{
    match name {
        "tx-set" => tx_set(alloc, words),
        "tx-delete" => tx_delete(alloc, words),
        "split" => split(alloc, words),
        "transfer" => transfer(alloc, words),
        _ => rule_line(alloc, name, words),
    }
}
