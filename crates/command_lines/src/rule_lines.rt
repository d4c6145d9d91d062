//! The lines that edit rules, and transactions by rules.
ghost use Rattle.std.specs.Prelude.{◌≡◌, ◌≢◌, ◌<◌, [], List, ℕ, length, IfOk, IfErr, OnOk, Ok};
ghost use Rattle.command_lines.specs.declared.command.Command.{Command};
ghost use Rattle.command_lines.specs.Commands.{rule_add_words, rule_delete_words, rules_run_words, words_of_rule_lines, IsRead, IsCommand, IsCommandFault};
ghost use Rattle.command_lines.specs.Forms.{some_texts};
ghost use Rattle.command_lines.specs.Unread.{command_of_unread, HasText, IsFaultOf};

use crate::command::{Command, CommandFault};
use crate::schedule_lines::schedule_line;
use crate::words::Words;
use device_core::{Edit, RuleEdit};
use field_values::{Items, Txt};
use std::alloc::Global;

/// The words behind `rule-add`: an id or none, a stage, how many conditions have to hold, the conditions and the actions. Their texts
/// are judged by the edit.
fn rule_add(alloc: Global, words: &mut Words<'_>) -> Result<Command, CommandFault>
    ensures read { IsRead (command_of_unread rule_add_words words.old) result }
    ensures valid { IfOk result IsCommand }
    ensures memory { IfErr result (IsFaultOf rule_add_words words.old) }
{
    let id = words.id_or_none(alloc)?;
    let stage = words.stage(alloc)?;
    let op = words.op(alloc)?;
    let conditions = words.text(alloc)?;
    let actions = words.text(alloc)?;
    words.end()?;
    Ok(Command::Edit(Edit::Rule(RuleEdit::RuleAdd {
        id,
        stage,
        op,
        conditions,
        actions,
    })))
}

/// The words behind `rule-delete`: a rule.
fn rule_delete(alloc: Global, words: &mut Words<'_>) -> Result<Command, CommandFault>
    ensures read { IsRead (command_of_unread rule_delete_words words.old) result }
    ensures valid { IfOk result IsCommand }
    ensures memory { IfErr result (IsFaultOf rule_delete_words words.old) }
{
    let id = words.text(alloc)?;
    words.end()?;
    Ok(Command::Edit(Edit::Rule(RuleEdit::RuleDelete { id })))
}

/// Adds the id that the next word is. Behind other ids there is a word.
fn push_id(alloc: Global, words: &mut Words<'_>, ids: &mut Vec<Txt>) -> Result<(), CommandFault>
    requires { ids.old.items ≢ [] → words.old.words ≢ [] }
    ensures ok { OnOk result ((made : List (List ℕ) → Command) → command_of_unread (some_texts ids.old.items made) words.old ≡ command_of_unread (some_texts ids.new.items made) words.new) }
    ensures err { IfErr result (λ fault. (made : List (List ℕ) → Command) → IsCommandFault (command_of_unread (some_texts ids.old.items made) words.old) fault) }
    ensures some { OnOk result (ids.new.items ≢ []) }
    ensures there { OnOk result (HasText words.old.words) }
    ensures fewer { OnOk result (length words.new.words < length words.old.words) }
    ensures memory { IfErr result (λ fault. fault ≡ CommandFault.NoMemory → HasText words.old.words) }
{
    let id = words.text(alloc)?;
    ids.push(id)?;
    Ok(())
}

/// The ids of a line, one or more, to its end.
pub(crate) fn ids(alloc: Global, words: &mut Words<'_>) -> Result<Vec<Txt>, CommandFault>
    ensures ok { IfOk result (λ ids. (made : List (List ℕ) → Command) → command_of_unread (some_texts [] made) words.old ≡ Ok (made ids.items)) }
    ensures err { IfErr result (λ fault. (made : List (List ℕ) → Command) → IsCommandFault (command_of_unread (some_texts [] made) words.old) fault) }
    ensures memory { IfErr result (λ fault. fault ≡ CommandFault.NoMemory → HasText words.old.words) }
{
    let mut ids = Vec::new(alloc);
    push_id(alloc, words, &mut ids)?;
    'ids: while !words.is_done() {
        push_id(alloc, words, &mut ids)?;
    }
    Ok(ids)
}

/// The words behind `rules-run`: transactions, one or more.
fn rules_run(alloc: Global, words: &mut Words<'_>) -> Result<Command, CommandFault>
    ensures read { IsRead (command_of_unread rules_run_words words.old) result }
    ensures valid { IfOk result IsCommand }
    ensures memory { IfErr result (IsFaultOf rules_run_words words.old) }
{
    let ids = ids(alloc, words)?;
    Ok(Command::Edit(Edit::Rule(RuleEdit::RulesRun {
        ids: Items::new(ids),
    })))
}

/// The words behind a name that may be one of the lines that edit rules, and transactions by rules.
#[tactic(auto, unfolding(crate::specs::Commands::words_of_rule_lines))]
pub(crate) fn rule_line(
    alloc: Global,
    name: &str,
    words: &mut Words<'_>,
) -> Result<Command, CommandFault>
    requires { words.old.last ≡ 0 }
    ensures read { IsRead (command_of_unread (words_of_rule_lines name.now) words.old) result }
    ensures valid { IfOk result IsCommand }
    ensures memory { IfErr result (IsFaultOf (words_of_rule_lines name.now) words.old) }
{
    match name {
        "rule-add" => rule_add(alloc, words),
        "rule-delete" => rule_delete(alloc, words),
        "rules-run" => rules_run(alloc, words),
        _ => schedule_line(alloc, name, words),
    }
}
