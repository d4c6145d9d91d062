//! The writes of an edit.
ghost use Rattle.std.specs.Prelude.{◌≡◌, ◌++◌, OnOk, IfOk, IfErr, Ok, Some, flat_map};
ghost use Rattle.book_rows.specs.declared.fault.RulePart.TheVariants.{Conditions, Actions};
ghost use Rattle.book_rows.specs.declared.fault.EditFault.TheVariants.{NoSuchTransaction};
ghost use Rattle.book_rows.specs.Live.{is_live_rule, is_alive};
ghost use Rattle.book_rows.specs.Writes.{AreWrites};
ghost use Rattle.book_edits.specs.Faults.{IsEditFault, must, each};
ghost use Rattle.rule_engine.specs.Reading.{read_part, condition_of, action_of};
ghost use Rattle.book_edits.specs.Checks.{distinct};
ghost use Rattle.rule_engine.specs.Edits.{readable, rule_row_writes, rule_add, rule_delete, changes, rules_run, rule_writes};

use crate::edit::RuleEdit;
use crate::given::new_rule;
use crate::reading::{actions_in, conditions_in};
use crate::rule::{Rule, RuleOp, Stage};
use crate::running::{rules_of, run_rules};
use crate::writing::{op_value, push_changed, stage_value};
use book_edits::writing::{flag, push, text};
use book_rows::{Book, EditFault, RowName, RulePart, Write};
use field_values::{NoMemory, Txt};
use split_transfer::live_row;
use std::alloc::Global;
use std::collections::BTreeSet;

/// Conditions that can be read.
fn readable_conditions(alloc: Global, text: &Txt) -> Result<(), EditFault>
    ensures ok { OnOk result (readable (read_part Conditions condition_of (Some text.now)) ≡ Ok tt) }
    ensures err { IfErr result (IsEditFault (readable (read_part Conditions condition_of (Some text.now)))) }
{
    conditions_in(alloc, text.as_str())?;
    Ok(())
}

/// Actions that can be read.
fn readable_actions(alloc: Global, text: &Txt) -> Result<(), EditFault>
    ensures ok { OnOk result (readable (read_part Actions action_of (Some text.now)) ≡ Ok tt) }
    ensures err { IfErr result (IsEditFault (readable (read_part Actions action_of (Some text.now)))) }
{
    actions_in(alloc, text.as_str())?;
    Ok(())
}

/// The writes of a new rule.
fn rule_row_writes(
    alloc: Global,
    row: &RowName,
    stage: Stage,
    op: RuleOp,
    conditions: &Txt,
    actions: &Txt,
) -> Result<Vec<Write>, NoMemory>
    ensures { IfOk result (λ ws. ws.items ≡ rule_row_writes row.now stage op conditions.now actions.now) }
{
    let mut writes = Vec::new(alloc);
    push(
        alloc,
        &mut writes,
        "rules",
        row,
        "stage",
        stage_value(alloc, stage)?,
    )?;
    push(
        alloc,
        &mut writes,
        "rules",
        row,
        "conditions_op",
        op_value(alloc, op)?,
    )?;
    push(
        alloc,
        &mut writes,
        "rules",
        row,
        "conditions",
        text(conditions)?,
    )?;
    push(alloc, &mut writes, "rules", row, "actions", text(actions)?)?;
    Ok(writes)
}

/// Adds a rule.
fn rule_add(
    alloc: Global,
    book: &Book,
    id: &Option<Txt>,
    stage: Stage,
    op: RuleOp,
    conditions: &Txt,
    actions: &Txt,
) -> Result<Vec<Write>, EditFault>
    ensures ok { IfOk result (λ ws. rule_add book.now.rows id.now stage op conditions.now actions.now ≡ Ok ws.items) }
    ensures err { IfErr result (IsEditFault (rule_add book.now.rows id.now stage op conditions.now actions.now)) }
{
    let row = new_rule(book, id)?;
    readable_conditions(alloc, conditions)?;
    readable_actions(alloc, actions)?;
    Ok(rule_row_writes(alloc, &row, stage, op, conditions, actions)?)
}

/// Whether a live rule has this id.
fn is_live_rule(book: &Book, id: &Txt) -> bool
    ensures { result ≡ is_live_rule book.now.rows id.now }
{
    match book.rule(id) {
        Some(row) => !row.tombstone,
        None => false,
    }
}

/// Deletes a rule.
fn rule_delete(alloc: Global, book: &Book, id: &Txt) -> Result<Vec<Write>, EditFault>
    ensures ok { IfOk result (λ ws. rule_delete book.now.rows id.now ≡ Ok ws.items) }
    ensures err { IfErr result (IsEditFault (rule_delete book.now.rows id.now)) }
{
    if !is_live_rule(book, id) {
        return Err(EditFault::BadRule {
            part: RulePart::Id,
            at: 0,
        });
    }
    let mut writes = Vec::new(alloc);
    let row = RowName::Given(id.copy()?);
    push(alloc, &mut writes, "rules", &row, "tombstone", flag(true))?;
    Ok(writes)
}

/// A transaction that is live.
fn alive(book: &Book, id: &Txt) -> Result<(), EditFault>
    ensures ok { OnOk result (must (is_alive book.now.rows id.now) (NoSuchTransaction id.now) ≡ Ok tt) }
    ensures err { IfErr result (IsEditFault (must (is_alive book.now.rows id.now) (NoSuchTransaction id.now))) }
{
    if book.alive(id) {
        return Ok(());
    }
    Err(EditFault::NoSuchTransaction { id: id.copy()? })
}

/// Transactions that are live, each of them.
fn all_alive(book: &Book, ids: &[Txt]) -> Result<(), EditFault>
    ensures ok { OnOk result (each (λ id. must (is_alive book.now.rows id) (NoSuchTransaction id)) ids.now ≡ Ok tt) }
    ensures err { IfErr result (IsEditFault (each (λ id. must (is_alive book.now.rows id) (NoSuchTransaction id)) ids.now)) }
{
    for id in ids {
        alive(book, id)?;
    }
    Ok(())
}

/// Puts the writes of what rules change of the live transaction of an id behind others.
fn push_changes(
    alloc: Global,
    writes: &mut Vec<Write>,
    book: &Book,
    rules: &[Rule],
    id: &Txt,
) -> Result<(), NoMemory>
    ensures { OnOk result (writes.new.items ≡ writes.old.items ++ changes book.now.rows rules.now id.now) }
{
    match live_row(book, id) {
        Some(row) => {
            let new = run_rules(alloc, book, rules, row.copy()?)?;
            push_changed(alloc, writes, id, row, &new)
        }
        None => Ok(()),
    }
}

/// The writes of what rules change of transactions, each of them once.
fn all_changes(
    alloc: Global,
    book: &Book,
    rules: &[Rule],
    ids: &[Txt],
) -> Result<Vec<Write>, NoMemory>
    ensures { IfOk result (λ ws. ws.items ≡ flat_map (changes book.now.rows rules.now) (distinct ids.now)) }
{
    let mut writes = Vec::new(alloc);
    let mut seen = BTreeSet::new(alloc);
    for id in ids {
        if seen.insert(id.copy()?)? {
            push_changes(alloc, &mut writes, book, rules, id)?;
        }
    }
    Ok(writes)
}

/// Runs the rules of the book on transactions.
fn rules_run(alloc: Global, book: &Book, ids: &[Txt]) -> Result<Vec<Write>, EditFault>
    ensures ok { IfOk result (λ ws. rules_run book.now.rows ids.now ≡ Ok ws.items) }
    ensures err { IfErr result (IsEditFault (rules_run book.now.rows ids.now)) }
{
    all_alive(book, ids)?;
    let rules = rules_of(alloc, book)?;
    Ok(all_changes(alloc, book, rules.as_slice(), ids)?)
}

/// The writes of an edit, or why it is refused.
fn make(alloc: Global, book: &Book, edit: &RuleEdit) -> Result<Vec<Write>, EditFault>
    ensures ok { IfOk result (λ ws. rule_writes book.now.rows edit.now ≡ Ok ws.items) }
    ensures err { IfErr result (IsEditFault (rule_writes book.now.rows edit.now)) }
{
    match edit {
        RuleEdit::RuleAdd {
            id,
            stage,
            op,
            conditions,
            actions,
        } => rule_add(alloc, book, id, *stage, *op, conditions, actions),
        RuleEdit::RuleDelete { id } => rule_delete(alloc, book, id),
        RuleEdit::RulesRun { ids } => rules_run(alloc, book, ids.as_slice()),
    }
}

/// The writes of an edit, in the order in which they are made. Rules are read once, and run on each transaction over the book as it
/// stands, so what they make of one changes nothing for another.
///
/// # Errors
///
/// The first of the edit's checks that fails, in the order of docs/FORMATS.md. Memory can run out before.
pub fn rule_writes(alloc: Global, book: &Book, edit: &RuleEdit) -> Result<Vec<Write>, EditFault>
    ensures ok { IfOk result (λ ws. rule_writes book.now.rows edit.now ≡ Ok ws.items) }
    ensures valid { IfOk result (λ ws. AreWrites ws.items) }
    ensures err { IfErr result (IsEditFault (rule_writes book.now.rows edit.now)) }
{
    book.names();
    make(alloc, book, edit)
}
