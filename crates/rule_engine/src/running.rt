//! Rules run one after the other.
ghost use Rattle.std.specs.Prelude.{◌≡◌, ◌↔◌, IfOk, IsTrue};
ghost use Rattle.std.specs.List.{list_all, list_any, fold};
ghost use Rattle.book_rows.specs.declared.fault.EditFault.TheVariants.{NoMemory as IsNoMemory};
ghost use Rattle.book_rows.specs.declared.rows.TxRow.{TxRow};
ghost use Rattle.rule_engine.specs.declared.rule.Action.{Action};
ghost use Rattle.rule_engine.specs.Conditions.{holds_in};
ghost use Rattle.rule_engine.specs.Running.{fires, acted, applied, run, read_live, rules_of};

use crate::acting::act;
use crate::holding::holds;
use crate::order::rank;
use crate::reading::read_rule;
use crate::rule::{Action, Condition, Rule, RuleOp};
use book_rows::{Book, EditFault, RuleRow, TxRow};
use field_values::{NoMemory, Txt};
use std::alloc::Global;

/// Whether one of the conditions holds.
fn one_holds(
    alloc: Global,
    book: &Book,
    conditions: &[Condition],
    row: &TxRow,
) -> Result<bool, NoMemory>
    ensures { IfOk result (λ b. b ≡ list_any (holds_in book.now.rows row.now) conditions.now) }
{
    for condition in conditions {
        if holds(alloc, book, condition, row)? {
            return Ok(true);
        }
    }
    Ok(false)
}

/// Whether all conditions hold.
fn all_hold(
    alloc: Global,
    book: &Book,
    conditions: &[Condition],
    row: &TxRow,
) -> Result<bool, NoMemory>
    ensures { IfOk result (λ b. b ≡ list_all (holds_in book.now.rows row.now) conditions.now) }
{
    for condition in conditions {
        if !holds(alloc, book, condition, row)? {
            return Ok(false);
        }
    }
    Ok(true)
}

/// Whether the conditions of a rule hold, all of them or one, as it says. Where there is none, they
/// don't.
#[tactic(auto, unfolding(crate::specs::Running::fires))]
fn fires(alloc: Global, book: &Book, rule: &Rule, row: &TxRow) -> Result<bool, NoMemory>
    ensures { IfOk result (λ b. b ≡ fires book.now.rows rule.now row.now) }
{
    let conditions = rule.conditions.as_slice();
    if conditions.is_empty() {
        return Ok(false);
    }
    match rule.op {
        RuleOp::And => all_hold(alloc, book, conditions, row),
        RuleOp::Or => one_holds(alloc, book, conditions, row),
    }
}

/// What actions make of a transaction, one after the other.
fn act_all(alloc: Global, book: &Book, actions: &[Action], row: TxRow) -> Result<TxRow, NoMemory>
    ensures { IfOk result (λ x. x ≡ fold (acted book.now.rows) row actions.now) }
{
    let mut now = row;
    for action in actions {
        now = act(alloc, book, action, now)?;
    }
    Ok(now)
}

/// What rules make of a transaction, which need not be in the book: each has what the rules before it made. They run as they stand;
/// [`rules_of`] and [`rank`] give the order in which they should.
#[tactic(auto, unfolding(crate::specs::Running::run, crate::specs::Running::applied))]
pub fn run_rules(alloc: Global, book: &Book, rules: &[Rule], row: TxRow) -> Result<TxRow, NoMemory>
    ensures { IfOk result (λ x. x ≡ run book.now.rows rules.now row) }
{
    let mut now = row;
    for rule in rules {
        // The transaction, which is large, is moved only where the rule fires.
        if fires(alloc, book, rule, &now)? {
            now = act_all(alloc, book, rule.actions.as_slice(), now)?;
        }
    }
    Ok(now)
}

/// Whether memory ran out.
fn is_no_memory(fault: &EditFault) -> bool
    ensures { IsTrue result ↔ (fault.now ≡ IsNoMemory) }
{
    match fault {
        EditFault::NoMemory => true,
        _ => false,
    }
}

/// The rule of a row, where it was not deleted and can be read.
fn read_live(alloc: Global, id: &Txt, row: &RuleRow) -> Result<Option<Rule>, NoMemory>
    ensures { IfOk result (λ o. o ≡ read_live (id.now, row.now)) }
{
    if row.tombstone {
        return Ok(None);
    }
    match read_rule(alloc, id, row) {
        Ok(rule) => Ok(Some(rule)),
        Err(fault) => {
            if is_no_memory(&fault) {
                Err(NoMemory)
            } else {
                Ok(None)
            }
        }
    }
}

/// The rules of a book in the order in which they run: those that were not deleted and can be read.
#[tactic(auto, unfolding(crate::specs::Running::rules_of))]
pub fn rules_of(alloc: Global, book: &Book) -> Result<Vec<Rule>, NoMemory>
    ensures { IfOk result (λ v. v.items ≡ rules_of book.now.rows) }
{
    let mut rules = Vec::new(alloc);
    for (id, row) in book.rules() {
        if let Some(rule) = read_live(alloc, id, row)? {
            rules.push(rule)?;
        }
    }
    rank(rules)
}
