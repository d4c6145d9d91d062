//! The writes of edits, one by one.
ghost use Rattle.std.specs.Prelude.{◌≡◌, ◌++◌, OnOk, IfOk};
ghost use Rattle.field_values.specs.declared.value.Value.TheVariants.{Text as IsText};
ghost use Rattle.rule_engine.specs.Edits.{stage_value, op_text, same_text, changed_text, changed_flag, changed};

use crate::holding::same_flag;
use crate::rule::{RuleOp, Stage};
use book_edits::writing::{flag, push, text_or_null};
use book_rows::{RowName, TxRow, Write};
use field_values::{NoMemory, Txt, Value};
use std::alloc::Global;
use std::cmp::Ordering;

/// A stage as a value.
pub(crate) fn stage_value(alloc: Global, stage: Stage) -> Result<Value, NoMemory>
    ensures { IfOk result (λ v. v ≡ stage_value stage) }
{
    match stage {
        Stage::Pre => Ok(Value::Text(Txt::from_text(alloc, "pre")?)),
        Stage::Plain => Ok(Value::Null),
        Stage::Post => Ok(Value::Text(Txt::from_text(alloc, "post")?)),
    }
}

/// How many conditions have to hold, as a value.
pub(crate) fn op_value(alloc: Global, op: RuleOp) -> Result<Value, NoMemory>
    ensures { IfOk result (λ v. v ≡ IsText (op_text op)) }
{
    match op {
        RuleOp::And => Ok(Value::Text(Txt::from_text(alloc, "and")?)),
        RuleOp::Or => Ok(Value::Text(Txt::from_text(alloc, "or")?)),
    }
}

/// Whether two texts that may be absent are the same.
#[tactic(auto, unfolding(crate::specs::Edits::same_text))]
fn same_text(a: &Option<Txt>, b: &Option<Txt>) -> bool
    ensures { result ≡ same_text a.now b.now }
{
    match (a, b) {
        (None, None) => true,
        (Some(a), Some(b)) => a.cmp(b) == Ordering::Equal,
        _ => false,
    }
}

/// Puts the write of a text of a transaction behind others, where it has changed.
fn push_text(
    alloc: Global,
    writes: &mut Vec<Write>,
    id: &Txt,
    column: &str,
    old: &Option<Txt>,
    new: &Option<Txt>,
) -> Result<(), NoMemory>
    ensures { OnOk result (writes.new.items ≡ writes.old.items ++ changed_text id.now column.now old.now new.now) }
{
    if same_text(old, new) {
        return Ok(());
    }
    let row = RowName::Given(id.copy()?);
    push(
        alloc,
        writes,
        "transactions",
        &row,
        column,
        text_or_null(new)?,
    )
}

/// Puts the write of a flag of a transaction behind others, where it has changed.
fn push_flag(
    alloc: Global,
    writes: &mut Vec<Write>,
    id: &Txt,
    column: &str,
    old: bool,
    new: bool,
) -> Result<(), NoMemory>
    ensures { OnOk result (writes.new.items ≡ writes.old.items ++ changed_flag id.now column.now old new) }
{
    if same_flag(old, new) {
        return Ok(());
    }
    let row = RowName::Given(id.copy()?);
    push(alloc, writes, "transactions", &row, column, flag(new))
}

/// Puts the writes of the columns that actions set behind others, where they have changed.
pub(crate) fn push_changed(
    alloc: Global,
    writes: &mut Vec<Write>,
    id: &Txt,
    old: &TxRow,
    new: &TxRow,
) -> Result<(), NoMemory>
    ensures { OnOk result (writes.new.items ≡ writes.old.items ++ changed id.now old.now new.now) }
{
    push_text(
        alloc,
        writes,
        id,
        "description",
        &old.description,
        &new.description,
    )?;
    push_text(alloc, writes, id, "category", &old.category, &new.category)?;
    push_text(alloc, writes, id, "notes", &old.notes, &new.notes)?;
    push_text(alloc, writes, id, "schedule", &old.schedule, &new.schedule)?;
    push_flag(alloc, writes, id, "cleared", old.cleared, new.cleared)
}
