//! The writes that undo an entry.
ghost use Rattle.std.specs.Prelude.{◌≡◌, true, ◌++◌, ◌∷◌, [], ◌≤◌, ◌<◌, length, if◌then◌else◌, IfOk, OnOk};
ghost use Rattle.std.specs.BTreeSet as set;
ghost use Rattle.field_values.specs.Names.{FieldNames, names_eq, names_cmp};
ghost use Rattle.book_rows.specs.Writes.{AreWrites};
ghost use Rattle.book_rows.specs.Rows.{has_tombstone};
ghost use Rattle.edit_history.specs.Undo.{tombstone_of, blank_of, undo_none, undo_of, undo_writes, write_of};
ghost use Rattle.edit_history.specs.History.{IsEntry};

use crate::before::Before;
use book_rows::{Kind, RowName, Write, WriteValue, kind_of};
use field_values::{Field, NameFault, NoMemory, Txt, Value};
use std::alloc::Global;
use std::collections::BTreeSet;

/// What stands for no value in a column.
fn blank_of(kind: Option<Kind>) -> Value
    ensures { result ≡ blank_of kind }
{
    match kind {
        Some(Kind::Flag) | Some(Kind::Int) => Value::Number(0),
        _ => Value::Null,
    }
}

/// The field that says whether the row of a field is deleted.
fn tombstone_of(alloc: Global, field: &Field) -> Result<Field, NoMemory>
    ensures { IfOk result (λ f. f ≡ tombstone_of field.now) }
{
    match Field::make(alloc, field.dataset(), field.row(), "tombstone") {
        Ok(field) => Ok(field),
        Err(_) => Err(NoMemory),
    }
}

/// Whether the rows of a field's dataset can be deleted.
fn has_tombstone(field: &Field) -> bool
    ensures { result ≡ has_tombstone field.now.dataset }
{
    kind_of(field.dataset(), "tombstone").is_some()
}

/// What undoes a field that had no value: a field, and its value.
fn undo_none(alloc: Global, field: &Field, was_there: bool) -> Result<(Field, Value), NoMemory>
    ensures { IfOk result (λ u. u ≡ undo_none field.now was_there) }
{
    if !was_there && has_tombstone(field) {
        return Ok((tombstone_of(alloc, field)?, Value::Number(1)));
    }
    Ok((
        field.copy()?,
        blank_of(kind_of(field.dataset(), field.column())),
    ))
}

/// What undoes one field of an entry: a field, and its value.
fn undo_of(alloc: Global, before: &Before) -> Result<(Field, Value), NoMemory>
    ensures { IfOk result (λ u. u ≡ undo_of before.now) }
{
    match &before.value {
        Some(value) => Ok((before.field.copy()?, value.copy()?)),
        None => undo_none(alloc, &before.field, before.was_there),
    }
}

/// The write of a value into a field.
fn write_of(alloc: Global, field: &Field, value: Value) -> Result<Write, NoMemory>
    ensures { IfOk result (λ w. w ≡ write_of (field.now, value)) }
{
    Ok(Write {
        dataset: Txt::from_text(alloc, field.dataset())?,
        row: RowName::Given(Txt::from_text(alloc, field.row())?),
        column: Txt::from_text(alloc, field.column())?,
        value: WriteValue::Plain(value),
    })
}

/// Adds the write of a value into a field, unless the field was written.
fn push_write(
    alloc: Global,
    field: Field,
    value: Value,
    seen: &mut BTreeSet<Field>,
    found: &mut Vec<Write>,
) -> Result<(), NoMemory>
    ensures seen { OnOk result ((f : FieldNames) → set.contains names_cmp seen.new f ≡ (if names_eq field f then true else set.contains names_cmp seen.old f)) }
    ensures found { OnOk result (found.new.items ≡ found.old.items ++ (if set.contains names_cmp seen.old field then [] else write_of (field, value) ∷ [])) }
{
    if seen.insert(field.copy()?)? {
        found.push(write_of(alloc, &field, value)?)?;
    }
    Ok(())
}

/// The writes that undo an entry, taken from the entry alone: no field is written twice.
pub fn undo_writes(alloc: Global, entry: &[Before]) -> Result<Vec<Write>, NoMemory>
    requires { IsEntry entry.now }
    ensures writes { IfOk result (λ ws. ws.items ≡ undo_writes entry.now) }
    ensures valid { IfOk result (λ ws. AreWrites ws.items) }
    ensures some { IfOk result (λ ws. 0 < length ws.items) }
    ensures few { IfOk result (λ ws. length ws.items ≤ 65_536) }
{
    let mut seen = BTreeSet::new(alloc);
    let mut found = Vec::new(alloc);
    for before in entry {
        let (field, value) = undo_of(alloc, before)?;
        push_write(alloc, field, value, &mut seen, &mut found)?;
    }
    Ok(found)
}
