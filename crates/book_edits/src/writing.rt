//! The writes of edits, one by one.
ghost use Rattle.std.specs.Prelude.{◌≡◌, ◌++◌, ◌∷◌, [], length, pos, OnOk, IfOk};
ghost use Rattle.field_values.specs.declared.value.Value.TheVariants.{Number, Text as IsText};
ghost use Rattle.book_rows.specs.declared.write.RowName.TheVariants.{Given};
ghost use Rattle.book_edits.specs.Writing.{write, flag, text_or_null, notes_value, id_value};

pub use book_rows::copied;
use book_rows::{RowName, Write, WriteValue};
use field_values::{NoMemory, Txt, Value};
use std::alloc::Global;

/// A flag as a number.
pub fn flag(set: bool) -> Value
    ensures { result ≡ flag set }
{
    Value::Number(if set { 1 } else { 0 })
}

/// A month or a day as a value.
pub fn number(n: u32) -> Value
    ensures { result ≡ Number (pos n) }
{
    Value::Number(i64::from(n))
}

/// A text as a value.
pub fn text(text: &Txt) -> Result<Value, NoMemory>
    ensures { IfOk result (λ v. v ≡ IsText text.now) }
{
    Ok(Value::Text(text.copy()?))
}

/// A text as a value, or null where there is none.
pub fn text_or_null(text: &Option<Txt>) -> Result<Value, NoMemory>
    ensures { IfOk result (λ v. v ≡ text_or_null text.now) }
{
    match text {
        Some(text) => Ok(Value::Text(text.copy()?)),
        None => Ok(Value::Null),
    }
}

/// Notes as a value, or null where they are empty.
pub fn notes_value(notes: &Txt) -> Result<Value, NoMemory>
    ensures { IfOk result (λ v. v ≡ notes_value notes.now) }
{
    if notes.bytes().is_empty() {
        return Ok(Value::Null);
    }
    Ok(Value::Text(notes.copy()?))
}

/// The id of a row, as a value.
pub(crate) fn id_value(row: &RowName) -> Result<WriteValue, NoMemory>
    ensures { IfOk result (λ v. v ≡ id_value row.now) }
{
    match row {
        RowName::Given(id) => Ok(WriteValue::Plain(Value::Text(id.copy()?))),
        RowName::Made(at) => Ok(WriteValue::IdOf(*at)),
    }
}

/// The place behind some writes. There is no memory for 4,294,967,296 of them.
pub fn place_behind(writes: &Vec<Write>) -> Result<u32, NoMemory>
    ensures { IfOk result (λ at. at ≡ length writes.now.items) }
{
    match u32::try_from(writes.len()) {
        Ok(at) => Ok(at),
        Err(_) => Err(NoMemory),
    }
}

/// The write of a value into a row.
pub(crate) fn write_of(
    alloc: Global,
    dataset: &str,
    row: RowName,
    column: &str,
    value: Value,
) -> Result<Write, NoMemory>
    ensures { IfOk result (λ w. w ≡ write dataset.now row column.now value) }
{
    Ok(Write {
        dataset: Txt::from_text(alloc, dataset)?,
        row,
        column: Txt::from_text(alloc, column)?,
        value: WriteValue::Plain(value),
    })
}

/// Puts the write of a value behind others.
pub fn push(
    alloc: Global,
    writes: &mut Vec<Write>,
    dataset: &str,
    row: &RowName,
    column: &str,
    value: Value,
) -> Result<(), NoMemory>
    ensures { OnOk result (writes.new.items ≡ writes.old.items ++ write dataset.now row.now column.now value ∷ []) }
{
    let write = write_of(alloc, dataset, row.copy()?, column, value)?;
    writes.push(write)?;
    Ok(())
}

/// The one write of a value into a row of this id, in a list with room for no more.
pub fn one(
    alloc: Global,
    dataset: &str,
    id: &Txt,
    column: &str,
    value: Value,
) -> Result<Vec<Write>, NoMemory>
    ensures { IfOk result (λ ws. ws.items ≡ write dataset.now (Given id.now) column.now value ∷ []) }
{
    let row = RowName::Given(id.copy()?);
    let write = write_of(alloc, dataset, row, column, value)?;
    let mut writes = Vec::with_capacity(alloc, 1)?;
    writes.push(write)?;
    Ok(writes)
}
