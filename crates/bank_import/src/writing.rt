//! The writes of an import, one by one.
ghost use Rattle.std.specs.Prelude.{◌≡◌, ◌++◌, ◌∷◌, [], ◌+◌, length, codes, IfOk, OnOk};
ghost use Rattle.std.specs.Option.{option_copied};
ghost use Rattle.field_values.specs.declared.value.Value.TheVariants.{Text as IsText};
ghost use Rattle.book_rows.specs.declared.write.RowName.TheVariants.{Made};
ghost use Rattle.book_edits.specs.Writing.{write};
ghost use Rattle.split_transfer.specs.Writing.{tx_write};
ghost use Rattle.bank_import.specs.Edits.{value_write, text_write, missing, payee_value, missing_category, texts_writes, clearing, entry_writes, payee_writes};

use crate::drafts::Draft;
use crate::names::Names;
use book_edits::writing::{place_behind, text_or_null};
use book_rows::{RowName, TxRow, Write, WriteValue};
use field_values::{NoMemory, Txt, Value};
use split_transfer::day_or_null;
use std::alloc::Global;

/// Puts a write behind others.
fn push(
    alloc: Global,
    writes: &mut Vec<Write>,
    dataset: &str,
    row: &RowName,
    column: &str,
    value: WriteValue,
) -> Result<(), NoMemory>
    ensures { OnOk result (writes.new.items ≡ writes.old.items ++ record { dataset = dataset.now; row = row.now; column = column.now; value = value } ∷ []) }
{
    let write = Write {
        dataset: Txt::from_text(alloc, dataset)?,
        row: row.copy()?,
        column: Txt::from_text(alloc, column)?,
        value,
    };
    writes.push(write)?;
    Ok(())
}

/// Puts the write of a value into a transaction behind others.
fn push_tx(
    alloc: Global,
    writes: &mut Vec<Write>,
    row: &RowName,
    column: &str,
    value: Value,
) -> Result<(), NoMemory>
    ensures { OnOk result (writes.new.items ≡ writes.old.items ++ tx_write row.now column.now value ∷ []) }
{
    push(
        alloc,
        writes,
        "transactions",
        row,
        column,
        WriteValue::Plain(value),
    )
}

/// Puts the write of a value into a transaction behind others, if there is one.
pub(crate) fn push_value(
    alloc: Global,
    writes: &mut Vec<Write>,
    row: &RowName,
    column: &str,
    value: Option<WriteValue>,
) -> Result<(), NoMemory>
    ensures { OnOk result (writes.new.items ≡ writes.old.items ++ value_write row.now column.now value) }
{
    match value {
        Some(value) => push(alloc, writes, "transactions", row, column, value),
        None => Ok(()),
    }
}

/// Puts the write of a text into a transaction behind others, if there is one.
pub(crate) fn push_text(
    alloc: Global,
    writes: &mut Vec<Write>,
    row: &RowName,
    column: &str,
    text: Option<&Txt>,
) -> Result<(), NoMemory>
    ensures { OnOk result (writes.new.items ≡ writes.old.items ++ text_write row.now column.now (option_copied text.entry)) }
{
    match text {
        Some(text) => push_tx(alloc, writes, row, column, Value::Text(text.copy()?)),
        None => Ok(()),
    }
}

/// What is new, where there is nothing yet.
pub(crate) fn missing<'a>(own: &Option<Txt>, new: &'a Option<Txt>) -> Option<&'a Txt>
    ensures { option_copied result ≡ missing own.now new.now }
{
    if own.is_some() {
        return None;
    }
    new.as_ref()
}

/// The category that is new, where the transaction takes one and has none yet.
pub(crate) fn missing_category<'a>(
    none: bool,
    own: &Option<Txt>,
    new: &'a Option<Txt>,
) -> Option<&'a Txt>
    ensures { option_copied result ≡ missing_category none own.now new.now }
{
    if none {
        return None;
    }
    missing(own, new)
}

/// The payee that a record wants made, or else the one that it has.
pub(crate) fn payee_value(
    alloc: Global,
    names: &Names,
    draft: &Draft,
) -> Result<Option<WriteValue>, NoMemory>
    ensures { IfOk result (λ v. v ≡ payee_value names.now draft.now) }
{
    match &draft.wanted {
        Some(name) => match names.place(alloc, name)? {
            Some(at) => Ok(Some(WriteValue::IdOf(at))),
            None => Ok(None),
        },
        None => match &draft.row.description {
            Some(id) => Ok(Some(WriteValue::Plain(Value::Text(id.copy()?)))),
            None => Ok(None),
        },
    }
}

/// The payee of a record, where the transaction that it matches has none.
pub(crate) fn missing_payee(
    alloc: Global,
    names: &Names,
    own: &Option<Txt>,
    draft: &Draft,
) -> Result<Option<WriteValue>, NoMemory>
    ensures { IfOk result (λ v. v ≡ missing own.now (payee_value names.now draft.now)) }
{
    if own.is_some() {
        return Ok(None);
    }
    payee_value(alloc, names, draft)
}

/// Puts the writes of notes, of the payee as the statement has it, of its id there, and of a schedule behind others, as far as they
/// are there.
pub(crate) fn push_texts(
    alloc: Global,
    writes: &mut Vec<Write>,
    row: &RowName,
    notes: Option<&Txt>,
    imported: Option<&Txt>,
    id: Option<&Txt>,
    schedule: Option<&Txt>,
) -> Result<(), NoMemory>
    ensures { OnOk result (writes.new.items ≡ writes.old.items ++ texts_writes row.now (option_copied notes.entry) (option_copied imported.entry) (option_copied id.entry) (option_copied schedule.entry)) }
{
    push_text(alloc, writes, row, "notes", notes)?;
    push_text(alloc, writes, row, "imported_description", imported)?;
    push_text(alloc, writes, row, "financial_id", id)?;
    push_text(alloc, writes, row, "schedule", schedule)
}

/// Puts the write that the bank has a transaction behind others, unless it is known.
pub(crate) fn push_cleared(
    alloc: Global,
    writes: &mut Vec<Write>,
    row: &RowName,
    known: bool,
) -> Result<(), NoMemory>
    ensures { OnOk result (writes.new.items ≡ writes.old.items ++ clearing row.now known) }
{
    if known {
        return Ok(());
    }
    push_tx(alloc, writes, row, "cleared", Value::Number(1))
}

/// Puts the account, the day and the amount of a transaction behind others.
pub(crate) fn push_entry(
    alloc: Global,
    writes: &mut Vec<Write>,
    row: &RowName,
    new: &TxRow,
) -> Result<(), NoMemory>
    ensures { OnOk result (writes.new.items ≡ writes.old.items ++ entry_writes row.now new.now) }
{
    push_tx(alloc, writes, row, "acct", text_or_null(&new.acct)?)?;
    push_tx(alloc, writes, row, "date", day_or_null(new.date))?;
    push_tx(alloc, writes, row, "amount", Value::Number(new.amount))
}

/// Puts the write of a new payee behind others.
fn push_payee(alloc: Global, writes: &mut Vec<Write>, name: &Txt) -> Result<(), NoMemory>
    ensures { OnOk result (writes.new.items ≡ writes.old.items ++ write (codes "payees") (Made (length writes.old.items)) (codes "name") (IsText name.now) ∷ []) }
{
    let row = RowName::Made(place_behind(writes)?);
    let value = WriteValue::Plain(Value::Text(name.copy()?));
    push(alloc, writes, "payees", &row, "name", value)
}

/// The writes of new payees.
pub(crate) fn payee_writes(alloc: Global, names: &[Txt]) -> Result<Vec<Write>, NoMemory>
    ensures { IfOk result (λ ws. ws.items ≡ payee_writes 0 names.now) }
{
    let mut writes = Vec::new(alloc);
    for name in names {
        push_payee(alloc, &mut writes, name)?;
    }
    Ok(writes)
}
