//! The write of a value into any field.
ghost use Rattle.std.specs.Prelude.{◌≡◌, ◌≢◌, [], OnOk, IfOk, IfErr, Ok, Err, None, Some};
ghost use Rattle.field_values.specs.Names.{field_of, name_of, names_fault};
ghost use Rattle.book_rows.specs.declared.fault.EditFault.TheVariants.{BadId as BadName, NoMemory as OutOfMemory};
ghost use Rattle.book_edits.specs.Faults.{IsEditFault};
ghost use Rattle.book_edits.specs.Edits.{bad_id, set_writes};

use crate::writing::one;
use book_rows::{EditFault, Write};
use field_values::{NameFault, NamePart, NoMemory, Txt, Value, check_name};
use std::alloc::Global;

/// The one of three names that stands in this part of a field.
fn name_of<'a>(part: NamePart, dataset: &'a Txt, row: &'a Txt, column: &'a Txt) -> &'a Txt
    ensures { result.now ≡ name_of part (field_of dataset.now row.now column.now) }
{
    match part {
        NamePart::Dataset => dataset,
        NamePart::Row => row,
        NamePart::Column => column,
    }
}

/// Why an edit is refused where its names have this fault. An empty name is told without memory.
fn bad_id(alloc: Global, fault: NameFault, dataset: &Txt, row: &Txt, column: &Txt) -> EditFault
    ensures told { (result ≡ OutOfMemory → ⊥) → result ≡ bad_id (field_of dataset.now row.now column.now) fault }
    ensures memory { result ≡ OutOfMemory → bad_id (field_of dataset.now row.now column.now) fault ≢ BadName [] }
{
    let part = match fault {
        NameFault::Empty { part }
        | NameFault::TooLong { part, .. }
        | NameFault::BadByte { part, .. } => part,
        NameFault::NoMemory => return EditFault::NoMemory,
    };
    let name = name_of(part, dataset, row, column);
    if name.as_str().is_empty() {
        let id = Txt::new(String::new(alloc));
        return EditFault::BadId { id };
    }
    match name.copy() {
        Ok(id) => EditFault::BadId { id },
        Err(NoMemory) => EditFault::NoMemory,
    }
}

/// Tests the names in their order. It takes no memory.
fn check_names(dataset: &Txt, row: &Txt, column: &Txt) -> Result<(), NameFault>
    ensures good { OnOk result (names_fault (field_of dataset.now row.now column.now) ≡ None) }
    ensures bad { IfErr result (λ fault. names_fault (field_of dataset.now row.now column.now) ≡ Some fault) }
{
    check_name(NamePart::Dataset, dataset.bytes())?;
    check_name(NamePart::Row, row.bytes())?;
    check_name(NamePart::Column, column.bytes())
}

/// The one write of a value into the field with these names. That the first bad name is the empty
/// one is told without memory.
pub(crate) fn set_writes(
    alloc: Global,
    dataset: &Txt,
    row: &Txt,
    column: &Txt,
    value: &Value,
) -> Result<Vec<Write>, EditFault>
    ensures ok { IfOk result (λ ws. set_writes (field_of dataset.now row.now column.now) value.now ≡ Ok ws.items) }
    ensures err { IfErr result (IsEditFault (set_writes (field_of dataset.now row.now column.now) value.now)) }
    ensures memory { result ≡ Err OutOfMemory → set_writes (field_of dataset.now row.now column.now) value.now ≢ Err (BadName []) }
{
    if let Err(fault) = check_names(dataset, row, column) {
        return Err(bad_id(alloc, fault, dataset, row, column));
    }
    let value = value.copy()?;
    let writes = one(alloc, dataset.as_str(), row, column.as_str(), value)?;
    Ok(writes)
}
