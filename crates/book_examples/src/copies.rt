//! Kinds of columns, and copies of writes, of refusals, of what stood in a field, and of sheets.
use book_rows::{EditFault, Kind, RowName, Write, WriteValue, kind_of};
use edit_history::Before;
use envelope_cells::name::Sheet;
use envelope_cells::{Cell, CellKind, CellName};
use field_values::{Field, Items, Txt, Value};
use std::alloc::Global;
use std::test::Fail;

/// Datasets, columns, and how they are read.
const KINDS: [(&str, &str, Option<Kind>); 13] = [
    ("accounts", "offbudget", Some(Kind::Flag)),
    ("transactions", "isParent", Some(Kind::Flag)),
    ("transactions", "amount", Some(Kind::Int)),
    ("zero_budgets", "month", Some(Kind::Int)),
    ("transactions", "date", Some(Kind::Day)),
    ("schedules", "next_date", Some(Kind::Day)),
    ("notes", "note", Some(Kind::Text)),
    ("transactions", "description", Some(Kind::Text)),
    ("notes", "tombstone", None),
    ("zero_budget_months", "month", None),
    ("transactions", "is_parent", None),
    ("accounts", "Name", None),
    ("prefs", "name", None),
];

#[test]
fn kinds_of_columns(rt: HostRuntime) {
    for (dataset, column, kind) in KINDS {
        assert_eq!(rt; kind_of(dataset, column), kind, "of {column}");
    }
}

/// The write of a value into the name of a payee.
fn naming(alloc: Global, row: RowName, value: WriteValue) -> Result<Write, Fail> {
    Ok(Write {
        dataset: Txt::from_text(alloc, "payees")?,
        row,
        column: Txt::from_text(alloc, "name")?,
        value,
    })
}

/// A copy of the write of a value into the row of an id.
fn copy_of_given(alloc: Global, id: &str, value: &str) -> Result<Write, Fail> {
    let row = RowName::Given(Txt::from_text(alloc, id)?);
    let value = WriteValue::Plain(Value::read(alloc, value)?);
    Ok(naming(alloc, row, value)?.copy()?)
}

/// A copy of the write of a new row's id into another new row.
fn copy_of_made(alloc: Global) -> Result<Write, Fail> {
    Ok(naming(alloc, RowName::Made(1), WriteValue::IdOf(2))?.copy()?)
}

#[test]
fn writes_are_copied(rt: HostRuntime) -> Result<(), Fail> {
    let given = copy_of_given(rt.alloc(), "bank", "S:Bank")?;
    assert_eq!(rt; given.column.as_str(), "name");
    assert!(rt; matches!(&given.row, RowName::Given(id) if id.as_str() == "bank"));
    assert!(rt;
        matches!(&given.value, WriteValue::Plain(Value::Text(text)) if text.as_str() == "Bank")
    );
    let made = copy_of_made(rt.alloc())?;
    assert_eq!(rt; made.dataset.as_str(), "payees");
    assert_eq!(rt; made.row, RowName::Made(1));
    assert_eq!(rt; made.value, WriteValue::IdOf(2));
    Ok(())
}

/// A copy of the refusal of a name that a row has already.
fn copy_of_taken(alloc: Global, id: &str) -> Result<EditFault, Fail> {
    let id = Txt::from_text(alloc, id)?;
    Ok(EditFault::NameTaken { id }.copy()?)
}

#[test]
fn faults_are_copied(rt: HostRuntime) -> Result<(), Fail> {
    let taken = copy_of_taken(rt.alloc(), "food")?;
    assert!(rt; matches!(&taken, EditFault::NameTaken { id } if id.as_str() == "food"));
    Ok(())
}

/// A copy of what stood in a field of a row that was there.
fn copy_of_before(alloc: Global, value: &str) -> Result<Before, Fail> {
    let before = Before {
        field: Field::make(alloc, "payees", "shop", "name")?,
        value: Some(Value::read(alloc, value)?),
        was_there: true,
    };
    Ok(before.copy()?)
}

#[test]
fn entries_are_copied(rt: HostRuntime) -> Result<(), Fail> {
    let before = copy_of_before(rt.alloc(), "S:Shop")?;
    assert_eq!(rt;
        before.field,
        Field::make(rt.alloc(), "payees", "shop", "name")?
    );
    assert!(rt; matches!(&before.value, Some(Value::Text(text)) if text.as_str() == "Shop"));
    assert!(rt; before.was_there);
    Ok(())
}

/// The cell that tells what food is given in January.
fn given(alloc: Global, value: i128) -> Result<Cell, Fail> {
    let name = CellName::make(202_401, CellKind::Budget, &Txt::from_text(alloc, "food")?)?;
    Ok(Cell { name, value })
}

/// A copy of the sheet that has a copy of that cell.
fn copy_of_sheet(alloc: Global, value: i128) -> Result<Sheet, Fail> {
    let cell = given(alloc, value)?;
    let mut cells = Vec::new(alloc);
    cells.push(cell.copy()?)?;
    let sheet = Sheet {
        cells: Items::new(cells),
    };
    Ok(sheet.copy(alloc)?)
}

#[test]
fn sheets_are_copied(rt: HostRuntime) -> Result<(), Fail> {
    let sheet = copy_of_sheet(rt.alloc(), 30_000)?;
    assert_eq!(rt; sheet.cells.len(), 1);
    let name = CellName::make(
        202_401,
        CellKind::Budget,
        &Txt::from_text(rt.alloc(), "food")?,
    )?;
    assert_eq!(rt; sheet.cell(&name), Some(30_000));
    Ok(())
}
