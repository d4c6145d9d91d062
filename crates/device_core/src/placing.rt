//! The messages of writes, and the ids of the rows that they make.
ghost use Rattle.std.specs.Prelude.{◌≡◌, ◌+◌, ◌-◌, ◌<◌, ◌≤◌, ◌++◌, ◌∷◌, [], length, if◌then◌else◌, IfOk, OnOk};
ghost use Rattle.field_values.specs.Names.{field_of, AreNames};
ghost use Rattle.hybrid_clock.specs.Stamp.{IsStamp};
ghost use Rattle.book_rows.specs.Writes.{IsWrite, IsWriteValue, AreWrites};
ghost use Rattle.device_core.specs.Placing.{stamp_at, id_at, row_of, value_of, message_at, stamped, makes_row, made_ids};

use book_rows::{RowName, Write, WriteValue};
use field_merge::Message;
use field_values::{Field, Items, NameFault, NoMemory, Txt, Value};
use hybrid_clock::Stamp;
use kept_messages::stamp_text;
use std::alloc::Global;

/// The timestamp of the write at a place, where the first write has this one.
fn stamp_at(first: &Stamp, at: usize) -> Stamp
    requires { first.now.counter + at ≤ 65_535 }
    ensures { result ≡ stamp_at first.now at }
{
    let counter = first.counter as usize + at;
    Stamp {
        millis: first.millis,
        counter: counter as u16,
        node: first.node,
    }
}

/// The id of the row that the write at a place makes.
fn id_at(alloc: Global, first: &Stamp, at: usize) -> Result<Txt, NoMemory>
    requires stamp { IsStamp first.now }
    requires room { first.now.counter + at ≤ 65_535 }
    ensures { IfOk result (λ id. id ≡ id_at first.now at) }
{
    stamp_text(alloc, &stamp_at(first, at))
}

/// The value of a write.
fn value_of(alloc: Global, first: &Stamp, value: &WriteValue) -> Result<Value, NoMemory>
    requires stamp { IsStamp first.now }
    requires valid { IsWriteValue (65_536 - first.now.counter) value.now }
    ensures { IfOk result (λ v. v ≡ value_of first.now value.now) }
{
    match value {
        WriteValue::Plain(value) => value.copy(),
        WriteValue::IdOf(at) => Ok(Value::Text(id_at(alloc, first, *at as usize)?)),
    }
}

/// The field of three names.
fn field_of(alloc: Global, dataset: &Txt, row: &Txt, column: &Txt) -> Result<Field, NoMemory>
    requires { AreNames (field_of dataset.now row.now column.now) }
    ensures { IfOk result (λ f. f ≡ field_of dataset.now row.now column.now) }
{
    match Field::make(alloc, dataset.as_str(), row.as_str(), column.as_str()) {
        Ok(field) => Ok(field),
        Err(fault) => match fault {
            NameFault::NoMemory => Err(NoMemory),
            // They are names.
            _ => unreachable!(),
        },
    }
}

/// The field of a write.
fn field_at(alloc: Global, first: &Stamp, write: &Write) -> Result<Field, NoMemory>
    requires stamp { IsStamp first.now }
    requires valid { IsWrite (65_536 - first.now.counter) write.now }
    ensures { IfOk result (λ f. f ≡ field_of write.now.dataset (row_of first.now write.now.row) write.now.column) }
{
    match &write.row {
        RowName::Given(id) => field_of(alloc, &write.dataset, id, &write.column),
        RowName::Made(at) => {
            let id = id_at(alloc, first, *at as usize)?;
            field_of(alloc, &write.dataset, &id, &write.column)
        }
    }
}

/// The message of the write at a place.
fn message_at(alloc: Global, first: &Stamp, at: usize, write: &Write) -> Result<Message, NoMemory>
    requires stamp { IsStamp first.now }
    requires room { first.now.counter + at ≤ 65_535 }
    requires valid { IsWrite (65_536 - first.now.counter) write.now }
    ensures { IfOk result (λ m. m ≡ message_at first.now at write.now) }
{
    Ok(Message {
        stamp: stamp_at(first, at),
        field: field_at(alloc, first, write)?,
        value: value_of(alloc, first, &write.value)?,
    })
}

/// The messages of writes, under timestamps in a row.
fn stamp_writes(alloc: Global, first: &Stamp, writes: &[Write]) -> Result<Vec<Message>, NoMemory>
    requires stamp { IsStamp first.now }
    requires room { first.now.counter + length writes.now ≤ 65_536 }
    requires valid { AreWrites writes.now }
    ensures { IfOk result (λ ms. ms.items ≡ stamped first.now writes.now) }
{
    let mut messages = Vec::with_capacity(alloc, writes.len())?;
    for (at, write) in writes.iter().enumerate() {
        messages.push(message_at(alloc, first, at, write)?)?;
    }
    Ok(messages)
}

/// Whether the write at a place makes its row.
fn makes_row(at: usize, row: &RowName) -> bool
    ensures { result ≡ makes_row at row.now }
{
    match row {
        RowName::Given(_) => false,
        RowName::Made(made) => *made as usize == at,
    }
}

/// Adds the id of the row of a write, where the write makes it.
fn push_made(
    alloc: Global,
    first: &Stamp,
    at: usize,
    row: &RowName,
    ids: &mut Vec<Txt>,
) -> Result<(), NoMemory>
    requires stamp { IsStamp first.now }
    requires room { first.now.counter + at ≤ 65_535 }
    ensures { OnOk result (ids.new.items ≡ ids.old.items ++ (if makes_row at row.now then id_at first.now at ∷ [] else [])) }
{
    if makes_row(at, row) {
        ids.push(id_at(alloc, first, at)?)?;
    }
    Ok(())
}

/// The ids that writes make, in the order of the first writes of their rows.
fn made_ids(alloc: Global, first: &Stamp, writes: &[Write]) -> Result<Items<Txt>, NoMemory>
    requires stamp { IsStamp first.now }
    requires room { first.now.counter + length writes.now ≤ 65_536 }
    ensures { IfOk result (λ ids. ids ≡ made_ids first.now writes.now) }
{
    let mut ids = Vec::new(alloc);
    for (at, write) in writes.iter().enumerate() {
        push_made(alloc, first, at, &write.row, &mut ids)?;
    }
    Ok(Items::new(ids))
}

/// The messages of writes, under timestamps in a row, and the ids of the rows that they make.
pub(crate) fn place_writes(
    alloc: Global,
    first: &Stamp,
    writes: &[Write],
) -> Result<(Vec<Message>, Items<Txt>), NoMemory>
    requires stamp { IsStamp first.now }
    requires room { first.now.counter + length writes.now ≤ 65_536 }
    requires valid { AreWrites writes.now }
    ensures messages { IfOk result (λ placed. placed.0.items ≡ stamped first.now writes.now) }
    ensures made { IfOk result (λ placed. placed.1 ≡ made_ids first.now writes.now) }
{
    let messages = stamp_writes(alloc, first, writes)?;
    let made = made_ids(alloc, first, writes)?;
    Ok((messages, made))
}
