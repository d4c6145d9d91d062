//! Lists of writes that grow.
ghost use Rattle.std.specs.Prelude.{◌≡◌, ◌++◌, ◌∷◌, [], codes, IfOk, OnOk, option_to_list};
ghost use Rattle.std.specs.Option.{option_copied};
ghost use Rattle.field_values.specs.declared.value.Value.TheVariants.{Number};
ghost use Rattle.book_rows.specs.declared.write.RowName.TheVariants.{Given, Made};
ghost use Rattle.book_rows.specs.declared.write.WriteValue.TheVariants.{IdOf};
ghost use Rattle.split_transfer.specs.Writing.{tx_write, on_each};

use book_rows::{RowName, Write, WriteValue};
use field_values::{NoMemory, Txt, Value};
use std::alloc::Global;

/// A write into a transaction.
fn tx_write(alloc: Global, row: RowName, column: &str, value: WriteValue) -> Result<Write, NoMemory>
    ensures { IfOk result (λ w. w ≡ record { dataset = codes "transactions"; row = row; column = column.now; value = value }) }
{
    Ok(Write {
        dataset: Txt::from_text(alloc, "transactions")?,
        row,
        column: Txt::from_text(alloc, column)?,
        value,
    })
}

/// Puts the write of a value into the transaction of an id behind others.
pub(crate) fn push(
    alloc: Global,
    writes: &mut Vec<Write>,
    id: &Txt,
    column: &str,
    value: Value,
) -> Result<(), NoMemory>
    ensures { OnOk result (writes.new.items ≡ writes.old.items ++ tx_write (Given id.now) column.now value ∷ []) }
{
    let row = RowName::Given(id.copy()?);
    writes.push(tx_write(alloc, row, column, WriteValue::Plain(value))?)?;
    Ok(())
}

/// Puts the write of a value into a new transaction behind others.
pub(crate) fn push_made(
    alloc: Global,
    writes: &mut Vec<Write>,
    at: u32,
    column: &str,
    value: Value,
) -> Result<(), NoMemory>
    ensures { OnOk result (writes.new.items ≡ writes.old.items ++ tx_write (Made at) column.now value ∷ []) }
{
    let row = RowName::Made(at);
    writes.push(tx_write(alloc, row, column, WriteValue::Plain(value))?)?;
    Ok(())
}

/// Puts the account, the day and the amount of a new transaction behind others.
pub(crate) fn push_entry(
    alloc: Global,
    writes: &mut Vec<Write>,
    at: u32,
    account: Value,
    date: Value,
    amount: i64,
) -> Result<(), NoMemory>
    ensures { OnOk result (writes.new.items ≡ writes.old.items ++ tx_write (Made at) (codes "acct") account ∷ tx_write (Made at) (codes "date") date ∷ tx_write (Made at) (codes "amount") (Number amount) ∷ []) }
{
    push_made(alloc, writes, at, "acct", account)?;
    push_made(alloc, writes, at, "date", date)?;
    push_made(alloc, writes, at, "amount", Value::Number(amount))
}

/// Puts the write of the id of a new transaction into another new one behind others.
pub(crate) fn push_id(
    alloc: Global,
    writes: &mut Vec<Write>,
    at: u32,
    column: &str,
    other: u32,
) -> Result<(), NoMemory>
    ensures { OnOk result (writes.new.items ≡ writes.old.items ++ record { dataset = codes "transactions"; row = Made at; column = column.now; value = IdOf other } ∷ []) }
{
    let row = RowName::Made(at);
    writes.push(tx_write(alloc, row, column, WriteValue::IdOf(other))?)?;
    Ok(())
}

/// Puts the write of one value into each of these transactions behind others.
pub(crate) fn push_each(
    alloc: Global,
    writes: &mut Vec<Write>,
    ids: &[Txt],
    column: &str,
    value: &Value,
) -> Result<(), NoMemory>
    ensures { OnOk result (writes.new.items ≡ writes.old.items ++ on_each column.now value.now ids.now) }
{
    for id in ids {
        push(alloc, writes, id, column, value.copy()?)?;
    }
    Ok(())
}

/// Puts the write of a value into a transaction that may be there behind others.
pub(crate) fn push_maybe(
    alloc: Global,
    writes: &mut Vec<Write>,
    id: Option<&Txt>,
    column: &str,
    value: Value,
) -> Result<(), NoMemory>
    ensures { OnOk result (writes.new.items ≡ writes.old.items ++ on_each column.now value (option_to_list (option_copied id.entry))) }
{
    match id {
        Some(id) => push(alloc, writes, id, column, value),
        None => Ok(()),
    }
}

/// The write of a value into one transaction.
pub(crate) fn one(
    alloc: Global,
    id: &Txt,
    column: &str,
    value: Value,
) -> Result<Vec<Write>, NoMemory>
    ensures { IfOk result (λ ws. ws.items ≡ on_each column.now value (id.now ∷ [])) }
{
    let mut writes = Vec::new(alloc);
    push(alloc, &mut writes, id, column, value)?;
    Ok(writes)
}
