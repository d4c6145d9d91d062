//! The writes of edits, one by one.
ghost use Rattle.std.specs.Prelude.{◌≡◌, ◌<◌, ◌++◌, ◌∷◌, [], pos, codes, OnOk, IfOk};
ghost use Rattle.field_values.specs.declared.value.Value.TheVariants.{Number, Text as IsText};
ghost use Rattle.book_rows.specs.declared.write.WriteValue.TheVariants.{IdOf};
ghost use Rattle.schedules.specs.Months.{date_of};

use crate::month::date_of;
use book_rows::{RowName, Write, WriteValue};
use field_values::{NoMemory, Txt, Value};
use std::alloc::Global;

/// The date of a day, as a value.
pub(crate) fn date(day: u32) -> Value
    requires { day < 84_006 }
    ensures { result ≡ Number (pos (date_of day)) }
{
    Value::Number(i64::from(date_of(day)))
}

/// A word as a value.
pub(crate) fn word(alloc: Global, word: &str) -> Result<Value, NoMemory>
    ensures { IfOk result (λ v. v ≡ IsText word.now) }
{
    Ok(Value::Text(Txt::from_text(alloc, word)?))
}

/// Puts the write of the id of a new rule into a schedule behind others.
pub(crate) fn push_rule(
    alloc: Global,
    writes: &mut Vec<Write>,
    row: &RowName,
    at: u32,
) -> Result<(), NoMemory>
    ensures { OnOk result (writes.new.items ≡ writes.old.items ++ record { dataset = codes "schedules"; row = row.now; column = codes "rule"; value = IdOf at } ∷ []) }
{
    let write = Write {
        dataset: Txt::from_text(alloc, "schedules")?,
        row: row.copy()?,
        column: Txt::from_text(alloc, "rule")?,
        value: WriteValue::IdOf(at),
    };
    writes.push(write)?;
    Ok(())
}
