//! The writes that an edit makes.
ghost use Rattle.std.specs.Prelude.{◌≡◌, IfOk};

use field_values::{Copied, NoMemory, Txt, Value};

/// The row that a write is for.
#[derive(Debug, PartialEq, Eq, Drop)]
pub enum RowName {
    /// The row of this id.
    Given(Txt),
    /// A new row, whose id is the text of the timestamp of the write with this place among the writes of the edit, from 0 on.
    Made(u32),
}

impl RowName {
    /// An equal name.
    pub fn copy(&self) -> Result<RowName, NoMemory>
        ensures { IfOk result (λ n. n ≡ self.now) }
    {
        match self {
            RowName::Given(id) => Ok(RowName::Given(id.copy()?)),
            RowName::Made(at) => Ok(RowName::Made(*at)),
        }
    }
}

/// The value that a write gives.
#[derive(Debug, PartialEq, Eq, Drop)]
pub enum WriteValue {
    /// This value.
    Plain(Value),
    /// The id of a new row: the text of the timestamp of the write with this place among the writes of the edit, from 0 on.
    IdOf(u32),
}

impl WriteValue {
    /// An equal value.
    pub fn copy(&self) -> Result<WriteValue, NoMemory>
        ensures { IfOk result (λ v. v ≡ self.now) }
    {
        match self {
            WriteValue::Plain(value) => Ok(WriteValue::Plain(value.copy()?)),
            WriteValue::IdOf(at) => Ok(WriteValue::IdOf(*at)),
        }
    }
}

/// The write of one value into one field.
#[derive(Debug, PartialEq, Eq, Drop)]
pub struct Write {
    /// The dataset of the field.
    pub dataset: Txt,
    /// The row of the field.
    pub row: RowName,
    /// The column of the field.
    pub column: Txt,
    /// The value that the field gets.
    pub value: WriteValue,
}

impl Write {
    /// An equal write.
    pub fn copy(&self) -> Result<Write, NoMemory>
        ensures { IfOk result (λ w. w ≡ self.now) }
    {
        Ok(Write {
            dataset: self.dataset.copy()?,
            row: self.row.copy()?,
            column: self.column.copy()?,
            value: self.value.copy()?,
        })
    }
}

impl Copied for Write {
    fn copied(&self) -> Result<Write, NoMemory> {
        self.copy()
    }
}
