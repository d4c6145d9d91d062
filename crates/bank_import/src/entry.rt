//! What a statement says.
ghost use Rattle.std.specs.Prelude.{◌≡◌, IfOk};

use book_rows::copied;
use field_values::{NoMemory, Txt};

/// A record of a statement.
#[derive(Debug, PartialEq, Eq, Drop)]
pub struct Entry {
    /// Its day, YYYYMMDD from 19700101 to 21991231.
    pub date: u32,
    /// In cents, negative where money goes out.
    pub amount: i64,
    /// Whom the bank names. An empty text is none.
    pub payee: Option<Txt>,
    /// What is noted of it. An empty text is none.
    pub notes: Option<Txt>,
    /// Its id, by which it is known when it comes again. An empty text is none.
    pub id: Option<Txt>,
}

impl Entry {
    /// An equal entry.
    pub fn copy(&self) -> Result<Entry, NoMemory>
        ensures { IfOk result (λ e. e ≡ self.now) }
    {
        Ok(Entry {
            date: self.date,
            amount: self.amount,
            payee: copied(&self.payee)?,
            notes: copied(&self.notes)?,
            id: copied(&self.id)?,
        })
    }
}

/// In which columns the fields of a record stand.
#[derive(Clone, Copy, Debug, PartialEq, Eq)]
pub(crate) struct Columns {
    pub date: usize,
    pub amount: usize,
    pub payee: Option<usize>,
    pub notes: Option<usize>,
    pub id: Option<usize>,
}
