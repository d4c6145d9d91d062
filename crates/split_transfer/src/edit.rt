//! Edits of transactions that hang together.
ghost use Rattle.std.specs.Prelude.{◌≡◌, IfOk};

use book_rows::copied;
use field_values::{Copied, Items, NoMemory, Txt};
use std::alloc::Global;

/// A change of one column of a transaction. Amounts are in cents, a date is YYYYMMDD.
#[derive(Debug, Drop)]
pub enum TxChange {
    /// Its day, with that of its parts and of the other part of its transfer.
    Date(u32),
    /// Its amount. The other part of a transfer gets the opposite.
    Amount(i64),
    /// Its account, with that of its parts.
    Account(Txt),
    /// Its payee, or none.
    Payee(Option<Txt>),
    /// Its category, or none.
    Category(Option<Txt>),
    /// What is noted of it. Empty notes are none.
    Notes(Txt),
    /// Whether the bank has it.
    Cleared(bool),
    /// Its schedule, or none.
    Schedule(Option<Txt>),
}

impl TxChange {
    /// An equal change.
    pub fn copy(&self) -> Result<TxChange, NoMemory>
        ensures { IfOk result (λ change. change ≡ self.now) }
    {
        match self {
            TxChange::Date(date) => Ok(TxChange::Date(*date)),
            TxChange::Amount(amount) => Ok(TxChange::Amount(*amount)),
            TxChange::Account(account) => Ok(TxChange::Account(account.copy()?)),
            TxChange::Payee(payee) => Ok(TxChange::Payee(copied(payee)?)),
            TxChange::Category(category) => Ok(TxChange::Category(copied(category)?)),
            TxChange::Notes(notes) => Ok(TxChange::Notes(notes.copy()?)),
            TxChange::Cleared(cleared) => Ok(TxChange::Cleared(*cleared)),
            TxChange::Schedule(schedule) => Ok(TxChange::Schedule(copied(schedule)?)),
        }
    }
}

/// A part of a split.
#[derive(Debug, Drop)]
pub struct SplitPart {
    /// In cents.
    pub amount: i64,
    /// The id of its category, if it has one.
    pub category: Option<Txt>,
}

impl SplitPart {
    /// An equal part.
    pub fn copy(&self) -> Result<SplitPart, NoMemory>
        ensures { IfOk result (λ part. part ≡ self.now) }
    {
        Ok(SplitPart {
            amount: self.amount,
            category: copied(&self.category)?,
        })
    }
}

impl Copied for SplitPart {
    fn copied(&self) -> Result<SplitPart, NoMemory> {
        self.copy()
    }
}

/// An edit of a transaction and of those that hang together with it.
#[derive(Debug, Drop)]
pub enum PairEdit {
    /// Changes one column of a transaction.
    TxSet {
        id: Txt,
        change: TxChange,
    },
    /// Deletes a transaction, and with it the other part of its transfer.
    TxDelete {
        id: Txt,
    },
    /// Splits a transaction, which may be split already, into new parts.
    Split {
        id: Txt,
        parts: Items<SplitPart>,
    },
    /// Moves an amount from one account to another: a transaction in each, and each names the other one.
    Transfer {
        from: Txt,
        to: Txt,
        date: u32,
        amount: i64,
        notes: Txt,
    },
}

impl PairEdit {
    /// An equal edit.
    pub fn copy(&self, alloc: Global) -> Result<PairEdit, NoMemory>
        ensures { IfOk result (λ edit. edit ≡ self.now) }
    {
        match self {
            PairEdit::TxSet { id, change } => Ok(PairEdit::TxSet {
                id: id.copy()?,
                change: change.copy()?,
            }),
            PairEdit::TxDelete { id } => Ok(PairEdit::TxDelete { id: id.copy()? }),
            PairEdit::Split { id, parts } => Ok(PairEdit::Split {
                id: id.copy()?,
                parts: parts.copy(alloc)?,
            }),
            PairEdit::Transfer {
                from,
                to,
                date,
                amount,
                notes,
            } => Ok(PairEdit::Transfer {
                from: from.copy()?,
                to: to.copy()?,
                date: *date,
                amount: *amount,
                notes: notes.copy()?,
            }),
        }
    }
}
