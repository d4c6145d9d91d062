//! Why an edit is refused.
ghost use Rattle.std.specs.Prelude.{◌≡◌, IfOk, OnErr};
ghost use Rattle.book_rows.specs.declared.fault.EditFault.TheVariants.{NoMemory as OutOfMemory};
ghost use Rattle.book_rows.specs.Faults.{TellsId};

use field_values::{NoMemory, Txt};
use std::alloc::AllocFailed;

/// Which part of a rule is told of.
#[derive(Clone, Copy, Debug, PartialEq, Eq)]
pub enum RulePart {
    /// Its id.
    Id,
    /// Its conditions.
    Conditions,
    /// Its actions.
    Actions,
}

/// Which part of a recurrence is told of: a key of its object, or more than that.
#[derive(Clone, Copy, Debug, PartialEq, Eq)]
pub enum RecurPart {
    /// The whole, which is no object.
    Object,
    /// `start`.
    Start,
    /// `frequency`.
    Frequency,
    /// `interval`.
    Interval,
    /// `patterns`.
    Patterns,
    /// `skipWeekend`.
    SkipWeekend,
    /// `weekendSolveMode`.
    WeekendSolveMode,
    /// `endMode`; also where a new recurrence has no occurrence.
    EndMode,
    /// `endOccurrences`.
    EndOccurrences,
    /// `endDate`.
    EndDate,
    /// The schedule's rule, which isn't live, can't be read, or lacks an account or a date.
    Rule,
}

/// Why an edit makes no writes. Amounts are in cents, days are YYYYMMDD and months YYYYMM. An index, a row or a column counts from
/// 0; one above 4,294,967,295 is given as that number.
#[derive(Debug, PartialEq, Eq, Drop)]
pub enum EditFault {
    /// This is no name of a field, or no id that a caller may choose.
    BadId { id: Txt },
    /// The row of this id is there already.
    IdTaken { id: Txt },
    /// There is no live account of this id.
    NoSuchAccount { id: Txt },
    /// There is no live group of this id.
    NoSuchGroup { id: Txt },
    /// There is no live category of this id.
    NoSuchCategory { id: Txt },
    /// There is no live payee of this id.
    NoSuchPayee { id: Txt },
    /// There is no live transaction of this id.
    NoSuchTransaction { id: Txt },
    /// This is no day from 19700101 to 21991231.
    BadDate { n: u32 },
    /// No value holds this amount, or it is to be held back in a month and is negative.
    BadAmount { n: i128 },
    /// This is no month from 197001 to 219912.
    BadMonth { n: u32 },
    /// The parts of a split don't add up to its amount: this is missing.
    SplitSum { difference: i128 },
    /// This transaction is a part of a split, or is split itself.
    IsChild { id: Txt },
    /// This transaction is a part of a transfer.
    IsTransferPart { id: Txt },
    /// One id stands where two are wanted.
    SameAccount { id: Txt },
    /// The account to be closed has this balance.
    ClosedAccount { balance: i128 },
    /// This category takes income.
    IncomeCategory { id: Txt },
    /// A live group, or a live category of the group, has the name already. Of such rows this is the least id.
    NameTaken { id: Txt },
    /// The edit makes this many writes, more than 65,536.
    TooManyWrites { n: u64 },
    /// A rule can't be read, or no live one has the id: `at` is the index of the first bad entry of the part, or 0 for the whole of
    /// it.
    BadRule { part: RulePart, at: u32 },
    /// There is no live schedule of this id.
    NoSuchSchedule { id: Txt },
    /// A recurrence can't be read or used: this is the first part of it that is bad.
    BadRecur { part: RecurPart },
    /// The schedule of this id has ended, or has no next day.
    ScheduleDone { id: Txt },
    /// A statement can't be read: the first bad place.
    BadStatement { row: u32, column: u32 },
    /// There is nothing to undo.
    NothingToUndo,
    /// There is nothing to redo.
    NothingToRedo,
    /// One of two categories takes income and the other, this one, doesn't, or the other way round.
    CategoryType { id: Txt },
    /// This payee stands for an account in transfers.
    TransferPayee { id: Txt },
    /// Memory ran out.
    NoMemory,
}

impl From<NoMemory> for EditFault {
    ghost from_gives = { λ _ fault. fault ≡ OutOfMemory };

    fn from(_error: NoMemory) -> EditFault {
        EditFault::NoMemory
    }
}

impl<T: Drop> From<AllocFailed<T>> for EditFault {
    ghost from_gives = { λ _ fault. fault ≡ OutOfMemory };

    fn from(_error: AllocFailed<T>) -> EditFault {
        EditFault::NoMemory
    }
}

impl EditFault {
    /// An equal fault.
    pub fn copy(&self) -> Result<EditFault, NoMemory>
        ensures copy { IfOk result (λ f. f ≡ self.now) }
        ensures memory { OnErr result (TellsId self.now) }
    {
        match self {
            EditFault::BadId { id } => Ok(EditFault::BadId { id: id.copy()? }),
            EditFault::IdTaken { id } => Ok(EditFault::IdTaken { id: id.copy()? }),
            EditFault::NoSuchAccount { id } => Ok(EditFault::NoSuchAccount { id: id.copy()? }),
            EditFault::NoSuchGroup { id } => Ok(EditFault::NoSuchGroup { id: id.copy()? }),
            EditFault::NoSuchCategory { id } => Ok(EditFault::NoSuchCategory { id: id.copy()? }),
            EditFault::NoSuchPayee { id } => Ok(EditFault::NoSuchPayee { id: id.copy()? }),
            EditFault::NoSuchTransaction { id } => Ok(EditFault::NoSuchTransaction {
                id: id.copy()?,
            }),
            EditFault::BadDate { n } => Ok(EditFault::BadDate { n: *n }),
            EditFault::BadAmount { n } => Ok(EditFault::BadAmount { n: *n }),
            EditFault::BadMonth { n } => Ok(EditFault::BadMonth { n: *n }),
            EditFault::SplitSum { difference } => Ok(EditFault::SplitSum {
                difference: *difference,
            }),
            EditFault::IsChild { id } => Ok(EditFault::IsChild { id: id.copy()? }),
            EditFault::IsTransferPart { id } => Ok(EditFault::IsTransferPart { id: id.copy()? }),
            EditFault::SameAccount { id } => Ok(EditFault::SameAccount { id: id.copy()? }),
            EditFault::ClosedAccount { balance } => Ok(EditFault::ClosedAccount {
                balance: *balance,
            }),
            EditFault::IncomeCategory { id } => Ok(EditFault::IncomeCategory { id: id.copy()? }),
            EditFault::NameTaken { id } => Ok(EditFault::NameTaken { id: id.copy()? }),
            EditFault::TooManyWrites { n } => Ok(EditFault::TooManyWrites { n: *n }),
            EditFault::BadRule { part, at } => Ok(EditFault::BadRule {
                part: *part,
                at: *at,
            }),
            EditFault::NoSuchSchedule { id } => Ok(EditFault::NoSuchSchedule { id: id.copy()? }),
            EditFault::BadRecur { part } => Ok(EditFault::BadRecur { part: *part }),
            EditFault::ScheduleDone { id } => Ok(EditFault::ScheduleDone { id: id.copy()? }),
            EditFault::BadStatement { row, column } => Ok(EditFault::BadStatement {
                row: *row,
                column: *column,
            }),
            EditFault::NothingToUndo => Ok(EditFault::NothingToUndo),
            EditFault::NothingToRedo => Ok(EditFault::NothingToRedo),
            EditFault::CategoryType { id } => Ok(EditFault::CategoryType { id: id.copy()? }),
            EditFault::TransferPayee { id } => Ok(EditFault::TransferPayee { id: id.copy()? }),
            EditFault::NoMemory => Ok(EditFault::NoMemory),
        }
    }
}
