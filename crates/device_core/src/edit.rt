//! Edits, and why a device refuses a line.
ghost use Rattle.std.specs.Prelude.{◌≡◌, false, IfOk, IfErr, OnErr, Ok, Err};
ghost use Rattle.book_rows.specs.Writes.{AreWrites};
ghost use Rattle.book_rows.specs.declared.fault.EditFault.TheVariants.{NoMemory as OutOfMemory};
ghost use Rattle.book_edits.specs.Faults.{IsEditFault};
ghost use Rattle.device_core.specs.Edits.{writes_of, IsEdit, MayWantMemory, RefusesId};

use bank_import::{ImportEdit, import_writes};
use book_edits::{BookEdit, writes};
use book_rows::{Book, EditFault, Write};
use field_values::NoMemory;
use goal_templates::goal_writes;
use hybrid_clock::ClockFault;
use rule_engine::{RuleEdit, rule_writes};
use schedules::{ScheduleEdit, schedule_writes};
use split_transfer::{PairEdit, pair_writes};
use std::alloc::Global;

/// Why a device refuses a line.
#[derive(Debug, PartialEq, Eq, Drop)]
pub enum LineRefusal {
    /// The edit itself is refused, or there is none to undo or redo. A want of memory is told as
    /// `NoMemory` of this enum.
    Edit(EditFault),
    /// The clock does not move.
    Clock(ClockFault),
    /// Memory ran out, and the device is spent.
    NoMemory,
}

impl LineRefusal {
    /// An equal refusal.
    pub fn copy(&self) -> Result<LineRefusal, NoMemory>
        ensures copy { IfOk result (λ refusal. refusal ≡ self.now) }
        ensures memory { OnErr result (RefusesId self.now) }
    {
        match self {
            LineRefusal::Edit(fault) => Ok(LineRefusal::Edit(fault.copy()?)),
            LineRefusal::Clock(fault) => Ok(LineRefusal::Clock(*fault)),
            LineRefusal::NoMemory => Ok(LineRefusal::NoMemory),
        }
    }
}

/// What a line may change.
#[derive(Debug, Drop)]
pub enum Edit {
    /// An edit of the household's data.
    Book(BookEdit),
    /// An edit of a transaction and of those that hang together with it.
    Pair(PairEdit),
    /// An edit of rules, or of transactions by rules.
    Rule(RuleEdit),
    /// An edit of a schedule.
    Schedule(ScheduleEdit),
    /// The import of a bank's statement.
    Import(ImportEdit),
    /// A month YYYYMM is filled by the templates that the notes of its categories have.
    GoalsApply { month: u32 },
}

impl Edit {
    /// An equal edit.
    pub fn copy(&self, alloc: Global) -> Result<Edit, NoMemory>
        ensures { IfOk result (λ edit. edit ≡ self.now) }
    {
        match self {
            Edit::Book(edit) => Ok(Edit::Book(edit.copy(alloc)?)),
            Edit::Pair(edit) => Ok(Edit::Pair(edit.copy(alloc)?)),
            Edit::Rule(edit) => Ok(Edit::Rule(edit.copy(alloc)?)),
            Edit::Schedule(edit) => Ok(Edit::Schedule(edit.copy()?)),
            Edit::Import(edit) => Ok(Edit::Import(edit.copy()?)),
            Edit::GoalsApply { month } => Ok(Edit::GoalsApply { month: *month }),
        }
    }
}

/// The writes of an edit, in the order in which they are made.
pub(crate) fn edit_writes(alloc: Global, book: &Book, edit: &Edit) -> Result<Vec<Write>, EditFault>
    requires live { book.now.spent ≡ false }
    requires valid { IsEdit edit.now }
    ensures ok { IfOk result (λ ws. writes_of book.now.rows edit.now ≡ Ok ws.items) }
    ensures valid { IfOk result (λ ws. AreWrites ws.items) }
    ensures err { IfErr result (IsEditFault (writes_of book.now.rows edit.now)) }
    ensures memory { result ≡ Err OutOfMemory → MayWantMemory edit.now }
{
    match edit {
        Edit::Book(edit) => writes(alloc, book, edit),
        Edit::Pair(edit) => pair_writes(alloc, book, edit),
        Edit::Rule(edit) => rule_writes(alloc, book, edit),
        Edit::Schedule(edit) => schedule_writes(alloc, book, edit),
        Edit::Import(edit) => import_writes(alloc, book, edit),
        Edit::GoalsApply { month } => goal_writes(alloc, book, *month),
    }
}
