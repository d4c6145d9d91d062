//! Where records and texts are kept.
ghost use Rattle.std.specs.Prelude.{◌≡◌, ℕ, IfOk, OnOk, OnErr};
ghost use Rattle.std.specs.FinMap as map;
ghost use Rattle.budget_ports.specs.Faults.{count_after};
ghost use Rattle.budget_ports.specs.Contents.{Contents, records_after, appended, with_text};
ghost use Rattle.budget_ports.specs.Keeper.{has_failed, Commits, IsAlone, IsKnown, LeavesNoMore, Rise, HaveKeys};
ghost use Rattle.budget_ports.specs.declared.keeper.PortFault.TheVariants.{Failed as HasFailed, NoMemory as OutOfMemory};

use crate::stream::Failed;
use field_values::{Copied, Items, NoMemory, Txt};
use std::alloc::{AllocError, AllocFailed};

/// Why a call of a port gives nothing.
#[derive(Clone, Copy, Debug, PartialEq, Eq)]
pub enum PortFault {
    /// The outside failed.
    Failed,
    /// Memory ran out. It counts as no failure of the outside.
    NoMemory,
}

impl From<Failed> for PortFault {
    ghost from_gives = { λ _ e. e ≡ HasFailed };

    fn from(_error: Failed) -> PortFault {
        PortFault::Failed
    }
}

impl From<NoMemory> for PortFault {
    ghost from_gives = { λ _ e. e ≡ OutOfMemory };

    fn from(_error: NoMemory) -> PortFault {
        PortFault::NoMemory
    }
}

/// A record that is kept under its key.
#[derive(Debug, PartialEq, Eq, Drop)]
pub struct Record {
    /// What it is kept under, once in its group. A record that is given to a keeper has at least one byte here.
    pub key: Txt,
    /// What is kept, as it was given.
    pub body: Txt,
}

impl Record {
    /// A record with the same key and body.
    pub fn copy(&self) -> Result<Record, NoMemory>
        ensures { IfOk result (λ r. r ≡ self.now) }
    {
        Ok(Record {
            key: self.key.copy()?,
            body: self.body.copy()?,
        })
    }
}

impl Copied for Record {
    fn copied(&self) -> Result<Record, NoMemory> {
        self.copy()
    }
}

/// Where records are kept, in groups and under keys, and texts, under names.
///
/// A key stands once in a group, and a record is added under a key of at least one byte alone. A
/// keeper that tells has known contents: no call changes them but an `append` or a `put` that answers
/// `Ok`, and after each call they are among what a stop may leave. It may cease to tell at any call,
/// and then it does not tell again. Whether a keeper tells or
/// not, its failures are counted, and a stop after a call leaves nothing but what could be left before
/// it, or the contents of a keeper that told with all that the call has committed. After a call that
/// answers `Ok` a keeper of which a stop may leave anything tells, and after a change that is what it
/// holds alone.
pub trait Keeper {
    /// Whether the keeper tells: its contents are then what the clauses say.
    ghost tells: { Self → Type 0 };

    /// The contents, where the keeper tells.
    ghost contents: { Self → Contents };

    /// The contents that a stop at this moment may leave.
    ghost left: { Self → Contents → Type 0 };

    /// How often a call has answered `Failed`: such a call counts once, and any other not.
    ghost faults: { Self → ℕ };

    /// Adds to a group the records whose key is not there. Of several with one key the first counts.
    ///
    /// It is one commit: a stop leaves all of it or nothing of it. After `Failed` and after
    /// `NoMemory` the contents are as before.
    fn append(&mut self, group: &Txt, batch: &[Record]) -> Result<(), PortFault>
        requires { HaveKeys batch.now }
        ensures told { tells self.new → tells self.old }
        ensures ok { tells self.new → OnOk result (contents self.new ≡ appended (contents self.old) group.now batch.now) }
        ensures err { tells self.new → OnErr result (contents self.new ≡ contents self.old) }
        ensures left { Commits (tells self.old) (left self.old) (left self.new) (appended (contents self.old) group.now batch.now) }
        ensures alone { OnOk result (IsAlone (tells self.new) (contents self.new) (left self.new)) }
        ensures here { tells self.new → left self.new (contents self.new) }
        ensures count { faults self.new ≡ count_after (has_failed result) (faults self.old) };

    /// The records of a group whose key is above `after`, by key.
    ///
    /// Their keys rise and none is empty, whether the keeper tells or not. So after an empty text all
    /// records of the group are given, where each has a key of at least one byte.
    fn since(&mut self, group: &Txt, after: &Txt) -> Result<Items<Record>, PortFault>
        ensures told { tells self.new → tells self.old }
        ensures records { tells self.new → IfOk result (λ rs. rs ≡ records_after (contents self.old) group.now after.now) }
        ensures rise { IfOk result Rise }
        ensures same { tells self.new → contents self.new ≡ contents self.old }
        ensures left { LeavesNoMore (left self.old) (left self.new) }
        ensures known { OnOk result (IsKnown (tells self.new) (left self.new)) }
        ensures here { tells self.new → left self.new (contents self.new) }
        ensures count { faults self.new ≡ count_after (has_failed result) (faults self.old) };

    /// Puts a text under a name, in place of the one that was there.
    ///
    /// It is one commit, as `append` is.
    fn put(&mut self, name: &Txt, text: &Txt) -> Result<(), PortFault>
        ensures told { tells self.new → tells self.old }
        ensures ok { tells self.new → OnOk result (contents self.new ≡ with_text (contents self.old) name.now text.now) }
        ensures err { tells self.new → OnErr result (contents self.new ≡ contents self.old) }
        ensures left { Commits (tells self.old) (left self.old) (left self.new) (with_text (contents self.old) name.now text.now) }
        ensures alone { OnOk result (IsAlone (tells self.new) (contents self.new) (left self.new)) }
        ensures here { tells self.new → left self.new (contents self.new) }
        ensures count { faults self.new ≡ count_after (has_failed result) (faults self.old) };

    /// The text under a name, if there is one.
    fn get(&mut self, name: &Txt) -> Result<Option<Txt>, PortFault>
        ensures told { tells self.new → tells self.old }
        ensures text { tells self.new → IfOk result (λ text. text ≡ map.get (contents self.old).texts name.now) }
        ensures same { tells self.new → contents self.new ≡ contents self.old }
        ensures left { LeavesNoMore (left self.old) (left self.new) }
        ensures known { OnOk result (IsKnown (tells self.new) (left self.new)) }
        ensures here { tells self.new → left self.new (contents self.new) }
        ensures count { faults self.new ≡ count_after (has_failed result) (faults self.old) };

    /// The names that have a text, byte by byte in order.
    fn names(&mut self) -> Result<Items<Txt>, PortFault>
        ensures told { tells self.new → tells self.old }
        ensures names { tells self.new → IfOk result (λ names. names ≡ map.keys (contents self.old).texts) }
        ensures same { tells self.new → contents self.new ≡ contents self.old }
        ensures left { LeavesNoMore (left self.old) (left self.new) }
        ensures known { OnOk result (IsKnown (tells self.new) (left self.new)) }
        ensures here { tells self.new → left self.new (contents self.new) }
        ensures count { faults self.new ≡ count_after (has_failed result) (faults self.old) };
}
