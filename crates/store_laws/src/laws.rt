//! Each call of a keeper over a store, in the words of the store.
ghost use Rattle.std.specs.Prelude.{◌≡◌, IfOk, OnOk, OnErr};
ghost use Rattle.std.specs.FinMap as map;
ghost use Rattle.budget_ports.specs.Faults.{count_after};
ghost use Rattle.budget_ports.specs.Contents.{records_after, appended, with_text};
ghost use Rattle.budget_ports.specs.Keeper.{has_failed, Commits, IsAlone, IsKnown, LeavesNoMore, HaveKeys};
ghost use Rattle.sqlite_keeper.specs.Contents.{contents_now};
ghost use Rattle.sqlite_keeper.specs.Keeping.{TellsAll, MayBeLeft};

use budget_ports::{Keeper, PortFault, Record};
use field_values::{Items, Txt};
use sqlite::Alter;
use sqlite_keeper::SqliteKeeper;

/// A law: an append to a store that tells its contents adds the records whose key is not there, or changes nothing, and a stop
/// leaves all of it or nothing of it. After `Ok` it tells, where a stop may leave anything, and leaves what it holds alone.
pub fn append_to_store<S: Alter>(
    keeper: &mut SqliteKeeper<S>,
    group: &Txt,
    batch: &[Record],
) -> Result<(), PortFault>
    requires { HaveKeys batch.now }
    ensures told { TellsAll S.Store keeper.new → TellsAll S.Store keeper.old }
    ensures ok { TellsAll S.Store keeper.new → OnOk result (contents_now S.Store keeper.new.conn ≡ appended (contents_now S.Store keeper.old.conn) group.now batch.now) }
    ensures err { TellsAll S.Store keeper.new → OnErr result (contents_now S.Store keeper.new.conn ≡ contents_now S.Store keeper.old.conn) }
    ensures left { Commits (TellsAll S.Store keeper.old) (MayBeLeft S.Store keeper.old) (MayBeLeft S.Store keeper.new) (appended (contents_now S.Store keeper.old.conn) group.now batch.now) }
    ensures alone { OnOk result (IsAlone (TellsAll S.Store keeper.new) (contents_now S.Store keeper.new.conn) (MayBeLeft S.Store keeper.new)) }
    ensures here { TellsAll S.Store keeper.new → MayBeLeft S.Store keeper.new (contents_now S.Store keeper.new.conn) }
    ensures count { keeper.new.faults ≡ count_after (has_failed result) keeper.old.faults }
{
    keeper.append(group, batch)
}

/// A law: a put into a store that tells its contents puts the text in place of the one that was there, or changes nothing, and a
/// stop leaves all of it or nothing of it.
pub fn put_into_store<S: Alter>(
    keeper: &mut SqliteKeeper<S>,
    name: &Txt,
    text: &Txt,
) -> Result<(), PortFault>
    ensures told { TellsAll S.Store keeper.new → TellsAll S.Store keeper.old }
    ensures ok { TellsAll S.Store keeper.new → OnOk result (contents_now S.Store keeper.new.conn ≡ with_text (contents_now S.Store keeper.old.conn) name.now text.now) }
    ensures err { TellsAll S.Store keeper.new → OnErr result (contents_now S.Store keeper.new.conn ≡ contents_now S.Store keeper.old.conn) }
    ensures left { Commits (TellsAll S.Store keeper.old) (MayBeLeft S.Store keeper.old) (MayBeLeft S.Store keeper.new) (with_text (contents_now S.Store keeper.old.conn) name.now text.now) }
    ensures alone { OnOk result (IsAlone (TellsAll S.Store keeper.new) (contents_now S.Store keeper.new.conn) (MayBeLeft S.Store keeper.new)) }
    ensures here { TellsAll S.Store keeper.new → MayBeLeft S.Store keeper.new (contents_now S.Store keeper.new.conn) }
    ensures count { keeper.new.faults ≡ count_after (has_failed result) keeper.old.faults }
{
    keeper.put(name, text)
}

/// A law: what a store that tells its contents gives of a group are its records above a key. It changes nothing, and a stop
/// leaves no more than before.
pub fn ask_store<S: Alter>(
    keeper: &mut SqliteKeeper<S>,
    group: &Txt,
    after: &Txt,
) -> Result<Items<Record>, PortFault>
    ensures told { TellsAll S.Store keeper.new → TellsAll S.Store keeper.old }
    ensures records { TellsAll S.Store keeper.new → IfOk result (λ rs. rs ≡ records_after (contents_now S.Store keeper.old.conn) group.now after.now) }
    ensures same { TellsAll S.Store keeper.new → contents_now S.Store keeper.new.conn ≡ contents_now S.Store keeper.old.conn }
    ensures left { LeavesNoMore (MayBeLeft S.Store keeper.old) (MayBeLeft S.Store keeper.new) }
    ensures known { OnOk result (IsKnown (TellsAll S.Store keeper.new) (MayBeLeft S.Store keeper.new)) }
    ensures here { TellsAll S.Store keeper.new → MayBeLeft S.Store keeper.new (contents_now S.Store keeper.new.conn) }
    ensures count { keeper.new.faults ≡ count_after (has_failed result) keeper.old.faults }
{
    keeper.since(group, after)
}

/// A law: what a store that tells its contents gives under a name is its text. It changes nothing, and a stop leaves no more than
/// before.
pub fn get_from_store<S: Alter>(
    keeper: &mut SqliteKeeper<S>,
    name: &Txt,
) -> Result<Option<Txt>, PortFault>
    ensures told { TellsAll S.Store keeper.new → TellsAll S.Store keeper.old }
    ensures text { TellsAll S.Store keeper.new → IfOk result (λ text. text ≡ map.get (contents_now S.Store keeper.old.conn).texts name.now) }
    ensures same { TellsAll S.Store keeper.new → contents_now S.Store keeper.new.conn ≡ contents_now S.Store keeper.old.conn }
    ensures left { LeavesNoMore (MayBeLeft S.Store keeper.old) (MayBeLeft S.Store keeper.new) }
    ensures known { OnOk result (IsKnown (TellsAll S.Store keeper.new) (MayBeLeft S.Store keeper.new)) }
    ensures here { TellsAll S.Store keeper.new → MayBeLeft S.Store keeper.new (contents_now S.Store keeper.new.conn) }
    ensures count { keeper.new.faults ≡ count_after (has_failed result) keeper.old.faults }
{
    keeper.get(name)
}

/// A law: the names that a store gives that tells its contents are those that have a text. It changes nothing, and a stop leaves no
/// more than before.
pub fn names_of_store<S: Alter>(keeper: &mut SqliteKeeper<S>) -> Result<Items<Txt>, PortFault>
    ensures told { TellsAll S.Store keeper.new → TellsAll S.Store keeper.old }
    ensures names { TellsAll S.Store keeper.new → IfOk result (λ names. names ≡ map.keys (contents_now S.Store keeper.old.conn).texts) }
    ensures same { TellsAll S.Store keeper.new → contents_now S.Store keeper.new.conn ≡ contents_now S.Store keeper.old.conn }
    ensures left { LeavesNoMore (MayBeLeft S.Store keeper.old) (MayBeLeft S.Store keeper.new) }
    ensures known { OnOk result (IsKnown (TellsAll S.Store keeper.new) (MayBeLeft S.Store keeper.new)) }
    ensures here { TellsAll S.Store keeper.new → MayBeLeft S.Store keeper.new (contents_now S.Store keeper.new.conn) }
    ensures count { keeper.new.faults ≡ count_after (has_failed result) keeper.old.faults }
{
    keeper.names()
}
