//! What becomes of a store that was opened, and what is told where none could be, in the words of the store and of SQLite.
ghost use Rattle.std.specs.Prelude.{◌≡◌, ◌≢◌, ◌⊎◌, ◌↔◌, [], true, false, codes, Some, IsTrue, IfOk, IfErr};
ghost use Rattle.std.specs.FinMap.{get};
ghost use Rattle.budget_ports.specs.Contents.{nothing, with_text};
ghost use Rattle.sqlite.specs.State.{HasCleanDisk};
ghost use Rattle.sqlite.specs.Held.{state};
ghost use Rattle.sqlite_trees.specs.View.{IsClean};
ghost use Rattle.sqlite_trees.specs.declared.error.StoreError.TheVariants.{Corrupt, Full};
ghost use Rattle.sqlite_keeper.specs.Contents.{contents_of, contents_now};
ghost use Rattle.sqlite_keeper.specs.Keeping.{TellsAll};
ghost use Rattle.sqlite_keeper.specs.Taking.{HasFailedSince};
ghost use Rattle.store_laws.specs.Stores.{ListsSecond, ListsFirst, ListsNothing, ListsVersion, ListsKnown, Says, IsExcused, TellsOther};

use sqlite::{Alter, Connection, Error, ErrorCode};
use sqlite_keeper::{OpeningCause, SqliteKeeper, StoreFault, Untaken, opening_fault, take};
use std::alloc::Global;

/// A law: which stores are taken, while the disk has returned what was written. Of a keeper that isn't shut: a store that lists the
/// tables of the second version says that its version is `2`, and is told as it is; one that lists those of the first says `1`,
/// unless it says `2`, and is told with `2` in its place, and its old table is empty; one that lists nothing is told with the text
/// `2` alone. Over other tables none tells. Over the tables of a version that don't say `1`, or where nothing is listed, a keeper is
/// shut only if the disk has failed since the store was read again.
///
/// A store of those tables comes back for want of memory, because the connection was shut or the disk has failed, or because it says
/// another version, which is told; one that lists nothing for the first three alone. Where the store's last error was that there is
/// no room, or damage, a cause that is told is that, unless the store is broken.
pub fn take_store<S: Alter + Drop>(
    alloc: Global,
    connection: Connection<S>,
) -> Result<SqliteKeeper<S>, Untaken<S>>
    ensures kept { IfOk result (λ k. ListsSecond (state S.Store connection).committed.trees → k.is_shut ≡ false → HasCleanDisk (state S.Store k.conn) → TellsAll S.Store k × (contents_now S.Store k.conn ≡ contents_of (state S.Store connection).committed.trees) × (get (contents_now S.Store k.conn).texts (codes "version") ≡ Some (codes "2"))) }
    ensures moved { IfOk result (λ k. ListsFirst (state S.Store connection).committed.trees → k.is_shut ≡ false → HasCleanDisk (state S.Store k.conn) → ¬ Says (state S.Store connection).committed.trees (codes "2") → TellsAll S.Store k × (contents_now S.Store k.conn ≡ with_text (contents_of (state S.Store connection).committed.trees) (codes "version") (codes "2")) × Says (state S.Store connection).committed.trees (codes "1") × ((state S.Store k.conn).now.trees 0 ≡ [])) }
    ensures made { IfOk result (λ k. ListsNothing (state S.Store connection).committed.trees → k.is_shut ≡ false → HasCleanDisk (state S.Store k.conn) → TellsAll S.Store k × (contents_now S.Store k.conn ≡ with_text nothing (codes "version") (codes "2"))) }
    ensures others { IfOk result (λ k. TellsAll S.Store k → ListsKnown (state S.Store connection).committed.trees) }
    ensures shut { IfOk result (λ k. k.is_shut ≡ true → (ListsVersion (state S.Store connection).committed.trees × (¬ Says (state S.Store connection).committed.trees (codes "1"))) ⊎ ListsNothing (state S.Store connection).committed.trees → HasCleanDisk (state S.Store k.conn) → HasFailedSince S.Store connection k.conn) }
    ensures other { IfErr result (λ u. ListsVersion (state S.Store connection).committed.trees → IsClean (S.Store.view u.store) → IsExcused (state S.Store connection) (S.Store.faults u.store) u.fault ⊎ TellsOther (state S.Store connection).committed.trees u.fault) }
    ensures no_room { IfErr result (λ u. ListsKnown (state S.Store connection).committed.trees → IsClean (S.Store.view u.store) → S.Store.blamed u.store ≡ Some Full → (cause : _) → u.fault ≡ StoreFault.Unopened cause → (cause ≡ OpeningCause.NoRoom) ⊎ ((cause ≡ OpeningCause.Failed) × IsTrue (S.Store.view u.store).is_broken)) }
    ensures damaged { IfErr result (λ u. ListsKnown (state S.Store connection).committed.trees → IsClean (S.Store.view u.store) → S.Store.blamed u.store ≡ Some Corrupt → (cause : _) → u.fault ≡ StoreFault.Unopened cause → (cause ≡ OpeningCause.Damaged) ⊎ ((cause ≡ OpeningCause.Failed) × IsTrue (S.Store.view u.store).is_broken)) }
    ensures unmade { IfErr result (λ u. ListsNothing (state S.Store connection).committed.trees → IsClean (S.Store.view u.store) → IsExcused (state S.Store connection) (S.Store.faults u.store) u.fault) }
{
    take(alloc, connection)
}

/// A law: what is told of each failure of SQLite where a store could not be opened: want of memory, a path where nothing can be
/// opened, a file that is in use or is no store, other tables, damage, no room; and of any other, for which nothing else is left,
/// that reading or writing failed.
pub fn tell_failure(error: &Error) -> StoreFault
    ensures memory { (result ≡ StoreFault.NoMemory) ↔ (error.now ≡ Error.SqliteFailure ErrorCode.OutOfMemory) }
    ensures not_opened { (result ≡ StoreFault.Unopened OpeningCause.NotOpened) ↔ (error.now ≡ Error.SqliteFailure ErrorCode.CannotOpen) }
    ensures in_use { (result ≡ StoreFault.Unopened OpeningCause.InUse) ↔ (error.now ≡ Error.SqliteFailure ErrorCode.DatabaseBusy) }
    ensures no_store { (result ≡ StoreFault.Unopened OpeningCause.NoStore) ↔ (error.now ≡ Error.SqliteFailure ErrorCode.NotADatabase) }
    ensures other_tables { (result ≡ StoreFault.Unopened OpeningCause.OtherTables) ↔ ((error.now ≡ Error.SqliteFailure ErrorCode.NameTaken) ⊎ ((why : _) × (error.now ≡ Error.SqlInputError why))) }
    ensures damaged { (result ≡ StoreFault.Unopened OpeningCause.Damaged) ↔ (error.now ≡ Error.SqliteFailure ErrorCode.DatabaseCorrupt) }
    ensures no_room { (result ≡ StoreFault.Unopened OpeningCause.NoRoom) ↔ (error.now ≡ Error.SqliteFailure ErrorCode.DiskFull) }
    ensures failed { error.now ≡ Error.SqliteFailure ErrorCode.SystemIoFailure → result ≡ StoreFault.Unopened OpeningCause.Failed }
    ensures no_version { (found : _) → result ≢ StoreFault.Version found }
{
    opening_fault(error)
}
