//! The order of the rows, which a connection alone does not tell.
ghost use Rattle.std.specs.Prelude.{◌≡◌, ◌≤◌, ◌⊎◌, false, None, IfOk, IfErr, IsTrue};
ghost use Rattle.sqlite.specs.State.{HasCleanDisk};
ghost use Rattle.sqlite.specs.Held.{state};
ghost use Rattle.sqlite_catalog.specs.Listing.{IsSound};
ghost use Rattle.sqlite_trees.specs.View.{doubt, IsClean, IsQuiet};
ghost use Rattle.sqlite_keeper.specs.Adopting.{IsInOrder};
ghost use Rattle.sqlite_keeper.specs.Taking.{IsLost, IsToldOf, HasComeBack};
ghost use Rattle.sqlite_keeper.specs.Tables.{IsSimple, no_schema};

use sqlite::{Alter, Connection, Error, ErrorCode};
use std::alloc::Global;

/// A store that was not read again.
#[derive(Drop)]
pub struct Unread<S> {
    /// Why it was not read.
    pub error: Error,
    /// The store, in which nothing is pending: while it is open, with the rows that were committed last.
    pub store: S,
}

/// Rolls back what is not committed, and reads and checks the store again: so the connection is known
/// to keep the rows of the keeper's tables in order, as `SqliteKeeper::adopt` asks.
///
/// Where the store cannot be read again, it comes back, so that its files can be closed and opened anew. The error
/// tells want of memory; with any other, the connection was shut or the disk failed meanwhile, unless the disk has
/// returned something else.
pub fn in_order<S: Alter + Drop>(
    alloc: Global,
    connection: Connection<S>,
) -> Result<Connection<S>, Unread<S>>
    ensures ordered { IfOk result (IsInOrder S.Store) }
    ensures idle { IfOk result (λ c. c.in_transaction ≡ false) }
    ensures settled { IfOk result (λ c. HasCleanDisk (state S.Store c) → IsTrue (state S.Store c).is_open → (state S.Store c).now ≡ (state S.Store c).committed) }
    ensures rows { IfOk result (λ c. HasCleanDisk (state S.Store c) → IsTrue (state S.Store c).is_open × ((state S.Store c).now.trees ≡ (state S.Store connection).committed.trees)) }
    ensures listed { IfOk result (λ c. HasCleanDisk (state S.Store c) → (s : _) → IsSimple s → IsSound s (state S.Store connection).committed.trees → c.schema ≡ s) }
    ensures sound { IfOk result (λ c. HasCleanDisk (state S.Store c) → IsSound c.schema (state S.Store connection).committed.trees) }
    ensures unlisted { IfOk result (λ c. HasCleanDisk (state S.Store c) → IsSound no_schema (state S.Store connection).committed.trees → c.schema ≡ no_schema) }
    ensures unlimited { IfOk result (λ c. c.step_limit ≡ None) }
    ensures opened { IfOk result (λ c. HasCleanDisk (state S.Store c) → IsTrue (state S.Store connection).is_open) }
    ensures clean { IfOk result (λ c. doubt (state S.Store connection).is_clean ≤ doubt (state S.Store c).is_clean) }
    ensures quiet { IfErr result (λ u. IsQuiet S.Store.view S.Store.faults S.Store.recovers S.Store.is_shielded connection.store u.store) }
    ensures back { IfErr result (λ u. HasComeBack S.Store connection u.store) }
    ensures cause { IfErr result (λ u. IsClean (S.Store.view u.store) → (u.error ≡ Error.SqliteFailure ErrorCode.OutOfMemory) ⊎ IsLost S.Store connection u.store) }
    ensures told { IfErr result (λ u. IsClean (S.Store.view u.store) → IsToldOf S.Store u.store u.error) }
{
    let store = connection.into_store();
    if store.is_broken() {
        let error = Error::SqliteFailure(ErrorCode::Closed);
        return Err(Unread { error, store });
    }
    match Connection::over(alloc, store) {
        Ok(again) => {
            let _schema = again.schema();
            Ok(again)
        }
        Err((error, store)) => Err(Unread { error, store }),
    }
}
