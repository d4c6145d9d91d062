//! A store of the first version that is taken, in the words of the store.
ghost use Rattle.std.specs.Prelude.{◌≡◌, ◌≢◌, ◌⊎◌, false, Some, IfOk, IfErr};
ghost use Rattle.std.specs.FinMap.{get};
ghost use Rattle.sqlite.specs.State.{HasCleanDisk};
ghost use Rattle.sqlite.specs.Held.{state};
ghost use Rattle.sqlite_keeper.specs.Tables.{first_schema};
ghost use Rattle.sqlite_keeper.specs.Contents.{Contents, MayLeave, contents_now};
ghost use Rattle.sqlite_keeper.specs.Adopting.{IsInOrder, moved, version_name, version_two};

use sqlite::{Alter, Connection};
use sqlite_keeper::{SqliteKeeper, Unadopted};
use std::alloc::Global;

/// A law: of a store of the first version on which nothing is pending a stop leaves what it held, or the same told to be of the second,
/// whatever becomes of it; and of one that is taken, and told no other version than it has, the second alone.
pub fn move_store<S: Alter>(
    alloc: Global,
    connection: Connection<S>,
) -> Result<SqliteKeeper<S>, Unadopted<S>>
    requires idle { connection.in_transaction ≡ false }
    requires ordered { IsInOrder S.Store connection }
    requires first { connection.schema ≡ first_schema }
    requires settled { (c : Contents) → MayLeave S.Store connection c → c ≡ contents_now S.Store connection }
    ensures left { IfOk result (λ k. HasCleanDisk (state S.Store k.conn) → (c : Contents) → MayLeave S.Store k.conn c → (c ≡ contents_now S.Store connection) ⊎ (c ≡ moved (contents_now S.Store connection))) }
    ensures left_back { IfErr result (λ u. HasCleanDisk (state S.Store u.connection) → (c : Contents) → MayLeave S.Store u.connection c → (c ≡ contents_now S.Store connection) ⊎ (c ≡ moved (contents_now S.Store connection))) }
    ensures taken { IfOk result (λ k. k.is_shut ≡ false → get (contents_now S.Store connection).texts version_name ≢ Some version_two → HasCleanDisk (state S.Store k.conn) → (c : Contents) → MayLeave S.Store k.conn c → c ≡ moved (contents_now S.Store connection)) }
{
    SqliteKeeper::adopt(alloc, connection)
}
