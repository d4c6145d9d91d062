//! The version of a store.
ghost use Rattle.std.specs.Prelude.{◌≡◌, ◌↔◌, ◌≤◌, false, IsTrue, IfOk, IfErr, OnOk};
ghost use Rattle.sqlite.specs.State.{HasCleanDisk};
ghost use Rattle.sqlite.specs.Held.{state};
ghost use Rattle.sqlite_trees.specs.View.{doubt};
ghost use Rattle.sqlite_keeper.specs.Contents.{Contents, Rests, contents_now, MayLeave};
ghost use Rattle.sqlite_keeper.specs.Queries.{ShowsText, HasWords, LeavesAll};
ghost use Rattle.sqlite_keeper.specs.Tables.{no_schema};
ghost use Rattle.sqlite_keeper.specs.Adopting.{version_name, IsVersion, IsReason};

use crate::asking::ask;
use field_values::Txt;
use sqlite::{Alter, Connection, Error, ErrorCode, Row, params};
use std::alloc::Global;

/// Whether memory was wanting.
pub(crate) fn is_memory(error: &Error) -> bool
    ensures { IsTrue result ↔ (error.now ≡ Error.SqliteFailure ErrorCode.OutOfMemory) }
{
    matches!(error, Error::SqliteFailure(ErrorCode::OutOfMemory))
}

/// The text that the rows show, empty where they show none.
fn version_in(alloc: Global, rows: &[Row]) -> Result<Txt, Error>
    ensures version { IfOk result (λ t. (k : Contents) → ShowsText k version_name rows.now → IsVersion k t) }
    ensures memory { IfErr result (λ e. e ≡ Error.SqliteFailure ErrorCode.OutOfMemory) }
{
    match rows {
        [] => Ok(Txt::new(String::new(alloc))),
        [row, ..] => match row.get::<String>(0) {
            Ok(text) => Ok(Txt::new(text)),
            Err(error) => {
                if is_memory(&error) {
                    return Err(error);
                }
                Ok(Txt::new(String::new(alloc)))
            }
        },
    }
}

/// The text `version` of a store, empty where it has none.
pub(crate) fn try_version<S: Alter>(alloc: Global, conn: &mut Connection<S>) -> Result<Txt, Error>
    ensures version { HasCleanDisk (state S.Store conn.new) → HasWords S.Store conn.old → IfOk result (IsVersion (contents_now S.Store conn.old)) }
    ensures told { HasCleanDisk (state S.Store conn.new) → IsTrue (state S.Store conn.new).is_open → IsTrue (state S.Store conn.old).is_open }
    ensures rests { HasCleanDisk (state S.Store conn.new) → HasWords S.Store conn.old → IsTrue (state S.Store conn.new).is_open → Rests S.Store conn.new × ((state S.Store conn.new).now ≡ (state S.Store conn.old).now) }
    ensures known { HasCleanDisk (state S.Store conn.new) → HasWords S.Store conn.old → OnOk result (IsTrue (state S.Store conn.new).is_open) }
    ensures left { HasCleanDisk (state S.Store conn.new) → HasWords S.Store conn.old → (k : Contents) → MayLeave S.Store conn.new k → MayLeave S.Store conn.old k }
    ensures reason { HasCleanDisk (state S.Store conn.new) → HasWords S.Store conn.old → IsTrue (state S.Store conn.old).is_open → IfErr result (IsReason (state S.Store conn.old) (state S.Store conn.new)) }
    ensures blank { HasCleanDisk (state S.Store conn.new) → conn.old.schema ≡ no_schema → LeavesAll S.Store conn.old conn.new × OnOk result ⊥ }
    ensures idle { conn.old.in_transaction ≡ false → conn.new.in_transaction ≡ false }
    ensures clean { doubt (state S.Store conn.old).is_clean ≤ doubt (state S.Store conn.new).is_clean }
{
    let rows = ask(
        conn,
        "SELECT body FROM named WHERE name = ?1",
        params!["version"],
    )?;
    version_in(alloc, &rows)
}
