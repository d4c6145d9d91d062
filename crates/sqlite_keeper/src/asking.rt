//! How the keeper asks a query of its connection.
ghost use Rattle.std.specs.Prelude.{◌≡◌, ◌≤◌, false, IsTrue, IfOk, IfErr, OnOk};
ghost use Rattle.sqlite.specs.State.{HasCleanDisk, Shown, FailsToQuery};
ghost use Rattle.sqlite.specs.Held.{state};
ghost use Rattle.sqlite.specs.Values.{bound};
ghost use Rattle.sqlite_trees.specs.Tree.{Trees};
ghost use Rattle.sqlite_trees.specs.View.{doubt};
ghost use Rattle.sqlite_keeper.specs.Contents.{Rests};
ghost use Rattle.sqlite_keeper.specs.Queries.{IsQuery, IsUnread, HasTexts, LeavesAll, MayAsk};
ghost use Rattle.sqlite_keeper.specs.Adopting.{version_query, version_row, IsReason};

use sqlite::types::ValueRef;
use sqlite::{Alter, Connection, Error, Row};

/// The rows that a query shows, where the connection is open.
fn show<S: Alter>(
    conn: &mut Connection<S>,
    sql: &str,
    params: &[ValueRef<'_>],
) -> Result<Vec<Row>, Error>
    ensures shown { HasCleanDisk (state S.Store conn.new) → IfOk result (λ rows. Shown sql.now (bound params.now) (state S.Store conn.old) (state S.Store conn.new) rows.items) }
    ensures rests { HasCleanDisk (state S.Store conn.new) → Rests S.Store conn.old → IsQuery conn.old.schema sql.now → IsTrue (state S.Store conn.new).is_open → Rests S.Store conn.new × ((state S.Store conn.new).now ≡ (state S.Store conn.old).now) }
    ensures known { HasCleanDisk (state S.Store conn.new) → IsQuery conn.old.schema sql.now → OnOk result (IsTrue (state S.Store conn.new).is_open) }
    ensures err { HasCleanDisk (state S.Store conn.new) → IfErr result (FailsToQuery sql.now (bound params.now) (state S.Store conn.old) (state S.Store conn.new)) }
    ensures left { HasCleanDisk (state S.Store conn.new) → IsQuery conn.old.schema sql.now → (db : Trees) → (state S.Store conn.new).may_leave db → (state S.Store conn.old).may_leave db }
    ensures idle { conn.old.in_transaction ≡ false → conn.new.in_transaction ≡ false }
    ensures clean { doubt (state S.Store conn.old).is_clean ≤ doubt (state S.Store conn.new).is_clean }
{
    match conn.query_all(sql, params) {
        Ok(rows) => Ok(rows),
        Err(error) => Err(error),
    }
}

/// The rows that a query shows: a connection that is shut refuses it.
pub(crate) fn ask<S: Alter>(
    conn: &mut Connection<S>,
    sql: &str,
    params: &[ValueRef<'_>],
) -> Result<Vec<Row>, Error>
    ensures shown { HasCleanDisk (state S.Store conn.new) → MayAsk S.Store sql.now conn.old → IfOk result (λ rows. IsTrue (state S.Store conn.old).is_open × Shown sql.now (bound params.now) (state S.Store conn.old) (state S.Store conn.new) rows.items) }
    ensures told { HasCleanDisk (state S.Store conn.new) → IsTrue (state S.Store conn.new).is_open → IsTrue (state S.Store conn.old).is_open }
    ensures rests { HasCleanDisk (state S.Store conn.new) → MayAsk S.Store sql.now conn.old → IsTrue (state S.Store conn.new).is_open → Rests S.Store conn.new × ((state S.Store conn.new).now ≡ (state S.Store conn.old).now) }
    ensures known { HasCleanDisk (state S.Store conn.new) → MayAsk S.Store sql.now conn.old → OnOk result (IsTrue (state S.Store conn.new).is_open) }
    ensures left { HasCleanDisk (state S.Store conn.new) → MayAsk S.Store sql.now conn.old → (db : Trees) → (state S.Store conn.new).may_leave db → (state S.Store conn.old).may_leave db }
    ensures reason { HasCleanDisk (state S.Store conn.new) → MayAsk S.Store sql.now conn.old → HasTexts (state S.Store conn.old).now → IsTrue (state S.Store conn.old).is_open → sql.now ≡ version_query → bound params.now ≡ version_row → IfErr result (IsReason (state S.Store conn.old) (state S.Store conn.new)) }
    ensures unread { HasCleanDisk (state S.Store conn.new) → IsUnread conn.old.schema sql.now → LeavesAll S.Store conn.old conn.new × OnOk result ⊥ }
    ensures idle { conn.old.in_transaction ≡ false → conn.new.in_transaction ≡ false }
    ensures clean { doubt (state S.Store conn.old).is_clean ≤ doubt (state S.Store conn.new).is_clean }
{
    let _ready = conn.prepare(sql)?;
    show(conn, sql, params)
}
