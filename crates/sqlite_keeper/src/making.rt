//! A store of the second version is made, or one of the first becomes one.
ghost use Rattle.std.specs.Prelude.{◌≡◌, ◌≤◌, ℕ, [], true, false, Ok, Err, IsTrue, IfErr, OnOk, OnErr};
ghost use Rattle.sqlite.specs.State.{HasCleanDisk, Survives, ExecutesInside};
ghost use Rattle.sqlite.specs.Held.{state};
ghost use Rattle.sqlite.specs.Values.{bound};
ghost use Rattle.sqlite_trees.specs.View.{doubt};
ghost use Rattle.store_tables.specs.Texts.{moved_tables};
ghost use Rattle.store_tables.specs.Within.{Within, Fell};
ghost use Rattle.sqlite_keeper.specs.Contents.{Contents, Stands, Rests, contents_now};
ghost use Rattle.sqlite_keeper.specs.Making.{Widens, HasItems, AreCopied, HasCopies, Settles};
ghost use Rattle.sqlite_keeper.specs.Adopting.{Begins, Makes, MayBecome, LeavesOr, IsReason};

use sqlite::types::ValueRef;
use sqlite::{Alter, Connection, Error, Transaction, params};
use store_tables::copy_all;

/// Runs one statement of the making.
fn run<S: Alter>(
    tx: &mut Transaction<'_, S>,
    sql: &str,
    params: &[ValueRef<'_>],
) -> Result<(), Error>
    ensures same_reference { tx.new.conn.ghost_name ≡ tx.old.conn.ghost_name }
    ensures ran { HasCleanDisk (state S.Store tx.new.conn.now) → IsTrue tx.old.conn.now.in_transaction → OnOk result ((count : ℕ) × ExecutesInside 0 sql.now (bound params.now) (state S.Store tx.old.conn.now) (state S.Store tx.new.conn.now) (Ok count)) }
    ensures fell { HasCleanDisk (state S.Store tx.new.conn.now) → IsTrue tx.old.conn.now.in_transaction → OnErr result (Fell S.Store tx.old.conn.now tx.new.conn.now) }
    ensures stopped { HasCleanDisk (state S.Store tx.new.conn.now) → IsTrue tx.old.conn.now.in_transaction → IfErr result (λ e. ExecutesInside 0 sql.now (bound params.now) (state S.Store tx.old.conn.now) (state S.Store tx.new.conn.now) (Err e)) }
    ensures survives { Survives (state S.Store tx.old.conn.now) (state S.Store tx.new.conn.now) (λ _. ⊥) }
{
    match tx.execute(sql, params) {
        Ok(_) => Ok(()),
        Err(error) => Err(error),
    }
}

/// Makes the tables and the text `version` within a transaction.
fn make_in<S: Alter>(tx: &mut Transaction<'_, S>) -> Result<(), Error>
    ensures same_reference { tx.new.conn.ghost_name ≡ tx.old.conn.ghost_name }
    ensures made { HasCleanDisk (state S.Store tx.new.conn.now) → (k : Contents) → Begins S.Store true tx.old.conn.now k → OnOk result (Makes S.Store tx.old.conn.now tx.new.conn.now k) }
    ensures told { HasCleanDisk (state S.Store tx.new.conn.now) → IsTrue tx.old.conn.now.in_transaction → OnOk result (IsTrue (state S.Store tx.old.conn.now).is_open) }
    ensures fell { HasCleanDisk (state S.Store tx.new.conn.now) → IsTrue tx.old.conn.now.in_transaction → OnErr result (Fell S.Store tx.old.conn.now tx.new.conn.now) }
    ensures reason { HasCleanDisk (state S.Store tx.new.conn.now) → (k : Contents) → Begins S.Store true tx.old.conn.now k → IfErr result (IsReason (state S.Store tx.old.conn.now) (state S.Store tx.new.conn.now)) }
    ensures survives { Survives (state S.Store tx.old.conn.now) (state S.Store tx.new.conn.now) (λ _. ⊥) }
{
    run(
        tx,
        "CREATE TABLE grps (id INTEGER PRIMARY KEY AUTOINCREMENT, name TEXT NOT NULL UNIQUE) STRICT",
        &[],
    )?;
    run(
        tx,
        "CREATE TABLE entries (grp INTEGER NOT NULL REFERENCES grps (id), stamp TEXT NOT NULL, body TEXT NOT NULL, PRIMARY KEY (grp, stamp)) STRICT",
        &[],
    )?;
    run(
        tx,
        "CREATE TABLE named (name TEXT NOT NULL PRIMARY KEY, body TEXT NOT NULL) STRICT",
        &[],
    )?;
    run(
        tx,
        "INSERT INTO named (name, body) VALUES (?1, ?2) ON CONFLICT (name) DO UPDATE SET body = excluded.body",
        params!["version", "2"],
    )
}

/// Makes the tables of the second version beside those of the first, within a transaction.
fn widen<S: Alter>(tx: &mut Transaction<'_, S>) -> Result<(), Error>
    ensures same_reference { tx.new.conn.ghost_name ≡ tx.old.conn.ghost_name }
    ensures widened { HasCleanDisk (state S.Store tx.new.conn.now) → (k : Contents) → Begins S.Store false tx.old.conn.now k → OnOk result (Widens S.Store tx.old.conn.now tx.new.conn.now) }
    ensures told { HasCleanDisk (state S.Store tx.new.conn.now) → IsTrue tx.old.conn.now.in_transaction → OnOk result (IsTrue (state S.Store tx.old.conn.now).is_open) }
    ensures fell { HasCleanDisk (state S.Store tx.new.conn.now) → IsTrue tx.old.conn.now.in_transaction → OnErr result (Fell S.Store tx.old.conn.now tx.new.conn.now) }
    ensures survives { Survives (state S.Store tx.old.conn.now) (state S.Store tx.new.conn.now) (λ _. ⊥) }
{
    run(
        tx,
        "CREATE TABLE grps (id INTEGER PRIMARY KEY AUTOINCREMENT, name TEXT NOT NULL UNIQUE) STRICT",
        &[],
    )?;
    run(
        tx,
        "CREATE TABLE entries (grp INTEGER NOT NULL REFERENCES grps (id), stamp TEXT NOT NULL, body TEXT NOT NULL, PRIMARY KEY (grp, stamp)) STRICT",
        &[],
    )
}

/// Copies the records of the first version into the tables of the second, within a transaction.
fn copy_items<S: Alter>(tx: &mut Transaction<'_, S>) -> Result<(), Error>
    ensures same_reference { tx.new.conn.ghost_name ≡ tx.old.conn.ghost_name }
    ensures copied { HasCleanDisk (state S.Store tx.new.conn.now) → HasItems S.Store tx.old.conn.now → OnOk result (AreCopied S.Store tx.old.conn.now tx.new.conn.now) }
    ensures fell { HasCleanDisk (state S.Store tx.new.conn.now) → HasItems S.Store tx.old.conn.now → OnErr result (Fell S.Store tx.old.conn.now tx.new.conn.now) }
    ensures survives { Survives (state S.Store tx.old.conn.now) (state S.Store tx.new.conn.now) (λ _. ⊥) }
{
    let rows = tx.query_all(
        "SELECT grp, stamp, body FROM items ORDER BY grp, stamp",
        &[],
    )?;
    copy_all(tx, &rows)
}

/// Empties the table of the first version and tells the second, within a transaction.
fn settle<S: Alter>(tx: &mut Transaction<'_, S>) -> Result<(), Error>
    ensures same_reference { tx.new.conn.ghost_name ≡ tx.old.conn.ghost_name }
    ensures settled { HasCleanDisk (state S.Store tx.new.conn.now) → HasCopies S.Store tx.old.conn.now → OnOk result (Settles S.Store tx.old.conn.now tx.new.conn.now) }
    ensures fell { HasCleanDisk (state S.Store tx.new.conn.now) → IsTrue tx.old.conn.now.in_transaction → OnErr result (Fell S.Store tx.old.conn.now tx.new.conn.now) }
    ensures survives { Survives (state S.Store tx.old.conn.now) (state S.Store tx.new.conn.now) (λ _. ⊥) }
{
    run(tx, "DELETE FROM items", &[])?;
    run(
        tx,
        "INSERT INTO named (name, body) VALUES (?1, ?2) ON CONFLICT (name) DO UPDATE SET body = excluded.body",
        params!["version", "2"],
    )
}

/// Makes a store of the first version one of the second within a transaction.
fn move_in<S: Alter>(tx: &mut Transaction<'_, S>) -> Result<(), Error>
    ensures same_reference { tx.new.conn.ghost_name ≡ tx.old.conn.ghost_name }
    ensures made { HasCleanDisk (state S.Store tx.new.conn.now) → (k : Contents) → Begins S.Store false tx.old.conn.now k → OnOk result (Makes S.Store tx.old.conn.now tx.new.conn.now k) }
    ensures emptied { HasCleanDisk (state S.Store tx.new.conn.now) → (k : Contents) → Begins S.Store false tx.old.conn.now k → OnOk result ((state S.Store tx.new.conn.now).now.trees 0 ≡ []) }
    ensures told { HasCleanDisk (state S.Store tx.new.conn.now) → IsTrue tx.old.conn.now.in_transaction → OnOk result (IsTrue (state S.Store tx.old.conn.now).is_open) }
    ensures opened { HasCleanDisk (state S.Store tx.new.conn.now) → IsTrue tx.old.conn.now.in_transaction → IsTrue (state S.Store tx.new.conn.now).is_open → OnErr result (IsTrue (state S.Store tx.old.conn.now).is_open) }
    ensures fell { HasCleanDisk (state S.Store tx.new.conn.now) → (k : Contents) → Begins S.Store false tx.old.conn.now k → OnErr result (Fell S.Store tx.old.conn.now tx.new.conn.now) }
    ensures survives { Survives (state S.Store tx.old.conn.now) (state S.Store tx.new.conn.now) (λ _. ⊥) }
{
    widen(tx)?;
    copy_items(tx)?;
    settle(tx)
}

/// Makes a store what it becomes, within a transaction.
fn turn_in<S: Alter>(tx: &mut Transaction<'_, S>, is_new: bool) -> Result<(), Error>
    ensures same_reference { tx.new.conn.ghost_name ≡ tx.old.conn.ghost_name }
    ensures made { HasCleanDisk (state S.Store tx.new.conn.now) → (k : Contents) → Begins S.Store is_new tx.old.conn.now k → OnOk result (Makes S.Store tx.old.conn.now tx.new.conn.now k) }
    ensures emptied { HasCleanDisk (state S.Store tx.new.conn.now) → is_new ≡ false → (k : Contents) → Begins S.Store false tx.old.conn.now k → OnOk result ((state S.Store tx.new.conn.now).now.trees 0 ≡ []) }
    ensures told { HasCleanDisk (state S.Store tx.new.conn.now) → IsTrue tx.old.conn.now.in_transaction → OnOk result (IsTrue (state S.Store tx.old.conn.now).is_open) }
    ensures opened { HasCleanDisk (state S.Store tx.new.conn.now) → IsTrue tx.old.conn.now.in_transaction → IsTrue (state S.Store tx.new.conn.now).is_open → OnErr result (IsTrue (state S.Store tx.old.conn.now).is_open) }
    ensures fell { HasCleanDisk (state S.Store tx.new.conn.now) → (k : Contents) → Begins S.Store is_new tx.old.conn.now k → OnErr result (Fell S.Store tx.old.conn.now tx.new.conn.now) }
    ensures reason { HasCleanDisk (state S.Store tx.new.conn.now) → IsTrue is_new → (k : Contents) → Begins S.Store true tx.old.conn.now k → IfErr result (IsReason (state S.Store tx.old.conn.now) (state S.Store tx.new.conn.now)) }
    ensures survives { Survives (state S.Store tx.old.conn.now) (state S.Store tx.new.conn.now) (λ _. ⊥) }
{
    if is_new {
        return make_in(tx);
    }
    move_in(tx)
}

/// Makes a store what it becomes, in one commit.
pub(crate) fn make<S: Alter>(conn: &mut Connection<S>, is_new: bool) -> Result<(), Error>
    requires { conn.old.in_transaction ≡ false }
    ensures made { HasCleanDisk (state S.Store conn.new) → (k : Contents) → MayBecome S.Store is_new conn.old k → OnOk result (Stands S.Store conn.new × (contents_now S.Store conn.new ≡ k)) }
    ensures emptied { HasCleanDisk (state S.Store conn.new) → is_new ≡ false → (k : Contents) → MayBecome S.Store false conn.old k → OnOk result ((state S.Store conn.new).now.trees 0 ≡ []) }
    ensures told { HasCleanDisk (state S.Store conn.new) → OnOk result (IsTrue (state S.Store conn.old).is_open) }
    ensures opened { HasCleanDisk (state S.Store conn.new) → IsTrue (state S.Store conn.new).is_open → OnErr result (IsTrue (state S.Store conn.old).is_open) }
    ensures failed { HasCleanDisk (state S.Store conn.new) → (k : Contents) → MayBecome S.Store is_new conn.old k → IsTrue (state S.Store conn.new).is_open → OnErr result (Rests S.Store conn.new × ((state S.Store conn.new).now ≡ (state S.Store conn.old).now)) }
    ensures reason { HasCleanDisk (state S.Store conn.new) → IsTrue is_new → (k : Contents) → MayBecome S.Store true conn.old k → IsTrue (state S.Store conn.old).is_open → IfErr result (IsReason (state S.Store conn.old) (state S.Store conn.new)) }
    ensures counts { (state S.Store conn.old).faults ≤ (state S.Store conn.new).faults }
    ensures left { HasCleanDisk (state S.Store conn.new) → (k : Contents) → MayBecome S.Store is_new conn.old k → LeavesOr S.Store k conn.old conn.new }
    ensures idle { conn.new.in_transaction ≡ false }
    ensures clean { doubt (state S.Store conn.old).is_clean ≤ doubt (state S.Store conn.new).is_clean }
{
    let mut tx = conn.transaction();
    turn_in(&mut tx, is_new)?;
    tx.commit()
}
