//! One put and one append, each a commit.
ghost use Rattle.std.specs.Prelude.{◌≡◌, ◌≤◌, ◌⊎◌, [], IsTrue, OnOk, OnErr};
ghost use Rattle.store_tables.specs.Texts.{Tables};
ghost use Rattle.store_tables.specs.Known.{IsSecond};
ghost use Rattle.store_tables.specs.Within.{Within, Fell, IsIdOf};
ghost use Rattle.sqlite_keeper.specs.Contents.{Contents, Text, Sound, Stands, Inside, Adds, AddsOn, LeavesItself, contents_now, with_text, appended, MayLeave};
ghost use Rattle.sqlite.specs.State.{HasCleanDisk, Survives};
ghost use Rattle.sqlite.specs.Held.{state};
ghost use Rattle.sqlite_trees.specs.View.{doubt};

use budget_ports::Record;
use field_values::Txt;
use sqlite::types::ValueRef;
use sqlite::{Alter, Connection, Error, Transaction, params};
use store_tables::{enter, group_id};

/// Puts a text under a name, in place of the one that was there.
fn put<S: Alter>(conn: &mut Connection<S>, name: &str, text: &str) -> Result<(), Error>
    ensures done { HasCleanDisk (state S.Store conn.new) → Stands S.Store conn.old → OnOk result (Stands S.Store conn.new × (contents_now S.Store conn.new ≡ with_text (contents_now S.Store conn.old) name.now text.now)) }
    ensures failed { HasCleanDisk (state S.Store conn.new) → Stands S.Store conn.old → IsTrue (state S.Store conn.new).is_open → OnErr result (Stands S.Store conn.new × (contents_now S.Store conn.new ≡ contents_now S.Store conn.old)) }
    ensures left { HasCleanDisk (state S.Store conn.new) → Stands S.Store conn.old → (k : Contents) → MayLeave S.Store conn.new k → MayLeave S.Store conn.old k ⊎ (k ≡ with_text (contents_now S.Store conn.old) name.now text.now) }
    ensures alone { HasCleanDisk (state S.Store conn.new) → Stands S.Store conn.old → OnOk result (LeavesItself S.Store conn.new) }
    ensures clean { doubt (state S.Store conn.old).is_clean ≤ doubt (state S.Store conn.new).is_clean }
{
    conn.execute(
        "INSERT INTO named (name, body) VALUES (?1, ?2) ON CONFLICT (name) DO UPDATE SET body = excluded.body",
        params![name, text],
    )?;
    Ok(())
}

/// Puts a text under a name, in place of the one that was there, where the connection is open.
pub(crate) fn try_put<S: Alter>(
    conn: &mut Connection<S>,
    name: &str,
    text: &str,
) -> Result<(), Error>
    ensures sound { Sound S.Store conn.old → Sound S.Store conn.new }
    ensures told { HasCleanDisk (state S.Store conn.new) → Sound S.Store conn.old → IsTrue (state S.Store conn.new).is_open → IsTrue (state S.Store conn.old).is_open }
    ensures done { HasCleanDisk (state S.Store conn.new) → Sound S.Store conn.old → OnOk result (contents_now S.Store conn.new ≡ with_text (contents_now S.Store conn.old) name.now text.now) }
    ensures failed { HasCleanDisk (state S.Store conn.new) → Sound S.Store conn.old → IsTrue (state S.Store conn.new).is_open → OnErr result (contents_now S.Store conn.new ≡ contents_now S.Store conn.old) }
    ensures left { HasCleanDisk (state S.Store conn.new) → Sound S.Store conn.old → (k : Contents) → MayLeave S.Store conn.new k → MayLeave S.Store conn.old k ⊎ (IsTrue (state S.Store conn.old).is_open × (k ≡ with_text (contents_now S.Store conn.old) name.now text.now)) }
    ensures alone { HasCleanDisk (state S.Store conn.new) → Sound S.Store conn.old → OnOk result ((k : Contents) → MayLeave S.Store conn.new k → IsTrue (state S.Store conn.new).is_open × (k ≡ contents_now S.Store conn.new)) }
    ensures clean { doubt (state S.Store conn.old).is_clean ≤ doubt (state S.Store conn.new).is_clean }
{
    let _ready = conn.prepare(
        "INSERT INTO named (name, body) VALUES (?1, ?2) ON CONFLICT (name) DO UPDATE SET body = excluded.body",
    )?;
    put(conn, name, text)
}

/// Adds records to a group whose id is known, within a transaction, in turn: those whose key is not there.
fn add_all<S: Alter>(tx: &mut Transaction<'_, S>, id: i64, batch: &[Record]) -> Result<(), Error>
    ensures same_reference { tx.new.conn.ghost_name ≡ tx.old.conn.ghost_name }
    ensures done { HasCleanDisk (state S.Store tx.new.conn.now) → (t : Tables) → IsSecond t → (group : Text) → Within t S.Store tx.old.conn.now → IsIdOf ((state S.Store tx.old.conn.now).now.trees t.grps_tree) id group → OnOk result (AddsOn t S.Store tx.old.conn.now tx.new.conn.now group batch.now []) }
    ensures fell { HasCleanDisk (state S.Store tx.new.conn.now) → (t : Tables) → IsSecond t → (group : Text) → Within t S.Store tx.old.conn.now → IsIdOf ((state S.Store tx.old.conn.now).now.trees t.grps_tree) id group → OnErr result (Fell S.Store tx.old.conn.now tx.new.conn.now) }
    ensures survives { Survives (state S.Store tx.old.conn.now) (state S.Store tx.new.conn.now) (λ _. ⊥) }
{
    for kept in batch {
        enter(
            tx,
            id,
            ValueRef::Text(kept.key.as_str().as_bytes()),
            ValueRef::Text(kept.body.as_str().as_bytes()),
        )?;
    }
    Ok(())
}

/// Adds the records whose key is not there within a transaction: a group is made where it is not there and a record comes.
fn append_in<S: Alter>(
    tx: &mut Transaction<'_, S>,
    group: &Txt,
    batch: &[Record],
) -> Result<(), Error>
    ensures same_reference { tx.new.conn.ghost_name ≡ tx.old.conn.ghost_name }
    ensures done { HasCleanDisk (state S.Store tx.new.conn.now) → Inside S.Store tx.old.conn.now → OnOk result (Adds S.Store tx.old.conn.now tx.new.conn.now group.now batch.now) }
    ensures fell { HasCleanDisk (state S.Store tx.new.conn.now) → Inside S.Store tx.old.conn.now → OnErr result (Fell S.Store tx.old.conn.now tx.new.conn.now) }
    ensures survives { Survives (state S.Store tx.old.conn.now) (state S.Store tx.new.conn.now) (λ _. ⊥) }
{
    if batch.is_empty() {
        return Ok(());
    }
    let id = group_id(tx, ValueRef::Text(group.as_str().as_bytes()))?;
    add_all(tx, id, batch)
}

/// Adds the records whose key is not there, in one commit.
fn append<S: Alter>(conn: &mut Connection<S>, group: &Txt, batch: &[Record]) -> Result<(), Error>
    ensures done { HasCleanDisk (state S.Store conn.new) → Stands S.Store conn.old → OnOk result (Stands S.Store conn.new × (contents_now S.Store conn.new ≡ appended (contents_now S.Store conn.old) group.now batch.now)) }
    ensures failed { HasCleanDisk (state S.Store conn.new) → Stands S.Store conn.old → IsTrue (state S.Store conn.new).is_open → OnErr result (Stands S.Store conn.new × (contents_now S.Store conn.new ≡ contents_now S.Store conn.old)) }
    ensures left { HasCleanDisk (state S.Store conn.new) → Stands S.Store conn.old → (k : Contents) → MayLeave S.Store conn.new k → MayLeave S.Store conn.old k ⊎ (k ≡ appended (contents_now S.Store conn.old) group.now batch.now) }
    ensures alone { HasCleanDisk (state S.Store conn.new) → Stands S.Store conn.old → OnOk result (LeavesItself S.Store conn.new) }
    ensures clean { doubt (state S.Store conn.old).is_clean ≤ doubt (state S.Store conn.new).is_clean }
{
    if !conn.is_autocommit() {
        return Err(Error::InvalidQuery);
    }
    let mut tx = conn.transaction();
    append_in(&mut tx, group, batch)?;
    tx.commit()
}

/// Adds the records whose key is not there, in one commit, where the connection is still open.
pub(crate) fn try_append<S: Alter>(
    conn: &mut Connection<S>,
    group: &Txt,
    batch: &[Record],
) -> Result<(), Error>
    ensures sound { Sound S.Store conn.old → Sound S.Store conn.new }
    ensures told { HasCleanDisk (state S.Store conn.new) → Sound S.Store conn.old → IsTrue (state S.Store conn.new).is_open → IsTrue (state S.Store conn.old).is_open }
    ensures done { HasCleanDisk (state S.Store conn.new) → Sound S.Store conn.old → OnOk result (contents_now S.Store conn.new ≡ appended (contents_now S.Store conn.old) group.now batch.now) }
    ensures failed { HasCleanDisk (state S.Store conn.new) → Sound S.Store conn.old → IsTrue (state S.Store conn.new).is_open → OnErr result (contents_now S.Store conn.new ≡ contents_now S.Store conn.old) }
    ensures left { HasCleanDisk (state S.Store conn.new) → Sound S.Store conn.old → (k : Contents) → MayLeave S.Store conn.new k → MayLeave S.Store conn.old k ⊎ (IsTrue (state S.Store conn.old).is_open × (k ≡ appended (contents_now S.Store conn.old) group.now batch.now)) }
    ensures alone { HasCleanDisk (state S.Store conn.new) → Sound S.Store conn.old → OnOk result ((k : Contents) → MayLeave S.Store conn.new k → IsTrue (state S.Store conn.new).is_open × (k ≡ contents_now S.Store conn.new)) }
    ensures clean { doubt (state S.Store conn.old).is_clean ≤ doubt (state S.Store conn.new).is_clean }
{
    let _ready = conn.prepare(
        "INSERT INTO entries (grp, stamp, body) VALUES (?1, ?2, ?3) ON CONFLICT DO NOTHING",
    )?;
    append(conn, group, batch)
}
