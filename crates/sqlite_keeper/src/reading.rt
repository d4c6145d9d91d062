//! What is read of the tables: a text, the records of a group, the names.
ghost use Rattle.std.specs.Prelude.{◌≡◌, ◌≤◌, [], map, IsTrue, IfOk, OnOk};
ghost use Rattle.std.specs.FinMap as maps;
ghost use Rattle.std.specs.Ordering.{is_lt};
ghost use Rattle.sqlite.specs.State.{HasCleanDisk};
ghost use Rattle.sqlite.specs.Held.{state};
ghost use Rattle.sqlite_trees.specs.View.{doubt};
ghost use Rattle.store_tables.specs.Texts.{Tables};
ghost use Rattle.budget_ports.specs.Contents.{records_after};
ghost use Rattle.budget_ports.specs.Keeper.{Rise};
ghost use Rattle.sqlite_keeper.specs.Contents.{Contents, Sound, contents_now, MayLeave, text_cmp};
ghost use Rattle.sqlite_keeper.specs.Contents.{Stands};
ghost use Rattle.sqlite_keeper.specs.Queries.{Finds, ShowsText, record_in, name_in, last_key, is_next, Climb};

use crate::asking::ask;
use budget_ports::Record;
use field_values::{Items, Txt};
use sqlite::{Alter, Connection, Error, Row, params};
use std::alloc::Global;

/// The text that the rows show, if there is one.
fn text_in(rows: &[Row]) -> Result<Option<Txt>, Error>
    ensures { IfOk result (λ o. (k : Contents) (name : _) → ShowsText k name rows.now → o ≡ maps.get k.texts name) }
{
    match rows {
        [] => Ok(None),
        [row, ..] => Ok(Some(Txt::new(row.get(0)?))),
    }
}

/// The text under a name, if there is one.
pub(crate) fn try_get<S: Alter>(conn: &mut Connection<S>, name: &Txt) -> Result<Option<Txt>, Error>
    ensures text { HasCleanDisk (state S.Store conn.new) → Sound S.Store conn.old → IfOk result (λ o. o ≡ maps.get (contents_now S.Store conn.old).texts name.now) }
    ensures sound { Sound S.Store conn.old → Sound S.Store conn.new }
    ensures told { HasCleanDisk (state S.Store conn.new) → Sound S.Store conn.old → IsTrue (state S.Store conn.new).is_open → IsTrue (state S.Store conn.old).is_open }
    ensures same { HasCleanDisk (state S.Store conn.new) → Sound S.Store conn.old → IsTrue (state S.Store conn.new).is_open → contents_now S.Store conn.new ≡ contents_now S.Store conn.old }
    ensures known { HasCleanDisk (state S.Store conn.new) → Sound S.Store conn.old → OnOk result (IsTrue (state S.Store conn.new).is_open) }
    ensures left { HasCleanDisk (state S.Store conn.new) → Sound S.Store conn.old → (k : Contents) → MayLeave S.Store conn.new k → MayLeave S.Store conn.old k }
    ensures clean { doubt (state S.Store conn.old).is_clean ≤ doubt (state S.Store conn.new).is_clean }
{
    let rows = ask(
        conn,
        "SELECT body FROM named WHERE name = ?1",
        params![name.as_str()],
    )?;
    text_in(&rows)
}

/// Whether the key is above that of the last record so far, if there is one, and not empty.
fn is_above(found: &[Record], key: &Txt) -> bool
    ensures { result ≡ is_lt (text_cmp (last_key found.now) key.now) }
{
    match found {
        [] => "" < key.as_str(),
        [.., last] => last.key < *key,
    }
}

/// The records that rows show, where their keys rise.
fn records_in(alloc: Global, rows: &[Row]) -> Result<Items<Record>, Error>
    ensures records { IfOk result (λ rs. rs ≡ map record_in rows.now) }
    ensures rise { IfOk result Rise }
{
    let mut found: Vec<Record> = Vec::new(alloc);
    for row in rows {
        let record = Record {
            key: Txt::new(row.get(0)?),
            body: Txt::new(row.get(1)?),
        };
        if !is_above(&found, &record.key) {
            return Err(Error::InvalidQuery);
        }
        found.push(record)?;
    }
    Ok(Items::new(found))
}

/// The records of a group whose key is above `after`, where the group is found.
fn since_of<S: Alter>(
    alloc: Global,
    conn: &mut Connection<S>,
    found: &[Row],
    after: &Txt,
) -> Result<Items<Record>, Error>
    ensures records { HasCleanDisk (state S.Store conn.new) → (t : Tables) (group : _) → Finds t S.Store conn.old group found.now → IfOk result (λ rs. rs ≡ records_after (contents_now S.Store conn.old) group after.now) }
    ensures rise { IfOk result Rise }
    ensures sound { Sound S.Store conn.old → Sound S.Store conn.new }
    ensures told { HasCleanDisk (state S.Store conn.new) → IsTrue (state S.Store conn.new).is_open → IsTrue (state S.Store conn.old).is_open }
    ensures same { HasCleanDisk (state S.Store conn.new) → Sound S.Store conn.old → IsTrue (state S.Store conn.new).is_open → contents_now S.Store conn.new ≡ contents_now S.Store conn.old }
    ensures known { HasCleanDisk (state S.Store conn.new) → Stands S.Store conn.old → OnOk result (IsTrue (state S.Store conn.new).is_open) }
    ensures left { HasCleanDisk (state S.Store conn.new) → Sound S.Store conn.old → (k : Contents) → MayLeave S.Store conn.new k → MayLeave S.Store conn.old k }
    ensures clean { doubt (state S.Store conn.old).is_clean ≤ doubt (state S.Store conn.new).is_clean }
{
    match found {
        [] => Ok(Items::new(Vec::new(alloc))),
        [row, ..] => {
            let id: i64 = row.get(0)?;
            let rows = ask(
                conn,
                "SELECT stamp, body FROM entries WHERE grp = ?1 AND stamp > ?2 ORDER BY stamp",
                params![id, after.as_str()],
            )?;
            records_in(alloc, &rows)
        }
    }
}

/// The records of a group whose key is above `after`.
pub(crate) fn try_since<S: Alter>(
    alloc: Global,
    conn: &mut Connection<S>,
    group: &Txt,
    after: &Txt,
) -> Result<Items<Record>, Error>
    ensures records { HasCleanDisk (state S.Store conn.new) → Sound S.Store conn.old → IfOk result (λ rs. rs ≡ records_after (contents_now S.Store conn.old) group.now after.now) }
    ensures rise { IfOk result Rise }
    ensures sound { Sound S.Store conn.old → Sound S.Store conn.new }
    ensures told { HasCleanDisk (state S.Store conn.new) → Sound S.Store conn.old → IsTrue (state S.Store conn.new).is_open → IsTrue (state S.Store conn.old).is_open }
    ensures same { HasCleanDisk (state S.Store conn.new) → Sound S.Store conn.old → IsTrue (state S.Store conn.new).is_open → contents_now S.Store conn.new ≡ contents_now S.Store conn.old }
    ensures known { HasCleanDisk (state S.Store conn.new) → Sound S.Store conn.old → OnOk result (IsTrue (state S.Store conn.new).is_open) }
    ensures left { HasCleanDisk (state S.Store conn.new) → Sound S.Store conn.old → (k : Contents) → MayLeave S.Store conn.new k → MayLeave S.Store conn.old k }
    ensures clean { doubt (state S.Store conn.old).is_clean ≤ doubt (state S.Store conn.new).is_clean }
{
    let found = ask(
        conn,
        "SELECT id FROM grps WHERE name = ?1",
        params![group.as_str()],
    )?;
    since_of(alloc, conn, &found, after)
}

/// Whether the name is above the last one.
fn is_next(found: &[Txt], name: &Txt) -> bool
    ensures { result ≡ is_next found.now name.now }
{
    match found {
        [] => true,
        [.., last] => *last < *name,
    }
}

/// The names that rows show, where they rise.
fn names_in(alloc: Global, rows: &[Row]) -> Result<Items<Txt>, Error>
    ensures names { IfOk result (λ names. names ≡ map name_in rows.now) }
    ensures rise { IfOk result Climb }
{
    let mut found: Vec<Txt> = Vec::new(alloc);
    for row in rows {
        let name = Txt::new(row.get(0)?);
        if !is_next(&found, &name) {
            return Err(Error::InvalidQuery);
        }
        found.push(name)?;
    }
    Ok(Items::new(found))
}

/// The names that have a text.
pub(crate) fn try_names<S: Alter>(
    alloc: Global,
    conn: &mut Connection<S>,
) -> Result<Items<Txt>, Error>
    ensures names { HasCleanDisk (state S.Store conn.new) → Sound S.Store conn.old → IfOk result (λ names. names ≡ maps.keys (contents_now S.Store conn.old).texts) }
    ensures sound { Sound S.Store conn.old → Sound S.Store conn.new }
    ensures told { HasCleanDisk (state S.Store conn.new) → Sound S.Store conn.old → IsTrue (state S.Store conn.new).is_open → IsTrue (state S.Store conn.old).is_open }
    ensures same { HasCleanDisk (state S.Store conn.new) → Sound S.Store conn.old → IsTrue (state S.Store conn.new).is_open → contents_now S.Store conn.new ≡ contents_now S.Store conn.old }
    ensures known { HasCleanDisk (state S.Store conn.new) → Sound S.Store conn.old → OnOk result (IsTrue (state S.Store conn.new).is_open) }
    ensures left { HasCleanDisk (state S.Store conn.new) → Sound S.Store conn.old → (k : Contents) → MayLeave S.Store conn.new k → MayLeave S.Store conn.old k }
    ensures clean { doubt (state S.Store conn.old).is_clean ≤ doubt (state S.Store conn.new).is_clean }
{
    let rows = ask(conn, "SELECT name FROM named ORDER BY name", &[])?;
    names_in(alloc, &rows)
}
