//! One record is added to the two tables, within a transaction.
ghost use Rattle.std.specs.Prelude.{◌≡◌, [], Some, IsTrue, IfOk, OnOk, OnErr};
ghost use Rattle.sqlite.specs.State.{HasCleanDisk, Survives};
ghost use Rattle.sqlite.specs.Held.{state};
ghost use Rattle.sqlite_value.specs.Value.{owned};
ghost use Rattle.sqlite_value.specs.declared.value.Value.TheVariants.{Text as Words};
ghost use Rattle.store_tables.specs.Texts.{Tables, Texts};
ghost use Rattle.store_tables.specs.Layout.{Layout};
ghost use Rattle.sqlite_rules.specs.Lists.{Has};
ghost use Rattle.store_tables.specs.Copied.{IsItemRow, CopiesOn, with_shown};
ghost use Rattle.store_tables.specs.Joined.{Text, with_record};
ghost use Rattle.store_tables.specs.Met.{IsMet};
ghost use Rattle.store_tables.specs.Within.{Within, records_now, IsIdOf, Goes, Fell, ShowsGroups};

use sqlite::types::ValueRef;
use sqlite::{Alter, Error, Row, Transaction};

/// The ids of the groups that have a name.
fn find<S: Alter>(tx: &mut Transaction<'_, S>, name: ValueRef<'_>) -> Result<Vec<Row>, Error>
    ensures same_reference { tx.new.conn.ghost_name ≡ tx.old.conn.ghost_name }
    ensures found { HasCleanDisk (state S.Store tx.new.conn.now) → (t : Tables) → Layout t → Texts t → (group : Text) → owned name.entry ≡ Words group → Within t S.Store tx.old.conn.now → IfOk result (λ rows. Goes t S.Store tx.old.conn.now tx.new.conn.now (records_now t S.Store tx.old.conn.now) × ShowsGroups ((state S.Store tx.new.conn.now).now.trees t.grps_tree) group rows.items) }
    ensures fell { HasCleanDisk (state S.Store tx.new.conn.now) → OnErr result (Fell S.Store tx.old.conn.now tx.new.conn.now) }
    ensures survives { Survives (state S.Store tx.old.conn.now) (state S.Store tx.new.conn.now) (λ _. ⊥) }
{
    match tx.query_all("SELECT id FROM grps WHERE name = ?1", &[name]) {
        Ok(rows) => Ok(rows),
        Err(error) => Err(error),
    }
}

/// Makes a group, and shows its id.
fn make<S: Alter>(tx: &mut Transaction<'_, S>, name: ValueRef<'_>) -> Result<Vec<Row>, Error>
    ensures same_reference { tx.new.conn.ghost_name ≡ tx.old.conn.ghost_name }
    ensures made { HasCleanDisk (state S.Store tx.new.conn.now) → (t : Tables) → Layout t → Texts t → (group : Text) → owned name.entry ≡ Words group → Within t S.Store tx.old.conn.now → IfOk result (λ rows. Goes t S.Store tx.old.conn.now tx.new.conn.now (records_now t S.Store tx.old.conn.now) × ShowsGroups ((state S.Store tx.new.conn.now).now.trees t.grps_tree) group rows.items) }
    ensures fell { HasCleanDisk (state S.Store tx.new.conn.now) → OnErr result (Fell S.Store tx.old.conn.now tx.new.conn.now) }
    ensures survives { Survives (state S.Store tx.old.conn.now) (state S.Store tx.new.conn.now) (λ _. ⊥) }
{
    match tx.query_all("INSERT INTO grps (name) VALUES (?1) RETURNING id", &[name]) {
        Ok(rows) => Ok(rows),
        Err(error) => Err(error),
    }
}

/// The id that the first row shows.
fn first_id(rows: &[Row]) -> Result<i64, Error>
    ensures { IfOk result (λ id. (groups : _) (name : Text) → ShowsGroups groups name rows.now → IsIdOf groups id name) }
{
    match rows {
        [row, ..] => row.get(0),
        [] => Err(Error::InvalidQuery),
    }
}

/// Adds an entry to a group.
pub fn enter<'x, S: Alter>(
    tx: &mut Transaction<'_, S>,
    id: i64,
    key: ValueRef<'x>,
    body: ValueRef<'x>,
) -> Result<(), Error>
    ensures same_reference { tx.new.conn.ghost_name ≡ tx.old.conn.ghost_name }
    ensures entered { HasCleanDisk (state S.Store tx.new.conn.now) → (t : Tables) → Layout t → Texts t → (group at text : Text) → owned key.entry ≡ Words at → owned body.entry ≡ Words text → Within t S.Store tx.old.conn.now → IsIdOf ((state S.Store tx.old.conn.now).now.trees t.grps_tree) id group → OnOk result (Goes t S.Store tx.old.conn.now tx.new.conn.now (with_record group (records_now t S.Store tx.old.conn.now) at text)) }
    ensures groups { HasCleanDisk (state S.Store tx.new.conn.now) → (t : Tables) → Layout t → Texts t → (group at text : Text) → owned key.entry ≡ Words at → owned body.entry ≡ Words text → Within t S.Store tx.old.conn.now → IsIdOf ((state S.Store tx.old.conn.now).now.trees t.grps_tree) id group → OnOk result ((state S.Store tx.new.conn.now).now.trees t.grps_tree ≡ (state S.Store tx.old.conn.now).now.trees t.grps_tree) }
    ensures fell { HasCleanDisk (state S.Store tx.new.conn.now) → IsTrue tx.old.conn.now.in_transaction → OnErr result (Fell S.Store tx.old.conn.now tx.new.conn.now) }
    ensures survives { Survives (state S.Store tx.old.conn.now) (state S.Store tx.new.conn.now) (λ _. ⊥) }
{
    match tx.execute(
        "INSERT INTO entries (grp, stamp, body) VALUES (?1, ?2, ?3) ON CONFLICT DO NOTHING",
        &[ValueRef::Int(id), key, body],
    ) {
        Ok(_) => Ok(()),
        Err(error) => Err(error),
    }
}

/// The id of a group, which is made where it is not there.
pub fn group_id<S: Alter>(tx: &mut Transaction<'_, S>, name: ValueRef<'_>) -> Result<i64, Error>
    ensures same_reference { tx.new.conn.ghost_name ≡ tx.old.conn.ghost_name }
    ensures at { HasCleanDisk (state S.Store tx.new.conn.now) → (t : Tables) → Layout t → Texts t → (group : Text) → owned name.entry ≡ Words group → Within t S.Store tx.old.conn.now → IfOk result (λ id. Goes t S.Store tx.old.conn.now tx.new.conn.now (records_now t S.Store tx.old.conn.now) × IsIdOf ((state S.Store tx.new.conn.now).now.trees t.grps_tree) id group) }
    ensures fell { HasCleanDisk (state S.Store tx.new.conn.now) → (t : Tables) → Layout t → Texts t → (group : Text) → owned name.entry ≡ Words group → Within t S.Store tx.old.conn.now → OnErr result (Fell S.Store tx.old.conn.now tx.new.conn.now) }
    ensures survives { Survives (state S.Store tx.old.conn.now) (state S.Store tx.new.conn.now) (λ _. ⊥) }
{
    let rows = find(tx, name)?;
    if rows.is_empty() {
        let rows = make(tx, name)?;
        return first_id(&rows);
    }
    first_id(&rows)
}

/// Whether both are the same text.
fn is_same(one: ValueRef<'_>, other: ValueRef<'_>) -> bool
    ensures same { IsTrue result → owned one.entry ≡ owned other.entry }
    ensures whole { (text : Text) → owned one.entry ≡ Words text → owned other.entry ≡ Words text → IsTrue result }
{
    match (one, other) {
        (ValueRef::Text(left), ValueRef::Text(right)) => left == right,
        _ => false,
    }
}

/// The id of a group: the one that is known, where it is of the same group, else with at most two statements.
fn id_of<'x, S: Alter>(
    tx: &mut Transaction<'_, S>,
    name: ValueRef<'x>,
    known: Option<(ValueRef<'x>, i64)>,
) -> Result<i64, Error>
    ensures same_reference { tx.new.conn.ghost_name ≡ tx.old.conn.ghost_name }
    ensures at { HasCleanDisk (state S.Store tx.new.conn.now) → (t : Tables) → Layout t → Texts t → (group : Text) → owned name.entry ≡ Words group → Within t S.Store tx.old.conn.now → IsMet ((state S.Store tx.old.conn.now).now.trees t.grps_tree) known.entry → IfOk result (λ id. Goes t S.Store tx.old.conn.now tx.new.conn.now (records_now t S.Store tx.old.conn.now) × IsIdOf ((state S.Store tx.new.conn.now).now.trees t.grps_tree) id group) }
    ensures fell { HasCleanDisk (state S.Store tx.new.conn.now) → (t : Tables) → Layout t → Texts t → (group : Text) → owned name.entry ≡ Words group → Within t S.Store tx.old.conn.now → OnErr result (Fell S.Store tx.old.conn.now tx.new.conn.now) }
    ensures survives { Survives (state S.Store tx.old.conn.now) (state S.Store tx.new.conn.now) (λ _. ⊥) }
{
    if let Some((last, id)) = known {
        if is_same(last, name) {
            return Ok(id);
        }
    }
    group_id(tx, name)
}

/// Adds the record that a row of a store of the first version shows, with one statement where the known id is that of its group, and
/// answers its group with its id.
fn copy_row<'x, S: Alter>(
    tx: &mut Transaction<'_, S>,
    row: &'x Row,
    known: Option<(ValueRef<'x>, i64)>,
) -> Result<(ValueRef<'x>, i64), Error>
    ensures same_reference { tx.new.conn.ghost_name ≡ tx.old.conn.ghost_name }
    ensures copied { HasCleanDisk (state S.Store tx.new.conn.now) → (t : Tables) → Layout t → Texts t → IsItemRow row.now → Within t S.Store tx.old.conn.now → IsMet ((state S.Store tx.old.conn.now).now.trees t.grps_tree) known.entry → IfOk result (λ met. Goes t S.Store tx.old.conn.now tx.new.conn.now (with_shown (records_now t S.Store tx.old.conn.now) row.now) × IsMet ((state S.Store tx.new.conn.now).now.trees t.grps_tree) (Some met)) }
    ensures fell { HasCleanDisk (state S.Store tx.new.conn.now) → (t : Tables) → Layout t → Texts t → IsItemRow row.now → Within t S.Store tx.old.conn.now → IsMet ((state S.Store tx.old.conn.now).now.trees t.grps_tree) known.entry → OnErr result (Fell S.Store tx.old.conn.now tx.new.conn.now) }
    ensures survives { Survives (state S.Store tx.old.conn.now) (state S.Store tx.new.conn.now) (λ _. ⊥) }
{
    let group = row.get_ref(0)?;
    let key = row.get_ref(1)?;
    let body = row.get_ref(2)?;
    let id = id_of(tx, group, known)?;
    match enter(tx, id, key, body) {
        Ok(()) => Ok((group, id)),
        Err(error) => Err(error),
    }
}

/// Adds the records that the rows of a store of the first version show, in turn: one statement a row, and at most two more where its
/// group is not that of the row before.
pub fn copy_all<S: Alter>(tx: &mut Transaction<'_, S>, rows: &[Row]) -> Result<(), Error>
    ensures same_reference { tx.new.conn.ghost_name ≡ tx.old.conn.ghost_name }
    ensures copied { HasCleanDisk (state S.Store tx.new.conn.now) → (t : Tables) → Layout t → Texts t → ((x : _) → Has rows.now x → IsItemRow x) → Within t S.Store tx.old.conn.now → OnOk result (CopiesOn t S.Store tx.old.conn.now tx.new.conn.now rows.now []) }
    ensures fell { HasCleanDisk (state S.Store tx.new.conn.now) → (t : Tables) → Layout t → Texts t → ((x : _) → Has rows.now x → IsItemRow x) → Within t S.Store tx.old.conn.now → OnErr result (Fell S.Store tx.old.conn.now tx.new.conn.now) }
    ensures survives { Survives (state S.Store tx.old.conn.now) (state S.Store tx.new.conn.now) (λ _. ⊥) }
{
    let mut known = None;
    for row in rows {
        known = Some(copy_row(tx, row, known)?);
    }
    Ok(())
}
