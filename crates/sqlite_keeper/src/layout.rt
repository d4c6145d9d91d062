//! Whether a schema is the tables of one of the two versions and nothing else, or nothing at all.
ghost use Rattle.std.specs.Prelude.{◌≡◌, ◌<◌, true, IsTrue};
ghost use Rattle.sqlite_keeper.specs.Tables.{column_of, words, loose, items, named, grps, counters, entries, to_grps, index_of, IsBare, IsLone, IsKeyed, IsOurs, first_schema, made_schema, moved_schema, no_schema};

use sqlite_schema::schema::{Action, Column, Index, Kind, Reference, Schema, Table};
use sqlite_value::keys::Collation;
use sqlite_value::value::{Bytes, Value};

/// Whether the bytes are this text.
fn is_text(bytes: &Bytes, text: &str) -> bool
    ensures same { IsTrue result → bytes.now ≡ text.now }
    ensures whole { bytes.now ≡ text.now → IsTrue result }
{
    bytes.as_slice() == text.as_bytes()
}

/// Whether the column has this name, no default and no collation of its own.
fn is_column(column: &Column, name: &str, is_strict: bool, not_null: bool) -> bool
    ensures same { IsTrue result → column.now ≡ column_of name.now column.now.kind is_strict not_null }
    ensures whole { column.now ≡ column_of name.now column.now.kind is_strict not_null → IsTrue result }
{
    is_text(&column.name, name)
        && column.is_strict == is_strict
        && column.not_null == not_null
        && matches!(column.default, Value::Null)
        && matches!(column.collation, Collation::Binary)
}

/// Whether the column is a text that is never null.
fn is_words(column: &Column, name: &str) -> bool
    ensures same { IsTrue result → column.now ≡ words name.now }
    ensures whole { column.now ≡ words name.now → IsTrue result }
{
    matches!(column.kind, Kind::Text) && is_column(column, name, true, true)
}

/// Whether the column is a number.
fn is_number(column: &Column, name: &str, not_null: bool) -> bool
    ensures same { IsTrue result → column.now ≡ column_of name.now Kind.Integer true not_null }
    ensures whole { column.now ≡ column_of name.now Kind.Integer true not_null → IsTrue result }
{
    matches!(column.kind, Kind::Integer) && is_column(column, name, true, not_null)
}

/// Whether the column is of any kind.
fn is_loose(column: &Column, name: &str) -> bool
    ensures same { IsTrue result → column.now ≡ loose name.now }
    ensures whole { column.now ≡ loose name.now → IsTrue result }
{
    matches!(column.kind, Kind::Any) && is_column(column, name, false, false)
}

/// Whether the table has no check and no computed default.
fn is_bare(table: &Table) -> bool
    ensures same { IsTrue result → IsBare table.now }
    ensures whole { IsBare table.now → IsTrue result }
{
    table.checks.roots.as_slice().is_empty()
        && table.computed.as_slice().is_empty()
        && table.stamps.places.as_slice().is_empty()
        && table.stamps.terms.roots.as_slice().is_empty()
        && table.stamps.formats.as_slice().is_empty()
}

/// Whether the table has no rowid column, no reference and no AUTOINCREMENT.
fn is_lone(table: &Table) -> bool
    ensures same { IsTrue result → IsLone table.now }
    ensures whole { IsLone table.now → IsTrue result }
{
    table.key.is_none() && table.references.as_slice().is_empty() && !table.is_counted
}

/// Whether the places are these.
fn are_places(columns: &[usize], places: &[usize]) -> bool
    ensures same { IsTrue result → columns.now ≡ places.now }
    ensures whole { columns.now ≡ places.now → IsTrue result }
{
    columns == places
}

/// Whether the primary key is these places.
fn is_primary(table: &Table, places: &[usize]) -> bool
    ensures same { IsTrue result → table.now.primary ≡ places.now }
    ensures whole { table.now.primary ≡ places.now → IsTrue result }
{
    table.primary.as_slice() == places
}

/// Whether there is one unique key, in plain order, and it is these places.
fn is_keyed(table: &Table, places: &[usize]) -> bool
    ensures same { IsTrue result → IsKeyed places.now table.now }
    ensures whole { IsKeyed places.now table.now → IsTrue result }
{
    let [unique] = table.uniques.as_slice() else {
        return false;
    };
    let [order] = table.orders.as_slice() else {
        return false;
    };
    if unique.as_slice() != places {
        return false;
    }
    order.digits == 0
}

/// Whether the table is that of the records in the first version.
fn is_items(table: &Table) -> bool
    ensures same { IsTrue result → table.now ≡ items 0 }
    ensures whole { table.now ≡ items 0 → IsTrue result }
{
    let [group, stamp, body] = table.columns.as_slice() else {
        return false;
    };
    is_text(&table.name, "items")
        && table.tree == 0
        && is_words(group, "grp")
        && is_words(stamp, "stamp")
        && is_words(body, "body")
        && is_primary(table, &[1, 2])
        && is_keyed(table, &[1, 2])
        && is_lone(table)
        && is_bare(table)
}

/// Whether the table is that of the texts.
fn is_named(table: &Table, tree: u32) -> bool
    ensures same { IsTrue result → table.now ≡ named tree }
    ensures whole { table.now ≡ named tree → IsTrue result }
{
    let [name, body] = table.columns.as_slice() else {
        return false;
    };
    is_text(&table.name, "named")
        && table.tree == tree
        && is_words(name, "name")
        && is_words(body, "body")
        && is_primary(table, &[1])
        && is_keyed(table, &[1])
        && is_lone(table)
        && is_bare(table)
}

/// Whether the table is that of the groups.
fn is_grps(table: &Table, tree: u32) -> bool
    ensures same { IsTrue result → table.now ≡ grps tree }
    ensures whole { table.now ≡ grps tree → IsTrue result }
{
    let [id, name] = table.columns.as_slice() else {
        return false;
    };
    is_text(&table.name, "grps")
        && table.tree == tree
        && is_number(id, "id", false)
        && is_words(name, "name")
        && matches!(table.key, Some(0))
        && is_primary(table, &[0])
        && is_keyed(table, &[2])
        && table.references.as_slice().is_empty()
        && table.is_counted
        && is_bare(table)
}

/// Whether the table is the one that SQLite makes for AUTOINCREMENT.
fn is_counters(table: &Table, tree: u32) -> bool
    ensures same { IsTrue result → table.now ≡ counters tree }
    ensures whole { table.now ≡ counters tree → IsTrue result }
{
    let [name, count] = table.columns.as_slice() else {
        return false;
    };
    is_text(&table.name, "sqlite_sequence")
        && table.tree == tree
        && is_loose(name, "name")
        && is_loose(count, "seq")
        && is_primary(table, &[])
        && table.uniques.as_slice().is_empty()
        && table.orders.as_slice().is_empty()
        && is_lone(table)
        && is_bare(table)
}

/// Whether the foreign key is that of an entry to its group.
fn is_reference(reference: &Reference) -> bool
    ensures same { IsTrue result → reference.now ≡ to_grps }
    ensures whole { reference.now ≡ to_grps → IsTrue result }
{
    let [parent] = reference.parent_columns.as_slice() else {
        return false;
    };
    is_text(parent, "id")
        && is_text(&reference.parent, "grps")
        && are_places(reference.columns.as_slice(), &[1])
        && matches!(reference.on_delete, Action::NoAction)
        && matches!(reference.on_update, Action::NoAction)
        && !reference.is_deferred
}

/// Whether the table is that of the entries.
fn is_entries(table: &Table, tree: u32) -> bool
    ensures same { IsTrue result → table.now ≡ entries tree }
    ensures whole { table.now ≡ entries tree → IsTrue result }
{
    let [group, stamp, body] = table.columns.as_slice() else {
        return false;
    };
    let [reference] = table.references.as_slice() else {
        return false;
    };
    is_text(&table.name, "entries")
        && table.tree == tree
        && is_number(group, "grp", true)
        && is_words(stamp, "stamp")
        && is_words(body, "body")
        && table.key.is_none()
        && is_primary(table, &[1, 2])
        && is_keyed(table, &[1, 2])
        && is_reference(reference)
        && !table.is_counted
        && is_bare(table)
}

/// Whether the index is the one that a table's key has.
fn is_index(index: &Index, name: &str, tree: u32, places: &[usize]) -> bool
    requires { 0 < tree }
    ensures same { IsTrue result → index.now ≡ index_of name.now tree places.now }
    ensures whole { index.now ≡ index_of name.now tree places.now → IsTrue result }
{
    is_text(&index.name, name)
        && index.tree == tree
        && index.table == tree - 1
        && index.columns.as_slice() == places
        && index.order.digits == 0
        && index.is_unique
}

/// Whether the schema is the tables of the first version with their indexes, and nothing else.
#[tactic(auto, using(crate::proofs::Layouts::first_indexes))]
pub(crate) fn is_first(schema: &Schema) -> bool
    ensures same { IsTrue result → schema.now ≡ first_schema }
    ensures whole { schema.now ≡ first_schema → IsTrue result }
{
    let [items, named] = schema.tables.as_slice() else {
        return false;
    };
    let [by_place, by_name] = schema.indexes.as_slice() else {
        return false;
    };
    if !schema.views.as_slice().is_empty() {
        return false;
    }
    if !is_items(items) {
        return false;
    }
    if !is_named(named, 2) {
        return false;
    }
    if !is_index(by_place, "sqlite_autoindex_items_1", 1, &[1, 2]) {
        return false;
    }
    is_index(by_name, "sqlite_autoindex_named_1", 3, &[1])
}

/// Whether the schema is the tables of a new store with their indexes, and nothing else.
#[tactic(auto, using(crate::proofs::Layouts::made_indexes))]
fn is_made(schema: &Schema) -> bool
    ensures same { IsTrue result → schema.now ≡ made_schema }
    ensures whole { schema.now ≡ made_schema → IsTrue result }
{
    let [grps, counters, entries, named] = schema.tables.as_slice() else {
        return false;
    };
    let [by_group, by_place, by_name] = schema.indexes.as_slice() else {
        return false;
    };
    if !schema.views.as_slice().is_empty() {
        return false;
    }
    if !is_grps(grps, 0) {
        return false;
    }
    if !is_counters(counters, 2) {
        return false;
    }
    if !is_entries(entries, 3) {
        return false;
    }
    if !is_named(named, 5) {
        return false;
    }
    if !is_index(by_group, "sqlite_autoindex_grps_1", 1, &[2]) {
        return false;
    }
    if !is_index(by_place, "sqlite_autoindex_entries_1", 4, &[1, 2]) {
        return false;
    }
    is_index(by_name, "sqlite_autoindex_named_1", 6, &[1])
}

/// Whether the tables are those of a store of the first version that became one of the second.
#[tactic(auto, using(crate::proofs::Layouts::moved_indexes))]
fn is_moved(schema: &Schema) -> bool
    ensures same { IsTrue result → schema.now ≡ moved_schema }
    ensures whole { schema.now ≡ moved_schema → IsTrue result }
{
    let [items, named, grps, counters, entries] = schema.tables.as_slice() else {
        return false;
    };
    let [by_item, by_name, by_group, by_place] = schema.indexes.as_slice() else {
        return false;
    };
    if !schema.views.as_slice().is_empty() {
        return false;
    }
    if !is_items(items) {
        return false;
    }
    if !is_named(named, 2) {
        return false;
    }
    if !is_grps(grps, 4) {
        return false;
    }
    if !is_counters(counters, 6) {
        return false;
    }
    if !is_entries(entries, 7) {
        return false;
    }
    if !is_index(by_item, "sqlite_autoindex_items_1", 1, &[1, 2]) {
        return false;
    }
    if !is_index(by_name, "sqlite_autoindex_named_1", 3, &[1]) {
        return false;
    }
    if !is_index(by_group, "sqlite_autoindex_grps_1", 5, &[2]) {
        return false;
    }
    is_index(by_place, "sqlite_autoindex_entries_1", 8, &[1, 2])
}

/// Whether the schema is the tables of the second version with their indexes, and nothing else.
pub(crate) fn is_ours(schema: &Schema) -> bool
    ensures same { IsTrue result → IsOurs schema.now }
    ensures whole { IsOurs schema.now → IsTrue result }
{
    is_made(schema) || is_moved(schema)
}

/// Whether nothing is listed.
pub(crate) fn is_blank(schema: &Schema) -> bool
    ensures same { IsTrue result → schema.now ≡ no_schema }
    ensures whole { schema.now ≡ no_schema → IsTrue result }
{
    schema.tables.as_slice().is_empty()
        && schema.indexes.as_slice().is_empty()
        && schema.views.as_slice().is_empty()
}
