//! The rows of one dataset, by id.
ghost use Rattle.std.specs.Prelude.{◌≡◌, ◌<◌, ◌^◌, OnOk, IfOk, IsSome, unwrap_or, length};
ghost use Rattle.std.specs.Option.{option_copied};
ghost use Rattle.std.specs.BTreeMap.{IsOrdered};
ghost use Rattle.std.specs.FinMap as map;
ghost use Rattle.finite_sums.specs.Maps.{text_cmp, map_of};
ghost use Rattle.field_values.specs.Names.{IsName};
ghost use Rattle.book_rows.specs.Tables.{Table as TableRules, AreNamed, blank_row, with_column};
ghost use Rattle.book_rows.specs.Rules.{tx_table};
ghost use Rattle.book_rows.specs.Book.{keys_of};

use crate::column::Column;
use crate::kind::Kind;
use crate::rows::TxRow;
use crate::txs::{Keys, set_or_add};
use field_values::{NoMemory, Txt, Value};
use std::alloc::Global;
use std::collections::BTreeMap;
use std::marker::Model;

/// A row of some dataset.
pub(crate) trait Row: Sized + Drop {
    /// What the dataset's rows are.
    ghost table: { TableRules Self };

    /// How a column is read, where the dataset has it.
    fn kind(column: Column) -> Option<Kind>
        ensures { result ≡ table.kind column };

    /// The row of which no column is known.
    fn blank(id: Txt) -> Self
        ensures { result ≡ blank_row table id };

    /// Sets a column.
    fn set(&mut self, column: Column, value: &Value) -> Result<(), NoMemory>
        ensures { OnOk result (self.new ≡ table.set column value.now self.old) };
}

/// Rows by id.
#[derive(Debug, Drop)]
pub(crate) struct Table<R> {
    rows: BTreeMap<Txt, R>,
}

impl<R> Model for Table<R> {
    ghost use Rattle.std.specs.BTreeMap.{IsOrdered};
    ghost use Rattle.finite_sums.specs.Maps.{Texts, text_cmp, map_of};
    ghost use Rattle.book_rows.specs.Tables.{texts_code, AreNamed};

    ghost Value = { Texts R };

    ghost coded = { texts_code R.code };

    ghost view = { λ t. map_of t.rows };

    ghost invariant = { λ t. IsOrdered text_cmp t.rows × AreNamed (map_of t.rows) };
}

/// Puts a new row of which one column alone is known. A row by value is large, so nothing but this and [`add_keyed`] holds one: a call
/// that finds its row doesn't pay for the room.
#[cold]
#[inline(never)]
fn add_row<R: Row>(
    rows: &mut BTreeMap<Txt, R>,
    id: &Txt,
    column: Column,
    value: &Value,
) -> Result<(), NoMemory>
    requires { IsOrdered text_cmp rows.old }
    ensures row { OnOk result (map_of rows.new ≡ map.insert (map_of rows.old) id.now (R.table.set column value.now (blank_row R.table id.now))) }
    ensures ordered { IsOrdered text_cmp rows.new }
    ensures named { IsName id.now → AreNamed (map_of rows.old) → AreNamed (map_of rows.new) }
{
    let mut row = R::blank(id.copy()?);
    row.set(column, value)?;
    rows.insert(id.copy()?, row)?;
    Ok(())
}

/// Sets a column of a row, which is made where it is not there.
fn set_row<R: Row>(
    rows: &mut BTreeMap<Txt, R>,
    id: &Txt,
    column: Column,
    value: &Value,
) -> Result<(), NoMemory>
    ensures row { OnOk result (map_of rows.new ≡ map.insert (map_of rows.old) id.now (R.table.set column value.now (unwrap_or (map.get (map_of rows.old) id.now) (blank_row R.table id.now)))) }
    ensures ordered { IsOrdered text_cmp rows.new }
    ensures named { IsName id.now → AreNamed (map_of rows.old) → AreNamed (map_of rows.new) }
{
    if let Some(row) = rows.get_mut(id) {
        return row.set(column, value);
    }
    add_row(rows, id, column, value)
}

impl<R: Row> Table<R> {
    /// No rows.
    pub fn new(alloc: Global) -> Table<R>
        ensures { result ≡ map.empty }
    {
        Table {
            rows: BTreeMap::new(alloc),
        }
    }

    /// Sets a column of the row of an id. A column that the dataset doesn't have changes nothing.
    pub fn set(&mut self, id: &Txt, column: Column, value: &Value) -> Result<(), NoMemory>
        requires { IsName id.now }
        ensures { OnOk result (self.new ≡ with_column R.table id.now column value.now self.old) }
    {
        if R::kind(column).is_none() {
            return Ok(());
        }
        set_row(&mut self.rows, id, column, value)
    }

    /// The row of an id.
    pub fn get(&self, id: &Txt) -> Option<&R>
        ensures { option_copied result ≡ map.get self.now id.now }
    {
        self.rows.get(id)
    }

    /// All rows, by id.
    pub fn all(&self) -> &BTreeMap<Txt, R>
        ensures { result.now.entries ≡ map.entries self.now }
    {
        &self.rows
    }

    /// Each id of a row is a name.
    pub fn tell_names(&self)
        ensures { AreNamed self.now }
    {
        let _ = &self.rows;
    }

    /// How many rows there are.
    pub fn len(&self) -> usize
        ensures count { result ≡ length (map.entries self.now) }
        ensures small { length (map.entries self.now) < 2 ^ 63 }
    {
        self.rows.len()
    }
}

impl Table<TxRow> {
    /// Sets a column of the transaction of an id, and tells under which keys it was found and is found then.
    pub fn set_keyed(
        &mut self,
        id: &Txt,
        column: Column,
        value: &Value,
    ) -> Result<(Keys, Keys), NoMemory>
        requires name { IsName id.now }
        requires known { IsSome (tx_table.kind column) }
        ensures rows { OnOk result (self.new ≡ with_column tx_table id.now column value.now self.old) }
        ensures keys { IfOk result (λ keys. keys ≡ (keys_of (map.get self.old id.now), keys_of (map.get self.new id.now))) }
    {
        set_or_add(&mut self.rows, id, column, value)
    }
}
