//! Setting a column of a transaction, and of the rows whose ids name months, with the indexes.
ghost use Rattle.std.specs.Prelude.{◌≡◌, ℕ, IfOk, OnOk, IsSome, ◌||◌, true, None, Some, unwrap_or};
ghost use Rattle.std.specs.BTreeMap.{IsOrdered};
ghost use Rattle.std.specs.BTreeSet as set;
ghost use Rattle.std.specs.FinMap as map;
ghost use Rattle.std.specs.Ordering.{nat_cmp};
ghost use Rattle.field_values.specs.Names.{IsName};
ghost use Rattle.finite_sums.specs.Maps.{Texts, map_of, text_cmp};
ghost use Rattle.book_rows.specs.Tables.{AreNamed, blank_row, with_column};
ghost use Rattle.book_rows.specs.Rules.{tx_table, budget_table, month_table};
ghost use Rattle.book_rows.specs.Months.{month_of_row};
ghost use Rattle.book_rows.specs.Book.{IsTxIndex, HasKeys, MovesKeys, keys_of, parent_of, moves, has_named, is_month_of};

use crate::column::Column;
use crate::indexes::{Dated, Index, change, change_month};
use crate::months::{budget_month, month_row_month};
use crate::rows::{BudgetRow, MonthRow, TxRow, copied};
use crate::table::{Row, Table};
use field_values::{NoMemory, Txt, Value};
use std::alloc::Global;
use std::collections::{BTreeMap, BTreeSet};

/// The indexes of transactions.
#[derive(Debug, Drop)]
pub(crate) struct TxIndex {
    /// The parts of each transaction.
    pub children: Index,
    /// The transactions of each account.
    pub accounts: Index,
    /// The transactions of each category, by their own column.
    pub categories: Index,
    /// The transactions of each schedule.
    pub schedules: Index,
    /// The transactions of each month.
    pub months: Dated,
}

/// Under which keys a transaction is found.
#[derive(Debug, Drop)]
pub(crate) struct Keys {
    /// The transaction that it is a part of.
    pub parent: Option<Txt>,
    /// Its account.
    pub account: Option<Txt>,
    /// Its category.
    pub category: Option<Txt>,
    /// Its schedule.
    pub schedule: Option<Txt>,
    /// Its month.
    pub month: Option<u32>,
}

/// The month of a transaction.
pub(crate) fn month_of_row(row: &TxRow) -> Option<u32>
    ensures { result ≡ month_of_row row.now }
{
    match row.date {
        Some(day) => Some(day / 100),
        None => None,
    }
}

/// The transaction that one is a part of.
fn parent_of(row: &TxRow) -> Result<Option<Txt>, NoMemory>
    ensures { IfOk result (λ p. p ≡ parent_of row.now) }
{
    if row.is_child {
        copied(&row.parent_id)
    } else {
        Ok(None)
    }
}

/// Under which keys a transaction is found.
fn keys_of(row: &TxRow) -> Result<Keys, NoMemory>
    ensures { IfOk result (λ keys. keys ≡ keys_of (Some row.now)) }
{
    Ok(Keys {
        parent: parent_of(row)?,
        account: copied(&row.acct)?,
        category: copied(&row.category)?,
        schedule: copied(&row.schedule)?,
        month: month_of_row(row),
    })
}

/// Sets a column of a transaction, and tells under which keys it was found and is found then.
fn set_keyed(row: &mut TxRow, column: Column, value: &Value) -> Result<(Keys, Keys), NoMemory>
    ensures row { OnOk result (row.new ≡ tx_table.set column value.now row.old) }
    ensures keys { IfOk result (λ keys. keys ≡ (keys_of (Some row.old), keys_of (Some row.new))) }
{
    let before = keys_of(row)?;
    row.set(column, value)?;
    let after = keys_of(row)?;
    Ok((before, after))
}

/// Puts a new transaction of which one column alone is known, and tells its keys: those of none, and its own.
#[cold]
#[inline(never)]
fn add_keyed(
    rows: &mut BTreeMap<Txt, TxRow>,
    id: &Txt,
    column: Column,
    value: &Value,
) -> Result<(Keys, Keys), NoMemory>
    requires { IsOrdered text_cmp rows.old }
    ensures row { OnOk result (map_of rows.new ≡ map.insert (map_of rows.old) id.now (tx_table.set column value.now (blank_row tx_table id.now))) }
    ensures keys { IfOk result (λ keys. keys ≡ (keys_of None, keys_of (Some (tx_table.set column value.now (blank_row tx_table id.now))))) }
    ensures ordered { IsOrdered text_cmp rows.new }
    ensures named { IsName id.now → AreNamed (map_of rows.old) → AreNamed (map_of rows.new) }
{
    let mut row = TxRow::blank(id.copy()?);
    let keys = set_keyed(&mut row, column, value)?;
    rows.insert(id.copy()?, row)?;
    Ok(keys)
}

/// Sets a column of a transaction, which is made where it is not there, and tells under which keys it was found and is found then.
pub(crate) fn set_or_add(
    rows: &mut BTreeMap<Txt, TxRow>,
    id: &Txt,
    column: Column,
    value: &Value,
) -> Result<(Keys, Keys), NoMemory>
    ensures row { OnOk result (map_of rows.new ≡ map.insert (map_of rows.old) id.now (tx_table.set column value.now (unwrap_or (map.get (map_of rows.old) id.now) (blank_row tx_table id.now)))) }
    ensures keys { IfOk result (λ keys. keys ≡ (keys_of (map.get (map_of rows.old) id.now), keys_of (map.get (map_of rows.new) id.now))) }
    ensures ordered { IsOrdered text_cmp rows.new }
    ensures named { IsName id.now → AreNamed (map_of rows.old) → AreNamed (map_of rows.new) }
{
    if let Some(row) = rows.get_mut(id) {
        return set_keyed(row, column, value);
    }
    add_keyed(rows, id, column, value)
}

/// Whether setting this column may move a transaction to other keys.
fn moves(column: Column) -> bool
    ensures moves { result ≡ moves column }
    ensures known { result ≡ true → IsSome (tx_table.kind column) }
{
    match column {
        Column::Acct
        | Column::Category
        | Column::Date
        | Column::IsChild
        | Column::ParentId
        | Column::Schedule => true,
        _ => false,
    }
}

/// Moves a transaction to other keys.
fn change_keys(
    alloc: Global,
    index: &mut TxIndex,
    id: &Txt,
    before: &Keys,
    after: &Keys,
) -> Result<(), NoMemory>
    requires { HasKeys index.old id.now before.now }
    ensures { OnOk result (MovesKeys index.old index.new id.now after.now) }
{
    change(
        alloc,
        &mut index.children,
        id,
        &before.parent,
        &after.parent,
    )?;
    change(
        alloc,
        &mut index.accounts,
        id,
        &before.account,
        &after.account,
    )?;
    change(
        alloc,
        &mut index.categories,
        id,
        &before.category,
        &after.category,
    )?;
    change(
        alloc,
        &mut index.schedules,
        id,
        &before.schedule,
        &after.schedule,
    )?;
    change_month(&mut index.months, id, before.month, after.month)
}

/// Sets a column of a transaction that may move it to other keys.
fn set_key(
    alloc: Global,
    txs: &mut Table<TxRow>,
    index: &mut TxIndex,
    id: &Txt,
    column: Column,
    value: &Value,
) -> Result<(), NoMemory>
    requires index { IsTxIndex index.old txs.old }
    requires name { IsName id.now }
    requires known { IsSome (tx_table.kind column) }
    ensures rows { OnOk result (txs.new ≡ with_column tx_table id.now column value.now txs.old) }
    ensures index { OnOk result (IsTxIndex index.new txs.new) }
{
    let (before, after) = txs.set_keyed(id, column, value)?;
    change_keys(alloc, index, id, &before, &after)
}

/// Sets a column of a transaction.
pub(crate) fn set_tx(
    alloc: Global,
    txs: &mut Table<TxRow>,
    index: &mut TxIndex,
    id: &Txt,
    column: Column,
    value: &Value,
) -> Result<(), NoMemory>
    requires index { IsTxIndex index.old txs.old }
    requires name { IsName id.now }
    ensures rows { OnOk result (txs.new ≡ with_column tx_table id.now column value.now txs.old) }
    ensures index { OnOk result (IsTxIndex index.new txs.new) }
{
    if moves(column) {
        set_key(alloc, txs, index, id, column, value)
    } else {
        txs.set(id, column, value)
    }
}

/// Puts a month among those that are named, if there is one.
fn note_month(named: &mut BTreeSet<u32>, month: Option<u32>) -> Result<(), NoMemory>
    ensures { OnOk result ((m : ℕ) → set.contains nat_cmp named.new m ≡ (is_month_of m month || set.contains nat_cmp named.old m)) }
{
    if let Some(month) = month {
        named.insert(month)?;
    }
    Ok(())
}

/// Sets a column of what a category is given in a month.
pub(crate) fn set_budget(
    budgets: &mut Table<BudgetRow>,
    named: &mut BTreeSet<u32>,
    id: &Txt,
    column: Column,
    value: &Value,
) -> Result<(), NoMemory>
    requires { IsName id.now }
    ensures rows { OnOk result (budgets.new ≡ with_column budget_table id.now column value.now budgets.old) }
    ensures named { (months : Texts MonthRow) → ((m : ℕ) → set.contains nat_cmp named.old m ≡ has_named budgets.old months m) → OnOk result ((m : ℕ) → set.contains nat_cmp named.new m ≡ has_named budgets.new months m) }
{
    if BudgetRow::kind(column).is_none() {
        return Ok(());
    }
    budgets.set(id, column, value)?;
    note_month(named, budget_month(id))
}

/// Sets a column of what is held back in a month.
pub(crate) fn set_month(
    months: &mut Table<MonthRow>,
    named: &mut BTreeSet<u32>,
    id: &Txt,
    column: Column,
    value: &Value,
) -> Result<(), NoMemory>
    requires { IsName id.now }
    ensures rows { OnOk result (months.new ≡ with_column month_table id.now column value.now months.old) }
    ensures named { (budgets : Texts BudgetRow) → ((m : ℕ) → set.contains nat_cmp named.old m ≡ has_named budgets months.old m) → OnOk result ((m : ℕ) → set.contains nat_cmp named.new m ≡ has_named budgets months.new m) }
{
    if MonthRow::kind(column).is_none() {
        return Ok(());
    }
    months.set(id, column, value)?;
    note_month(named, month_row_month(id))
}
