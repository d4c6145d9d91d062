//! The sums of categories, from one pass over the transactions.
ghost use Rattle.std.specs.Prelude.{◌≡◌, ℕ, ◌+◌, ◌*◌, ◌<◌, ◌≤◌, ◌^◌, ◌+ℤ◌, unsigned_abs, length, false, OnOk, IfOk};
ghost use Rattle.std.specs.FinMap as map;
ghost use Rattle.finite_sums.specs.Maps.{Text};
ghost use Rattle.book_rows.specs.Live.{is_counted, is_on_budget, has_parent};
ghost use Rattle.envelope_cells.specs.BudgetOf.{share};
ghost use Rattle.envelope_cells.specs.Parts.{value_at, sum_name, AreSums};

use crate::name::{CellKind, CellName};
use crate::values::CellValues;
use book_rows::{Book, TxRow};
use field_values::{NoMemory, Steps, Txt};
use std::alloc::Global;
use std::sync::ledger::Ledger;

/// Whether a transaction's account stands in the budget.
fn on_budget(book: &Book, row: &TxRow) -> bool
    ensures { result ≡ is_on_budget book.now.rows row.now }
{
    match &row.acct {
        None => false,
        Some(id) => match book.account(id) {
            None => false,
            Some(account) => !account.offbudget,
        },
    }
}

/// Whether what a transaction is a part of is there and was not deleted, if it is a part.
fn parent_stands<G: Ledger>(book: &Book, row: &TxRow, steps: &mut Steps<G>) -> bool
    ensures is { result ≡ has_parent book.now.rows row.now }
    ensures cost { steps.new ≤ steps.old + 1 }
{
    if !row.is_child {
        return true;
    }
    match &row.parent_id {
        None => false,
        Some(id) => match book.tx(id, steps) {
            None => false,
            Some(parent) => !parent.tombstone,
        },
    }
}

/// Whether a transaction counts in the budget. It looks at no transaction but the one that it is a part of.
pub fn counts<G: Ledger>(book: &Book, row: &TxRow, steps: &mut Steps<G>) -> bool
    ensures is { result ≡ is_counted book.now.rows row.now }
    ensures cost { steps.new ≤ steps.old + 1 }
{
    if row.tombstone || row.is_parent || row.date.is_none() || !on_budget(book, row) {
        return false;
    }
    parent_stands(book, row, steps)
}

/// Adds a transaction to the sum of the category to which it resolves, if it counts.
fn add_row<G: Ledger>(
    sums: &mut CellValues,
    book: &Book,
    row: &TxRow,
    steps: &mut Steps<G>,
) -> Result<(), NoMemory>
    requires { (c : Text) (month : ℕ) → unsigned_abs (value_at sums.old (sum_name c month)) + 2 ^ 64 < 2 ^ 127 }
    ensures added { OnOk result ((c : Text) (month : ℕ) → value_at sums.new (sum_name c month) ≡ value_at sums.old (sum_name c month) +ℤ share book.now.rows c month row.now) }
    ensures cost { steps.new ≤ steps.old + 1 }
{
    if let Some(category) = book.resolved_category(row) {
        if let Some(day) = row.date {
            if counts(book, row, steps) {
                let name = CellName::make(day / 100, CellKind::Sum, category)?;
                sums.add(name, i128::from(row.amount))?;
            }
        }
    }
    Ok(())
}

/// The sums of all categories in all months, from one pass over the transactions. A sum has the name of its cell, and one that is
/// not there is 0; a category has one whether it is live or not.
pub fn category_sums<G: Ledger>(
    alloc: Global,
    book: &Book,
    steps: &mut Steps<G>,
) -> Result<CellValues, NoMemory>
    requires { book.now.spent ≡ false }
    ensures sums { IfOk result (λ sums. AreSums sums book.now.rows) }
    ensures cost { steps.new ≤ steps.old + 2 * length (map.entries book.now.rows.txs) }
{
    book.sizes();
    let mut sums = CellValues::new(alloc);
    for (_, row) in book.txs(steps) {
        add_row(&mut sums, book, row, steps)?;
    }
    Ok(sums)
}
