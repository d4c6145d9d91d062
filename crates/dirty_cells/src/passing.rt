//! One pass over the transactions that changes touch, before the changes or after them: each is looked up once.
ghost use Rattle.std.specs.Prelude.{◌≡◌, ℕ, List, Some, ◌+◌, ◌*◌, ◌≤◌, ◌<◌, ◌^◌, ◌+ℤ◌, ◌||◌, unsigned_abs, length, flat_map, map as list_map, false, OnOk, IfOk};
ghost use Rattle.std.specs.BTreeSet as set;
ghost use Rattle.finite_sums.specs.Sums.{total};
ghost use Rattle.finite_sums.specs.Maps.{Text, text_cmp, is_among};
ghost use Rattle.book_rows.specs.Live.{category_of};
ghost use Rattle.book_rows.specs.Months.{month_of_row};
ghost use Rattle.envelope_cells.specs.BudgetOf.{share};
ghost use Rattle.envelope_cells.specs.Parts.{value_at, sum_name};
ghost use Rattle.dirty_cells.specs.Changes.{share_at, signed};
ghost use Rattle.dirty_cells.specs.Marking.{listed, category_at, month_at_tx, number_of, earlier, earliest};

use crate::touching::put_one;
use book_rows::{Book, TxRow, is_month};
use envelope_cells::{CellKind, CellName, CellValues, counts, month_number};
use field_values::{NoMemory, Steps, Txt};
use std::collections::BTreeSet;
use std::sync::ledger::Ledger;

/// The number of a month, or 0 where it is none.
fn number_of(month: u32) -> u32
    ensures { result ≡ number_of month }
{
    if is_month(month) {
        month_number(month)
    } else {
        0
    }
}

/// The less of a number and that of a month, if there is one.
pub(crate) fn earlier(number: u32, month: Option<u32>) -> u32
    ensures { result ≡ earlier number month }
{
    match month {
        None => number,
        Some(month) => number.min(number_of(month)),
    }
}

/// An amount, or on the way out its opposite.
fn signed_amount(into: bool, amount: i64) -> i128
    ensures value { result ≡ signed into amount }
{
    let amount = i128::from(amount);
    if into { amount } else { -amount }
}

/// The month of a transaction, YYYYMM, where it has a day.
fn month_of(row: &TxRow) -> Option<u32>
    ensures { result ≡ month_of_row row.now }
{
    match row.date {
        None => None,
        Some(day) => Some(day / 100),
    }
}

/// Puts what a transaction of a category adds into its sum, or takes it out. It is at most one step.
fn move_share<G: Ledger>(
    sums: &mut CellValues,
    book: &Book,
    row: &TxRow,
    category: &Txt,
    into: bool,
    steps: &mut Steps<G>,
) -> Result<(), NoMemory>
    requires category { category_of book.now.rows row.now ≡ Some category.now }
    requires room { (c : Text) (m : ℕ) → unsigned_abs (value_at sums.old (sum_name c m)) + 2 ^ 64 < 2 ^ 127 }
    ensures moved { OnOk result ((c : Text) (m : ℕ) → value_at sums.new (sum_name c m) ≡ value_at sums.old (sum_name c m) +ℤ signed into (share book.now.rows c m row.now)) }
    ensures cost { steps.new ≤ steps.old + 1 }
{
    if let Some(day) = row.date {
        if counts(book, row, steps) {
            let name = CellName::make(day / 100, CellKind::Sum, category)?;
            sums.add(name, signed_amount(into, row.amount))?;
        }
    }
    Ok(())
}

/// Puts what a transaction adds into its sum, or takes it out, and puts its category among others. It is at most one step.
fn pass_row<G: Ledger>(
    sums: &mut CellValues,
    book: &Book,
    categories: &mut BTreeSet<Txt>,
    row: &TxRow,
    into: bool,
    steps: &mut Steps<G>,
) -> Result<(), NoMemory>
    requires { (c : Text) (m : ℕ) → unsigned_abs (value_at sums.old (sum_name c m)) + 2 ^ 64 < 2 ^ 127 }
    ensures moved { OnOk result ((c : Text) (m : ℕ) → value_at sums.new (sum_name c m) ≡ value_at sums.old (sum_name c m) +ℤ signed into (share book.now.rows c m row.now)) }
    ensures more { OnOk result ((q : Text) → set.contains text_cmp categories.new q ≡ (is_among text_cmp (listed (category_of book.now.rows row.now)) q || set.contains text_cmp categories.old q)) }
    ensures cost { steps.new ≤ steps.old + 1 }
{
    if let Some(category) = book.resolved_category(row) {
        put_one(categories, category)?;
        move_share(sums, book, row, category, into, steps)?;
    }
    Ok(())
}

/// The same of the transaction of an id, if there is one, and tells its month. It is one look-up, and at most two steps.
fn pass_one<G: Ledger>(
    sums: &mut CellValues,
    book: &Book,
    categories: &mut BTreeSet<Txt>,
    id: &Txt,
    into: bool,
    steps: &mut Steps<G>,
) -> Result<Option<u32>, NoMemory>
    requires { (c : Text) (m : ℕ) → unsigned_abs (value_at sums.old (sum_name c m)) + 2 ^ 64 < 2 ^ 127 }
    ensures moved { OnOk result ((c : Text) (m : ℕ) → value_at sums.new (sum_name c m) ≡ value_at sums.old (sum_name c m) +ℤ signed into (share_at book.now.rows c m id.now)) }
    ensures more { OnOk result ((q : Text) → set.contains text_cmp categories.new q ≡ (is_among text_cmp (category_at book.now.rows id.now) q || set.contains text_cmp categories.old q)) }
    ensures month { IfOk result (λ m. m ≡ month_at_tx book.now.rows id.now) }
    ensures cost { steps.new ≤ steps.old + 2 }
{
    match book.tx(id, steps) {
        None => Ok(None),
        Some(row) => {
            pass_row(sums, book, categories, row, into, steps)?;
            Ok(month_of(row))
        }
    }
}

/// Puts what some transactions add into their sums, or takes it out, puts their categories among others, and tells the least of a number
/// and those of their months.
pub(crate) fn pass_all<G: Ledger>(
    sums: &mut CellValues,
    book: &Book,
    categories: &mut BTreeSet<Txt>,
    ids: &[Txt],
    into: bool,
    number: u32,
    steps: &mut Steps<G>,
) -> Result<u32, NoMemory>
    requires live { book.now.spent ≡ false }
    requires room { (c : Text) (m : ℕ) → unsigned_abs (value_at sums.old (sum_name c m)) + 2 ^ 53 * length ids.now + 2 ^ 64 < 2 ^ 127 }
    ensures moved { OnOk result ((c : Text) (m : ℕ) → value_at sums.new (sum_name c m) ≡ value_at sums.old (sum_name c m) +ℤ signed into (total (share_at book.now.rows c m) ids.now)) }
    ensures more { OnOk result ((q : Text) → set.contains text_cmp categories.new q ≡ (is_among text_cmp (flat_map (category_at book.now.rows) ids.now) q || set.contains text_cmp categories.old q)) }
    ensures first { IfOk result (λ n. n ≡ earliest number (list_map (month_at_tx book.now.rows) ids.now)) }
    ensures cost { steps.new ≤ steps.old + 2 * length ids.now }
{
    book.sizes();
    let mut first = number;
    for id in ids {
        let month = pass_one(sums, book, categories, id, into, steps)?;
        first = earlier(first, month);
    }
    Ok(first)
}
