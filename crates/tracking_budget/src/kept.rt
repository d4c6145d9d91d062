//! What a category brings along from the months before.
ghost use Rattle.std.specs.Prelude.{◌≡◌, ◌+◌, ◌<◌, ◌≤◌, ◌^◌, ◌+ℤ◌, unsigned_abs, IfOk};
ghost use Rattle.envelope_cells.specs.Parts.{AreSums, weight_before};
ghost use Rattle.tracking_budget.specs.Tracked.{tracked_of, own, kept_in};
ghost use Rattle.tracking_budget.specs.Parts.{IsSeen};

use book_rows::{Book, budget_id};
use envelope_cells::{CellKind, CellName, CellValues, month_at};
use field_values::{NoMemory, Txt};
use std::alloc::Global;

/// What the rows say of a category in one month.
#[derive(Clone, Copy, Debug, PartialEq, Eq)]
pub(crate) struct Seen {
    /// What its transactions add up to.
    pub sum: i128,
    /// What it is given.
    pub given: i64,
    /// Whether it carries over.
    pub carries: bool,
}

/// What the rows say of a category in a month.
pub(crate) fn seen_in(
    alloc: Global,
    book: &Book,
    sums: &CellValues,
    id: &Txt,
    number: u32,
) -> Result<Seen, NoMemory>
    requires number { number < 2760 }
    requires sums { AreSums sums.now book.now.rows }
    ensures { IfOk result (λ s. IsSeen (tracked_of book.now.rows) id.now number s) }
{
    let month = month_at(number);
    let name = CellName::make(month, CellKind::Sum, id)?;
    let row_id = budget_id(alloc, id, month)?;
    let (given, carries) = match book.track_row(&row_id) {
        None => (0, false),
        Some(row) => (row.amount, row.carryover),
    };
    Ok(Seen {
        sum: sums.at(&name),
        given,
        carries,
    })
}

/// What a month alone leaves of a category.
pub(crate) fn own_of(is_income: bool, given: i64, sum: i128) -> i128
    requires { unsigned_abs sum ≤ 2 ^ 120 }
    ensures value { result ≡ own is_income given sum }
    ensures small { unsigned_abs result ≤ 2 ^ 121 }
{
    if is_income {
        i128::from(given) - sum
    } else {
        i128::from(given) + sum
    }
}

/// Both together.
pub(crate) fn plus(a: i128, b: i128) -> i128
    requires a { unsigned_abs a ≤ 2 ^ 122 }
    requires b { unsigned_abs b ≤ 2 ^ 122 }
    ensures { result ≡ a +ℤ b }
{
    a + b
}

/// With what a month alone leaves of a category.
fn with_month(later: i128, is_income: bool, seen: Seen) -> i128
    requires later { unsigned_abs later ≤ 2 ^ 120 }
    requires sum { unsigned_abs seen.sum ≤ 2 ^ 120 }
    ensures { result ≡ later +ℤ own is_income seen.given seen.sum }
{
    plus(later, own_of(is_income, seen.given, seen.sum))
}

/// What comes to a category from the month before. It goes back while the months before carry over, and no farther.
pub(crate) fn kept_of(
    alloc: Global,
    book: &Book,
    sums: &CellValues,
    id: &Txt,
    is_income: bool,
    number: u32,
) -> Result<i128, NoMemory>
    requires number { number < 2760 }
    requires sums { AreSums sums.now book.now.rows }
    requires small { weight_before (tracked_of book.now.rows) id.now number ≤ 2 ^ 120 }
    ensures { IfOk result (λ z. z ≡ kept_in (tracked_of book.now.rows) is_income id.now number) }
{
    let mut sum = 0i128;
    let mut at = number;
    'back: while at > 0 {
        let seen = seen_in(alloc, book, sums, id, at - 1)?;
        if !seen.carries {
            return Ok(sum);
        }
        sum = with_month(sum, is_income, seen);
        at -= 1;
    }
    Ok(sum)
}
