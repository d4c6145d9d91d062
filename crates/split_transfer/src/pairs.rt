//! Pairs of transactions, and the parts of a split one.
ghost use Rattle.std.specs.Prelude.{◌≡◌, not, ◌^◌, ◌≤ℤ◌, pos, neg_ℤ, false, IfOk};
ghost use Rattle.std.specs.Option.{option_copied};
ghost use Rattle.std.specs.FinMap as map;
ghost use Rattle.finite_sums.specs.Sums.{total, only_if};
ghost use Rattle.finite_sums.specs.Maps.{value_or_zero};
ghost use Rattle.split_transfer.specs.Pairs.{live_row, names_back, partner_of, is_kept, parts_of, parts_sum};

use book_edits::checks::is_live;
use book_edits::given::{is_text, same_id};
use book_edits::uncounted::{children, tx};
use book_rows::{Book, TxRow};
use field_values::{NoMemory, Txt};
use std::alloc::Global;

/// The row of a transaction, where it is live: it was not deleted, and what it is a part of, if
/// anything, is there and was not deleted.
pub fn live_row<'a>(book: &'a Book, id: &Txt) -> Option<&'a TxRow>
    ensures { option_copied result ≡ live_row book.now.rows id.now }
{
    let row = tx(book, id)?;
    if is_live(book, row) { Some(row) } else { None }
}

/// Whether another transaction is live and names this one.
fn names_back(book: &Book, id: &Txt, other: &Txt) -> bool
    ensures { result ≡ names_back book.now.rows id.now other.now }
{
    match live_row(book, other) {
        Some(row) => is_text(id, &row.transferred_id),
        None => false,
    }
}

/// The id of the other part of the pair that a live transaction, which has this id and this row, is in: two that name each other.
pub fn partner_of<'a>(book: &Book, id: &Txt, row: &'a TxRow) -> Option<&'a Txt>
    ensures { option_copied result ≡ partner_of book.now.rows id.now row.now }
{
    match &row.transferred_id {
        Some(other) => {
            if !same_id(other, id) && names_back(book, id, other) {
                Some(other)
            } else {
                None
            }
        }
        None => None,
    }
}

/// Whether a transaction is there and was not deleted.
fn is_kept(book: &Book, id: &Txt) -> bool
    ensures { result ≡ is_kept book.now.rows id.now }
{
    match tx(book, id) {
        Some(row) => !row.tombstone,
        None => false,
    }
}

/// The ids of the parts of a transaction that were not deleted, in order.
pub(crate) fn parts_of(alloc: Global, book: &Book, id: &Txt) -> Result<Vec<Txt>, NoMemory>
    requires live { book.now.spent ≡ false }
    ensures { IfOk result (λ v. v.items ≡ parts_of book.now.rows id.now) }
{
    let all = children(book, id)?;
    let mut kept = Vec::new(alloc);
    for part in all.as_slice() {
        if is_kept(book, part) {
            kept.push(part.copy()?)?;
        }
    }
    Ok(kept)
}

/// The amount of a transaction that is there and was not deleted, or else 0.
fn kept_amount(book: &Book, id: &Txt) -> i64
    ensures { result ≡ value_or_zero (λ x. only_if (not x.tombstone) x.amount) (map.get book.now.rows.txs id.now) }
{
    match tx(book, id) {
        Some(row) => { if row.tombstone { 0 } else { row.amount } }
        None => 0,
    }
}

/// What transactions add up to, but for those that were deleted.
fn sum_of(book: &Book, ids: &[Txt]) -> i128
    ensures sum { result ≡ total (λ id. value_or_zero (λ x. only_if (not x.tombstone) x.amount) (map.get book.now.rows.txs id)) ids.now }
    ensures low { neg_ℤ (pos (2 ^ 126)) ≤ℤ result }
    ensures high { result ≤ℤ pos (2 ^ 126) }
{
    let mut sum = 0i128;
    for id in ids {
        sum += i128::from(kept_amount(book, id));
    }
    sum
}

/// What the parts of a transaction that were not deleted add up to.
pub(crate) fn parts_sum(book: &Book, id: &Txt) -> Result<i128, NoMemory>
    requires live { book.now.spent ≡ false }
    ensures sum { IfOk result (λ n. n ≡ parts_sum book.now.rows id.now) }
    ensures low { IfOk result (λ n. neg_ℤ (pos (2 ^ 126)) ≤ℤ n) }
    ensures high { IfOk result (λ n. n ≤ℤ pos (2 ^ 126)) }
{
    let all = children(book, id)?;
    Ok(sum_of(book, all.as_slice()))
}
