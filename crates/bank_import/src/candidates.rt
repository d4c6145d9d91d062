//! The transactions that records may match.
ghost use Rattle.std.specs.Prelude.{◌≡◌, filter_map, IfOk, false};
ghost use Rattle.book_rows.specs.Parts.{account_txs};
ghost use Rattle.bank_import.specs.Wanted.{asked_at};

use crate::facts::{Candidate, candidate_of};
use crate::wanted::Wanted;
use book_edits::uncounted::of_account;
use book_rows::Book;
use field_values::{NoMemory, Txt};
use split_transfer::live_row;
use std::alloc::Global;

/// The transaction of an id, where it is live, no part of a split, and has what is asked.
fn asked_at(book: &Book, wanted: &Wanted, id: &Txt) -> Result<Option<Candidate>, NoMemory>
    ensures { IfOk result (λ o. o ≡ asked_at book.now.rows wanted.now.amounts wanted.now.ids id.now) }
{
    let Some(row) = live_row(book, id) else {
        return Ok(None);
    };
    if row.is_child || !wanted.is_in(row) {
        return Ok(None);
    }
    Ok(Some(candidate_of(book, id, row)?))
}

/// The transactions of an account that have what is asked, in the order of their ids. Of the others nothing is copied but the ids.
pub(crate) fn candidates(
    alloc: Global,
    book: &Book,
    account: &Txt,
    wanted: &Wanted,
) -> Result<Vec<Candidate>, NoMemory>
    requires live { book.now.spent ≡ false }
    ensures { IfOk result (λ v. v.items ≡ filter_map (asked_at book.now.rows wanted.now.amounts wanted.now.ids) (account_txs book.now.rows account.now)) }
{
    let ids = of_account(book, account)?;
    let mut found = Vec::new(alloc);
    for id in ids.as_slice() {
        if let Some(candidate) = asked_at(book, wanted, id)? {
            found.push(candidate)?;
        }
    }
    Ok(found)
}
