//! The pairs and splits that are wrong.
ghost use Rattle.std.specs.Prelude.{◌≡◌, ◌++◌, ◌-ℤ◌, false, string_bytes, IfOk, OnOk};
ghost use Rattle.split_transfer.specs.Pairs.{parts_sum};
ghost use Rattle.split_transfer.specs.Broken.{same_day, are_opposite, is_paired, told_transfer, told_split, told_of, broken};

use crate::pairs::{partner_of, parts_sum};
use book_edits::checks::is_live;
use book_edits::uncounted::{tx, txs};
use book_rows::{Book, TxRow};
use field_values::{NoMemory, Txt};
use itoa::Buffer;
use std::alloc::Global;

/// Whether two days are the same, or both are absent.
fn same_day(a: Option<u32>, b: Option<u32>) -> bool
    ensures { result ≡ same_day a b }
{
    match a {
        Some(a) => match b {
            Some(b) => a == b,
            None => false,
        },
        None => b.is_none(),
    }
}

/// Whether two transactions have opposite amounts and the same day.
fn are_opposite(a: &TxRow, b: &TxRow) -> bool
    ensures { result ≡ are_opposite a.now b.now }
{
    i128::from(a.amount) + i128::from(b.amount) == 0 && same_day(a.date, b.date)
}

/// Whether a live transaction is in a pair that is right.
fn is_paired(book: &Book, id: &Txt, row: &TxRow) -> bool
    ensures { result ≡ is_paired book.now.rows id.now row.now }
{
    match partner_of(book, id, row) {
        Some(other) => match tx(book, other) {
            Some(other) => are_opposite(row, other),
            None => false,
        },
        None => false,
    }
}

/// Puts the line of a transaction that names one, be it itself, and is in no right pair, behind a text.
fn push_transfer(text: &mut String, book: &Book, id: &Txt, row: &TxRow) -> Result<(), NoMemory>
    ensures { OnOk result (string_bytes text.new ≡ string_bytes text.old ++ told_transfer book.now.rows id.now row.now) }
{
    if row.transferred_id.is_some() && !is_paired(book, id, row) {
        text.push_str("transfer ")?;
        text.push_str(id.as_str())?;
        text.push('\n')?;
    }
    Ok(())
}

/// What is left of the amount of a transaction beside its parts.
fn rest_of(book: &Book, id: &Txt, row: &TxRow) -> Result<i128, NoMemory>
    requires live { book.now.spent ≡ false }
    ensures { IfOk result (λ n. n ≡ row.now.amount -ℤ parts_sum book.now.rows id.now) }
{
    Ok(i128::from(row.amount) - parts_sum(book, id)?)
}

/// Puts the line of a transaction that is split, and whose parts don't add up to its amount, behind a text.
fn push_split(text: &mut String, book: &Book, id: &Txt, row: &TxRow) -> Result<(), NoMemory>
    requires live { book.now.spent ≡ false }
    ensures { OnOk result (string_bytes text.new ≡ string_bytes text.old ++ told_split book.now.rows id.now row.now) }
{
    if !row.is_parent {
        return Ok(());
    }
    let rest = rest_of(book, id, row)?;
    if rest != 0 {
        let mut buffer = Buffer::new();
        text.push_str("split ")?;
        text.push_str(id.as_str())?;
        text.push(' ')?;
        text.push_str(buffer.format(rest))?;
        text.push('\n')?;
    }
    Ok(())
}

/// Puts the lines of a transaction, if it is live, behind a text.
fn push_told(text: &mut String, book: &Book, id: &Txt, row: &TxRow) -> Result<(), NoMemory>
    requires live { book.now.spent ≡ false }
    ensures { OnOk result (string_bytes text.new ≡ string_bytes text.old ++ told_of book.now.rows (id.now, row.now)) }
{
    if !is_live(book, row) {
        return Ok(());
    }
    push_transfer(text, book, id, row)?;
    push_split(text, book, id, row)
}

/// The pairs and splits that are wrong, by id, each on a line of its own: `transfer`, a blank and the id of a live transaction that
/// names one, be it itself, and is in no pair of opposite amounts and the same day; `split`, a blank, the id of a live transaction that
/// is split, a blank and what is left of its amount beside its parts, in cents, where that is not 0. Of one id the line `transfer` is
/// the first.
///
/// # Errors
///
/// Memory can run out, and nothing else.
pub fn broken(alloc: Global, book: &Book) -> Result<Txt, NoMemory>
    requires live { book.now.spent ≡ false }
    ensures { IfOk result (λ text. text ≡ broken book.now.rows) }
{
    let mut text = String::new(alloc);
    for (id, row) in txs(book) {
        push_told(&mut text, book, id, row)?;
    }
    Ok(Txt::new(text))
}
