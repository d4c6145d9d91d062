//! A transaction is split.
ghost use Rattle.std.specs.Prelude.{◌≡◌, ◌++◌, ◌∷◌, [], ◌^◌, ◌≤ℤ◌, ◌-ℤ◌, pos, neg_ℤ, true, false, codes, IfOk, IfErr, OnOk, Ok, length};
ghost use Rattle.finite_sums.specs.Sums.{total};
ghost use Rattle.field_values.specs.declared.value.Value.TheVariants.{Text as IsText};
ghost use Rattle.book_rows.specs.declared.write.RowName.TheVariants.{Made};
ghost use Rattle.book_edits.specs.Writing.{flag};
ghost use Rattle.split_transfer.specs.Writing.{tx_write};
ghost use Rattle.book_edits.specs.Faults.{IsEditFault, if_there, each};
ghost use Rattle.book_edits.specs.Checks.{an_amount, live_category};
ghost use Rattle.book_rows.specs.declared.rows.TxRow.{TxRow as TxRowIs};
ghost use Rattle.split_transfer.specs.Checks.{live_tx, no_rest};
ghost use Rattle.split_transfer.specs.Splits.{part_writes, parts_writes, split_writes, split, HasDay};

use crate::checks::{live_tx, no_child, no_pair, no_rest};
use crate::edit::SplitPart;
use crate::fields::day_or_null;
use crate::pairs::parts_of;
use crate::writing::{push, push_each, push_entry, push_made};
use book_edits::checks::maybe_live_category;
use book_edits::given::an_amount;
use book_edits::writing::{flag, place_behind, text, text_or_null};
use book_rows::{Book, EditFault, TxRow, Write};
use field_values::{NoMemory, Txt, Value};
use std::alloc::Global;

/// Amounts that values hold.
fn all_amounts(parts: &[SplitPart]) -> Result<(), EditFault>
    ensures ok { OnOk result (each (λ p. an_amount p.amount) parts.now ≡ Ok tt) }
    ensures err { IfErr result (IsEditFault (each (λ p. an_amount p.amount) parts.now)) }
{
    for part in parts {
        an_amount(i128::from(part.amount))?;
    }
    Ok(())
}

/// Categories that are live, where there are some.
fn all_categories(book: &Book, parts: &[SplitPart]) -> Result<(), EditFault>
    ensures ok { OnOk result (each (λ p. if_there (live_category book.now.rows) p.category) parts.now ≡ Ok tt) }
    ensures err { IfErr result (IsEditFault (each (λ p. if_there (live_category book.now.rows) p.category) parts.now)) }
{
    for part in parts {
        maybe_live_category(book, &part.category)?;
    }
    Ok(())
}

/// The amount of a part.
fn amount_of(part: &SplitPart) -> i64
    ensures { result ≡ part.now.amount }
{
    part.amount
}

/// What new parts add up to.
fn sum_of(parts: &[SplitPart]) -> i128
    ensures sum { result ≡ total (λ p. p.amount) parts.now }
    ensures low { neg_ℤ (pos (2 ^ 126)) ≤ℤ result }
    ensures high { result ≤ℤ pos (2 ^ 126) }
{
    let mut sum = 0i128;
    for part in parts {
        sum += i128::from(amount_of(part));
    }
    sum
}

/// New parts, whose amounts have to add up to that of the transaction.
fn are_all(row: &TxRow, parts: &[SplitPart]) -> Result<(), EditFault>
    ensures { result ≡ no_rest (row.now.amount -ℤ total (λ p. p.amount) parts.now) }
{
    no_rest(i128::from(row.amount) - sum_of(parts))
}

/// Says of a new transaction that it is a part of another one.
fn push_parent(alloc: Global, writes: &mut Vec<Write>, at: u32, id: &Txt) -> Result<(), NoMemory>
    ensures { OnOk result (writes.new.items ≡ writes.old.items ++ tx_write (Made at) (codes "isChild") (flag true) ∷ tx_write (Made at) (codes "parent_id") (IsText id.now) ∷ []) }
{
    push_made(alloc, writes, at, "isChild", flag(true))?;
    push_made(alloc, writes, at, "parent_id", text(id)?)
}

/// Puts the writes of a new part behind others.
fn push_part(
    alloc: Global,
    writes: &mut Vec<Write>,
    id: &Txt,
    row: &TxRow,
    part: &SplitPart,
) -> Result<(), NoMemory>
    ensures { OnOk result (writes.new.items ≡ writes.old.items ++ part_writes (length writes.old.items) id.now row.now part.now) }
{
    let at = place_behind(writes)?;
    let account = text_or_null(&row.acct)?;
    let date = day_or_null(row.date);
    push_entry(alloc, writes, at, account, date, amount_of(part))?;
    let category = text_or_null(&part.category)?;
    push_made(alloc, writes, at, "category", category)?;
    let payee = text_or_null(&row.description)?;
    push_made(alloc, writes, at, "description", payee)?;
    push_parent(alloc, writes, at, id)
}

/// Puts the writes of new parts behind others.
fn push_parts(
    alloc: Global,
    writes: &mut Vec<Write>,
    id: &Txt,
    row: &TxRow,
    parts: &[SplitPart],
) -> Result<(), NoMemory>
    ensures { OnOk result (writes.new.items ≡ writes.old.items ++ parts_writes (length writes.old.items) id.now row.now parts.now) }
{
    for part in parts {
        push_part(alloc, writes, id, row, part)?;
    }
    Ok(())
}

/// The writes of a split.
fn split_writes(
    alloc: Global,
    book: &Book,
    id: &Txt,
    row: &TxRow,
    parts: &[SplitPart],
) -> Result<Vec<Write>, NoMemory>
    requires live { book.now.spent ≡ false }
    ensures { IfOk result (λ ws. ws.items ≡ split_writes book.now.rows id.now row.now parts.now) }
{
    let earlier = parts_of(alloc, book, id)?;
    let mut writes = Vec::new(alloc);
    let dead = flag(true);
    push_each(alloc, &mut writes, earlier.as_slice(), "tombstone", &dead)?;
    push(alloc, &mut writes, id, "isParent", flag(true))?;
    push(alloc, &mut writes, id, "category", Value::Null)?;
    push_parts(alloc, &mut writes, id, row, parts)?;
    Ok(writes)
}

/// The day of a transaction is a number that a value holds.
fn tell_day(row: &TxRow)
    ensures { HasDay row.now }
{
    if let Some(day) = row.date {
        let _ = i64::from(day);
    }
}

/// Splits a transaction.
pub(crate) fn split(
    alloc: Global,
    book: &Book,
    id: &Txt,
    parts: &[SplitPart],
) -> Result<Vec<Write>, EditFault>
    requires live { book.now.spent ≡ false }
    ensures ok { IfOk result (λ ws. split book.now.rows id.now parts.now ≡ Ok ws.items) }
    ensures err { IfErr result (IsEditFault (split book.now.rows id.now parts.now)) }
    ensures dated { IfOk result (λ ws. (x : TxRowIs) → live_tx book.now.rows id.now ≡ Ok x → HasDay x) }
{
    let row = live_tx(book, id)?;
    tell_day(row);
    no_child(id, row)?;
    no_pair(book, id, row)?;
    all_amounts(parts)?;
    all_categories(book, parts)?;
    are_all(row, parts)?;
    Ok(split_writes(alloc, book, id, row, parts)?)
}
