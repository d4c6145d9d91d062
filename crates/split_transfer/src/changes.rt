//! A column of a transaction is changed, or it is deleted.
ghost use Rattle.std.specs.Prelude.{◌≡◌, ◌++◌, ◌∷◌, codes, false, IfOk, IfErr, Ok, option_to_list};
ghost use Rattle.std.specs.Option.{option_copied};
ghost use Rattle.field_values.specs.declared.value.Value.TheVariants.{Number};
ghost use Rattle.book_rows.specs.declared.write.RowName.TheVariants.{Given};
ghost use Rattle.book_edits.specs.Faults.{IsEditFault};
ghost use Rattle.split_transfer.specs.Pairs.{parts_of};
ghost use Rattle.split_transfer.specs.Writing.{tx_write, on_each};
ghost use Rattle.split_transfer.specs.Changes.{set_date, set_amount, set_account, set_payee, set_category, set_notes, set_cleared, set_schedule, tx_set, tx_delete};

use crate::checks::{live_tx, no_child, no_pair, stays_even, takes_category};
use crate::edit::TxChange;
use crate::given::maybe_live_schedule;
use crate::pairs::{partner_of, parts_of};
use crate::writing::{one, push, push_each, push_maybe};
use book_edits::checks::{live_account, maybe_live_payee};
use book_edits::given::{a_day, an_amount};
use book_edits::writing::{flag, notes_value, number, text, text_or_null};
use book_rows::{Book, EditFault, Write};
use field_values::{NoMemory, Txt, Value};
use std::alloc::Global;

/// The writes of one value into a transaction, its parts, and another one that may be there.
#[tactic(auto, using(crate::proofs::Lists::on_each_append))]
fn on_all(
    alloc: Global,
    book: &Book,
    id: &Txt,
    other: Option<&Txt>,
    column: &str,
    value: Value,
) -> Result<Vec<Write>, NoMemory>
    requires live { book.now.spent ≡ false }
    ensures { IfOk result (λ ws. ws.items ≡ on_each column.now value (id.now ∷ parts_of book.now.rows id.now ++ option_to_list (option_copied other.entry))) }
{
    let parts = parts_of(alloc, book, id)?;
    let mut writes = Vec::new(alloc);
    push(alloc, &mut writes, id, column, value.copy()?)?;
    push_each(alloc, &mut writes, parts.as_slice(), column, &value)?;
    push_maybe(alloc, &mut writes, other, column, value)?;
    Ok(writes)
}

/// Gives a transaction, its parts and its partner another day.
fn set_date(alloc: Global, book: &Book, id: &Txt, date: u32) -> Result<Vec<Write>, EditFault>
    requires live { book.now.spent ≡ false }
    ensures ok { IfOk result (λ ws. set_date book.now.rows id.now date ≡ Ok ws.items) }
    ensures err { IfErr result (IsEditFault (set_date book.now.rows id.now date)) }
{
    let row = live_tx(book, id)?;
    no_child(id, row)?;
    a_day(date)?;
    let partner = partner_of(book, id, row);
    Ok(on_all(alloc, book, id, partner, "date", number(date))?)
}

/// The writes of an amount into a transaction, and of another one into a transaction that may be there.
fn amount_writes(
    alloc: Global,
    id: &Txt,
    amount: i64,
    other: Option<&Txt>,
    opposite: i64,
) -> Result<Vec<Write>, NoMemory>
    ensures { IfOk result (λ ws. ws.items ≡ tx_write (Given id.now) (codes "amount") (Number amount) ∷ on_each (codes "amount") (Number opposite) (option_to_list (option_copied other.entry))) }
{
    let mut writes = one(alloc, id, "amount", Value::Number(amount))?;
    let opposite = Value::Number(opposite);
    push_maybe(alloc, &mut writes, other, "amount", opposite)?;
    Ok(writes)
}

/// Gives a transaction another amount, and its partner the opposite.
fn set_amount(alloc: Global, book: &Book, id: &Txt, amount: i64) -> Result<Vec<Write>, EditFault>
    requires live { book.now.spent ≡ false }
    ensures ok { IfOk result (λ ws. set_amount book.now.rows id.now amount ≡ Ok ws.items) }
    ensures err { IfErr result (IsEditFault (set_amount book.now.rows id.now amount)) }
{
    let row = live_tx(book, id)?;
    no_child(id, row)?;
    an_amount(i128::from(amount))?;
    stays_even(book, id, row, amount)?;
    let partner = partner_of(book, id, row);
    Ok(amount_writes(alloc, id, amount, partner, -amount)?)
}

/// Gives a transaction and its parts to another account.
fn set_account(alloc: Global, book: &Book, id: &Txt, account: &Txt) -> Result<Vec<Write>, EditFault>
    requires live { book.now.spent ≡ false }
    ensures ok { IfOk result (λ ws. set_account book.now.rows id.now account.now ≡ Ok ws.items) }
    ensures err { IfErr result (IsEditFault (set_account book.now.rows id.now account.now)) }
{
    let row = live_tx(book, id)?;
    no_child(id, row)?;
    no_pair(book, id, row)?;
    live_account(book, account)?;
    let parts = parts_of(alloc, book, id)?;
    let account = text(account)?;
    let mut writes = one(alloc, id, "acct", account.copy()?)?;
    push_each(alloc, &mut writes, parts.as_slice(), "acct", &account)?;
    Ok(writes)
}

/// Gives a transaction another payee, or none.
fn set_payee(
    alloc: Global,
    book: &Book,
    id: &Txt,
    payee: &Option<Txt>,
) -> Result<Vec<Write>, EditFault>
    ensures ok { IfOk result (λ ws. set_payee book.now.rows id.now payee.now ≡ Ok ws.items) }
    ensures err { IfErr result (IsEditFault (set_payee book.now.rows id.now payee.now)) }
{
    let row = live_tx(book, id)?;
    no_child(id, row)?;
    no_pair(book, id, row)?;
    maybe_live_payee(book, payee)?;
    Ok(one(alloc, id, "description", text_or_null(payee)?)?)
}

/// Gives a transaction another category, or none.
fn set_category(
    alloc: Global,
    book: &Book,
    id: &Txt,
    category: &Option<Txt>,
) -> Result<Vec<Write>, EditFault>
    ensures ok { IfOk result (λ ws. set_category book.now.rows id.now category.now ≡ Ok ws.items) }
    ensures err { IfErr result (IsEditFault (set_category book.now.rows id.now category.now)) }
{
    let row = live_tx(book, id)?;
    takes_category(book, id, row, category)?;
    Ok(one(alloc, id, "category", text_or_null(category)?)?)
}

/// Notes something else of a transaction.
fn set_notes(alloc: Global, book: &Book, id: &Txt, notes: &Txt) -> Result<Vec<Write>, EditFault>
    ensures ok { IfOk result (λ ws. set_notes book.now.rows id.now notes.now ≡ Ok ws.items) }
    ensures err { IfErr result (IsEditFault (set_notes book.now.rows id.now notes.now)) }
{
    live_tx(book, id)?;
    Ok(one(alloc, id, "notes", notes_value(notes)?)?)
}

/// Says whether the bank has a transaction.
fn set_cleared(alloc: Global, book: &Book, id: &Txt, cleared: bool) -> Result<Vec<Write>, EditFault>
    ensures ok { IfOk result (λ ws. set_cleared book.now.rows id.now cleared ≡ Ok ws.items) }
    ensures err { IfErr result (IsEditFault (set_cleared book.now.rows id.now cleared)) }
{
    live_tx(book, id)?;
    Ok(one(alloc, id, "cleared", flag(cleared))?)
}

/// Gives a transaction another schedule, or none.
fn set_schedule(
    alloc: Global,
    book: &Book,
    id: &Txt,
    schedule: &Option<Txt>,
) -> Result<Vec<Write>, EditFault>
    ensures ok { IfOk result (λ ws. set_schedule book.now.rows id.now schedule.now ≡ Ok ws.items) }
    ensures err { IfErr result (IsEditFault (set_schedule book.now.rows id.now schedule.now)) }
{
    live_tx(book, id)?;
    maybe_live_schedule(book, schedule)?;
    Ok(one(alloc, id, "schedule", text_or_null(schedule)?)?)
}

/// Changes a column of a transaction.
pub(crate) fn tx_set(
    alloc: Global,
    book: &Book,
    id: &Txt,
    change: &TxChange,
) -> Result<Vec<Write>, EditFault>
    requires live { book.now.spent ≡ false }
    ensures ok { IfOk result (λ ws. tx_set book.now.rows id.now change.now ≡ Ok ws.items) }
    ensures err { IfErr result (IsEditFault (tx_set book.now.rows id.now change.now)) }
{
    match change {
        TxChange::Date(date) => set_date(alloc, book, id, *date),
        TxChange::Amount(amount) => set_amount(alloc, book, id, *amount),
        TxChange::Account(account) => set_account(alloc, book, id, account),
        TxChange::Payee(payee) => set_payee(alloc, book, id, payee),
        TxChange::Category(category) => set_category(alloc, book, id, category),
        TxChange::Notes(notes) => set_notes(alloc, book, id, notes),
        TxChange::Cleared(cleared) => set_cleared(alloc, book, id, *cleared),
        TxChange::Schedule(schedule) => set_schedule(alloc, book, id, schedule),
    }
}

/// Deletes a transaction, and its partner with it.
pub(crate) fn tx_delete(alloc: Global, book: &Book, id: &Txt) -> Result<Vec<Write>, EditFault>
    ensures ok { IfOk result (λ ws. tx_delete book.now.rows id.now ≡ Ok ws.items) }
    ensures err { IfErr result (IsEditFault (tx_delete book.now.rows id.now)) }
{
    let row = live_tx(book, id)?;
    no_child(id, row)?;
    let mut writes = one(alloc, id, "tombstone", flag(true))?;
    let partner = partner_of(book, id, row);
    push_maybe(alloc, &mut writes, partner, "tombstone", flag(true))?;
    Ok(writes)
}
