//! An amount goes from one account to another.
ghost use Rattle.std.specs.Prelude.{◌≡◌, ◌++◌, IfOk, IfErr, OnOk, Ok};
ghost use Rattle.std.specs.Option.{option_copied};
ghost use Rattle.book_edits.specs.Faults.{IsEditFault};
ghost use Rattle.split_transfer.specs.Transfers.{stands_for, payee_for, half_writes, transfer};

use crate::fields::maybe_text;
use crate::writing::{push_entry, push_id, push_made};
use book_edits::checks::live_account;
use book_edits::given::{a_day, an_amount, is_text, two_ids};
use book_edits::writing::{notes_value, number, text};
use book_rows::{Book, EditFault, PayeeRow, Write};
use field_values::{NoMemory, Txt};
use std::alloc::Global;

/// Whether a payee is live and stands for the account.
fn stands_for(account: &Txt, row: &PayeeRow) -> bool
    ensures { result ≡ stands_for account.now row.now }
{
    !row.tombstone && is_text(account, &row.transfer_acct)
}

/// The payee that stands for an account: of those that do, the one with the least id. It looks at the payees up to that one.
fn payee_for<'a>(book: &'a Book, account: &Txt) -> Option<&'a Txt>
    ensures { option_copied result ≡ payee_for book.now.rows account.now }
{
    for (id, row) in book.payees() {
        if stands_for(account, row) {
            return Some(id);
        }
    }
    None
}

/// Puts the writes of one of the two rows behind others.
fn push_half(
    alloc: Global,
    writes: &mut Vec<Write>,
    at: u32,
    account: &Txt,
    date: u32,
    amount: i64,
    payee: Option<&Txt>,
    notes: &Txt,
    other: u32,
) -> Result<(), NoMemory>
    ensures { OnOk result (writes.new.items ≡ writes.old.items ++ half_writes at account.now date amount (option_copied payee.entry) notes.now other) }
{
    push_entry(alloc, writes, at, text(account)?, number(date), amount)?;
    push_made(alloc, writes, at, "description", maybe_text(payee)?)?;
    push_made(alloc, writes, at, "notes", notes_value(notes)?)?;
    push_id(alloc, writes, at, "transferred_id", other)
}

/// Moves an amount from one account to another.
pub(crate) fn transfer(
    alloc: Global,
    book: &Book,
    from: &Txt,
    to: &Txt,
    date: u32,
    amount: i64,
    notes: &Txt,
) -> Result<Vec<Write>, EditFault>
    ensures ok { IfOk result (λ ws. transfer book.now.rows from.now to.now date amount notes.now ≡ Ok ws.items) }
    ensures err { IfErr result (IsEditFault (transfer book.now.rows from.now to.now date amount notes.now)) }
{
    live_account(book, from)?;
    live_account(book, to)?;
    two_ids(from, to)?;
    a_day(date)?;
    an_amount(i128::from(amount))?;
    let mut writes = Vec::new(alloc);
    let there = payee_for(book, to);
    push_half(alloc, &mut writes, 0, from, date, -amount, there, notes, 6)?;
    let here = payee_for(book, from);
    push_half(alloc, &mut writes, 6, to, date, amount, here, notes, 0)?;
    Ok(writes)
}
