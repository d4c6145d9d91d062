//! Going on with a schedule, and deleting it.
ghost use Rattle.std.specs.Prelude.{◌≡◌, ◌<◌, ◌∷◌, [], IfOk, IfErr, IfSome, Ok};
ghost use Rattle.book_edits.specs.Faults.{IsEditFault};
ghost use Rattle.schedules.specs.Terms.{agreed};
ghost use Rattle.schedules.specs.Edits.{post_writes, schedule_post, skip_write, schedule_skip, schedule_delete};

use crate::given::{live_schedule, not_done};
use crate::terms::{Agreed, terms_of};
use crate::upcoming::first_from;
use crate::writing::date;
use book_edits::checks::live_account;
use book_edits::writing::{flag, one, push, text, text_or_null};
use book_rows::{Book, EditFault, RowName, Write};
use field_values::{NoMemory, Txt, Value};
use std::alloc::Global;

/// The writes of the transaction of a day.
fn post_writes(alloc: Global, id: &Txt, day: u32, terms: &Agreed) -> Result<Vec<Write>, NoMemory>
    requires { day < 84_006 }
    ensures { IfOk result (λ ws. ws.items ≡ post_writes id.now day (agreed terms.now)) }
{
    let row = RowName::Made(0);
    let mut writes = Vec::new(alloc);
    let account = text(&terms.account)?;
    push(alloc, &mut writes, "transactions", &row, "acct", account)?;
    push(alloc, &mut writes, "transactions", &row, "date", date(day))?;
    let amount = Value::Number(terms.amount);
    push(alloc, &mut writes, "transactions", &row, "amount", amount)?;
    let payee = text_or_null(&terms.payee)?;
    push(
        alloc,
        &mut writes,
        "transactions",
        &row,
        "description",
        payee,
    )?;
    let schedule = text(id)?;
    push(
        alloc,
        &mut writes,
        "transactions",
        &row,
        "schedule",
        schedule,
    )?;
    Ok(writes)
}

/// Makes the transaction of a schedule's next day.
pub(crate) fn schedule_post(alloc: Global, book: &Book, id: &Txt) -> Result<Vec<Write>, EditFault>
    ensures ok { IfOk result (λ ws. schedule_post book.now.rows id.now ≡ Ok ws.items) }
    ensures err { IfErr result (IsEditFault (schedule_post book.now.rows id.now)) }
{
    let row = live_schedule(book, id)?;
    let day = not_done(id, row)?;
    let terms = terms_of(alloc, book, row)?;
    live_account(book, &terms.account)?;
    Ok(post_writes(alloc, id, day, &terms)?)
}

/// The write of the day that follows, or that there is none.
fn skip_writes(alloc: Global, id: &Txt, next: Option<u32>) -> Result<Vec<Write>, NoMemory>
    requires { IfSome next (λ day. day < 84_006) }
    ensures { IfOk result (λ ws. ws.items ≡ skip_write id.now next ∷ []) }
{
    match next {
        None => one(alloc, "schedules", id, "completed", flag(true)),
        Some(day) => one(alloc, "schedules", id, "next_date", date(day)),
    }
}

/// Goes on to the day that follows a schedule's next one.
pub(crate) fn schedule_skip(alloc: Global, book: &Book, id: &Txt) -> Result<Vec<Write>, EditFault>
    ensures ok { IfOk result (λ ws. schedule_skip book.now.rows id.now ≡ Ok ws.items) }
    ensures err { IfErr result (IsEditFault (schedule_skip book.now.rows id.now)) }
{
    let row = live_schedule(book, id)?;
    let day = not_done(id, row)?;
    let terms = terms_of(alloc, book, row)?;
    let next = first_from(&terms.days, day + 1);
    Ok(skip_writes(alloc, id, next)?)
}

/// Deletes a schedule.
pub(crate) fn schedule_delete(alloc: Global, book: &Book, id: &Txt) -> Result<Vec<Write>, EditFault>
    ensures ok { IfOk result (λ ws. schedule_delete book.now.rows id.now ≡ Ok ws.items) }
    ensures err { IfErr result (IsEditFault (schedule_delete book.now.rows id.now)) }
{
    live_schedule(book, id)?;
    Ok(one(alloc, "schedules", id, "tombstone", flag(true))?)
}
