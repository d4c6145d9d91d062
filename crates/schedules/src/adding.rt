//! Adding a schedule.
ghost use Rattle.std.specs.Prelude.{◌≡◌, ◌<◌, IfOk, IfErr, Ok};
ghost use Rattle.book_edits.specs.Faults.{IsEditFault};
ghost use Rattle.schedules.specs.Days.{said};
ghost use Rattle.schedules.specs.Edits.{first_day, add_writes, schedule_add};

use crate::conditions_text::conditions_text;
use crate::given::new_schedule;
use crate::reading::read_recur;
use crate::recurrence::Recurrence;
use crate::upcoming::first_from;
use crate::writing::{date, push_rule, word};
use book_edits::checks::{live_account, maybe_live_payee};
use book_edits::given::an_amount;
use book_edits::writing::{flag, push, text};
use book_rows::{Book, EditFault, RecurPart, RowName, Write};
use field_values::{NoMemory, Txt, Value};
use std::alloc::Global;

/// The place among the writes of a new schedule of the one that makes its rule.
const RULE_AT: u32 = 0;

/// The first day of a recurrence, which has to have one.
fn first_day(recurrence: &Recurrence) -> Result<u32, EditFault>
    ensures ok { IfOk result (λ day. first_day (said recurrence.now) ≡ Ok day) }
    ensures calendar { IfOk result (λ day. day < 84_006) }
    ensures err { IfErr result (IsEditFault (first_day (said recurrence.now))) }
{
    match first_from(recurrence, 0) {
        Some(day) => Ok(day),
        None => Err(EditFault::BadRecur {
            part: RecurPart::EndMode,
        }),
    }
}

/// The writes of a new schedule and of its rule.
fn add_writes(
    alloc: Global,
    row: &RowName,
    name: &Txt,
    day: u32,
    conditions: Txt,
) -> Result<Vec<Write>, NoMemory>
    requires { day < 84_006 }
    ensures { IfOk result (λ ws. ws.items ≡ add_writes row.now name.now day conditions) }
{
    let rule = RowName::Made(RULE_AT);
    let mut writes = Vec::new(alloc);
    push(alloc, &mut writes, "rules", &rule, "stage", Value::Null)?;
    let op = word(alloc, "and")?;
    push(alloc, &mut writes, "rules", &rule, "conditions_op", op)?;
    let conditions = Value::Text(conditions);
    push(alloc, &mut writes, "rules", &rule, "conditions", conditions)?;
    let actions = word(alloc, "[]")?;
    push(alloc, &mut writes, "rules", &rule, "actions", actions)?;
    push_rule(alloc, &mut writes, row, RULE_AT)?;
    push(alloc, &mut writes, "schedules", row, "name", text(name)?)?;
    let next = date(day);
    push(alloc, &mut writes, "schedules", row, "next_date", next)?;
    let completed = flag(false);
    push(alloc, &mut writes, "schedules", row, "completed", completed)?;
    Ok(writes)
}

/// Adds a schedule with a rule of its own.
pub(crate) fn schedule_add(
    alloc: Global,
    book: &Book,
    id: &Option<Txt>,
    name: &Txt,
    account: &Txt,
    payee: &Option<Txt>,
    amount: i64,
    recur: &Txt,
) -> Result<Vec<Write>, EditFault>
    ensures ok { IfOk result (λ ws. schedule_add book.now.rows id.now name.now account.now payee.now amount recur.now ≡ Ok ws.items) }
    ensures err { IfErr result (IsEditFault (schedule_add book.now.rows id.now name.now account.now payee.now amount recur.now)) }
{
    let row = new_schedule(book, id)?;
    live_account(book, account)?;
    maybe_live_payee(book, payee)?;
    an_amount(i128::from(amount))?;
    let recurrence = read_recur(alloc, recur)?;
    let day = first_day(&recurrence)?;
    let conditions = conditions_text(alloc, account, payee, amount, recur)?;
    Ok(add_writes(alloc, &row, name, day, conditions)?)
}
