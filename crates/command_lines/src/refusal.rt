//! The replies to edits that were refused. Lines that ask of the books have some of them too.
ghost use Rattle.std.specs.Prelude.{◌≡◌, [], IfOk, Some};
ghost use Rattle.std.specs.Fmt.{decimal, signed_decimal};
ghost use Rattle.command_lines.specs.declared.reply.Reply.TheVariants.{Refused};
ghost use Rattle.command_lines.specs.Refusals.{rule_part, recur_part, refused_edit, no_such_account, no_such_group, no_such_category, no_such_schedule, bad_date as bad_date_reply, bad_month as bad_month_reply};

use crate::reply::{Reply, number_text, refusal};
use book_rows::{EditFault, RecurPart, RulePart};
use field_values::{NoMemory, Txt};
use std::alloc::Global;

/// A refusal that names an id.
fn with_id(alloc: Global, number: u8, code: &str, id: &Txt) -> Result<Reply, NoMemory>
    ensures { IfOk result (λ r. r ≡ Refused number code.now id.now) }
{
    refusal(alloc, number, code, id.copy()?)
}

/// A refusal that names a number.
fn with_number(alloc: Global, number: u8, code: &str, told: u64) -> Result<Reply, NoMemory>
    ensures { IfOk result (λ r. r ≡ Refused number code.now (decimal told)) }
{
    refusal(alloc, number, code, number_text(alloc, told)?)
}

/// A refusal that names an amount in cents.
fn with_amount(alloc: Global, number: u8, code: &str, amount: i128) -> Result<Reply, NoMemory>
    ensures { IfOk result (λ r. r ≡ Refused number code.now (signed_decimal amount)) }
{
    let detail = format!(in alloc; "{amount}")?;
    refusal(alloc, number, code, Txt::new(detail))
}

/// A refusal that names nothing.
fn alone(alloc: Global, number: u8, code: &str) -> Result<Reply, NoMemory>
    ensures { IfOk result (λ r. r ≡ Refused number code.now []) }
{
    refusal(alloc, number, code, Txt::new(String::new(alloc)))
}

/// There is no live account of this id.
pub(crate) fn no_account(alloc: Global, id: &Txt) -> Result<Reply, NoMemory>
    ensures { IfOk result (λ r. r ≡ no_such_account id.now) }
{
    with_id(alloc, 3, "no-such-account", id)
}

/// There is no live group of this id.
pub(crate) fn no_group(alloc: Global, id: &Txt) -> Result<Reply, NoMemory>
    ensures { IfOk result (λ r. r ≡ no_such_group id.now) }
{
    with_id(alloc, 4, "no-such-group", id)
}

/// There is no live category of this id.
pub(crate) fn no_category(alloc: Global, id: &Txt) -> Result<Reply, NoMemory>
    ensures { IfOk result (λ r. r ≡ no_such_category id.now) }
{
    with_id(alloc, 5, "no-such-category", id)
}

/// There is no live schedule of this id.
pub(crate) fn no_schedule(alloc: Global, id: &Txt) -> Result<Reply, NoMemory>
    ensures { IfOk result (λ r. r ≡ no_such_schedule id.now) }
{
    with_id(alloc, 20, "no-such-schedule", id)
}

/// This is no day of the calendar.
pub(crate) fn bad_date(alloc: Global, date: u32) -> Result<Reply, NoMemory>
    ensures { IfOk result (λ r. r ≡ bad_date_reply date) }
{
    with_number(alloc, 8, "bad-date", date as u64)
}

/// This is no month.
pub(crate) fn bad_month(alloc: Global, month: u32) -> Result<Reply, NoMemory>
    ensures { IfOk result (λ r. r ≡ bad_month_reply month) }
{
    with_number(alloc, 10, "bad-month", month as u64)
}

/// The name of a part of a rule.
fn rule_text(part: RulePart) -> &'static str
    ensures { result.now ≡ rule_part part }
{
    match part {
        RulePart::Id => "id",
        RulePart::Conditions => "conditions",
        RulePart::Actions => "actions",
    }
}

/// The name of a part of a recurrence: a key of its object, or more than that.
fn recur_text(part: RecurPart) -> &'static str
    ensures { result.now ≡ recur_part part }
{
    match part {
        RecurPart::Object => "object",
        RecurPart::Start => "start",
        RecurPart::Frequency => "frequency",
        RecurPart::Interval => "interval",
        RecurPart::Patterns => "patterns",
        RecurPart::SkipWeekend => "skipWeekend",
        RecurPart::WeekendSolveMode => "weekendSolveMode",
        RecurPart::EndMode => "endMode",
        RecurPart::EndOccurrences => "endOccurrences",
        RecurPart::EndDate => "endDate",
        RecurPart::Rule => "rule",
    }
}

/// The reply to an edit that wants a rule which can't be read, or isn't there.
fn bad_rule(alloc: Global, part: RulePart, at: u32) -> Result<Reply, NoMemory>
    ensures { IfOk result (λ r. refused_edit (EditFault.BadRule part at) ≡ Some r) }
{
    let part = rule_text(part);
    let detail = format!(in alloc; "{part} {at}")?;
    refusal(alloc, 19, "bad-rule", Txt::new(detail))
}

/// The reply to an edit that wants a recurrence which can't be read or used.
fn bad_recur(alloc: Global, part: RecurPart) -> Result<Reply, NoMemory>
    ensures { IfOk result (λ r. refused_edit (EditFault.BadRecur part) ≡ Some r) }
{
    let detail = Txt::from_text(alloc, recur_text(part))?;
    refusal(alloc, 21, "bad-recur", detail)
}

/// The reply to an edit that wants a statement which can't be read.
fn bad_statement(alloc: Global, row: u32, column: u32) -> Result<Reply, NoMemory>
    ensures { IfOk result (λ r. refused_edit (EditFault.BadStatement row column) ≡ Some r) }
{
    let detail = format!(in alloc; "{row} {column}")?;
    refusal(alloc, 23, "bad-statement", Txt::new(detail))
}

/// The reply to an edit that was refused, and not for want of memory.
pub(crate) fn edit_refusal(alloc: Global, fault: &EditFault) -> Result<Reply, NoMemory>
    ensures { IfOk result (λ r. refused_edit fault.now ≡ Some r) }
{
    match fault {
        EditFault::BadId { id } => with_id(alloc, 1, "bad-id", id),
        EditFault::IdTaken { id } => with_id(alloc, 2, "id-taken", id),
        EditFault::NoSuchAccount { id } => no_account(alloc, id),
        EditFault::NoSuchGroup { id } => no_group(alloc, id),
        EditFault::NoSuchCategory { id } => no_category(alloc, id),
        EditFault::NoSuchPayee { id } => with_id(alloc, 6, "no-such-payee", id),
        EditFault::NoSuchTransaction { id } => with_id(alloc, 7, "no-such-transaction", id),
        EditFault::BadDate { n } => bad_date(alloc, *n),
        EditFault::BadAmount { n } => with_amount(alloc, 9, "bad-amount", *n),
        EditFault::BadMonth { n } => bad_month(alloc, *n),
        EditFault::SplitSum { difference } => with_amount(alloc, 11, "split-sum", *difference),
        EditFault::IsChild { id } => with_id(alloc, 12, "split-part", id),
        EditFault::IsTransferPart { id } => with_id(alloc, 13, "transfer-part", id),
        EditFault::SameAccount { id } => with_id(alloc, 14, "same-id", id),
        EditFault::ClosedAccount { balance } => with_amount(alloc, 15, "account-balance", *balance),
        EditFault::IncomeCategory { id } => with_id(alloc, 16, "income-category", id),
        EditFault::NameTaken { id } => with_id(alloc, 17, "name-taken", id),
        EditFault::TooManyWrites { n } => with_number(alloc, 18, "too-many-writes", *n),
        EditFault::BadRule { part, at } => bad_rule(alloc, *part, *at),
        EditFault::NoSuchSchedule { id } => no_schedule(alloc, id),
        EditFault::BadRecur { part } => bad_recur(alloc, *part),
        EditFault::ScheduleDone { id } => with_id(alloc, 22, "schedule-done", id),
        EditFault::BadStatement { row, column } => bad_statement(alloc, *row, *column),
        EditFault::NothingToUndo => alone(alloc, 24, "nothing-to-undo"),
        EditFault::NothingToRedo => alone(alloc, 25, "nothing-to-redo"),
        EditFault::CategoryType { id } => with_id(alloc, 31, "category-type", id),
        EditFault::TransferPayee { id } => with_id(alloc, 32, "transfer-payee", id),
        EditFault::NoMemory => Err(NoMemory),
    }
}
