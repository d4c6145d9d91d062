//! What a category was given, month by month, handed on to another one.
ghost use Rattle.std.specs.Prelude.{◌≡◌, ◌≤◌, ◌-◌, ◌++◌, false, filter, flat_map, map as list_map, OnOk, IfOk, IfErr, Ok};
ghost use Rattle.std.specs.List.{range_with_len};
ghost use Rattle.book_rows.specs.Ids.{budget_id};
ghost use Rattle.book_edits.specs.declared.gains.Gain.{Gain as GainIs};
ghost use Rattle.book_edits.specs.Faults.{IsEditFault, each};
ghost use Rattle.book_edits.specs.Checks.{an_amount, a_name};
ghost use Rattle.book_edits.specs.Mappings.{is_given, given_months, month_gain, gains, gain_writes, may_gain};

use crate::budgets::{amount_at, given_more, push_column};
use crate::checks::is_income_category;
use crate::given::a_name;
use book_rows::{Book, EditFault, Write, budget_id, is_month};
use field_values::{NoMemory, Txt, Value};
use std::alloc::Global;

/// What a category is given in a month once another one is handed on to it.
#[derive(Clone, Copy, Debug)]
pub struct Gain {
    /// YYYYMM.
    pub month: u32,
    /// In cents.
    pub amount: i64,
}

/// Whether a category is given more or less than nothing in a month.
fn is_given(alloc: Global, book: &Book, id: &Txt, month: u32) -> Result<bool, NoMemory>
    ensures { IfOk result (λ given. given ≡ is_given book.now.rows id.now month) }
{
    if !is_month(month) {
        return Ok(false);
    }
    let row = budget_id(alloc, id, month)?;
    Ok(amount_at(book, &row) != 0)
}

/// The months among some numbers in which a category is given more or less than nothing.
fn given_between(
    alloc: Global,
    book: &Book,
    id: &Txt,
    first: u32,
    end: u32,
) -> Result<Vec<u32>, NoMemory>
    requires { first ≤ end }
    ensures { IfOk result (λ months. months.items ≡ filter (is_given book.now.rows id.now) (range_with_len first (end - first))) }
{
    let mut months = Vec::new(alloc);
    for month in first..end {
        if is_given(alloc, book, id, month)? {
            months.push(month)?;
        }
    }
    Ok(months)
}

/// The months in which a category is given more or less than nothing, in order. It looks at one row for each month of the book's
/// window, and at no other.
fn given_months(alloc: Global, book: &Book, id: &Txt) -> Result<Vec<u32>, NoMemory>
    requires live { book.now.spent ≡ false }
    ensures { IfOk result (λ months. months.items ≡ given_months book.now.rows id.now) }
{
    match book.window() {
        Some((first, last)) => given_between(alloc, book, id, first, last + 1),
        None => Ok(Vec::new(alloc)),
    }
}

/// What a category is given in a month, with what another one is given, as a value holds it.
fn month_gain(alloc: Global, book: &Book, id: &Txt, to: &Txt, month: u32) -> Result<Gain, EditFault>
    ensures ok { IfOk result (λ g. (g ≡ month_gain book.now.rows id.now to.now month) × (an_amount g.amount ≡ Ok tt)) }
    ensures err { IfErr result (IsEditFault (an_amount (month_gain book.now.rows id.now to.now month).amount)) }
{
    let source = budget_id(alloc, id, month)?;
    let target = budget_id(alloc, to, month)?;
    let amount = given_more(book, &target, amount_at(book, &source))?;
    Ok(Gain { month, amount })
}

/// What a category is given in these months, with what another one is given.
fn month_gains(
    alloc: Global,
    book: &Book,
    id: &Txt,
    to: &Txt,
    months: &[u32],
) -> Result<Vec<Gain>, EditFault>
    ensures ok { IfOk result (λ gs. gs.items ≡ list_map (month_gain book.now.rows id.now to.now) months.now) }
    ensures amounts { OnOk result (each (λ (g : GainIs). an_amount g.amount) (list_map (month_gain book.now.rows id.now to.now) months.now) ≡ Ok tt) }
    ensures err { IfErr result (IsEditFault (each (λ (g : GainIs). an_amount g.amount) (list_map (month_gain book.now.rows id.now to.now) months.now))) }
{
    let mut gains = Vec::new(alloc);
    for month in months {
        gains.push(month_gain(alloc, book, id, to, *month)?)?;
    }
    Ok(gains)
}

/// What a category is given where an expense category hands on to it what it is given, month by month.
fn gains(alloc: Global, book: &Book, id: &Txt, to: &Txt) -> Result<Vec<Gain>, EditFault>
    requires live { book.now.spent ≡ false }
    ensures ok { IfOk result (λ gs. gs.items ≡ gains book.now.rows id.now to.now) }
    ensures amounts { OnOk result (each (λ (g : GainIs). an_amount g.amount) (gains book.now.rows id.now to.now) ≡ Ok tt) }
    ensures err { IfErr result (IsEditFault (each (λ (g : GainIs). an_amount g.amount) (gains book.now.rows id.now to.now))) }
{
    if is_income_category(book, id) {
        return Ok(Vec::new(alloc));
    }
    let months = given_months(alloc, book, id)?;
    month_gains(alloc, book, id, to, months.as_slice())
}

/// That the ids of the rows of a category in these months are names.
fn named_gains(alloc: Global, to: &Txt, gains: &[Gain]) -> Result<(), EditFault>
    ensures ok { OnOk result (each (λ (g : GainIs). a_name (budget_id to.now g.month)) gains.now ≡ Ok tt) }
    ensures err { IfErr result (IsEditFault (each (λ (g : GainIs). a_name (budget_id to.now g.month)) gains.now)) }
{
    for gain in gains {
        let row = budget_id(alloc, to, gain.month)?;
        a_name(&row)?;
    }
    Ok(())
}

/// What a category is given where an expense category hands on to it what it is given, if a value holds each amount, and each row has
/// a name.
pub(crate) fn checked_gains(
    alloc: Global,
    book: &Book,
    id: &Txt,
    to: &Txt,
) -> Result<Vec<Gain>, EditFault>
    requires live { book.now.spent ≡ false }
    ensures gains { IfOk result (λ gs. gs.items ≡ gains book.now.rows id.now to.now) }
    ensures ok { OnOk result (may_gain book.now.rows id.now to.now ≡ Ok tt) }
    ensures err { IfErr result (IsEditFault (may_gain book.now.rows id.now to.now)) }
{
    let gains = gains(alloc, book, id, to)?;
    named_gains(alloc, to, gains.as_slice())?;
    Ok(gains)
}

/// Puts the writes by which a category is given an amount in a month behind others.
fn push_gain(
    alloc: Global,
    writes: &mut Vec<Write>,
    book: &Book,
    to: &Txt,
    gain: Gain,
) -> Result<(), NoMemory>
    ensures { OnOk result (writes.new.items ≡ writes.old.items ++ gain_writes book.now.rows to.now gain) }
{
    let row = budget_id(alloc, to, gain.month)?;
    let value = Value::Number(gain.amount);
    push_column(alloc, writes, book, &row, to, gain.month, "amount", value)
}

/// Puts the writes by which a category is given amounts, month by month, behind others.
pub(crate) fn push_gains(
    alloc: Global,
    writes: &mut Vec<Write>,
    book: &Book,
    to: &Txt,
    gains: &[Gain],
) -> Result<(), NoMemory>
    ensures { OnOk result (writes.new.items ≡ writes.old.items ++ flat_map (gain_writes book.now.rows to.now) gains.now) }
{
    for gain in gains {
        push_gain(alloc, writes, book, to, *gain)?;
    }
    Ok(())
}
