//! The shares of a month, and what they write.
ghost use Rattle.std.specs.Prelude.{◌≡◌, ◌≤◌, ◌<◌, ◌^◌, [], ◌∷◌, ◌++◌, flat_map, IsTrue, false, OnOk, IfOk, IfErr, Ok};
ghost use Rattle.finite_sums.specs.Sums.{weight};
ghost use Rattle.book_rows.specs.Ids.{budget_id};
ghost use Rattle.book_rows.specs.Months.{is_month};
ghost use Rattle.book_rows.specs.Writes.{AreWrites};
ghost use Rattle.book_edits.specs.Faults.{IsEditFault, each};
ghost use Rattle.book_edits.specs.Checks.{a_month, is_name, a_name, an_amount};
ghost use Rattle.book_edits.specs.Budgets.{budgeted};
ghost use Rattle.envelope_cells.specs.Budget.{expense};
ghost use Rattle.envelope_cells.specs.BudgetOf.{budget_of, groups_of};
ghost use Rattle.goal_templates.specs.declared.share.Grant.{Grant as GrantIs};
ghost use Rattle.goal_templates.specs.Notes.{templates};
ghost use Rattle.goal_templates.specs.Sharing.{has_share, size_of};
ghost use Rattle.goal_templates.specs.Allocation.{allocation};
ghost use Rattle.goal_templates.specs.Goals.{shares_in, differs, granted, grants, grant_writes, may_grant, goal_writes};

use crate::money::shared_money;
use crate::notes::asked_for;
use crate::share::{Grant, Share};
use crate::sharing::{got, share_out};
use crate::sides::ids_on;
use book_edits::given::{an_amount, same_id};
use book_edits::push_column;
use book_rows::{Book, EditFault, Write, budget_id, is_month};
use envelope_cells::part::first_month;
use envelope_cells::{BudgetGroup, category_sums, groups_of, month_number};
use field_values::{Items, NamePart, NoMemory, Steps, Txt, Value, check_name};
use std::alloc::Global;
use std::marker::Brand;
use std::sync::ledger::{Blank, Ledger};

/// The shares of a month, over a counter of its own. It goes once over the transactions, and looks at each month from the first one
/// of the book's window to this one for each category, and once more for each template.
fn shares_over<G: Ledger>(
    alloc: Global,
    book: &Book,
    groups: &[BudgetGroup],
    ids: &[Txt],
    number: u32,
    blank: Blank,
) -> Result<Vec<Share>, NoMemory>
    requires name { blank.name ≡ G.name }
    requires parts { blank.parts ≡ G.parts }
    requires some { 1 ≤ G.parts }
    requires live { book.now.spent ≡ false }
    requires number { number < 2760 }
    requires groups { groups.now ≡ groups_of book.now.rows }
    requires ids { ids.now ≡ expense (budget_of book.now.rows) }
    ensures shares { IfOk result (λ ss. ss.items ≡ allocation (budget_of book.now.rows) number (templates book.now.rows)) }
    ensures small { IfOk result (λ ss. weight size_of ss.items ≤ 2 ^ 120) }
{
    let mut steps = Steps::<G>::new(blank);
    book.sizes();
    let sums = category_sums(alloc, book, &mut steps)?;
    let first = first_month(book, number);
    let income = ids_on(alloc, groups, true)?;
    let incomes = income.as_slice();
    let asked = asked_for(alloc, book, ids)?;
    let all = asked.as_slice();
    let money = shared_money(alloc, book, &sums, incomes, ids, all, first, number)?;
    let shares = share_out(alloc, book, &sums, first, number, money, all)?;
    Ok(shares)
}

/// The shares of a month YYYYMM, where the groups and the ids of the live expense categories are at hand.
fn shares_of(
    alloc: Global,
    book: &Book,
    groups: &[BudgetGroup],
    ids: &[Txt],
    month: u32,
) -> Result<Vec<Share>, NoMemory>
    requires live { book.now.spent ≡ false }
    requires month { IsTrue (is_month month) }
    requires groups { groups.now ≡ groups_of book.now.rows }
    requires ids { ids.now ≡ expense (budget_of book.now.rows) }
    ensures shares { IfOk result (λ ss. ss.items ≡ shares_in book.now.rows month) }
    ensures small { IfOk result (λ ss. weight size_of ss.items ≤ 2 ^ 120) }
{
    let number = month_number(month);
    shares_over::<Brand>(alloc, book, groups, ids, number, Blank::new(1))
}

/// The shares of a month YYYYMM by the templates of all live expense categories, in the order in which they are given: by priority,
/// then by the sheet, then by line.
pub fn allocate(alloc: Global, book: &Book, month: u32) -> Result<Items<Share>, NoMemory>
    requires live { book.now.spent ≡ false }
    requires month { IsTrue (is_month month) }
    ensures { IfOk result (λ ss. ss ≡ shares_in book.now.rows month) }
{
    let groups = groups_of(alloc, book)?;
    let list = groups.as_slice();
    let ids = ids_on(alloc, list, false)?;
    let expenses = ids.as_slice();
    let shares = shares_of(alloc, book, list, expenses, month)?;
    Ok(Items::new(shares))
}

/// Whether a share is of a category.
fn is_share_of(id: &Txt, share: &Share) -> bool
    ensures { result ≡ has_share (share.now ∷ []) id.now }
{
    same_id(&share.category, id)
}

/// Whether a category has a share.
fn has_share(shares: &[Share], id: &Txt) -> bool
    ensures { result ≡ has_share shares.now id.now }
{
    for share in shares {
        if is_share_of(id, share) {
            return true;
        }
    }
    false
}

/// What a category is given in a month.
fn budgeted(alloc: Global, book: &Book, id: &Txt, month: u32) -> Result<i64, NoMemory>
    ensures { IfOk result (λ z. z ≡ budgeted book.now.rows id.now month) }
{
    let row = budget_id(alloc, id, month)?;
    Ok(match book.budget_row(&row) {
        None => 0,
        Some(row) => row.amount,
    })
}

/// Whether what a category is given by shares differs from its budget, if it has a share.
fn differs(
    alloc: Global,
    book: &Book,
    month: u32,
    shares: &[Share],
    id: &Txt,
) -> Result<bool, NoMemory>
    requires { weight size_of shares.now ≤ 2 ^ 120 }
    ensures { IfOk result (λ d. d ≡ differs book.now.rows month shares.now id.now) }
{
    if !has_share(shares, id) {
        return Ok(false);
    }
    let budget = budgeted(alloc, book, id, month)?;
    Ok(got(id, shares) != i128::from(budget))
}

/// An amount that a value holds, as a number of 64 bits.
fn as_amount(n: i128) -> Result<i64, EditFault>
    ensures ok { IfOk result (λ m. (m ≡ n) × (an_amount n ≡ Ok tt)) }
    ensures err { IfErr result (IsEditFault (an_amount n)) }
{
    an_amount(n)?;
    Ok(n as i64)
}

/// Puts what a category is given behind others, where it differs from its budget.
fn push_grant(
    alloc: Global,
    grants: &mut Vec<Grant>,
    book: &Book,
    month: u32,
    shares: &[Share],
    id: &Txt,
) -> Result<(), EditFault>
    requires { weight size_of shares.now ≤ 2 ^ 120 }
    ensures ok { OnOk result (grants.new.items ≡ grants.old.items ++ granted book.now.rows month shares.now id.now) }
    ensures amounts { OnOk result (each (λ (g : GrantIs). an_amount g.amount) (granted book.now.rows month shares.now id.now) ≡ Ok tt) }
    ensures err { IfErr result (IsEditFault (each (λ (g : GrantIs). an_amount g.amount) (granted book.now.rows month shares.now id.now))) }
{
    if !differs(alloc, book, month, shares, id)? {
        return Ok(());
    }
    let amount = as_amount(got(id, shares))?;
    let category = id.copy()?;
    grants.push(Grant { category, amount })?;
    Ok(())
}

/// What categories are given, where it differs from their budgets, if a value holds each amount.
fn grants(
    alloc: Global,
    book: &Book,
    month: u32,
    shares: &[Share],
    ids: &[Txt],
) -> Result<Vec<Grant>, EditFault>
    requires { weight size_of shares.now ≤ 2 ^ 120 }
    ensures ok { IfOk result (λ gs. gs.items ≡ grants book.now.rows month shares.now ids.now) }
    ensures amounts { OnOk result (each (λ (g : GrantIs). an_amount g.amount) (grants book.now.rows month shares.now ids.now) ≡ Ok tt) }
    ensures err { IfErr result (IsEditFault (each (λ (g : GrantIs). an_amount g.amount) (grants book.now.rows month shares.now ids.now))) }
{
    let mut all = Vec::new(alloc);
    for id in ids {
        push_grant(alloc, &mut all, book, month, shares, id)?;
    }
    Ok(all)
}

/// A month YYYYMM from 1970 to 2199.
fn a_month(n: u32) -> Result<(), EditFault>
    ensures { result ≡ a_month n }
{
    if is_month(n) {
        return Ok(());
    }
    Err(EditFault::BadMonth { n })
}

/// Whether a text may be the name of a row.
fn is_name(id: &Txt) -> bool
    ensures { result ≡ is_name id.now }
{
    check_name(NamePart::Row, id.bytes()).is_ok()
}

/// A text that may be the name of a row.
fn a_name(id: &Txt) -> Result<(), EditFault>
    ensures ok { OnOk result (a_name id.now ≡ Ok tt) }
    ensures err { IfErr result (IsEditFault (a_name id.now)) }
{
    if is_name(id) {
        return Ok(());
    }
    Err(EditFault::BadId { id: id.copy()? })
}

/// That the ids of the rows are names.
fn named_grants(alloc: Global, month: u32, grants: &[Grant]) -> Result<(), EditFault>
    ensures ok { OnOk result (each (λ (g : GrantIs). a_name (budget_id g.category month)) grants.now ≡ Ok tt) }
    ensures err { IfErr result (IsEditFault (each (λ (g : GrantIs). a_name (budget_id g.category month)) grants.now)) }
{
    for grant in grants {
        let row = budget_id(alloc, &grant.category, month)?;
        a_name(&row)?;
    }
    Ok(())
}

/// What categories are given, where it differs from their budgets, if a value holds each amount and each row has a name.
fn checked_grants(
    alloc: Global,
    book: &Book,
    month: u32,
    shares: &[Share],
    ids: &[Txt],
) -> Result<Vec<Grant>, EditFault>
    requires { weight size_of shares.now ≤ 2 ^ 120 }
    ensures grants { IfOk result (λ gs. gs.items ≡ grants book.now.rows month shares.now ids.now) }
    ensures ok { OnOk result (may_grant month (grants book.now.rows month shares.now ids.now) ≡ Ok tt) }
    ensures err { IfErr result (IsEditFault (may_grant month (grants book.now.rows month shares.now ids.now))) }
{
    let grants = grants(alloc, book, month, shares, ids)?;
    named_grants(alloc, month, grants.as_slice())?;
    Ok(grants)
}

/// Puts the writes of what a category is given behind others.
fn push_writes(
    alloc: Global,
    writes: &mut Vec<Write>,
    book: &Book,
    month: u32,
    grant: &Grant,
) -> Result<(), NoMemory>
    ensures { OnOk result (writes.new.items ≡ writes.old.items ++ grant_writes book.now.rows month grant.now) }
{
    let row = budget_id(alloc, &grant.category, month)?;
    let value = Value::Number(grant.amount);
    push_column(
        alloc,
        writes,
        book,
        &row,
        &grant.category,
        month,
        "amount",
        value,
    )
}

/// The writes of what categories are given.
fn all_writes(
    alloc: Global,
    book: &Book,
    month: u32,
    grants: &[Grant],
) -> Result<Vec<Write>, NoMemory>
    ensures { IfOk result (λ ws. ws.items ≡ flat_map (grant_writes book.now.rows month) grants.now) }
{
    let mut writes = Vec::new(alloc);
    for grant in grants {
        push_writes(alloc, &mut writes, book, month, grant)?;
    }
    Ok(writes)
}

/// The writes by which the templates of a book fill a month YYYYMM: each category with a template is given what its templates get,
/// where its budget is another one.
///
/// # Errors
///
/// `BadMonth`; then the first amount that no value holds, and then the first id of a row that is no name, both in the order of the
/// sheet.
pub fn goal_writes(alloc: Global, book: &Book, month: u32) -> Result<Vec<Write>, EditFault>
    requires live { book.now.spent ≡ false }
    ensures ok { IfOk result (λ ws. goal_writes book.now.rows month ≡ Ok ws.items) }
    ensures valid { IfOk result (λ ws. AreWrites ws.items) }
    ensures err { IfErr result (IsEditFault (goal_writes book.now.rows month)) }
{
    a_month(month)?;
    let groups = groups_of(alloc, book)?;
    let list = groups.as_slice();
    let ids = ids_on(alloc, list, false)?;
    let expenses = ids.as_slice();
    let shares = shares_of(alloc, book, list, expenses, month)?;
    let given = shares.as_slice();
    let grants = checked_grants(alloc, book, month, given, expenses)?;
    let granted = grants.as_slice();
    let writes = all_writes(alloc, book, month, granted)?;
    Ok(writes)
}
