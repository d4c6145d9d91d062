//! The cells of a whole month.
ghost use Rattle.std.specs.Prelude.{◌≡◌, ℕ, List, [], ◌+◌, ◌-◌, ◌≤◌, ◌<◌, ◌^◌, ◌+ℤ◌, ◌-ℤ◌, neg_ℤ, unsigned_abs, true, false, Some, OnOk, IfOk};
ghost use Rattle.std.specs.FinMap as map;
ghost use Rattle.finite_sums.specs.Maps.{Text};
ghost use Rattle.finite_sums.specs.Sums.{total, weight};
ghost use Rattle.book_rows.specs.Book.{HasSizes};
ghost use Rattle.envelope_cells.specs.BudgetOf.{budget_of, groups_of, buffered};
ghost use Rattle.envelope_cells.specs.Parts.{IsPast};
ghost use Rattle.envelope_cells.specs.Budget.{Budget as BudgetIs};
ghost use Rattle.envelope_cells.specs.Ids.{month_at};
ghost use Rattle.envelope_cells.specs.declared.name.CellName.{CellName as CellNameIs};
ghost use Rattle.envelope_cells.specs.declared.name.CellKind.TheVariants.{GroupSum, GroupBudget, GroupLeftover};
ghost use Rattle.dirty_cells.specs.Grid.{is_pending, nothing};
ghost use Rattle.dirty_cells.specs.Right.{AreRightBut, none_pending};
ghost use Rattle.dirty_cells.specs.WholeOf.{IsWhole, is_on, kept_of_group, AreTotals, IsBegin, whole_by};

use crate::category::kept;
use crate::row::{GroupAmounts, WholeCells};
use crate::store::Store;
use book_rows::{Book, month_id};
use envelope_cells::{BudgetGroup, CellKind, CellName, month_at};
use field_values::{NoMemory, Steps, Txt};
use std::alloc::Global;
use std::sync::ledger::Ledger;

/// What the cells of a whole month tell.
#[derive(Clone, Copy)]
pub(crate) struct Whole {
    pub income: i128,
    pub from_last: i128,
    pub available: i128,
    pub overspent: i128,
    pub budgeted: i128,
    pub buffered: i128,
    pub to_budget: i128,
    pub spent: i128,
    pub leftover: i128,
}

/// Settles the nine cells of a whole month.
pub(crate) fn settle_whole<G: Ledger>(
    cells: &mut Store,
    none: &Txt,
    month: u32,
    number: u32,
    whole: Whole,
    steps: &mut Steps<G>,
) -> Result<(), NoMemory>
    requires month { month ≡ month_at number }
    requires none { none.now ≡ [] }
    ensures right { OnOk result ((b : BudgetIs) → IsWhole b number whole → AreRightBut cells.old b number (is_pending [] [] true) → AreRightBut cells.new b number none_pending) }
    ensures others { OnOk result ((q : CellNameIs) → (q.month ≡ month_at number → ⊥) → map.get cells.new q ≡ map.get cells.old q) }
    ensures cost { OnOk result (steps.new ≤ steps.old + 9) }
{
    let told = WholeCells {
        income: Some(whole.income),
        from_last: Some(whole.from_last),
        available: Some(whole.available),
        overspent: Some(whole.overspent),
        budgeted: Some(whole.budgeted),
        buffered: Some(whole.buffered),
        to_budget: Some(whole.to_budget),
        spent: Some(whole.spent),
        leftover: Some(whole.leftover),
    };
    cells.settle_whole(none, month, told, steps)
}

/// What the groups of a month have together.
#[derive(Clone, Copy)]
pub(crate) struct Totals {
    /// What came in.
    pub income: i128,
    /// The sums of the expense groups.
    pub spent: i128,
    /// What they are given.
    pub budgets: i128,
    /// What is left in them.
    pub leftover: i128,
}

/// What a month begins with.
#[derive(Clone, Copy)]
pub(crate) struct Begin {
    /// What the month before left to budget and held back.
    pub from_last: i128,
    /// What it left in the expense categories.
    pub left: i128,
}

/// Whether a group takes income, or, on the other side, doesn't.
fn is_on(income: bool, group: &BudgetGroup) -> bool
    ensures { result ≡ is_on income group.now }
{
    if income {
        group.is_income
    } else {
        !group.is_income
    }
}

/// What a kept cell of a group tells, where the group is on the side that is asked for, or else 0.
fn group_kept(
    cells: &Store,
    group: &BudgetGroup,
    kind: CellKind,
    income: bool,
    number: u32,
) -> Result<i128, NoMemory>
    requires { number < 2760 }
    ensures { IfOk result (λ z. z ≡ kept_of_group cells.now number kind income group.now) }
{
    if !is_on(income, group) {
        return Ok(0);
    }
    let name = CellName::make(month_at(number), kind, &group.id)?;
    Ok(kept(cells, &name))
}

/// What the kept cells of one kind tell of the groups on a side, added up.
fn side_kept(
    cells: &Store,
    groups: &[BudgetGroup],
    kind: CellKind,
    income: bool,
    number: u32,
) -> Result<i128, NoMemory>
    requires number { number < 2760 }
    requires small { weight (λ g. unsigned_abs (kept_of_group cells.now number kind income g)) groups.now ≤ 2 ^ 120 }
    ensures { IfOk result (λ z. z ≡ total (kept_of_group cells.now number kind income) groups.now) }
{
    let mut sum = 0i128;
    for group in groups {
        let more = group_kept(cells, group, kind, income, number)?;
        sum += more;
    }
    Ok(sum)
}

/// What the groups of expenses have together.
#[derive(Clone, Copy)]
pub(crate) struct Spending {
    pub spent: i128,
    pub budgets: i128,
    pub leftover: i128,
}

/// What the three kept cells of a group tell, each 0 where it takes income.
fn group_amounts(cells: &Store, group: &BudgetGroup, number: u32) -> GroupAmounts
    requires { number < 2760 }
    ensures sum { result.sum ≡ kept_of_group cells.now number GroupSum false group.now }
    ensures budget { result.budget ≡ kept_of_group cells.now number GroupBudget false group.now }
    ensures leftover { result.leftover ≡ kept_of_group cells.now number GroupLeftover false group.now }
{
    if !is_on(false, group) {
        return GroupAmounts {
            sum: 0,
            budget: 0,
            leftover: 0,
        };
    }
    cells.group(&group.id, month_at(number))
}

/// What the kept cells of the groups of expenses tell, added up.
fn spending_kept(cells: &Store, groups: &[BudgetGroup], number: u32) -> Spending
    requires number { number < 2760 }
    requires spent { weight (λ g. unsigned_abs (kept_of_group cells.now number GroupSum false g)) groups.now ≤ 2 ^ 120 }
    requires budgets { weight (λ g. unsigned_abs (kept_of_group cells.now number GroupBudget false g)) groups.now ≤ 2 ^ 120 }
    requires leftover { weight (λ g. unsigned_abs (kept_of_group cells.now number GroupLeftover false g)) groups.now ≤ 2 ^ 120 }
    ensures spent { result.spent ≡ total (kept_of_group cells.now number GroupSum false) groups.now }
    ensures budgets { result.budgets ≡ total (kept_of_group cells.now number GroupBudget false) groups.now }
    ensures leftover { result.leftover ≡ total (kept_of_group cells.now number GroupLeftover false) groups.now }
{
    let mut spent = 0i128;
    let mut budgets = 0i128;
    let mut leftover = 0i128;
    for group in groups {
        let more = group_amounts(cells, group, number);
        spent += more.sum;
        budgets += more.budget;
        leftover += more.leftover;
    }
    Spending {
        spent,
        budgets,
        leftover,
    }
}

/// What the groups of a month have together, from their kept cells.
fn totals_of(
    cells: &Store,
    book: &Book,
    groups: &[BudgetGroup],
    number: u32,
) -> Result<Totals, NoMemory>
    requires live { book.now.spent ≡ false }
    requires number { number < 2760 }
    requires groups { groups.now ≡ groups_of book.now.rows }
    requires right { AreRightBut cells.now (budget_of book.now.rows) number (is_pending [] [] true) }
    ensures { IfOk result (λ t. AreTotals (budget_of book.now.rows) number t) }
{
    book.sizes();
    let income = side_kept(cells, groups, CellKind::GroupSum, true, number)?;
    let spending = spending_kept(cells, groups, number);
    Ok(Totals {
        income,
        spent: spending.spent,
        budgets: spending.budgets,
        leftover: spending.leftover,
    })
}

/// What a month left to budget and held back.
fn brought(to_budget: i128, held: i128) -> i128
    requires to_budget { unsigned_abs to_budget ≤ 2 ^ 121 }
    requires held { unsigned_abs held ≤ 2 ^ 121 }
    ensures { result ≡ to_budget +ℤ held }
{
    to_budget + held
}

/// What a month begins with, from the kept cells of the month before.
fn begin_kept(cells: &Store, book: &Book, none: &Txt, number: u32) -> Begin
    requires live { book.now.spent ≡ false }
    requires none { none.now ≡ [] }
    requires some { 0 < number }
    requires number { number < 2760 }
    requires prior { AreRightBut cells.now (budget_of book.now.rows) (number - 1) none_pending }
    ensures { IsBegin (budget_of book.now.rows) number result }
{
    book.sizes();
    let past = cells.handed_on(none, month_at(number - 1));
    let from_last = brought(past.to_budget, past.buffered);
    Begin {
        from_last,
        left: past.leftover,
    }
}

/// What a month begins with. Before month `first` there is nothing.
fn begin_of(cells: &Store, book: &Book, none: &Txt, number: u32, first: u32) -> Begin
    requires live { book.now.spent ≡ false }
    requires none { none.now ≡ [] }
    requires number { number < 2760 }
    requires within { first ≤ number }
    requires quiet { (c : Text) → IsPast (budget_of book.now.rows) c first nothing }
    requires prior { first < number → AreRightBut cells.now (budget_of book.now.rows) (number - 1) none_pending }
    ensures { IsBegin (budget_of book.now.rows) number result }
{
    if first < number {
        return begin_kept(cells, book, none, number);
    }
    Begin {
        from_last: 0,
        left: 0,
    }
}

/// What is held back in a month.
fn held_in(alloc: Global, book: &Book, number: u32) -> Result<i64, NoMemory>
    requires { number < 2760 }
    ensures { IfOk result (λ z. z ≡ (budget_of book.now.rows).buffered number) }
{
    let id = month_id(alloc, month_at(number))?;
    Ok(match book.month_row(&id) {
        None => 0,
        Some(row) => row.buffered,
    })
}

/// All money that a month has.
fn available(income: i128, from_last: i128) -> i128
    requires income { unsigned_abs income ≤ 2 ^ 121 }
    requires from_last { unsigned_abs from_last ≤ 2 ^ 122 }
    ensures value { result ≡ income +ℤ from_last }
    ensures small { unsigned_abs result ≤ 2 ^ 123 }
{
    income + from_last
}

/// What overspent categories take from a month.
fn overspent(budgets: i128, spent: i128, left: i128, leftover: i128) -> i128
    requires budgets { unsigned_abs budgets ≤ 2 ^ 121 }
    requires spent { unsigned_abs spent ≤ 2 ^ 121 }
    requires left { unsigned_abs left ≤ 2 ^ 121 }
    requires leftover { unsigned_abs leftover ≤ 2 ^ 121 }
    ensures value { result ≡ ((budgets +ℤ spent) +ℤ left) -ℤ leftover }
    ensures small { unsigned_abs result ≤ 2 ^ 123 }
{
    budgets + spent + left - leftover
}

/// What is given to the categories, as it goes out.
fn given(budgets: i128) -> i128
    requires { unsigned_abs budgets ≤ 2 ^ 121 }
    ensures value { result ≡ neg_ℤ budgets }
    ensures small { unsigned_abs result ≤ 2 ^ 121 }
{
    -budgets
}

/// What is held back, in as many bits as sums have.
fn widened(held: i64) -> i128
    ensures value { result ≡ held }
    ensures small { unsigned_abs result ≤ 2 ^ 64 }
{
    i128::from(held)
}

/// What is still to budget.
fn to_budget(available: i128, overspent: i128, budgeted: i128, buffered: i128) -> i128
    requires available { unsigned_abs available ≤ 2 ^ 123 }
    requires overspent { unsigned_abs overspent ≤ 2 ^ 123 }
    requires budgeted { unsigned_abs budgeted ≤ 2 ^ 121 }
    requires buffered { unsigned_abs buffered ≤ 2 ^ 64 }
    ensures { result ≡ ((available +ℤ overspent) +ℤ budgeted) -ℤ buffered }
{
    available + overspent + budgeted - buffered
}

/// The amounts of a month, from what its groups have together, what it begins with, and what is held back.
fn whole_by(totals: Totals, begin: Begin, held: i64) -> Whole
    requires income { unsigned_abs totals.income ≤ 2 ^ 121 }
    requires spent { unsigned_abs totals.spent ≤ 2 ^ 121 }
    requires budgets { unsigned_abs totals.budgets ≤ 2 ^ 121 }
    requires leftover { unsigned_abs totals.leftover ≤ 2 ^ 121 }
    requires from_last { unsigned_abs begin.from_last ≤ 2 ^ 122 }
    requires left { unsigned_abs begin.left ≤ 2 ^ 121 }
    ensures { result ≡ whole_by totals begin held }
{
    let funds = available(totals.income, begin.from_last);
    let taken = overspent(totals.budgets, totals.spent, begin.left, totals.leftover);
    let budgeted = given(totals.budgets);
    let buffered = widened(held);
    let left = to_budget(funds, taken, budgeted, buffered);
    Whole {
        income: totals.income,
        from_last: begin.from_last,
        available: funds,
        overspent: taken,
        budgeted,
        buffered,
        to_budget: left,
        spent: totals.spent,
        leftover: totals.leftover,
    }
}

/// The amounts of a month whose groups' cells are right, from these and from the kept cells of the month before.
fn whole_of(
    alloc: Global,
    cells: &Store,
    book: &Book,
    groups: &[BudgetGroup],
    none: &Txt,
    number: u32,
    first: u32,
) -> Result<Whole, NoMemory>
    requires live { book.now.spent ≡ false }
    requires none { none.now ≡ [] }
    requires number { number < 2760 }
    requires within { first ≤ number }
    requires quiet { (c : Text) → IsPast (budget_of book.now.rows) c first nothing }
    requires prior { first < number → AreRightBut cells.now (budget_of book.now.rows) (number - 1) none_pending }
    requires groups { groups.now ≡ groups_of book.now.rows }
    requires right { AreRightBut cells.now (budget_of book.now.rows) number (is_pending [] [] true) }
    ensures { IfOk result (λ w. IsWhole (budget_of book.now.rows) number w) }
{
    book.sizes();
    let totals = totals_of(cells, book, groups, number)?;
    let begin = begin_of(cells, book, none, number, first);
    let held = held_in(alloc, book, number)?;
    Ok(whole_by(totals, begin, held))
}

/// Computes the cells of a whole month anew, from kept cells of its groups and of the month before: nine of them are written.
pub(crate) fn refresh_whole<G: Ledger>(
    alloc: Global,
    cells: &mut Store,
    book: &Book,
    groups: &[BudgetGroup],
    number: u32,
    first: u32,
    steps: &mut Steps<G>,
) -> Result<(), NoMemory>
    requires live { book.now.spent ≡ false }
    requires number { number < 2760 }
    requires within { first ≤ number }
    requires quiet { (c : Text) → IsPast (budget_of book.now.rows) c first nothing }
    requires prior { first < number → AreRightBut cells.old (budget_of book.now.rows) (number - 1) none_pending }
    requires groups { groups.now ≡ groups_of book.now.rows }
    requires right { AreRightBut cells.old (budget_of book.now.rows) number (is_pending [] [] true) }
    ensures right { OnOk result (AreRightBut cells.new (budget_of book.now.rows) number none_pending) }
    ensures others { OnOk result ((q : CellNameIs) → (q.month ≡ month_at number → ⊥) → map.get cells.new q ≡ map.get cells.old q) }
    ensures cost { OnOk result (steps.new ≤ steps.old + 9) }
{
    let none = Txt::from_text(alloc, "")?;
    let whole = whole_of(alloc, cells, book, groups, &none, number, first)?;
    settle_whole(cells, &none, month_at(number), number, whole, steps)
}
