//! What a category has in a month.
ghost use Rattle.std.specs.Prelude.{◌≡◌, ◌+◌, ◌<◌, ◌≤◌, ◌^◌, ◌+ℤ◌, pos, false, unsigned_abs, map, IfOk};
ghost use Rattle.finite_sums.specs.Sums.{total, weight, only_if};
ghost use Rattle.finite_sums.specs.Maps.{Text};
ghost use Rattle.envelope_cells.specs.Budget.{categories_of};
ghost use Rattle.envelope_cells.specs.Cells.{rolled, taken};
ghost use Rattle.envelope_cells.specs.Ids.{month_at};
ghost use Rattle.envelope_cells.specs.BudgetOf.{budget_of, carries, buffered};
ghost use Rattle.envelope_cells.specs.Parts.{AreSums, IsPast, IsMonth, weight_before, part_of, group_of, picked, part_weight, is_side, group_total, side_total, groups_weight};

use crate::groups::BudgetGroup;
use crate::ids::{first_of, month_at};
use crate::name::{CellKind, CellName};
use crate::values::CellValues;
use book_rows::{Book, budget_id, month_id};
use field_values::{Items, NoMemory, Txt};
use std::alloc::Global;

/// What a category has in a month.
#[derive(Debug, Drop)]
pub(crate) struct Part {
    /// Its id.
    pub id: Txt,
    /// What its transactions add up to.
    pub sum: i128,
    /// What it is given.
    pub budget: i128,
    /// Whether it carries over.
    pub carries: bool,
    /// What is left in it.
    pub leftover: i128,
    /// What was left in it the month before.
    pub before: i128,
    /// What it takes from the money of the month, as overspent the month before.
    pub taken: i128,
    /// What its transactions of all months before add up to.
    pub moved: i128,
}

/// What the categories of a group have in a month.
#[derive(Debug, Drop)]
pub(crate) struct GroupParts {
    /// The group's id.
    pub id: Txt,
    /// Whether its categories take income.
    pub is_income: bool,
    /// What each of them has.
    pub parts: Items<Part>,
}

/// One of the amounts of a category.
#[derive(Clone, Copy, Debug, PartialEq, Eq)]
pub(crate) enum Pick {
    /// What its transactions add up to.
    Sum,
    /// What it is given.
    Budget,
    /// What is left.
    Leftover,
    /// What was left the month before.
    Before,
    /// What it takes, as overspent the month before.
    Taken,
    /// What its transactions of all months before add up to.
    Moved,
}

/// What the months before left of a category.
#[derive(Clone, Copy, Debug, PartialEq, Eq)]
pub struct Past {
    /// The leftover of the month before.
    pub left: i128,
    /// Whether the month before carries over.
    pub carries: bool,
    /// What the transactions of all months before add up to.
    pub moved: i128,
}

/// What the rows say of a category in one month.
#[derive(Clone, Copy, Debug, PartialEq, Eq)]
pub struct Month {
    /// What its transactions add up to.
    pub sum: i128,
    /// What it is given.
    pub budget: i64,
    /// Whether it carries over.
    pub carries: bool,
}

impl Part {
    /// One of the amounts.
    fn picked(&self, pick: Pick) -> i128
        ensures { result ≡ picked pick self.now }
    {
        match pick {
            Pick::Sum => self.sum,
            Pick::Budget => self.budget,
            Pick::Leftover => self.leftover,
            Pick::Before => self.before,
            Pick::Taken => self.taken,
            Pick::Moved => self.moved,
        }
    }
}

/// What a leftover hands to the next month of its category.
pub fn rolled_over(carries: bool, left: i128) -> i128
    ensures value { result ≡ rolled carries left }
    ensures small { unsigned_abs result ≤ unsigned_abs left }
{
    if carries || left > 0 { left } else { 0 }
}

/// What of a leftover is taken from the next month's money.
pub fn taken_over(carries: bool, left: i128) -> i128
    ensures { result ≡ taken carries left }
{
    if carries || left > 0 { 0 } else { left }
}

/// What the rows say of a category in a month.
fn month_of(
    alloc: Global,
    book: &Book,
    sums: &CellValues,
    id: &Txt,
    number: u32,
) -> Result<Month, NoMemory>
    requires number { number < 2760 }
    requires sums { AreSums sums.now book.now.rows }
    ensures { IfOk result (λ m. IsMonth (budget_of book.now.rows) id.now number m) }
{
    let month = month_at(number);
    let name = CellName::make(month, CellKind::Sum, id)?;
    let row_id = budget_id(alloc, id, month)?;
    let (budget, carries) = match book.budget_row(&row_id) {
        None => (0, false),
        Some(row) => (row.amount, row.carryover),
    };
    Ok(Month {
        sum: sums.at(&name),
        budget,
        carries,
    })
}

/// What a month leaves of a category, with what goes on from the month before.
fn added(budget: i64, sum: i128, rolled: i128) -> i128
    requires sum { unsigned_abs sum ≤ 2 ^ 122 }
    requires rolled { unsigned_abs rolled ≤ 2 ^ 122 }
    ensures { result ≡ (budget +ℤ sum) +ℤ rolled }
{
    i128::from(budget) + sum + rolled
}

/// One month more.
pub fn next(past: Past, month: Month) -> Past
    requires sum { unsigned_abs month.sum ≤ 2 ^ 122 }
    requires left { unsigned_abs past.left ≤ 2 ^ 122 }
    requires moved { unsigned_abs past.moved ≤ 2 ^ 122 }
    ensures left { result.left ≡ (month.budget +ℤ month.sum) +ℤ rolled past.carries past.left }
    ensures carries { result.carries ≡ month.carries }
    ensures moved { result.moved ≡ past.moved +ℤ month.sum }
{
    Past {
        left: added(
            month.budget,
            month.sum,
            rolled_over(past.carries, past.left),
        ),
        carries: month.carries,
        moved: past.moved + month.sum,
    }
}

/// The number of a month to which the months before it leave nothing of any category. It isn't
/// after the month that is asked for.
pub fn first_month(book: &Book, number: u32) -> u32
    requires live { book.now.spent ≡ false }
    requires number { number < 2760 }
    ensures within { result ≤ number }
    ensures quiet { (c : Text) → IsPast (budget_of book.now.rows) c result (record { left = pos 0; carries = false; moved = pos 0 }) }
{
    match book.window() {
        None => number,
        Some(span) => first_of(span.0, number),
    }
}

/// What the months before month `number` left of a category. Before month `first` there is nothing. It looks at each month from
/// `first` on.
pub fn past_of(
    alloc: Global,
    book: &Book,
    sums: &CellValues,
    id: &Txt,
    first: u32,
    number: u32,
) -> Result<Past, NoMemory>
    requires first { first ≤ number }
    requires number { number < 2760 }
    requires sums { AreSums sums.now book.now.rows }
    requires quiet { IsPast (budget_of book.now.rows) id.now first (record { left = pos 0; carries = false; moved = pos 0 }) }
    requires small { weight_before (budget_of book.now.rows) id.now number ≤ 2 ^ 120 }
    ensures { IfOk result (λ past. IsPast (budget_of book.now.rows) id.now number past) }
{
    let mut past = Past {
        left: 0,
        carries: false,
        moved: 0,
    };
    for at in first..number {
        let month = month_of(alloc, book, sums, id, at)?;
        past = next(past, month);
    }
    Ok(past)
}

/// What a category has in a month.
fn part_of(
    alloc: Global,
    book: &Book,
    sums: &CellValues,
    id: &Txt,
    first: u32,
    number: u32,
) -> Result<Part, NoMemory>
    requires first { first ≤ number }
    requires number { number < 2760 }
    requires sums { AreSums sums.now book.now.rows }
    requires quiet { IsPast (budget_of book.now.rows) id.now first (record { left = pos 0; carries = false; moved = pos 0 }) }
    requires small { weight_before (budget_of book.now.rows) id.now (number + 1) ≤ 2 ^ 120 }
    ensures { IfOk result (λ part. part ≡ part_of (budget_of book.now.rows) number id.now) }
{
    let past = past_of(alloc, book, sums, id, first, number)?;
    let month = month_of(alloc, book, sums, id, number)?;
    Ok(Part {
        id: id.copy()?,
        sum: month.sum,
        budget: i128::from(month.budget),
        carries: month.carries,
        leftover: next(past, month).left,
        before: past.left,
        taken: taken_over(past.carries, past.left),
        moved: past.moved,
    })
}

/// What the categories of a list have in a month.
fn parts_of(
    alloc: Global,
    book: &Book,
    sums: &CellValues,
    ids: &[Txt],
    first: u32,
    number: u32,
) -> Result<Items<Part>, NoMemory>
    requires first { first ≤ number }
    requires number { number < 2760 }
    requires sums { AreSums sums.now book.now.rows }
    requires quiet { (c : Text) → IsPast (budget_of book.now.rows) c first (record { left = pos 0; carries = false; moved = pos 0 }) }
    requires small { weight (λ c. weight_before (budget_of book.now.rows) c (number + 1)) ids.now ≤ 2 ^ 120 }
    ensures { IfOk result (λ parts. parts ≡ map (part_of (budget_of book.now.rows) number) ids.now) }
{
    let mut parts = Vec::new(alloc);
    for id in ids {
        parts.push(part_of(alloc, book, sums, id, first, number)?)?;
    }
    Ok(Items::new(parts))
}

/// What the categories of a group have in a month.
fn group_of(
    alloc: Global,
    book: &Book,
    sums: &CellValues,
    group: &BudgetGroup,
    first: u32,
    number: u32,
) -> Result<GroupParts, NoMemory>
    requires first { first ≤ number }
    requires number { number < 2760 }
    requires sums { AreSums sums.now book.now.rows }
    requires quiet { (c : Text) → IsPast (budget_of book.now.rows) c first (record { left = pos 0; carries = false; moved = pos 0 }) }
    requires small { weight (λ c. weight_before (budget_of book.now.rows) c (number + 1)) group.now.categories ≤ 2 ^ 120 }
    ensures { IfOk result (λ parts. parts ≡ group_of (budget_of book.now.rows) number group.now) }
{
    let parts = parts_of(
        alloc,
        book,
        sums,
        group.categories.as_slice(),
        first,
        number,
    )?;
    Ok(GroupParts {
        id: group.id.copy()?,
        is_income: group.is_income,
        parts,
    })
}

/// What the categories of all groups have in a month.
pub(crate) fn groups_parts(
    alloc: Global,
    book: &Book,
    sums: &CellValues,
    groups: &[BudgetGroup],
    first: u32,
    number: u32,
) -> Result<Items<GroupParts>, NoMemory>
    requires first { first ≤ number }
    requires number { number < 2760 }
    requires sums { AreSums sums.now book.now.rows }
    requires quiet { (c : Text) → IsPast (budget_of book.now.rows) c first (record { left = pos 0; carries = false; moved = pos 0 }) }
    requires small { weight (λ c. weight_before (budget_of book.now.rows) c (number + 1)) (categories_of groups.now) ≤ 2 ^ 120 }
    ensures { IfOk result (λ parts. parts ≡ map (group_of (budget_of book.now.rows) number) groups.now) }
{
    let mut all = Vec::new(alloc);
    for group in groups {
        all.push(group_of(alloc, book, sums, group, first, number)?)?;
    }
    Ok(Items::new(all))
}

/// One of the amounts, added up.
pub(crate) fn total_of(parts: &[Part], pick: Pick) -> i128
    requires { weight (part_weight pick) parts.now ≤ 2 ^ 120 }
    ensures { result ≡ total (picked pick) parts.now }
{
    let mut sum = 0i128;
    for part in parts {
        sum += part.picked(pick);
    }
    sum
}

/// Whether the group takes income, or, on the other side, doesn't.
fn is_side(income: bool, group: &GroupParts) -> bool
    ensures { result ≡ is_side income group.now }
{
    if income {
        group.is_income
    } else {
        !group.is_income
    }
}

/// One of the amounts of a group, where it is on the side that is asked for, or else 0.
fn group_part(group: &GroupParts, pick: Pick, income: bool) -> i128
    requires { weight (part_weight pick) group.now.parts ≤ 2 ^ 120 }
    ensures { result ≡ only_if (is_side income group.now) (group_total pick group.now) }
{
    if !is_side(income, group) {
        return 0;
    }
    total_of(group.parts.as_slice(), pick)
}

/// One of the amounts, added up over all groups that take income, or over all others.
pub(crate) fn total_of_side(groups: &[GroupParts], pick: Pick, income: bool) -> i128
    requires { groups_weight pick groups.now ≤ 2 ^ 120 }
    ensures value { result ≡ side_total pick income groups.now }
    ensures small { unsigned_abs result ≤ 2 ^ 120 }
{
    let mut sum = 0i128;
    for group in groups {
        sum += group_part(group, pick, income);
    }
    sum
}

/// What is held back in a month.
pub(crate) fn buffered_in(alloc: Global, book: &Book, number: u32) -> Result<i64, NoMemory>
    requires { number < 2760 }
    ensures { IfOk result (λ z. z ≡ buffered book.now.rows (month_at number)) }
{
    let id = month_id(alloc, month_at(number))?;
    Ok(match book.month_row(&id) {
        None => 0,
        Some(row) => row.buffered,
    })
}
