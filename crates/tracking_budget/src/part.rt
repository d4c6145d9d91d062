//! What a category has in a month.
ghost use Rattle.std.specs.Prelude.{◌≡◌, ◌+◌, ◌<◌, ◌≤◌, ◌^◌, unsigned_abs, IfOk, map};
ghost use Rattle.finite_sums.specs.Sums.{weight};
ghost use Rattle.envelope_cells.specs.Parts.{AreSums, weight_before};
ghost use Rattle.tracking_budget.specs.Tracked.{tracked_of};
ghost use Rattle.tracking_budget.specs.Parts.{part_of, picked, side_part, side_total, size_of, weight_of};

use crate::kept::{kept_of, own_of, plus, seen_in};
use crate::live::LiveCategory;
use book_rows::Book;
use envelope_cells::CellValues;
use field_values::{Items, NoMemory, Txt};
use std::alloc::Global;

/// What a category has in a month.
#[derive(Debug, Drop)]
pub(crate) struct Part {
    /// Its id.
    pub id: Txt,
    /// Whether its group takes income.
    pub is_income: bool,
    /// What its transactions add up to.
    pub sum: i128,
    /// What it is given.
    pub given: i128,
    /// Whether it carries over.
    pub carries: bool,
    /// What is left in it.
    pub left: i128,
}

/// One of the amounts of a category.
#[derive(Clone, Copy, Debug, PartialEq, Eq)]
pub(crate) enum Pick {
    /// What its transactions add up to.
    Sum,
    /// What it is given.
    Given,
    /// What is left in it.
    Left,
}

/// What a category has in a month.
fn part_of(
    alloc: Global,
    book: &Book,
    sums: &CellValues,
    category: &LiveCategory,
    number: u32,
) -> Result<Part, NoMemory>
    requires number { number < 2760 }
    requires sums { AreSums sums.now book.now.rows }
    requires small { weight_before (tracked_of book.now.rows) category.now.id (number + 1) ≤ 2 ^ 120 }
    ensures { IfOk result (λ p. p ≡ part_of (tracked_of book.now.rows) number category.now) }
{
    let id = &category.id;
    let is_income = category.is_income;
    let kept = kept_of(alloc, book, sums, id, is_income, number)?;
    let seen = seen_in(alloc, book, sums, id, number)?;
    let left = plus(own_of(is_income, seen.given, seen.sum), kept);
    Ok(Part {
        id: id.copy()?,
        is_income,
        sum: seen.sum,
        given: i128::from(seen.given),
        carries: seen.carries,
        left,
    })
}

/// What some categories have in a month.
pub(crate) fn parts_of(
    alloc: Global,
    book: &Book,
    sums: &CellValues,
    live: &[LiveCategory],
    number: u32,
) -> Result<Items<Part>, NoMemory>
    requires number { number < 2760 }
    requires sums { AreSums sums.now book.now.rows }
    requires small { weight (weight_of (tracked_of book.now.rows) number) live.now ≤ 2 ^ 120 }
    ensures { IfOk result (λ ps. ps ≡ map (part_of (tracked_of book.now.rows) number) live.now) }
{
    let mut parts = Vec::new(alloc);
    for category in live {
        parts.push(part_of(alloc, book, sums, category, number)?)?;
    }
    Ok(Items::new(parts))
}

impl Part {
    /// One of the amounts.
    fn picked(&self, pick: Pick) -> i128
        ensures { result ≡ picked pick self.now }
    {
        match pick {
            Pick::Sum => self.sum,
            Pick::Given => self.given,
            Pick::Left => self.left,
        }
    }

    /// One of the amounts, where the category takes income, or, on the other side, doesn't.
    fn side_part(&self, pick: Pick, income: bool) -> i128
        ensures { result ≡ side_part pick income self.now }
    {
        let is_of = if income {
            self.is_income
        } else {
            !self.is_income
        };
        if is_of { self.picked(pick) } else { 0 }
    }
}

/// One of the amounts, added up over the categories of a side.
pub(crate) fn total_of(parts: &[Part], pick: Pick, income: bool) -> i128
    requires { weight (size_of pick) parts.now ≤ 2 ^ 120 }
    ensures value { result ≡ side_total pick income parts.now }
    ensures small { unsigned_abs result ≤ 2 ^ 120 }
{
    let mut sum = 0i128;
    for part in parts {
        sum += part.side_part(pick, income);
    }
    sum
}
