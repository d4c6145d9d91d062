//! The cells of months, computed anew.
ghost use Rattle.std.specs.Prelude.{◌≡◌, ℕ, List, [], ◌+◌, ◌-◌, ◌*◌, length, ◌≤◌, ◌<◌, true, false, map as list_map, OnOk, IfOk};
ghost use Rattle.std.specs.FinMap as map;
ghost use Rattle.finite_sums.specs.Maps.{Text};
ghost use Rattle.envelope_cells.specs.BudgetOf.{budget_of, groups_of};
ghost use Rattle.envelope_cells.specs.Ids.{month_at};
ghost use Rattle.envelope_cells.specs.Parts.{AreSums, IsPast};
ghost use Rattle.envelope_cells.specs.declared.name.CellName.{CellName as CellNameIs};
ghost use Rattle.dirty_cells.specs.Grid.{is_pending, nothing};
ghost use Rattle.dirty_cells.specs.Right.{AreRightBut, AreRightIn, AreWithin, IsOutside, none_pending};
ghost use Rattle.dirty_cells.specs.Steps.{month_cost};

use crate::category::refresh_categories;
use crate::group::refresh_groups;
use crate::store::Store;
use crate::whole::refresh_whole;
use book_rows::Book;
use envelope_cells::{BudgetGroup, CellValues};
use field_values::{Items, NoMemory, Steps, Txt};
use std::alloc::Global;
use std::sync::ledger::Ledger;

/// Computes the cells of some categories, of some groups and of the whole month anew.
fn refresh_month<G: Ledger>(
    alloc: Global,
    cells: &mut Store,
    sums: &CellValues,
    book: &Book,
    groups: &[BudgetGroup],
    categories: &[Txt],
    marked: &[Txt],
    number: u32,
    first: u32,
    steps: &mut Steps<G>,
) -> Result<(), NoMemory>
    requires live { book.now.spent ≡ false }
    requires number { number < 2760 }
    requires within { first ≤ number }
    requires sums { AreSums sums.now book.now.rows }
    requires groups { groups.now ≡ groups_of book.now.rows }
    requires quiet { (c : Text) → IsPast (budget_of book.now.rows) c first nothing }
    requires prior { first < number → AreRightBut cells.old (budget_of book.now.rows) (number - 1) none_pending }
    requires right { AreRightBut cells.old (budget_of book.now.rows) number (is_pending categories.now marked.now true) }
    ensures right { OnOk result (AreRightBut cells.new (budget_of book.now.rows) number none_pending) }
    ensures others { OnOk result ((q : CellNameIs) → (q.month ≡ month_at number → ⊥) → map.get cells.new q ≡ map.get cells.old q) }
    ensures cost { OnOk result (steps.new ≤ steps.old + month_cost (length categories.now) (length marked.now)) }
{
    refresh_categories(alloc, cells, sums, book, categories, number, first, steps)?;
    refresh_groups(cells, book, groups, marked, number, steps)?;
    refresh_whole(alloc, cells, book, groups, number, first, steps)
}

/// The same of the months from `from` on, before `to`.
fn refresh_some_months<G: Ledger>(
    alloc: Global,
    cells: &mut Store,
    sums: &CellValues,
    book: &Book,
    groups: &[BudgetGroup],
    categories: &[Txt],
    marked: &[Txt],
    first: u32,
    from: u32,
    to: u32,
    steps: &mut Steps<G>,
) -> Result<(), NoMemory>
    requires live { book.now.spent ≡ false }
    requires within { first ≤ from }
    requires order { from ≤ to }
    requires to { to ≤ 2760 }
    requires sums { AreSums sums.now book.now.rows }
    requires groups { groups.now ≡ groups_of book.now.rows }
    requires quiet { (c : Text) → IsPast (budget_of book.now.rows) c first nothing }
    requires prior { AreRightIn cells.old (budget_of book.now.rows) first from none_pending }
    requires right { AreRightIn cells.old (budget_of book.now.rows) from to (is_pending categories.now marked.now true) }
    ensures right { OnOk result (AreRightIn cells.new (budget_of book.now.rows) from to none_pending) }
    ensures others { OnOk result ((q : CellNameIs) → IsOutside from to q → map.get cells.new q ≡ map.get cells.old q) }
    ensures cost { OnOk result (steps.new ≤ steps.old + month_cost (length categories.now) (length marked.now) * (to - from)) }
{
    for number in from..to {
        refresh_month(
            alloc, cells, sums, book, groups, categories, marked, number, first, steps,
        )?;
    }
    Ok(())
}

/// The same, and where there are no such months, nothing is done.
#[inline]
pub(crate) fn refresh_months<G: Ledger>(
    alloc: Global,
    cells: &mut Store,
    sums: &CellValues,
    book: &Book,
    groups: &[BudgetGroup],
    categories: &[Txt],
    marked: &[Txt],
    first: u32,
    from: u32,
    to: u32,
    steps: &mut Steps<G>,
) -> Result<(), NoMemory>
    requires live { book.now.spent ≡ false }
    requires within { first ≤ from }
    requires order { from ≤ to }
    requires to { to ≤ 2760 }
    requires sums { AreSums sums.now book.now.rows }
    requires groups { groups.now ≡ groups_of book.now.rows }
    requires quiet { (c : Text) → IsPast (budget_of book.now.rows) c first nothing }
    requires prior { AreRightIn cells.old (budget_of book.now.rows) first from none_pending }
    requires right { AreRightIn cells.old (budget_of book.now.rows) from to (is_pending categories.now marked.now true) }
    ensures right { OnOk result (AreRightIn cells.new (budget_of book.now.rows) from to none_pending) }
    ensures others { OnOk result ((q : CellNameIs) → IsOutside from to q → map.get cells.new q ≡ map.get cells.old q) }
    ensures cost { OnOk result (steps.new ≤ steps.old + month_cost (length categories.now) (length marked.now) * (to - from)) }
{
    if to <= from {
        return Ok(());
    }
    refresh_some_months(
        alloc, cells, sums, book, groups, categories, marked, first, from, to, steps,
    )
}

/// The ids of all categories, in order, dead or alive.
pub(crate) fn category_ids(alloc: Global, book: &Book) -> Result<Items<Txt>, NoMemory>
    ensures { IfOk result (λ ids. ids ≡ list_map (λ e. e.0) (map.entries book.now.rows.categories)) }
{
    let mut ids = Vec::new(alloc);
    for (id, _) in book.categories() {
        ids.push(id.copy()?)?;
    }
    Ok(Items::new(ids))
}

/// The ids of all groups of categories, in order, dead or alive.
pub(crate) fn group_ids(alloc: Global, book: &Book) -> Result<Items<Txt>, NoMemory>
    ensures { IfOk result (λ ids. ids ≡ list_map (λ e. e.0) (map.entries book.now.rows.groups)) }
{
    let mut ids = Vec::new(alloc);
    for (id, _) in book.groups() {
        ids.push(id.copy()?)?;
    }
    Ok(Items::new(ids))
}

/// The same of months of which nothing is kept: of all categories and groups, of which it makes lists.
fn cover_some_months<G: Ledger>(
    alloc: Global,
    cells: &mut Store,
    sums: &CellValues,
    book: &Book,
    groups: &[BudgetGroup],
    first: u32,
    from: u32,
    to: u32,
    steps: &mut Steps<G>,
) -> Result<(), NoMemory>
    requires live { book.now.spent ≡ false }
    requires within { first ≤ from }
    requires order { from ≤ to }
    requires to { to ≤ 2760 }
    requires sums { AreSums sums.now book.now.rows }
    requires groups { groups.now ≡ groups_of book.now.rows }
    requires quiet { (c : Text) → IsPast (budget_of book.now.rows) c first nothing }
    requires prior { AreRightIn cells.old (budget_of book.now.rows) first from none_pending }
    requires empty { (q : CellNameIs) (n : ℕ) → from ≤ n → n < to → q.month ≡ month_at n → map.get cells.old q ≡ None }
    ensures right { OnOk result (AreRightIn cells.new (budget_of book.now.rows) from to none_pending) }
    ensures others { OnOk result ((q : CellNameIs) → IsOutside from to q → map.get cells.new q ≡ map.get cells.old q) }
    ensures cost { OnOk result (steps.new ≤ steps.old + month_cost (length (map.entries book.now.rows.categories)) (length (map.entries book.now.rows.groups)) * (to - from)) }
{
    let categories = category_ids(alloc, book)?;
    let marked = group_ids(alloc, book)?;
    let list = categories.as_slice();
    let marks = marked.as_slice();
    refresh_some_months(
        alloc, cells, sums, book, groups, list, marks, first, from, to, steps,
    )
}

/// The same of months of which nothing is kept: of all categories and groups. Where there are no such months, nothing is done.
#[inline]
pub fn cover_months<G: Ledger>(
    alloc: Global,
    cells: &mut Store,
    sums: &CellValues,
    book: &Book,
    groups: &[BudgetGroup],
    first: u32,
    from: u32,
    to: u32,
    steps: &mut Steps<G>,
) -> Result<(), NoMemory>
    requires live { book.now.spent ≡ false }
    requires within { first ≤ from }
    requires order { from ≤ to }
    requires to { to ≤ 2760 }
    requires sums { AreSums sums.now book.now.rows }
    requires groups { groups.now ≡ groups_of book.now.rows }
    requires quiet { (c : Text) → IsPast (budget_of book.now.rows) c first nothing }
    requires prior { AreRightIn cells.old (budget_of book.now.rows) first from none_pending }
    requires empty { (q : CellNameIs) (n : ℕ) → from ≤ n → n < to → q.month ≡ month_at n → map.get cells.old q ≡ None }
    ensures right { OnOk result (AreRightIn cells.new (budget_of book.now.rows) from to none_pending) }
    ensures others { OnOk result ((q : CellNameIs) → IsOutside from to q → map.get cells.new q ≡ map.get cells.old q) }
    ensures cost { OnOk result (steps.new ≤ steps.old + month_cost (length (map.entries book.now.rows.categories)) (length (map.entries book.now.rows.groups)) * (to - from)) }
{
    if to <= from {
        return Ok(());
    }
    cover_some_months(alloc, cells, sums, book, groups, first, from, to, steps)
}
