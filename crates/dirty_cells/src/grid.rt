//! The grid: the cells of all months that were asked for, and of all in which a book has rows.
ghost use Rattle.std.specs.Prelude.{◌≡◌, ℕ, ◌+◌, ◌-◌, ◌*◌, ◌≤◌, ◌<◌, true, false, None, length, OnOk, OnErr, IfOk, IfSome};
ghost use Rattle.std.specs.FinMap as map;
ghost use Rattle.finite_sums.specs.Maps.{Text};
ghost use Rattle.book_rows.specs.declared.rows.Rows.{Rows as RowsIs};
ghost use Rattle.book_rows.specs.Months.{is_month, window_of};
ghost use Rattle.book_rows.specs.Rows.{no_rows};
ghost use Rattle.envelope_cells.specs.BudgetOf.{budget_of, groups_of};
ghost use Rattle.envelope_cells.specs.CellOf.{cell_of};
ghost use Rattle.envelope_cells.specs.Ids.{month_at, month_number};
ghost use Rattle.envelope_cells.specs.Parts.{AreSums, IsPast};
ghost use Rattle.envelope_cells.specs.declared.name.CellName.{CellName as CellNameIs};
ghost use Rattle.dirty_cells.specs.Grid.{is_pending, nothing};
ghost use Rattle.dirty_cells.specs.Right.{AreRightIn, AreWithin, none_pending};
ghost use Rattle.dirty_cells.specs.Stands.{StandsFor, HasWindow, KeepsMoney, based, is_between, is_covered, with_month, with_window};
ghost use Rattle.dirty_cells.specs.Steps.{month_cost};

mod apply;

use crate::month::{cover_months, refresh_months};
use crate::store::Store;
use book_rows::{Book, is_month};
use envelope_cells::{BudgetGroup, CellName, CellValues, category_sums, groups_of, month_number};
use field_values::{Items, NoMemory, Steps, Txt};
use std::alloc::Global;
use std::marker::Brand;
use std::sync::ledger::{Blank, Ledger};

/// The cells of an unbroken range of months, beside a book: those of the months in which the book has rows, and of any that were
/// asked for. They are kept, and only those that a change touches are computed anew.
///
/// A call that answers `NoMemory` may leave the grid spent: no clause tells then what it keeps, and it is to be dropped.
#[derive(Drop)]
pub struct Grid {
    alloc: Global,
    /// The sums of all categories in all months.
    sums: CellValues,
    cells: Store,
    /// The live groups, with their categories.
    groups: Items<BudgetGroup>,
    /// The number of the first month that is covered.
    first: u32,
    /// The number of the first month after those that are covered.
    end: u32,
    spent: bool,
}

/// The least range of months that has those of a range, and one month more.
fn with_month(range: (u32, u32), number: u32) -> (u32, u32)
    requires { number < 2760 }
    ensures is { result ≡ with_month range number }
    ensures front { range.0 < range.1 → result.0 ≤ range.0 }
    ensures back { range.0 < range.1 → range.1 ≤ result.1 }
    ensures low { result.0 ≤ number }
    ensures high { number < result.1 }
    ensures end { range.1 ≤ 2760 → result.1 ≤ 2760 }
{
    if range.0 < range.1 {
        (range.0.min(number), range.1.max(number + 1))
    } else {
        (number, number + 1)
    }
}

/// The least range of months that has those of a range, and the book's window.
fn with_window(range: (u32, u32), book: &Book) -> (u32, u32)
    requires live { book.now.spent ≡ false }
    requires order { range.0 ≤ range.1 }
    requires end { range.1 ≤ 2760 }
    ensures is { result ≡ with_window range (window_of book.now.rows) }
    ensures front { range.0 < range.1 → result.0 ≤ range.0 }
    ensures back { range.0 < range.1 → range.1 ≤ result.1 }
    ensures order { result.0 ≤ result.1 }
    ensures end { result.1 ≤ 2760 }
    ensures window { HasWindow result.0 result.1 (window_of book.now.rows) }
{
    match book.window() {
        None => range,
        Some(window) => {
            let front = with_month(range, month_number(window.0));
            with_month(front, month_number(window.1))
        }
    }
}

/// The range itself, or where it has no months, an empty one at a month.
fn based(range: (u32, u32), number: u32) -> (u32, u32)
    ensures { result ≡ based range number }
{
    if range.0 < range.1 {
        range
    } else {
        (number, number)
    }
}

/// Computes the marked cells of the months of a range anew, from the number `low` on, and all cells of the months that another
/// range has beside these.
fn renew<G: Ledger>(
    alloc: Global,
    cells: &mut Store,
    sums: &CellValues,
    book: &Book,
    groups: &[BudgetGroup],
    categories: &[Txt],
    marked: &[Txt],
    low: u32,
    old: (u32, u32),
    new: (u32, u32),
    steps: &mut Steps<G>,
) -> Result<(), NoMemory>
    requires live { book.now.spent ≡ false }
    requires front { new.0 ≤ old.0 }
    requires low { old.0 ≤ low }
    requires high { low ≤ old.1 }
    requires back { old.1 ≤ new.1 }
    requires end { new.1 ≤ 2760 }
    requires sums { AreSums sums.now book.now.rows }
    requires groups { groups.now ≡ groups_of book.now.rows }
    requires quiet { (c : Text) → IsPast (budget_of book.now.rows) c new.0 nothing }
    requires before { AreRightIn cells.old (budget_of book.now.rows) old.0 low none_pending }
    requires after { AreRightIn cells.old (budget_of book.now.rows) low old.1 (is_pending categories.now marked.now true) }
    requires within { AreWithin cells.old old.0 old.1 }
    ensures right { OnOk result (AreRightIn cells.new (budget_of book.now.rows) new.0 new.1 none_pending) }
    ensures within { OnOk result (AreWithin cells.new new.0 new.1) }
    ensures same { OnOk result ((q : CellNameIs) (n : ℕ) → old.0 ≤ n → n < low → q.month ≡ month_at n → map.get cells.new q ≡ map.get cells.old q) }
    ensures cost { OnOk result (steps.new ≤ steps.old + month_cost (length categories.now) (length marked.now) * (old.1 - low) + month_cost (length (map.entries book.now.rows.categories)) (length (map.entries book.now.rows.groups)) * ((old.0 - new.0) + (new.1 - old.1))) }
{
    cover_months(alloc, cells, sums, book, groups, new.0, new.0, old.0, steps)?;
    refresh_months(
        alloc, cells, sums, book, groups, categories, marked, new.0, low, old.1, steps,
    )?;
    cover_months(alloc, cells, sums, book, groups, new.0, old.1, new.1, steps)
}

/// Computes the cells of the months that another range has beside those of a range.
fn widen<G: Ledger>(
    alloc: Global,
    cells: &mut Store,
    sums: &CellValues,
    book: &Book,
    groups: &[BudgetGroup],
    old: (u32, u32),
    new: (u32, u32),
    steps: &mut Steps<G>,
) -> Result<(), NoMemory>
    requires live { book.now.spent ≡ false }
    requires front { new.0 ≤ old.0 }
    requires order { old.0 ≤ old.1 }
    requires back { old.1 ≤ new.1 }
    requires end { new.1 ≤ 2760 }
    requires sums { AreSums sums.now book.now.rows }
    requires groups { groups.now ≡ groups_of book.now.rows }
    requires quiet { (c : Text) → IsPast (budget_of book.now.rows) c new.0 nothing }
    requires right { AreRightIn cells.old (budget_of book.now.rows) old.0 old.1 none_pending }
    requires within { AreWithin cells.old old.0 old.1 }
    ensures right { OnOk result (AreRightIn cells.new (budget_of book.now.rows) new.0 new.1 none_pending) }
    ensures within { OnOk result (AreWithin cells.new new.0 new.1) }
    ensures same { OnOk result ((q : CellNameIs) (n : ℕ) → old.0 ≤ n → n < old.1 → q.month ≡ month_at n → map.get cells.new q ≡ map.get cells.old q) }
    ensures cost { OnOk result (steps.new ≤ steps.old + month_cost (length (map.entries book.now.rows.categories)) (length (map.entries book.now.rows.groups)) * ((old.0 - new.0) + (new.1 - old.1))) }
{
    let none = Vec::new(alloc);
    let list = none.as_slice();
    renew(
        alloc, cells, sums, book, groups, list, list, old.1, old, new, steps,
    )
}

/// A grid over a counter of its own.
fn build_over<G: Ledger>(alloc: Global, book: &Book, blank: Blank) -> Result<Grid, NoMemory>
    requires name { blank.name ≡ G.name }
    requires parts { blank.parts ≡ G.parts }
    requires some { 1 ≤ G.parts }
    requires live { book.now.spent ≡ false }
    ensures stands { IfOk result (λ grid. StandsFor grid book.now.rows) }
    ensures range { IfOk result (λ grid. (grid.first, grid.end) ≡ with_window (0, 0) (window_of book.now.rows)) }
    ensures live { IfOk result (λ grid. grid.spent ≡ false) }
{
    let mut steps = Steps::<G>::new(blank);
    let sums = category_sums(alloc, book, &mut steps)?;
    let groups = groups_of(alloc, book)?;
    let mut cells = Store::new(alloc);
    let list = groups.as_slice();
    let range = with_window((0, 0), book);
    cover_months(
        alloc, &mut cells, &sums, book, list, range.0, range.0, range.1, &mut steps,
    )?;
    Ok(Grid {
        alloc,
        sums,
        cells,
        groups,
        first: range.0,
        end: range.1,
        spent: false,
    })
}

impl Grid {
    /// The grid of a book. It covers exactly the book's window, or no month where there is none. It goes once over all
    /// transactions.
    pub fn build(alloc: Global, book: &Book) -> Result<Grid, NoMemory>
        requires live { book.now.spent ≡ false }
        ensures stands { IfOk result (λ grid. StandsFor grid book.now.rows) }
        ensures range { IfOk result (λ grid. (grid.first, grid.end) ≡ with_window (0, 0) (window_of book.now.rows)) }
        ensures live { IfOk result (λ grid. grid.spent ≡ false) }
    {
        build_over::<Brand>(alloc, book, Blank::new(1))
    }

    /// The grid of a book without rows. It covers no month.
    pub fn none(alloc: Global) -> Grid
        ensures stands { StandsFor result no_rows }
        ensures range { (result.first, result.end) ≡ with_window (0, 0) (window_of no_rows) }
        ensures live { result.spent ≡ false }
    {
        Grid {
            alloc,
            sums: CellValues::new(alloc),
            cells: Store::new(alloc),
            groups: Items::new(Vec::new(alloc)),
            first: 0,
            end: 0,
            spent: false,
        }
    }

    /// Whether a want of memory has spoilt the grid.
    pub fn is_spent(&self) -> bool
        ensures { result ≡ self.now.spent }
    {
        self.spent
    }

    /// What the transactions of each category add up to in each month, of all months. It is kept, so no transaction is looked at.
    pub fn sums(&self) -> &CellValues
        ensures { (rows : RowsIs) → StandsFor self.now rows → AreSums result.now rows }
    {
        &self.sums
    }

    /// Whether the cells of a month YYYYMM are kept.
    pub fn covers(&self, month: u32) -> bool
        ensures { result ≡ is_covered self.now month }
    {
        if !is_month(month) {
            return false;
        }
        let number = month_number(month);
        self.first <= number && number < self.end
    }

    /// What a cell of a covered month tells, if there is such a cell.
    pub fn cell(&self, name: &CellName) -> Option<i128>
        requires { is_covered self.now name.now.month ≡ true }
        ensures cell { (rows : RowsIs) → StandsFor self.now rows → result ≡ cell_of (budget_of rows) name.now }
        ensures money { (rows : RowsIs) → StandsFor self.now rows → KeepsMoney self.now rows name.now.month }
    {
        self.cells.get(name)
    }

    /// Covers a month YYYYMM, and all months between it and those that were covered. Cells that were kept stay. After an error the
    /// grid is spent.
    pub fn extend<G: Ledger>(
        &mut self,
        book: &Book,
        month: u32,
        steps: &mut Steps<G>,
    ) -> Result<(), NoMemory>
        requires live { self.old.spent ≡ false }
        requires book { book.now.spent ≡ false }
        requires month { is_month month ≡ true }
        requires stands { StandsFor self.old book.now.rows }
        ensures stands { OnOk result (StandsFor self.new book.now.rows) }
        ensures range { OnOk result ((self.new.first, self.new.end) ≡ with_month (self.old.first, self.old.end) (month_number month)) }
        ensures covered { OnOk result (is_covered self.new month ≡ true) }
        ensures same { OnOk result ((name : CellNameIs) → is_covered self.old name.month ≡ true → map.get self.new.cells name ≡ map.get self.old.cells name) }
        ensures kept { OnOk result ((kept : ℕ) → is_covered self.old kept ≡ true → is_covered self.new kept ≡ true) }
        ensures live { OnOk result (self.new.spent ≡ false) }
        ensures spent { OnErr result (self.new.spent ≡ true) }
        ensures cost { OnOk result (steps.new ≤ steps.old + month_cost (length (map.entries book.now.rows.categories)) (length (map.entries book.now.rows.groups)) * ((self.new.end - self.new.first) - (self.old.end - self.old.first))) }
    {
        let number = month_number(month);
        let new = with_month((self.first, self.end), number);
        let old = based((self.first, self.end), new.0);
        self.spent = true;
        let groups = self.groups.as_slice();
        widen(
            self.alloc,
            &mut self.cells,
            &self.sums,
            book,
            groups,
            old,
            new,
            steps,
        )?;
        self.first = new.0;
        self.end = new.1;
        self.spent = false;
        Ok(())
    }
}
