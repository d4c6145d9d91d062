//! Changes of fields, in the book and in the cells.
ghost use Rattle.std.specs.Prelude.{◌≡◌, ℕ, ◌+◌, ◌-◌, ◌≤◌, ◌<◌, max, true, false, OnOk, OnErr};
ghost use Rattle.book_rows.specs.Months.{window_of};
ghost use Rattle.envelope_cells.specs.BudgetOf.{groups_of};
ghost use Rattle.dirty_cells.specs.Changes.{AreDifferent, AreValues, with_fields};
ghost use Rattle.dirty_cells.specs.Bound.{bound};
ghost use Rattle.dirty_cells.specs.Stands.{StandsFor, is_covered, with_window};

use super::{Grid, based, renew, with_window};
use crate::marks::follow;
use book_rows::Book;
use envelope_cells::{BudgetGroup, groups_of};
use field_values::{Field, Items, NoMemory, Steps, Value};
use std::alloc::Global;
use std::sync::ledger::Ledger;

/// Where in a range of months those begin that are not before a number.
fn low_of(range: (u32, u32), from: u32) -> u32
    requires { range.0 ≤ range.1 }
    ensures low { range.0 ≤ result }
    ensures high { result ≤ range.1 }
    ensures before { (k : ℕ) → range.0 ≤ k → k < result → k < from }
    ensures size { range.1 - result ≤ range.1 - max range.0 from }
{
    if from < range.0 {
        range.0
    } else if from < range.1 {
        from
    } else {
        range.1
    }
}

/// Puts the groups into their order anew, where a category's or a group's row was set.
fn renew_groups(
    alloc: Global,
    book: &Book,
    groups: &mut Items<BudgetGroup>,
    rearranged: bool,
) -> Result<(), NoMemory>
    requires { rearranged ≡ false → groups.old ≡ groups_of book.now.rows }
    ensures { OnOk result (groups.new ≡ groups_of book.now.rows) }
{
    if rearranged {
        *groups = groups_of(alloc, book)?;
    }
    Ok(())
}

/// Gives fields their values, and keeps the cells. The caller has marked the grid as spent.
fn change<G: Ledger>(
    grid: &mut Grid,
    book: &mut Book,
    changes: &[(Field, Value)],
    steps: &mut Steps<G>,
) -> Result<(), NoMemory>
    requires live { book.old.spent ≡ false }
    requires values { AreValues changes.now }
    requires stands { StandsFor grid.old book.old.rows }
    ensures book { OnOk result (book.new.rows ≡ with_fields book.old.rows changes.now) }
    ensures live { OnOk result (book.new.spent ≡ false) }
    ensures stands { OnOk result (StandsFor grid.new book.new.rows) }
    ensures range { OnOk result ((grid.new.first, grid.new.end) ≡ with_window (grid.old.first, grid.old.end) (window_of book.new.rows)) }
    ensures kept { OnOk result ((month : ℕ) → is_covered grid.old month ≡ true → is_covered grid.new month ≡ true) }
    ensures spent { grid.new.spent ≡ grid.old.spent }
    ensures cost { OnOk result (AreDifferent changes.now → steps.new ≤ steps.old + bound grid.old.first grid.old.end book.old.rows book.new.rows changes.now ((grid.new.end - grid.new.first) - (grid.old.end - grid.old.first))) }
{
    let marks = follow(grid.alloc, &mut grid.sums, book, changes, steps)?;
    renew_groups(grid.alloc, book, &mut grid.groups, marks.rearranged)?;
    let new = with_window((grid.first, grid.end), book);
    let old = based((grid.first, grid.end), new.0);
    let low = low_of(old, marks.from);
    let groups = grid.groups.as_slice();
    let categories = marks.categories.as_slice();
    let marked = marks.groups.as_slice();
    renew(
        grid.alloc,
        &mut grid.cells,
        &grid.sums,
        book,
        groups,
        categories,
        marked,
        low,
        old,
        new,
        steps,
    )?;
    grid.first = new.0;
    grid.end = new.1;
    Ok(())
}

impl Grid {
    /// Gives fields their values, one after the other, in the book and in the cells: what was covered stays covered, and the book's
    /// window is. Only cells that a change touches are computed anew: where no field is given two values, the steps are bounded by how
    /// much the changes touch. After an error both the grid and the book are spent.
    pub fn apply<G: Ledger>(
        &mut self,
        book: &mut Book,
        changes: &[(Field, Value)],
        steps: &mut Steps<G>,
    ) -> Result<(), NoMemory>
        requires grid { self.old.spent ≡ false }
        requires live { book.old.spent ≡ false }
        requires values { AreValues changes.now }
        requires stands { StandsFor self.old book.old.rows }
        ensures book { OnOk result (book.new.rows ≡ with_fields book.old.rows changes.now) }
        ensures stands { OnOk result (StandsFor self.new book.new.rows) }
        ensures range { OnOk result ((self.new.first, self.new.end) ≡ with_window (self.old.first, self.old.end) (window_of book.new.rows)) }
        ensures kept { OnOk result ((month : ℕ) → is_covered self.old month ≡ true → is_covered self.new month ≡ true) }
        ensures live { OnOk result (book.new.spent ≡ false) }
        ensures grid { OnOk result (self.new.spent ≡ false) }
        ensures spent { OnErr result (self.new.spent ≡ true) }
        ensures spoilt { OnErr result (book.new.spent ≡ true) }
        ensures cost { OnOk result (AreDifferent changes.now → steps.new ≤ steps.old + bound self.old.first self.old.end book.old.rows book.new.rows changes.now ((self.new.end - self.new.first) - (self.old.end - self.old.first))) }
    {
        self.spent = true;
        match change(self, book, changes, steps) {
            Ok(()) => {
                self.spent = false;
                Ok(())
            }
            Err(error) => {
                book.spend();
                Err(error)
            }
        }
    }
}
