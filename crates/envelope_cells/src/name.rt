//! The cells of a month and their names.
ghost use Rattle.std.specs.Prelude.{◌≡◌, IfOk};
ghost use Rattle.envelope_cells.specs.Names.{kind_number};
ghost use Rattle.envelope_cells.specs.SheetOf.{value_named};

use field_values::{Copied, Items, NoMemory, Txt};
use std::alloc::Global;
use std::cmp::Ordering;

/// What a cell tells of its month.
#[derive(Clone, Copy, Debug, PartialEq, Eq)]
pub enum CellKind {
    /// `total-income`: what came in.
    TotalIncome,
    /// `from-last-month`: what the month before left to budget, with what it held back.
    FromLastMonth,
    /// `available-funds`: both of these.
    AvailableFunds,
    /// `last-month-overspent`: what overspent expense categories take from this month.
    LastMonthOverspent,
    /// `total-budgeted`: what all expense categories are given, as it goes out.
    TotalBudgeted,
    /// `buffered`: what is held back for the next month.
    Buffered,
    /// `to-budget`: what is still to budget.
    ToBudget,
    /// `total-spent`: the sums of all expense categories.
    TotalSpent,
    /// `total-leftover`: the leftovers of all expense categories.
    TotalLeftover,
    /// `group-sum-amount-`, and the id of a group.
    GroupSum,
    /// `group-budget-`, and the id of a group of expenses.
    GroupBudget,
    /// `group-leftover-`, and the id of a group of expenses.
    GroupLeftover,
    /// `sum-amount-`, and the id of a category.
    Sum,
    /// `budget-`, and the id of an expense category.
    Budget,
    /// `carryover-`, and the id of an expense category.
    Carryover,
    /// `leftover-`, and the id of an expense category.
    Leftover,
}

impl CellKind {
    /// Its place among all kinds.
    fn number(self) -> u8
        ensures { result ≡ kind_number self }
    {
        match self {
            CellKind::TotalIncome => 0,
            CellKind::FromLastMonth => 1,
            CellKind::AvailableFunds => 2,
            CellKind::LastMonthOverspent => 3,
            CellKind::TotalBudgeted => 4,
            CellKind::Buffered => 5,
            CellKind::ToBudget => 6,
            CellKind::TotalSpent => 7,
            CellKind::TotalLeftover => 8,
            CellKind::GroupSum => 9,
            CellKind::GroupBudget => 10,
            CellKind::GroupLeftover => 11,
            CellKind::Sum => 12,
            CellKind::Budget => 13,
            CellKind::Carryover => 14,
            CellKind::Leftover => 15,
        }
    }
}

/// Which cell of which month.
#[derive(Debug, Drop)]
pub struct CellName {
    /// YYYYMM.
    pub month: u32,
    /// What it tells.
    pub kind: CellKind,
    /// The id of a category or group; empty where the kind is of the whole month.
    pub id: Txt,
}

impl CellName {
    /// The name of the cell of this month, kind and id.
    pub fn make(month: u32, kind: CellKind, id: &Txt) -> Result<CellName, NoMemory>
        ensures { IfOk result (λ n. n ≡ record { month = month; kind = kind; id = id.now }) }
    {
        Ok(CellName {
            month,
            kind,
            id: id.copy()?,
        })
    }

    /// An equal name.
    pub fn copy(&self) -> Result<CellName, NoMemory>
        ensures { IfOk result (λ n. n ≡ self.now) }
    {
        CellName::make(self.month, self.kind, &self.id)
    }
}

impl Copied for CellName {
    fn copied(&self) -> Result<CellName, NoMemory> {
        self.copy()
    }
}

impl PartialEq for CellName {
    ghost use Rattle.std.specs.Ordering.{eq_by_cmp};
    ghost use Rattle.std.specs.Cmp.{partial_equiv_from_equiv, eq_by_cmp_equiv};
    ghost use Rattle.envelope_cells.specs.Names.{cell_cmp, cells_total};

    ghost eq = { eq_by_cmp cell_cmp };

    ghost laws = { partial_equiv_from_equiv (eq_by_cmp_equiv cells_total) };

    fn eq(&self, other: &CellName) -> bool {
        self.cmp(other) == Ordering::Equal
    }
}

impl Eq for CellName {
    ghost use Rattle.std.specs.Cmp.{eq_by_cmp_equiv};
    ghost use Rattle.envelope_cells.specs.Names.{cells_total};

    ghost laws = { eq_by_cmp_equiv cells_total };
}

impl PartialOrd for CellName {
    ghost use Rattle.std.specs.Ordering.{as_partial_cmp};
    ghost use Rattle.std.specs.Cmp.{partial_order_from_total};
    ghost use Rattle.envelope_cells.specs.Names.{cell_cmp, cells_total};

    ghost partial_cmp = { as_partial_cmp cell_cmp };

    ghost laws = { partial_order_from_total cells_total };

    fn partial_cmp(&self, other: &CellName) -> Option<Ordering> {
        Some(self.cmp(other))
    }
}

impl Ord for CellName {
    ghost use Rattle.std.specs.Prelude.{refl};
    ghost use Rattle.envelope_cells.specs.Names.{cell_cmp, cells_total};

    ghost cmp = { cell_cmp };

    ghost total = { cells_total };

    ghost matches_partial_cmp = { λ x y. refl };

    ghost matches_eq = { λ x y. refl };

    fn cmp(&self, other: &CellName) -> Ordering {
        self.month
            .cmp(&other.month)
            .then(self.kind.number().cmp(&other.kind.number()))
            .then(self.id.cmp(&other.id))
    }
}

/// A cell, with what it tells.
#[derive(Debug, Drop)]
pub struct Cell {
    /// Which cell.
    pub name: CellName,
    /// In cents; 1 or 0 where the kind is `Carryover`.
    pub value: i128,
}

impl Cell {
    /// An equal cell.
    pub fn copy(&self) -> Result<Cell, NoMemory>
        ensures { IfOk result (λ cell. cell ≡ self.now) }
    {
        Ok(Cell {
            name: self.name.copy()?,
            value: self.value,
        })
    }
}

impl Copied for Cell {
    fn copied(&self) -> Result<Cell, NoMemory> {
        self.copy()
    }
}

/// All cells of a month, in order: those of the whole month, then each live group with its cells, followed by its live
/// categories with theirs.
#[derive(Debug, Drop)]
pub struct Sheet {
    /// The cells.
    pub cells: Items<Cell>,
}

impl Sheet {
    /// What a cell tells, if the sheet has it.
    pub fn cell(&self, name: &CellName) -> Option<i128>
        ensures { result ≡ value_named self.now.cells name.now }
    {
        for cell in self.cells.as_slice() {
            if *name == cell.name {
                return Some(cell.value);
            }
        }
        None
    }

    /// An equal sheet.
    pub fn copy(&self, alloc: Global) -> Result<Sheet, NoMemory>
        ensures { IfOk result (λ sheet. sheet ≡ self.now) }
    {
        Ok(Sheet {
            cells: self.cells.copy(alloc)?,
        })
    }
}
