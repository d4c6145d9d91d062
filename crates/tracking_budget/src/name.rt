//! The cells of the tracking budget and their names.
ghost use Rattle.std.specs.Prelude.{◌≡◌, IfOk};
ghost use Rattle.tracking_budget.specs.SheetOf.{kind_number, is_same, value_named};

use field_values::{Items, NoMemory, Txt};
use std::cmp::Ordering;

/// What a cell tells of its month.
#[derive(Clone, Copy, Debug, PartialEq, Eq)]
pub enum TrackKind {
    /// `total-income`: what came in.
    TotalIncome,
    /// `total-budget-income`: what was to come in.
    TotalBudgetIncome,
    /// `total-budgeted`: what all expense categories are given.
    TotalBudgeted,
    /// `total-spent`: the sums of all expense categories.
    TotalSpent,
    /// `total-leftover`: the leftovers of all expense categories.
    TotalLeftover,
    /// `total-saved`: what was to be saved.
    TotalSaved,
    /// `real-saved`: what was saved.
    RealSaved,
    /// `sum-amount-`, and the id of a category.
    Sum,
    /// `budget-`, and the id of a category.
    Budget,
    /// `carryover-`, and the id of a category.
    Carryover,
    /// `leftover-`, and the id of a category.
    Leftover,
}

impl TrackKind {
    /// Its place among all kinds.
    fn number(self) -> u8
        ensures { result ≡ kind_number self }
    {
        match self {
            TrackKind::TotalIncome => 0,
            TrackKind::TotalBudgetIncome => 1,
            TrackKind::TotalBudgeted => 2,
            TrackKind::TotalSpent => 3,
            TrackKind::TotalLeftover => 4,
            TrackKind::TotalSaved => 5,
            TrackKind::RealSaved => 6,
            TrackKind::Sum => 7,
            TrackKind::Budget => 8,
            TrackKind::Carryover => 9,
            TrackKind::Leftover => 10,
        }
    }
}

/// Which cell of which month.
#[derive(Debug, Drop)]
pub struct TrackName {
    /// YYYYMM.
    pub month: u32,
    /// What it tells.
    pub kind: TrackKind,
    /// The id of a category; empty where the kind is of the whole month.
    pub id: Txt,
}

impl TrackName {
    /// The name of the cell of this month, kind and id.
    pub fn make(month: u32, kind: TrackKind, id: &Txt) -> Result<TrackName, NoMemory>
        ensures { IfOk result (λ n. n ≡ record { month = month; kind = kind; id = id.now }) }
    {
        Ok(TrackName {
            month,
            kind,
            id: id.copy()?,
        })
    }

    /// Whether another name is of the same cell.
    pub fn is_same(&self, other: &TrackName) -> bool
        ensures { result ≡ is_same self.now other.now }
    {
        self.month == other.month
            && self.kind.number() == other.kind.number()
            && self.id.cmp(&other.id) == Ordering::Equal
    }
}

/// A cell, with what it tells.
#[derive(Debug, Drop)]
pub struct TrackCell {
    /// Which cell.
    pub name: TrackName,
    /// In cents; 1 or 0 where the kind is `Carryover`.
    pub value: i128,
}

/// All cells of a month, in order: those of the whole month, then those of each live category in the order of the envelope budget's
/// sheet.
#[derive(Debug, Drop)]
pub struct TrackSheet {
    /// The cells.
    pub cells: Items<TrackCell>,
}

impl TrackSheet {
    /// What a cell tells, if the sheet has it.
    pub fn cell(&self, name: &TrackName) -> Option<i128>
        ensures { result ≡ value_named self.now.cells name.now }
    {
        for cell in self.cells.as_slice() {
            if name.is_same(&cell.name) {
                return Some(cell.value);
            }
        }
        None
    }
}
