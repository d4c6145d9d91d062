//! The cells that are kept of one id.
ghost use Rattle.std.specs.Prelude.{◌≡◌, OnOk};
ghost use Rattle.std.specs.FinMap as map;
ghost use Rattle.envelope_cells.specs.declared.name.CellKind.TheVariants.{Buffered, ToBudget, TotalLeftover, GroupSum, GroupBudget, GroupLeftover, Sum, Budget as OfBudget, Carryover, Leftover};
ghost use Rattle.dirty_cells.specs.Spots.{spot_at, value_in, RowThree, RowFour, RowNine};
ghost use Rattle.dirty_cells.specs.Rows.{category_in, group_in, whole_in};

use envelope_cells::CellKind;
use field_values::NoMemory;
use std::alloc::Global;
use std::collections::BTreeMap;
use std::marker::Model;

/// The cells of a category in a month, each where it is kept.
#[derive(Clone, Copy, Debug)]
pub struct CategoryCells {
    pub sum: Option<i128>,
    pub budget: Option<i128>,
    pub carryover: Option<i128>,
    pub leftover: Option<i128>,
}

/// The cells of a group in a month, each where it is kept.
#[derive(Clone, Copy, Debug)]
pub struct GroupCells {
    pub sum: Option<i128>,
    pub budget: Option<i128>,
    pub leftover: Option<i128>,
}

/// The cells of a whole month, each where it is kept.
#[derive(Clone, Copy, Debug)]
pub struct WholeCells {
    pub income: Option<i128>,
    pub from_last: Option<i128>,
    pub available: Option<i128>,
    pub overspent: Option<i128>,
    pub budgeted: Option<i128>,
    pub buffered: Option<i128>,
    pub to_budget: Option<i128>,
    pub spent: Option<i128>,
    pub leftover: Option<i128>,
}

/// Cells of one id by month. Those of a month lie together, so that one search for the month finds all of them.
#[derive(Debug, Drop)]
pub struct Row {
    wholes: BTreeMap<u32, WholeCells>,
    groups: BTreeMap<u32, GroupCells>,
    categories: BTreeMap<u32, CategoryCells>,
}

impl Model for Row {
    ghost use Rattle.dirty_cells.specs.Spots.{RowCells, row_code};
    ghost use Rattle.dirty_cells.specs.Rows.{row_of};

    ghost Value = { RowCells };

    ghost coded = { row_code };

    ghost view = { λ r. row_of r.wholes.entries r.groups.entries r.categories.entries };
}

/// What the cells of a category tell in a month, each 0 where it is not kept.
#[derive(Clone, Copy, Debug)]
pub struct CategoryAmounts {
    pub sum: i128,
    pub budget: i128,
    pub carryover: i128,
    pub leftover: i128,
}

/// What the cells of a group tell in a month, each 0 where it is not kept.
#[derive(Clone, Copy, Debug)]
pub struct GroupAmounts {
    pub sum: i128,
    pub budget: i128,
    pub leftover: i128,
}

/// What a whole month hands on to the next one, each 0 where it is not kept.
#[derive(Clone, Copy, Debug)]
pub struct HandedOn {
    pub to_budget: i128,
    pub buffered: i128,
    pub leftover: i128,
}

impl Row {
    /// No cells.
    pub(crate) fn new(alloc: Global) -> Row
        ensures { result ≡ map.empty }
    {
        Row {
            wholes: BTreeMap::new(alloc),
            groups: BTreeMap::new(alloc),
            categories: BTreeMap::new(alloc),
        }
    }

    /// The cells of the whole month.
    fn whole(&self, month: u32) -> WholeCells
        ensures { result ≡ whole_in self.now month }
    {
        self.wholes.get(&month).copied().unwrap_or(WholeCells {
            income: None,
            from_last: None,
            available: None,
            overspent: None,
            budgeted: None,
            buffered: None,
            to_budget: None,
            spent: None,
            leftover: None,
        })
    }

    /// The cells of the group in a month.
    fn group(&self, month: u32) -> GroupCells
        ensures { result ≡ group_in self.now month }
    {
        self.groups.get(&month).copied().unwrap_or(GroupCells {
            sum: None,
            budget: None,
            leftover: None,
        })
    }

    /// The cells of the category in a month.
    fn category(&self, month: u32) -> CategoryCells
        ensures { result ≡ category_in self.now month }
    {
        self.categories
            .get(&month)
            .copied()
            .unwrap_or(CategoryCells {
                sum: None,
                budget: None,
                carryover: None,
                leftover: None,
            })
    }

    /// What a cell tells, if it is kept.
    pub(crate) fn get(&self, month: u32, kind: CellKind) -> Option<i128>
        ensures { result ≡ map.get self.now (spot_at month kind) }
    {
        match kind {
            CellKind::TotalIncome => self.whole(month).income,
            CellKind::FromLastMonth => self.whole(month).from_last,
            CellKind::AvailableFunds => self.whole(month).available,
            CellKind::LastMonthOverspent => self.whole(month).overspent,
            CellKind::TotalBudgeted => self.whole(month).budgeted,
            CellKind::Buffered => self.whole(month).buffered,
            CellKind::ToBudget => self.whole(month).to_budget,
            CellKind::TotalSpent => self.whole(month).spent,
            CellKind::TotalLeftover => self.whole(month).leftover,
            CellKind::GroupSum => self.group(month).sum,
            CellKind::GroupBudget => self.group(month).budget,
            CellKind::GroupLeftover => self.group(month).leftover,
            CellKind::Sum => self.category(month).sum,
            CellKind::Budget => self.category(month).budget,
            CellKind::Carryover => self.category(month).carryover,
            CellKind::Leftover => self.category(month).leftover,
        }
    }

    /// What the whole month hands on to the next one.
    pub(crate) fn handed_on(&self, month: u32) -> HandedOn
        ensures to_budget { result.to_budget ≡ value_in self.now month ToBudget }
        ensures buffered { result.buffered ≡ value_in self.now month Buffered }
        ensures leftover { result.leftover ≡ value_in self.now month TotalLeftover }
    {
        let cells = self.whole(month);
        HandedOn {
            to_budget: cells.to_budget.unwrap_or(0),
            buffered: cells.buffered.unwrap_or(0),
            leftover: cells.leftover.unwrap_or(0),
        }
    }

    /// What the cells of the group tell in a month.
    pub(crate) fn group_amounts(&self, month: u32) -> GroupAmounts
        ensures sum { result.sum ≡ value_in self.now month GroupSum }
        ensures budget { result.budget ≡ value_in self.now month GroupBudget }
        ensures leftover { result.leftover ≡ value_in self.now month GroupLeftover }
    {
        let cells = self.group(month);
        GroupAmounts {
            sum: cells.sum.unwrap_or(0),
            budget: cells.budget.unwrap_or(0),
            leftover: cells.leftover.unwrap_or(0),
        }
    }

    /// What the cells of the category tell in a month.
    pub(crate) fn category_amounts(&self, month: u32) -> CategoryAmounts
        ensures sum { result.sum ≡ value_in self.now month Sum }
        ensures budget { result.budget ≡ value_in self.now month OfBudget }
        ensures carryover { result.carryover ≡ value_in self.now month Carryover }
        ensures leftover { result.leftover ≡ value_in self.now month Leftover }
    {
        let cells = self.category(month);
        CategoryAmounts {
            sum: cells.sum.unwrap_or(0),
            budget: cells.budget.unwrap_or(0),
            carryover: cells.carryover.unwrap_or(0),
            leftover: cells.leftover.unwrap_or(0),
        }
    }

    /// Keeps what the nine cells of the whole month tell, or that there is no such cell.
    pub(crate) fn settle_whole(&mut self, month: u32, cells: WholeCells) -> Result<(), NoMemory>
        ensures { OnOk result (RowNine self.old self.new month cells) }
    {
        self.wholes.insert(month, cells)?;
        Ok(())
    }

    /// The same of the three cells of the group in a month.
    pub(crate) fn settle_group(&mut self, month: u32, cells: GroupCells) -> Result<(), NoMemory>
        ensures { OnOk result (RowThree self.old self.new month cells.sum cells.budget cells.leftover) }
    {
        self.groups.insert(month, cells)?;
        Ok(())
    }

    /// The same of the four cells of the category in a month.
    pub(crate) fn settle_category(
        &mut self,
        month: u32,
        cells: CategoryCells,
    ) -> Result<(), NoMemory>
        ensures { OnOk result (RowFour self.old self.new month cells.sum cells.budget cells.carryover cells.leftover) }
    {
        self.categories.insert(month, cells)?;
        Ok(())
    }
}
