//! The live categories, in the order of a sheet.
ghost use Rattle.std.specs.Prelude.{◌≡◌, ◌++◌, IfOk, OnOk};
ghost use Rattle.tracking_budget.specs.CellOf.{live_on, live_of};

use envelope_cells::BudgetGroup;
use field_values::{Items, NoMemory, Txt};
use std::alloc::Global;

/// A live category.
#[derive(Debug, Drop)]
pub struct LiveCategory {
    /// Its id.
    pub id: Txt,
    /// Whether its group takes income.
    pub is_income: bool,
}

/// Puts the categories of a group behind others.
fn push_live(live: &mut Vec<LiveCategory>, is_income: bool, ids: &[Txt]) -> Result<(), NoMemory>
    ensures { OnOk result (live.new.items ≡ live.old.items ++ live_on is_income ids.now) }
{
    for id in ids {
        live.push(LiveCategory {
            id: id.copy()?,
            is_income,
        })?;
    }
    Ok(())
}

/// The categories of live groups, in their order.
pub(crate) fn live_of(
    alloc: Global,
    groups: &[BudgetGroup],
) -> Result<Items<LiveCategory>, NoMemory>
    ensures { IfOk result (λ live. live ≡ live_of groups.now) }
{
    let mut live = Vec::new(alloc);
    for group in groups {
        push_live(&mut live, group.is_income, group.categories.as_slice())?;
    }
    Ok(Items::new(live))
}
