//! The categories of both sides of a sheet.
ghost use Rattle.std.specs.Prelude.{◌≡◌, ◌∷◌, [], ◌++◌, IfOk, OnOk};
ghost use Rattle.goal_templates.specs.Sides.{is_on, ids_on};

use envelope_cells::BudgetGroup;
use field_values::{NoMemory, Txt};
use std::alloc::Global;

/// Whether a group takes income, or, on the other side, doesn't.
fn is_on(income: bool, group: &BudgetGroup) -> bool
    ensures { result ≡ is_on income group.now }
{
    if income {
        group.is_income
    } else {
        !group.is_income
    }
}

/// Puts copies of ids behind others.
fn push_copies(all: &mut Vec<Txt>, ids: &[Txt]) -> Result<(), NoMemory>
    ensures { OnOk result (all.new.items ≡ all.old.items ++ ids.now) }
{
    for id in ids {
        all.push(id.copy()?)?;
    }
    Ok(())
}

/// Puts the ids of the categories of a group behind others, where it is on the side.
fn push_group(all: &mut Vec<Txt>, income: bool, group: &BudgetGroup) -> Result<(), NoMemory>
    ensures { OnOk result (all.new.items ≡ all.old.items ++ ids_on income (group.now ∷ [])) }
{
    if !is_on(income, group) {
        return Ok(());
    }
    push_copies(all, group.categories.as_slice())
}

/// The ids of the categories of one side, in order.
pub(crate) fn ids_on(
    alloc: Global,
    groups: &[BudgetGroup],
    income: bool,
) -> Result<Vec<Txt>, NoMemory>
    ensures { IfOk result (λ ids. ids.items ≡ ids_on income groups.now) }
{
    let mut all = Vec::new(alloc);
    for group in groups {
        push_group(&mut all, income, group)?;
    }
    Ok(all)
}
