//! The names of the cells of a month, in the order of its sheet.
ghost use Rattle.std.specs.Prelude.{◌≡◌, ◌++◌, ◌∷◌, [], OnOk, IfOk};
ghost use Rattle.envelope_cells.specs.NamesOf.{name, funds_names, rest_names, category_names, categories_names, group_names, groups_names, names_of};

use crate::groups::BudgetGroup;
use crate::name::{CellKind, CellName};
use field_values::{Items, NoMemory, Txt};
use std::alloc::Global;

/// Puts a name behind others.
fn push(names: &mut Vec<CellName>, month: u32, kind: CellKind, id: &Txt) -> Result<(), NoMemory>
    ensures { OnOk result (names.new.items ≡ names.old.items ++ name month kind id.now ∷ []) }
{
    names.push(CellName::make(month, kind, id)?)?;
    Ok(())
}

/// Puts the names of the cells of what a month has to budget behind others.
fn push_funds(names: &mut Vec<CellName>, month: u32, empty: &Txt) -> Result<(), NoMemory>
    ensures { OnOk result (names.new.items ≡ names.old.items ++ funds_names month empty.now) }
{
    push(names, month, CellKind::TotalIncome, empty)?;
    push(names, month, CellKind::FromLastMonth, empty)?;
    push(names, month, CellKind::AvailableFunds, empty)?;
    push(names, month, CellKind::LastMonthOverspent, empty)
}

/// Puts the names of the other cells of the whole month behind others.
fn push_rest(names: &mut Vec<CellName>, month: u32, empty: &Txt) -> Result<(), NoMemory>
    ensures { OnOk result (names.new.items ≡ names.old.items ++ rest_names month empty.now) }
{
    push(names, month, CellKind::TotalBudgeted, empty)?;
    push(names, month, CellKind::Buffered, empty)?;
    push(names, month, CellKind::ToBudget, empty)?;
    push(names, month, CellKind::TotalSpent, empty)?;
    push(names, month, CellKind::TotalLeftover, empty)
}

/// Puts the names of the cells of a category behind others.
fn push_category(
    names: &mut Vec<CellName>,
    month: u32,
    is_income: bool,
    id: &Txt,
) -> Result<(), NoMemory>
    ensures { OnOk result (names.new.items ≡ names.old.items ++ category_names month is_income id.now) }
{
    push(names, month, CellKind::Sum, id)?;
    if is_income {
        return Ok(());
    }
    push(names, month, CellKind::Budget, id)?;
    push(names, month, CellKind::Carryover, id)?;
    push(names, month, CellKind::Leftover, id)
}

/// Puts the names of the cells of categories behind others.
fn push_categories(
    names: &mut Vec<CellName>,
    month: u32,
    is_income: bool,
    ids: &[Txt],
) -> Result<(), NoMemory>
    ensures { OnOk result (names.new.items ≡ names.old.items ++ categories_names month is_income ids.now) }
{
    for id in ids {
        push_category(names, month, is_income, id)?;
    }
    Ok(())
}

/// Puts the names of the cells of a group alone behind others.
fn push_group(names: &mut Vec<CellName>, month: u32, group: &BudgetGroup) -> Result<(), NoMemory>
    ensures { OnOk result (names.new.items ≡ names.old.items ++ group_names month group.now) }
{
    push(names, month, CellKind::GroupSum, &group.id)?;
    if group.is_income {
        return Ok(());
    }
    push(names, month, CellKind::GroupBudget, &group.id)?;
    push(names, month, CellKind::GroupLeftover, &group.id)
}

/// Puts the names of the cells of groups and of their categories behind others.
fn push_groups(
    names: &mut Vec<CellName>,
    month: u32,
    groups: &[BudgetGroup],
) -> Result<(), NoMemory>
    ensures { OnOk result (names.new.items ≡ names.old.items ++ groups_names month groups.now) }
{
    for group in groups {
        push_group(names, month, group)?;
        push_categories(names, month, group.is_income, group.categories.as_slice())?;
    }
    Ok(())
}

/// The names of all cells of a month YYYYMM, in the order of its sheet: those of the whole month, then those of each group, followed
/// by those of its categories.
pub fn cell_names(
    alloc: Global,
    groups: &[BudgetGroup],
    month: u32,
) -> Result<Items<CellName>, NoMemory>
    ensures { IfOk result (λ names. names ≡ names_of groups.now month) }
{
    let empty = Txt::new(String::new(alloc));
    let mut names = Vec::new(alloc);
    push_funds(&mut names, month, &empty)?;
    push_rest(&mut names, month, &empty)?;
    push_groups(&mut names, month, groups)?;
    Ok(Items::new(names))
}
