//! The names of cells.
ghost use Rattle.std.specs.Prelude.{◌≡◌, IfOk, IfSome};
ghost use Rattle.std.specs.Option.{option_copied};
ghost use Rattle.command_lines.specs.CellNames.{is_of_group, is_of_month, id_behind, named_by, cell_named};

use envelope_cells::{CellKind, CellName};
use field_values::{NoMemory, Txt};
use std::alloc::Global;

/// Whether a cell of this kind is one of a group.
pub(crate) fn is_of_group(kind: CellKind) -> bool
    ensures { result ≡ is_of_group kind }
{
    matches!(
        kind,
        CellKind::GroupSum | CellKind::GroupBudget | CellKind::GroupLeftover
    )
}

/// Whether a cell of this kind is one of the whole month.
fn is_of_month(kind: CellKind) -> bool
    ensures { result ≡ is_of_month kind }
{
    !matches!(
        kind,
        CellKind::GroupSum
            | CellKind::GroupBudget
            | CellKind::GroupLeftover
            | CellKind::Sum
            | CellKind::Budget
            | CellKind::Carryover
            | CellKind::Leftover
    )
}

/// What stands behind the text of a kind: an id, and nothing where the kind is of the whole month.
fn id_behind<'a>(kind: CellKind, name: &'a str) -> Option<&'a str>
    ensures { option_copied result ≡ id_behind kind name.now }
{
    let Some(rest) = name.strip_prefix(kind.text()) else {
        return None;
    };
    if is_of_month(kind) && !rest.is_empty() {
        return None;
    }
    Some(rest)
}

/// The cell of a month that a name names, if it is one of some kinds.
fn named_by(
    alloc: Global,
    kinds: &[CellKind],
    month: u32,
    name: &Txt,
) -> Result<Option<CellName>, NoMemory>
    ensures cell { IfOk result (λ cell. cell ≡ named_by kinds.now month name.now) }
    ensures month { IfOk result (λ cell. IfSome cell (λ c. c.month ≡ month)) }
{
    for kind in kinds {
        if let Some(id) = id_behind(*kind, name.as_str()) {
            let id = Txt::from_text(alloc, id)?;
            return Ok(Some(CellName {
                month,
                kind: *kind,
                id,
            }));
        }
    }
    Ok(None)
}

/// The cell of a month YYYYMM that a name names, if it is one of a kind.
pub(crate) fn cell_named(
    alloc: Global,
    month: u32,
    name: &Txt,
) -> Result<Option<CellName>, NoMemory>
    ensures cell { IfOk result (λ cell. cell ≡ cell_named month name.now) }
    ensures month { IfOk result (λ cell. IfSome cell (λ c. c.month ≡ month)) }
{
    let kinds = [
        CellKind::TotalIncome,
        CellKind::FromLastMonth,
        CellKind::AvailableFunds,
        CellKind::LastMonthOverspent,
        CellKind::TotalBudgeted,
        CellKind::Buffered,
        CellKind::ToBudget,
        CellKind::TotalSpent,
        CellKind::TotalLeftover,
        CellKind::GroupSum,
        CellKind::GroupBudget,
        CellKind::GroupLeftover,
        CellKind::Sum,
        CellKind::Budget,
        CellKind::Carryover,
        CellKind::Leftover,
    ];
    named_by(alloc, &kinds, month, name)
}
