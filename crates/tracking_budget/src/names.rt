//! The texts of names and cells.
ghost use Rattle.std.specs.Prelude.{◌≡◌, IfOk, IfSome};
ghost use Rattle.std.specs.Option.{option_copied};
ghost use Rattle.tracking_budget.specs.Names.{kind_text, track_line, is_of_month, id_behind, named_by, track_named};

use crate::name::{TrackCell, TrackKind, TrackName};
use field_values::{NoMemory, Txt};
use itoa::Buffer;
use std::alloc::Global;

impl TrackKind {
    /// The name of the kind, behind which the id stands.
    pub fn text(self) -> &'static str
        ensures { result.now ≡ kind_text self }
    {
        match self {
            TrackKind::TotalIncome => "total-income",
            TrackKind::TotalBudgetIncome => "total-budget-income",
            TrackKind::TotalBudgeted => "total-budgeted",
            TrackKind::TotalSpent => "total-spent",
            TrackKind::TotalLeftover => "total-leftover",
            TrackKind::TotalSaved => "total-saved",
            TrackKind::RealSaved => "real-saved",
            TrackKind::Sum => "sum-amount-",
            TrackKind::Budget => "budget-",
            TrackKind::Carryover => "carryover-",
            TrackKind::Leftover => "leftover-",
        }
    }

    /// Whether a cell of the kind is one of the whole month; the others are of a category.
    fn is_of_month(self) -> bool
        ensures { result ≡ is_of_month self }
    {
        !matches!(
            self,
            TrackKind::Sum | TrackKind::Budget | TrackKind::Carryover | TrackKind::Leftover
        )
    }
}

/// The line of a cell: its name, a blank and its number.
pub fn track_line(alloc: Global, cell: &TrackCell) -> Result<Txt, NoMemory>
    ensures { IfOk result (λ t. t ≡ track_line cell.now) }
{
    let mut buffer = Buffer::new();
    let mut text = String::new(alloc);
    text.push_str(cell.name.kind.text())?;
    text.push_str(cell.name.id.as_str())?;
    text.push(' ')?;
    text.push_str(buffer.format(cell.value))?;
    Ok(Txt::new(text))
}

/// What stands behind the text of a kind: an id, and nothing where the kind is of the whole month.
fn id_behind<'a>(kind: TrackKind, text: &'a str) -> Option<&'a str>
    ensures { option_copied result ≡ id_behind kind text.now }
{
    let Some(rest) = text.strip_prefix(kind.text()) else {
        return None;
    };
    if kind.is_of_month() && !rest.is_empty() {
        return None;
    }
    Some(rest)
}

/// The cell of a month that a text names, if it is one of some kinds.
fn named_by(
    alloc: Global,
    kinds: &[TrackKind],
    month: u32,
    text: &Txt,
) -> Result<Option<TrackName>, NoMemory>
    ensures cell { IfOk result (λ name. name ≡ named_by kinds.now month text.now) }
    ensures month { IfOk result (λ name. IfSome name (λ n. n.month ≡ month)) }
{
    for kind in kinds {
        if let Some(id) = id_behind(*kind, text.as_str()) {
            let id = Txt::from_text(alloc, id)?;
            return Ok(Some(TrackName {
                month,
                kind: *kind,
                id,
            }));
        }
    }
    Ok(None)
}

/// The cell of a month YYYYMM that a text names, if it is one of a kind. Whether there is such a category isn't asked.
pub fn track_named(alloc: Global, month: u32, text: &Txt) -> Result<Option<TrackName>, NoMemory>
    ensures cell { IfOk result (λ name. name ≡ track_named month text.now) }
    ensures month { IfOk result (λ name. IfSome name (λ n. n.month ≡ month)) }
{
    let kinds = [
        TrackKind::TotalIncome,
        TrackKind::TotalBudgetIncome,
        TrackKind::TotalBudgeted,
        TrackKind::TotalSpent,
        TrackKind::TotalLeftover,
        TrackKind::TotalSaved,
        TrackKind::RealSaved,
        TrackKind::Sum,
        TrackKind::Budget,
        TrackKind::Carryover,
        TrackKind::Leftover,
    ];
    named_by(alloc, &kinds, month, text)
}
