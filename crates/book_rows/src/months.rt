//! Months, and the ids of rows that name them.
ghost use Rattle.std.specs.Prelude.{◌≡◌, ◌<◌, ◌+◌, ◌*◌};
ghost use Rattle.book_rows.specs.Months.{month_in, budget_month, month_row_month, hull};

use crate::digits::{four_digits_at, two_digits_at};
use field_values::Txt;

/// The month of this year, if there is one from January 1970 to December 2199.
fn month_in(year: u32, month: u32) -> Option<u32>
    requires year { year < 10000 }
    requires month { month < 100 }
    ensures { result ≡ month_in (Some (100 * year + month)) }
{
    if year < 1970 || year > 2199 || month < 1 || month > 12 {
        return None;
    }
    Some(100 * year + month)
}

/// The month YYYYMM in the id of a budget row, if it is six digits that are a month from January 1970 to December 2199, `-`, and
/// anything.
#[tactic(auto, unfolding(crate::specs::Months::budget_month))]
pub fn budget_month(id: &Txt) -> Option<u32>
    ensures { result ≡ budget_month id.now }
{
    let id = id.bytes();
    if id.len() < 7 || id[6] != b'-' {
        return None;
    }
    let year = four_digits_at(id, 0)?;
    let month = two_digits_at(id, 4)?;
    month_in(year, month)
}

/// The month YYYYMM in the id of a month row, if it is four digits, `-`, and two digits that are a month from January 1970 to
/// December 2199.
#[tactic(auto, unfolding(crate::specs::Months::month_row_month))]
pub fn month_row_month(id: &Txt) -> Option<u32>
    ensures { result ≡ month_row_month id.now }
{
    let id = id.bytes();
    if id.len() != 7 || id[4] != b'-' {
        return None;
    }
    let year = four_digits_at(id, 0)?;
    let month = two_digits_at(id, 5)?;
    month_in(year, month)
}

/// The first and the last month of two spans of months.
pub(crate) fn hull(one: Option<(u32, u32)>, other: Option<(u32, u32)>) -> Option<(u32, u32)>
    ensures { result ≡ hull one other }
{
    match (one, other) {
        (None, span) | (span, None) => span,
        (Some(one), Some(other)) => Some((one.0.min(other.0), one.1.max(other.1))),
    }
}
