//! The amounts of a whole month.
ghost use Rattle.std.specs.Prelude.{◌≡◌, ◌≤◌, ◌^◌, ◌+ℤ◌, ◌-ℤ◌, unsigned_abs};
ghost use Rattle.finite_sums.specs.Sums.{weight};
ghost use Rattle.tracking_budget.specs.declared.part.Pick.{Pick as PickIs};
ghost use Rattle.tracking_budget.specs.Parts.{size_of, whole_of};

use crate::kept::plus;
use crate::part::{Part, Pick, total_of};

/// The amounts of the whole month, in cents.
#[derive(Clone, Copy, Debug, PartialEq, Eq)]
pub(crate) struct Whole {
    /// What came in.
    pub income: i128,
    /// What was to come in.
    pub planned: i128,
    /// What the expense categories are given.
    pub given: i128,
    /// The sums of the expense categories.
    pub spent: i128,
    /// The leftovers of the expense categories.
    pub left: i128,
    /// What was to be saved.
    pub to_save: i128,
    /// What was saved.
    pub saved: i128,
}

/// The first less the second.
fn minus(a: i128, b: i128) -> i128
    requires a { unsigned_abs a ≤ 2 ^ 122 }
    requires b { unsigned_abs b ≤ 2 ^ 122 }
    ensures { result ≡ a -ℤ b }
{
    a - b
}

/// The amounts of the whole month.
pub(crate) fn whole_of(parts: &[Part]) -> Whole
    requires { (k : PickIs) → weight (size_of k) parts.now ≤ 2 ^ 120 }
    ensures { result ≡ whole_of parts.now }
{
    let income = total_of(parts, Pick::Sum, true);
    let planned = total_of(parts, Pick::Given, true);
    let given = total_of(parts, Pick::Given, false);
    let spent = total_of(parts, Pick::Sum, false);
    let left = total_of(parts, Pick::Left, false);
    Whole {
        income,
        planned,
        given,
        spent,
        left,
        to_save: minus(planned, given),
        saved: plus(income, spent),
    }
}
