//! The amounts of a whole month.
ghost use Rattle.std.specs.Prelude.{◌≡◌, ◌≤◌, ◌^◌, ◌+ℤ◌, ◌-ℤ◌, neg_ℤ, unsigned_abs};
ghost use Rattle.envelope_cells.specs.Parts.{groups_weight};
ghost use Rattle.envelope_cells.specs.Whole.{whole_of, from_last};
ghost use Rattle.envelope_cells.specs.declared.part.Pick.{Pick as PickIs};

use crate::part::{GroupParts, Pick, total_of_side};

/// The amounts of a whole month, in cents.
#[derive(Clone, Copy, Debug, PartialEq, Eq)]
pub(crate) struct Whole {
    /// What came in.
    pub income: i128,
    /// What the month before left to budget and held back.
    pub from_last: i128,
    /// Both of these.
    pub available: i128,
    /// What overspent expense categories take.
    pub overspent: i128,
    /// What the expense categories are given, as it goes out.
    pub budgeted: i128,
    /// What is held back.
    pub buffered: i128,
    /// What is still to budget.
    pub to_budget: i128,
    /// The sums of the expense categories.
    pub spent: i128,
    /// The leftovers of the expense categories.
    pub leftover: i128,
}

/// All money that came from the month before: what moved until then, but for what was left in the categories.
fn left_over(income: i128, expense: i128, before: i128) -> i128
    requires income { unsigned_abs income ≤ 2 ^ 120 }
    requires expense { unsigned_abs expense ≤ 2 ^ 120 }
    requires before { unsigned_abs before ≤ 2 ^ 120 }
    ensures value { result ≡ (income +ℤ expense) -ℤ before }
    ensures small { unsigned_abs result ≤ 2 ^ 122 }
{
    income + expense - before
}

/// What the month before left to budget and held back.
fn from_last(groups: &[GroupParts]) -> i128
    requires { (k : PickIs) → groups_weight k groups.now ≤ 2 ^ 120 }
    ensures value { result ≡ from_last groups.now }
    ensures small { unsigned_abs result ≤ 2 ^ 122 }
{
    let income = total_of_side(groups, Pick::Moved, true);
    let expense = total_of_side(groups, Pick::Moved, false);
    let before = total_of_side(groups, Pick::Before, false);
    left_over(income, expense, before)
}

/// All money that a month has.
fn available(income: i128, from_last: i128) -> i128
    requires income { unsigned_abs income ≤ 2 ^ 120 }
    requires from_last { unsigned_abs from_last ≤ 2 ^ 122 }
    ensures value { result ≡ income +ℤ from_last }
    ensures small { unsigned_abs result ≤ 2 ^ 123 }
{
    income + from_last
}

/// What is given to the categories, as it goes out.
fn given(budgets: i128) -> i128
    requires { unsigned_abs budgets ≤ 2 ^ 120 }
    ensures value { result ≡ neg_ℤ budgets }
    ensures small { unsigned_abs result ≤ 2 ^ 120 }
{
    -budgets
}

/// What is held back, in as many bits as sums have.
fn widened(held: i64) -> i128
    ensures value { result ≡ held }
    ensures small { unsigned_abs result ≤ 2 ^ 64 }
{
    i128::from(held)
}

/// What is still to budget.
fn to_budget(available: i128, overspent: i128, budgeted: i128, buffered: i128) -> i128
    requires available { unsigned_abs available ≤ 2 ^ 123 }
    requires overspent { unsigned_abs overspent ≤ 2 ^ 120 }
    requires budgeted { unsigned_abs budgeted ≤ 2 ^ 120 }
    requires buffered { unsigned_abs buffered ≤ 2 ^ 64 }
    ensures { result ≡ ((available +ℤ overspent) +ℤ budgeted) -ℤ buffered }
{
    available + overspent + budgeted - buffered
}

/// The amounts of the whole month.
pub(crate) fn whole_of(groups: &[GroupParts], held: i64) -> Whole
    requires { (k : PickIs) → groups_weight k groups.now ≤ 2 ^ 120 }
    ensures { result ≡ whole_of groups.now held }
{
    let income = total_of_side(groups, Pick::Sum, true);
    let past = from_last(groups);
    let funds = available(income, past);
    let overspent = total_of_side(groups, Pick::Taken, false);
    let budgets = total_of_side(groups, Pick::Budget, false);
    let budgeted = given(budgets);
    let buffered = widened(held);
    let left = to_budget(funds, overspent, budgeted, buffered);
    let spent = total_of_side(groups, Pick::Sum, false);
    let leftover = total_of_side(groups, Pick::Leftover, false);
    Whole {
        income,
        from_last: past,
        available: funds,
        overspent,
        budgeted,
        buffered,
        to_budget: left,
        spent,
        leftover,
    }
}
