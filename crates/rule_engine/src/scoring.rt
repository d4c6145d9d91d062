//! The score of a rule.
ghost use Rattle.std.specs.Prelude.{◌≡◌, ◌≤◌, ◌<◌, ◌^◌};
ghost use Rattle.std.specs.List.{list_all, sum_by};
ghost use Rattle.rule_engine.specs.declared.rule.Condition.{Condition};
ghost use Rattle.rule_engine.specs.Scores.{score, is_exact, op_score};

use crate::rule::{CondOp, Condition, Rule};

/// How much a test counts.
fn op_score(op: CondOp) -> u128
    ensures value { result ≡ op_score op }
    ensures bound { result ≤ 10 }
{
    match op {
        CondOp::Is | CondOp::IsNot => 10,
        CondOp::OneOf | CondOp::NotOneOf => 9,
        CondOp::IsApprox | CondOp::IsBetween => 5,
        CondOp::Gt | CondOp::Gte | CondOp::Lt | CondOp::Lte => 1,
        CondOp::Contains | CondOp::DoesNotContain => 0,
    }
}

/// Whether a test names its values.
fn is_exact(op: CondOp) -> bool
    ensures { result ≡ is_exact op }
{
    match op {
        CondOp::Is | CondOp::IsNot | CondOp::IsApprox | CondOp::OneOf | CondOp::NotOneOf => true,
        CondOp::IsBetween
        | CondOp::Gt
        | CondOp::Gte
        | CondOp::Lt
        | CondOp::Lte
        | CondOp::Contains
        | CondOp::DoesNotContain => false,
    }
}

/// What conditions count together.
fn sum_of(conditions: &[Condition]) -> u128
    ensures value { result ≡ sum_by (λ (c : Condition). op_score c.op) conditions.now }
    ensures bound { result < 2 ^ 68 }
{
    let mut sum = 0;
    for condition in conditions {
        sum += op_score(condition.op);
    }
    sum
}

/// Whether each condition names its values.
fn are_exact(conditions: &[Condition]) -> bool
    ensures { result ≡ list_all (λ (c : Condition). is_exact c.op) conditions.now }
{
    conditions.iter().all(|condition| is_exact(condition.op))
}

/// How exact a rule is: what its conditions count together, twice where each of them names its values.
#[tactic(auto, unfolding(crate::specs::Scores::score))]
pub fn score(rule: &Rule) -> u128
    ensures { result ≡ score rule.now }
{
    let sum = sum_of(rule.conditions.as_slice());
    if are_exact(rule.conditions.as_slice()) {
        2 * sum
    } else {
        sum
    }
}
