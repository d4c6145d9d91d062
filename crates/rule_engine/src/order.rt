//! The order in which rules run: by stage, score and id.
ghost use Rattle.std.specs.Prelude.{◌≡◌, IfOk};
ghost use Rattle.std.specs.List.{IsDistinct};
ghost use Rattle.std.specs.Ordering.{as_partial_cmp, is_eq};
ghost use Rattle.std.proofs.Common.{rules};
ghost use Rattle.std.specs.Cmp.Rules.{comparing};
ghost use Rattle.std.specs.Cmp.{eq_by_cmp_equiv, partial_equiv_from_equiv, partial_order_from_own_ties, partial_order_from_total};
ghost use Rattle.rule_engine.specs.Scores.{rank_cmp, rank_total, same_id, stage_place, ranked};

use crate::rule::{Rule, Stage};
use crate::scoring::score;
use field_values::NoMemory;
use std::cmp::Ordering;

/// The rules, whose ids differ, in the order in which they run: by stage, of one stage by ascending score, and of one score by id.
pub fn rank(rules: Vec<Rule>) -> Result<Vec<Rule>, NoMemory>
    requires { IsDistinct same_id rules.items }
    ensures { IfOk result (λ v. v.items ≡ ranked rules.items) }
{
    let mut rules = rules;
    rules.sort()?;
    Ok(rules)
}

fn stage_place(stage: Stage) -> u8
    ensures { result ≡ stage_place stage }
{
    match stage {
        Stage::Pre => 0,
        Stage::Plain => 1,
        Stage::Post => 2,
    }
}

impl PartialEq for Rule {
    ghost eq = { λ a b. is_eq (rank_cmp a b) };

    ghost laws = { partial_equiv_from_equiv (eq_by_cmp_equiv rank_total) };

    /// Whether two rules have the same place among others: the same stage, score and id.
    fn eq(&self, other: &Rule) -> bool {
        self.cmp(other).is_eq()
    }
}

impl Eq for Rule {
    ghost laws = { eq_by_cmp_equiv rank_total };
}

impl Ord for Rule {
    ghost cmp = { rank_cmp };

    ghost total = { rank_total };

    ghost matches_partial_cmp = { Prim.search (comparing, rules) };

    ghost matches_eq = { Prim.search (comparing, rules) };

    /// Which of two rules runs first.
    fn cmp(&self, other: &Rule) -> Ordering {
        stage_place(self.stage)
            .cmp(&stage_place(other.stage))
            .then_with(|| score(self).cmp(&score(other)))
            .then_with(|| self.id.cmp(&other.id))
    }
}

impl PartialOrd for Rule {
    ghost partial_cmp = { as_partial_cmp rank_cmp };

    ghost laws = { partial_order_from_own_ties (partial_order_from_total rank_total) (Prim.search (comparing, rules)) };

    fn partial_cmp(&self, other: &Rule) -> Option<Ordering> {
        Some(self.cmp(other))
    }
}
