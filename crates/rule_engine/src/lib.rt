//! Rules that categorize transactions.
//!
//! A rule is a row of a book. [`read_rule`] reads its conditions and actions, which are JSON, or tells the first entry that is bad.
//! Rules run in one order ([`rank`], by stage, [`score`] and id), and each sees what the rules before it made of a transaction
//! ([`run_rules`]). An edit ([`RuleEdit`]) is checked against the rows of a book in a fixed order, and gives its writes in a fixed
//! order ([`rule_writes`]).
#![tactic(auto)]

mod acting;
mod compared;
mod days;
mod edit;
mod folding;
mod given;
mod holding;
mod laws;
mod making;
mod order;
mod reading;
mod rule;
mod running;
mod scoring;
mod setting;
mod values;
mod words;
mod writing;

pub use days::{are_within, day_of_text, numbered};
pub use edit::RuleEdit;
pub use holding::holds;
pub use laws::{
    ranks_are_one_order, rules_are_ranked, rules_follow_one_another, texts_are_compared,
};
pub use making::rule_writes;
pub use order::rank;
pub use reading::read_rule;
pub use rule::{Action, CondField, CondOp, CondValue, Condition, Rule, RuleOp, Stage};
pub use running::{rules_of, run_rules};
pub use scoring::score;
