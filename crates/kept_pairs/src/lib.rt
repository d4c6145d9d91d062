//! What the edits of rules, of schedules and of statements, and those that fill a month by templates, leave of pairs and splits, what
//! imports of statements write and how they are refused, and what statements say.
//!
//! There is no code here: the promise on pairs and splits is that of `split_transfer`, whose definitions are cited, and what it says of the
//! writes of four crates stands in the laws below, as does what a wrong definition of an import would break.
#![tactic(auto)]

mod laws;

pub use laws::{
    columns_are_told, goals_keep_pairs_and_splits, imports_are_judged, imports_find_payees,
    imports_write, imports_write_changes, nearness_is_told, plain_texts_read_back,
    rules_keep_pairs_and_splits, schedules_keep_pairs_and_splits, statements_keep_pairs_and_splits,
    texts_are_cut,
};
