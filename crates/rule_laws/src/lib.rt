//! What is true of all recurrences and of all rules, beyond what the crates that read them say.
//!
//! There is no code here: the definitions are those of `schedules` and `rule_engine`, and each law says of some of them, in the
//! subject's words, what a wrong definition would break.
#![tactic(auto)]

mod laws;

pub use laws::{
    actions_are_told, conditions_are_told, days_are_written, days_move, ends_cut,
    ids_are_taken_once, ids_stand_for_others, middles_are_rounded, raw_days_are_told,
    recurrences_read_back, rule_edits_are_judged, rule_edits_do, rule_parts_are_read,
    rules_are_read_alike, rules_make_rows, rules_read_back, schedule_edits_are_judged,
    schedule_edits_do, schedules_read_back, scores_are_told, stages_come_in_turn, terms_are_told,
};
