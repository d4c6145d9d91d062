//! What more holds of stores, of the bytes of a sync, of the server, of conversations, of the lines of a device, and of what is written of a
//! generated book and of a world's lines.
//!
//! There is no code here but a call of `sync`: the definitions are those of the crates below, and the laws say in other words what these mean.
#![tactic(auto)]

mod honest;
mod laws;

pub use honest::sync_completely;
pub use laws::{
    accepted_get_replies, answered_lines_stay, bodies_decide, contents_are_kept,
    devices_begin_anew, edits_are_of_their_kind, envelopes_count, equal_sets_answer_equally,
    files_are_apart, ids_are_made_in_order, last_syncs_are_apart, lines_are_taken_back,
    one_refusal_is_told, paths_are_cut, plans_meet, replies_are_whole, replies_follow_lines,
    requests_ask, servers_answer_equally, statuses_are_written, summaries_are_told, talks_begin,
    talks_end, talks_keep_messages, tries_are_of_timestamps,
};
