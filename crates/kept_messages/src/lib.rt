//! What a group of a keeper keeps of messages: their records, read into a log with its trie, and the
//! records of new messages that join it.
#![tactic(auto)]

mod join;
mod laws;
mod record;

pub use join::{StartFault, enter, join_all, join_message, read_log};
pub use laws::{
    batches_are_kept, groups_are_read, new_ones_are_added, records_are_read, records_read_back,
};
pub use record::{read_record, stamp_text, write_record};
