//! The lines of a device: how a line is read as a command, and how it is replied to.
//!
//! A line is words with a TAB between them, escaped as the parts of a message's line. It edits the books, brings a message, syncs
//! with the server, or asks of the messages or of the books, which are the rows that the messages make.
#![tactic(auto)]

mod answer;
mod book_answer;
mod book_lines;
mod cell_names;
mod command;
mod edit_lines;
mod forms;
mod goal_answer;
mod laws;
mod pair_lines;
mod plan_lines;
mod refusal;
mod register;
mod reply;
mod rule_lines;
mod schedule_answer;
mod schedule_lines;
mod session_lines;
mod statement_lines;
mod sync_reply;
mod text_lines;
mod track_answer;
mod words;

pub use answer::read_reply;
pub use command::{Command, CommandFault, LONGEST_LINE, read_command};
pub use laws::{
    answers_tell, commands_read_back, first_bad_is_told, forms_are_read, lines_write_back,
    receives_message_lines, replies_are_lines,
};
pub use reply::{Reply, added_reply, faulty_reply, refusal_reply, reply_text, wrote_reply};
pub use sync_reply::{
    bad_answer_reply, bad_status_reply, lost_link_reply, out_of_sync_reply, synced_reply,
};
