//! Field messages: their lines, and the log that merges them.
#![tactic(auto)]

mod arrival;
mod escape;
mod hashed;
mod index;
mod later;
mod latest_messages;
mod laws;
mod line;
mod log;
mod message;
mod number;
mod pieces;
mod shared;
mod short;
mod stamps;

pub use escape::{bad_escape, push_escaped, unescape};
pub use latest_messages::LatestMessages;
pub use laws::{
    joined, joined_again, joined_in_any_order, joined_in_turn, latest_message,
    line_faults_are_told, listed_fields, message_lines,
};
pub use line::{LineFault, cut_part, push_body, read_line, write_line};
pub use log::{Entered, Joined, Log};
pub use message::Message;
pub use pieces::FieldLines;
