//! The lines of a world, how each is read as a command, and how it is replied to.
#![tactic(auto)]

mod command;
mod covering;
mod laws;
mod lines;
mod nodes;
mod numbers;
mod obeying;
mod reading;
mod reply;
mod session;
mod words;

pub use command::WorldCommand;
pub use covering::month_to_cover;
pub use laws::same_lines_are_same_messages;
pub use session::WorldSession;
