//! The sync of a device with a server: the conversation, and what it leaves.
#![tactic(auto)]

mod fault;
mod head;
mod laws;
mod reply;
mod request;
mod round;
mod store;
mod syncing;
mod target;

pub use fault::{SyncFault, Synced};
pub use laws::{
    replies_have_one_meaning, served_is_honest, talks_are_told, talks_are_valid, talks_converge,
};
pub use reply::{Judged, judge};
pub use request::request_text;
pub use syncing::sync;
pub use target::Target;
