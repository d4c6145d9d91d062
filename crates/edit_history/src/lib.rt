//! What edits wrote over, and the writes that undo them.
//!
//! An entry ([`Before`], field by field) keeps what stood in the fields that an edit wrote ([`entry_over`]). The writes that undo the edit
//! ([`undo_writes`]) are taken from its entry alone. They give each field that had a value this value again, and delete each row that
//! the edit made and that can be deleted ([`entries_undo`]). A [`History`] has the entries that can be undone and those that can be
//! redone.
#![tactic(auto)]

mod before;
mod history;
mod laws;
mod there;
mod undo;

pub use before::{Before, entry_over};
pub use history::{History, Turn};
pub use laws::{entries_are_told, entries_undo};
pub use undo::undo_writes;
