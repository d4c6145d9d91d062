//! What more holds of a keeper over a store.
//!
//! There is no code here but calls of the keeper: the laws say in the words of the store what each call of it does. A store that tells
//! its contents is one that tells them after the call, and so told them before.
#![tactic(auto)]

mod laws;
mod moving;
mod taking;

pub use laws::{append_to_store, ask_store, get_from_store, names_of_store, put_into_store};
pub use moving::move_store;
pub use taking::{take_store, tell_failure};
