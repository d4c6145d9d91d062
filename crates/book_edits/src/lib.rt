//! The plain edits of a household's books: what each writes, or the first reason why it is refused.
//!
//! An edit ([`BookEdit`]) is checked against the rows of a book in a fixed order, and gives its writes in a fixed order
//! ([`writes`]). It changes nothing itself.
//!
//! The edits of other crates use the same checks ([`checks`], [`given`]), writes ([`writing`]) and look-ups ([`uncounted`]).
#![tactic(auto)]

mod accounts;
mod budgets;
mod categories;
pub mod checks;
mod edit;
mod gains;
pub mod given;
mod laws;
mod making;
mod mappings;
mod names;
mod set;
mod transactions;
pub mod uncounted;
pub mod writing;

pub use budgets::push_column;
pub use edit::BookEdit;
pub use gains::Gain;
pub use laws::{ids_alone_choose, moves_keep_money, names_are_told};
pub use making::writes;
