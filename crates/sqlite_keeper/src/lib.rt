//! A keeper over a connection of the kit's SQLite: records and texts in two tables of a file.
#![tactic(auto)]

mod adopting;
mod asking;
mod keeper;
mod layout;
mod making;
mod order;
mod reading;
mod shut;
mod taking;
mod writing;

pub use keeper::{AdoptFault, SqliteKeeper, Unadopted};
pub use order::{Unread, in_order};
pub use shut::ShutKeeper;
pub use taking::{OpeningCause, StoreFault, Untaken, open, opening_fault, take};
