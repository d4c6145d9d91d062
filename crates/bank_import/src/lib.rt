//! The import of bank statements, which may come twice.
//!
//! A statement is a CSV text ([`read_statement`]). Each of its records matches one transaction of an account, or none
//! ([`matches`]). An import ([`ImportEdit`]) is checked against the rows of a book in a fixed order, and gives its writes in a fixed
//! order ([`import_writes`]): what is missing in the transactions that are matched, and new transactions and payees for the rest.
#![tactic(auto)]

mod amounts;
mod candidates;
mod drafts;
mod edit;
mod entry;
mod facts;
mod groups;
mod index;
mod laws;
mod making;
mod matching;
mod names;
mod payees;
mod reading;
mod spans;
mod turns;
mod wanted;
mod writing;

pub use edit::ImportEdit;
pub use entry::Entry;
pub use laws::{
    amounts_are_told, candidates_are_told, ids_are_found_again, imports_come_to_rest,
    matches_are_nearest, matches_are_told, new_payees_are_told, rows_are_found_again,
    statements_are_told, statements_come_once,
};
pub use making::import_writes;
pub use matching::matches;
pub use reading::read_statement;
