//! A household's books: the rows that the fields of messages make.
//!
//! A [`Book`] has the rows of each dataset by id. A field that is given a value changes its row alone ([`rows_follow_fields`]); which
//! rows are live and which transactions count is told by [`live_rows_are_told`], in which category and for which payee they do by
//! [`mappings_are_told`], and the months that a book spans by [`windows_span`]. The writes that an edit makes, and why it is
//! refused, have their types here, for the crates that make them.
#![tactic(auto)]

mod amounts;
mod book;
mod column;
mod digits;
mod fault;
mod ids;
mod indexes;
mod kind;
mod known;
mod laws;
mod months;
mod row_rules;
mod rows;
mod table;
mod txs;
mod write;

pub use amounts::cents;
pub use book::Book;
pub use column::{Column, Dataset, column_of, dataset_of};
pub use digits::{four_digits_at, two_digits_at};
pub use fault::{EditFault, RecurPart, RulePart};
pub use ids::{budget_id, is_month, month_id};
pub use kind::{Kind, flag, is_day};
pub use known::{dataset_kind, kind_of};
pub use laws::{live_rows_are_told, mappings_are_told, rows_follow_fields, windows_span};
pub use months::{budget_month, month_row_month};
pub use rows::{
    AccountRow, BudgetRow, CategoryMappingRow, CategoryRow, GroupRow, MonthRow, NoteRow,
    PayeeMappingRow, PayeeRow, RuleRow, ScheduleRow, TrackRow, TxRow, copied,
};
pub use write::{RowName, Write, WriteValue};
