//! The envelope budget of a month: what came in, what is budgeted, what is left, and what is still to budget.
//!
//! A sheet has the cells of one month ([`sheet`], [`name::Sheet`]); what each of them tells is a function of the rows of a book. Its text has a
//! line for each cell ([`sheet_text`]).
#![tactic(auto)]

mod groups;
mod ids;
mod laws;
pub mod month_sheet;
pub mod name;
mod names;
pub mod part;
mod sums;
mod text;
pub mod values;
mod whole;

pub use groups::{BudgetGroup, Place, groups_of};
pub use ids::{month_at, month_number};
pub use laws::{
    cells_are_small, leftovers_are_made, live_ones_are_listed, money_is_kept, months_are_made,
    others_count_nowhere, overspending_is_taken, sheets_are_named, sheets_tell_cells,
};
pub use month_sheet::sheet;
pub use name::{Cell, CellKind, CellName};
pub use names::cell_names;
pub use sums::{category_sums, counts};
pub use text::sheet_text;
pub use values::CellValues;
