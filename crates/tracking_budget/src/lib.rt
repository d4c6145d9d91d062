//! The tracking budget of a month: a second budget beside the envelope budget, which carries nothing over to the next month unless told.
//!
//! A sheet has the cells of one month ([`track_sheet`], [`name::TrackSheet`]), and [`track_cell`] tells one of them. What each of them
//! tells is a function of the rows of a book. Both read what transactions add up to from sums that the caller has
//! ([`envelope_cells::category_sums`]), and look at no transaction. The text of a name is read by [`track_named`], and
//! [`track_line`] is the line of a cell.
#![tactic(auto)]

mod kept;
mod laws;
pub mod live;
mod month_sheet;
pub mod name;
mod names;
mod part;
mod whole;

pub use laws::{
    budgets_are_apart, categories_are_told, flags_alone_carry, saved_money_is_told, totals_add_up,
    track_names_are_read, track_sheets_are_in_order, track_sheets_tell_cells,
};
pub use month_sheet::{track_cell, track_sheet};
pub use name::{TrackCell, TrackKind, TrackName, TrackSheet};
pub use names::{track_line, track_named};
