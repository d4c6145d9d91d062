//! Cells that are kept: what changes of fields touch, the sums of categories through any changes, and the cells of a month, made anew
//! from kept ones.
//!
//! [`grid::Grid`] keeps the cells of a range of months beside a book. [`touching::touched_ids`] has the transactions off which changes leave
//! everything as it was; [`sums::change_sums`] changes the sums by these alone, and tells their categories and months on the way.
//! [`marks::follow`] tells which categories and groups changes mark, off which each cell stays, and before which month all do.
//! [`month::cover_months`] keeps the cells of one month after the other.
#![tactic(auto)]

mod category;
pub mod grid;
mod group;
pub mod marks;
pub mod month;
mod passing;
mod row;
pub mod store;
pub mod sums;
pub mod touching;
mod whole;
