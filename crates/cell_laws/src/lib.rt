//! What is true of all sheets of the tracking budget, and of the months that a grid of kept cells covers, beyond what the crates that
//! make them say.
//!
//! There is no code here: the definitions are those of `tracking_budget` and `dirty_cells`, and each law says of some of them, in the
//! subject's words, what a wrong definition would break.
#![tactic(auto)]

mod laws;

pub use laws::{ranges_are_least, sheets_have_months};
