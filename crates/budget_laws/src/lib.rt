//! Laws on templates in notes: what they want, what the notes of a book ask for and in which order, what each template is given in its
//! turn, and how the filling of a month is refused.
//!
//! There is no code here: the laws are on definitions of `goal_templates`, in words that don't repeat them, and break where such a
//! definition is wrong.
#![tactic(auto)]

mod laws;

pub use laws::{goals_are_judged, notes_are_whole, shares_are_in_turn, wants_are_told};
