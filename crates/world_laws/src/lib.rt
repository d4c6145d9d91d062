//! What more holds of worlds, of their lines and replies, and of generated messages.
//!
//! There is no code here: the laws say in the words of the subject what a wrong definition of these would break.
#![tactic(auto)]

mod laws;

pub use laws::{
    equal_is_told, generated_are_worked_out, outcomes_are_told, world_lines_read_back,
    worlds_are_begun, worlds_begin,
};
