//! A world of devices and one server over a network that loses, repeats and reorders: what happens in it, one event after another.
#![tactic(auto)]

mod adding;
mod event;
mod laws;
mod making;
mod member;
mod places;
mod world;

pub use event::{Event, Outcome, WorldEdit, WorldFault};
pub use laws::{
    edits_are_taken_back, events_happen, right_worlds_keep, steps_send_few, steps_stay_right,
    worlds_keep_promises, worlds_stay_right,
};
pub use making::Making;
pub use world::World;
