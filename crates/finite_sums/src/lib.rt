//! Sums of whole numbers over lists and over finite maps, and what a map in order is as a finite map.
//!
//! There is no code here: the definitions stand in `specs/`, and what they promise are the laws below, each for all values
//! under texts.
#![tactic(auto)]

mod laws;

pub use laws::{classes_count_once, sums_follow_batches, sums_follow_entries, trees_are_maps};
