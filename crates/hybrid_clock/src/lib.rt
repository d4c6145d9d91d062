//! Hybrid clock timestamps: a time, a counter and a node, their texts and their order.
//!
//! A timestamp is written as in Actual Budget's `crdt` package: an ISO instant with
//! milliseconds, a counter of four upper-case hexadecimal digits and a node of sixteen
//! characters, as `2024-01-05T10:00:00.000Z-0000-00000000000000aa`.
#![tactic(auto)]

mod clock;
mod laws;
mod node;
mod order;
mod parse;
mod stamp;
mod write;

pub use clock::{ClockFault, HybridClock};
pub use laws::{
    clocks_begin, clocks_move, clocks_refuse, date_of_number, moments_are_in_order,
    nodes_are_named, order_of_texts, read_writes_back, stamp_faults_are_told, text_reads_back,
    texts_show_times,
};
pub use node::{Node, NodeFault};
pub use stamp::{Stamp, StampFault, WINDOW};
pub use write::moment_text;
