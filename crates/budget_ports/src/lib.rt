//! The outside as the program sees it: where bytes come from and where they go, and where records and
//! texts are kept, each with a count of its failures, and where readings of the time come from; and such
//! objects in memory for tests.
#![tactic(auto)]

mod calls;
mod clock;
mod door;
mod group_records;
mod keeper;
mod latest_first;
mod laws;
mod link;
mod memory_door;
mod memory_keeper;
mod memory_sink;
mod memory_source;
mod records;
mod room;
mod script_link;
mod stream;

pub use clock::{ListClock, WallClock};
pub use door::Door;
pub use keeper::{Keeper, PortFault, Record};
pub use laws::risen;
pub use link::Link;
pub use memory_door::MemoryDoor;
pub use memory_keeper::MemoryKeeper;
pub use memory_sink::MemorySink;
pub use memory_source::MemorySource;
pub use script_link::ScriptLink;
pub use stream::{Failed, Sink, Source};
