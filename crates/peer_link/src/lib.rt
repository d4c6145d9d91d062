//! A link whose far end is the server itself, in memory: so a device talks to what serves it, and both sides are proved together.
#![tactic(auto)]

mod asked;
mod laws;
mod link;
mod meeting;
mod place;
mod server;

pub use laws::devices_ask;
pub use link::PeerLink;
pub use meeting::{Met, meet};
pub use place::peer_target;
