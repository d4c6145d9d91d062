//! The server of a sync: what it answers to a request, and how it serves a connection.
#![tactic(auto)]

mod answering;
mod asking;
mod head;
mod judge;
mod keeping;
mod laws;
mod refusal;
mod routes;
mod served;
mod serving;
mod state;
mod writing;

pub use answering::{answer, join_request};
pub use judge::length_in;
pub use keeping::file_name;
pub use laws::{
    accepted_are_kept, answers_tell, connections_are_decided, heads_are_judged, requests_are_judged,
};
pub use refusal::Refusal;
pub use served::Served;
pub use serving::serve_one;
pub use state::ServerState;
