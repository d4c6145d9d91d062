//! The bytes of a sync's request and reply, in Protocol Buffers.
//!
//! Any bytes mean one request or have one first fault ([`bytes_are_read`]), which has its cause ([`faults_have_causes`]). A
//! request that is written reads back ([`written_read_back`]), and what is read of the one spelling is written so again
//! ([`plain_writes_back`]).
#![tactic(auto)]

mod content;
mod envelope;
mod fault;
mod fields;
mod laws;
mod layout;
mod message;
mod request;
mod response;
mod text;
mod writing;

pub use fault::WireFault;
pub use laws::{
    bytes_are_read, envelopes_are_read, faults_have_causes, last_ones_count, meanings_are_valid,
    numbers_are_short, plain_writes_back, texts_are_placed, written_read_back,
};
pub use layout::Layout;
pub use message::{read_message, write_message};
pub use request::{SyncRequest, read_request, write_request};
pub use response::{SyncResponse, read_response, write_response};
