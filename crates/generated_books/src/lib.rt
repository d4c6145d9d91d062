//! Generated messages: a household with as many transactions as are asked for, and a device that receives them.
#![tactic(auto)]

mod contents;
mod device;
mod draws;
mod laws;
mod messages;
mod summary;

pub use device::generated_device;
pub use laws::{generated_are_messages, generated_are_numbered, transactions_are_worked_out};
pub use summary::{Summary, generated_summary};
