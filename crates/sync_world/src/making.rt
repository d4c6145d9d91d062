//! Messages, and who made them.
use field_merge::Message;

/// A message that was made.
#[derive(Debug, Drop)]
pub struct Making {
    /// The number of the device that made it.
    pub device: u32,
    /// The message.
    pub message: Message,
}
