//! Field messages.
ghost use Rattle.std.specs.Prelude.{◌≡◌, IfOk};

use field_values::{Copied, Field, NoMemory, Value};
use hybrid_clock::Stamp;

/// A write of a field: what is written, where, and when. Every message is told to every device of
/// the household, and no message is changed afterwards.
#[derive(Debug, PartialEq, Eq, Drop)]
pub struct Message {
    /// When it was written, and by which node. Where no two devices have one node, no two writes have
    /// the same timestamp.
    pub stamp: Stamp,
    /// The field that it writes.
    pub field: Field,
    /// What it writes.
    pub value: Value,
}

impl Message {
    /// A copy in memory of its own.
    pub fn copy(&self) -> Result<Message, NoMemory>
        ensures { IfOk result (λ m. m ≡ self.now) }
    {
        Ok(Message {
            stamp: self.stamp,
            field: self.field.copy()?,
            value: self.value.copy()?,
        })
    }
}

impl Copied for Message {
    fn copied(&self) -> Result<Message, NoMemory> {
        self.copy()
    }
}
