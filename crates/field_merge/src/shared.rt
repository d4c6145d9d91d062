//! A message that several maps hold.
ghost use Rattle.std.specs.Prelude.{◌≡◌, IfOk};

use crate::message::Message;
use field_values::NoMemory;
use std::alloc::Global;
use std::marker::Model;
use std::rc::Rc;

/// A message in one block of memory with its copies. A contract sees the
/// message.
#[derive(Debug, Drop)]
pub(crate) struct Shared {
    message: Rc<Message>,
}

impl Model for Shared {
    ghost use Rattle.field_merge.specs.declared.message.Message.{Message};

    ghost Value = { Message };

    ghost view = { λ s. s.message.value };
}

impl Shared {
    /// Takes the message into a block.
    pub(crate) fn new(alloc: Global, message: Message) -> Result<Shared, NoMemory>
        ensures { IfOk result (λ s. s ≡ message) }
    {
        let message = Rc::new(alloc, message)?;
        Ok(Shared { message })
    }

    pub(crate) fn message(&self) -> &Message
        ensures { result.now ≡ self.now }
    {
        self.message.as_ref()
    }

    /// The same message, in the same block.
    pub(crate) fn copy(&self) -> Result<Shared, NoMemory>
        ensures { IfOk result (λ s. s ≡ self.now) }
    {
        let message = self.message.clone()?;
        Ok(Shared { message })
    }

    /// A copy of the message.
    pub(crate) fn own(&self) -> Result<Message, NoMemory>
        ensures { IfOk result (λ m. m ≡ self.now) }
    {
        self.message().copy()
    }
}
