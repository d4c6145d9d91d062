//! What happens in a world, and what it comes to.
use device_core::{Edit, LineRefusal};
use field_values::{Items, Txt};

/// What a device is to change.
#[derive(Debug, Drop)]
pub enum WorldEdit {
    /// An edit of its books.
    Line(Edit),
    /// The undo of the latest edit.
    Undo,
    /// The redo of the latest undo.
    Redo,
}

/// What happens.
#[derive(Debug, Drop)]
pub enum Event {
    /// The device makes an edit at a reading of its wall clock.
    Edit {
        device: u32,
        edit: WorldEdit,
        reading: u64,
    },
    /// The device sends a request with its messages later than a text.
    Ask {
        device: u32,
        since: Txt,
    },
    /// The server answers a request that was sent.
    Serve {
        request: u32,
    },
    /// A reply that was sent comes to the device.
    Take {
        device: u32,
        reply: u32,
        reading: u64,
    },
    /// The device stops during an edit, whose messages are all kept where `whole` is true, and else none.
    Stop {
        device: u32,
        edit: WorldEdit,
        reading: u64,
        whole: bool,
    },
    /// The server stops during a request, whose messages are all kept where `whole` is true, and else none.
    Halt {
        request: u32,
        whole: bool,
    },
}

/// What an event came to.
#[derive(Debug, Drop)]
pub enum Outcome {
    /// An edit was so many writes, and made rows with these ids.
    Wrote { writes: u32, made: Items<Txt> },
    /// A request was sent, with this number.
    Asked { request: u32 },
    /// A reply was sent, with this number, with so many messages.
    Served { reply: u32, messages: u64 },
    /// So many messages were new.
    Took { received: u64 },
    /// The device stopped.
    Stopped,
    /// The server stopped.
    Halted,
}

/// Why an event does not happen.
#[derive(Debug, Drop)]
pub enum WorldFault {
    /// There is no device with this number.
    NoSuchDevice { device: u32 },
    /// There is no request with this number.
    NoSuchRequest { request: u32 },
    /// There is no reply with this number.
    NoSuchReply { reply: u32 },
    /// The device refuses it.
    Line(LineRefusal),
    /// Memory ran out, and the world is spent.
    NoMemory,
}
