//! What a sync came to, and why it tells no agreement.
use hybrid_clock::ClockFault;

/// Why a sync does not tell an agreement. What its turns brought before is kept.
#[derive(Clone, Copy, Debug, PartialEq, Eq, Drop)]
pub enum SyncFault {
    /// The link failed, while the conversation was going on.
    Link,
    /// A reply could not be taken. `at` is the first place that is wrong, as `Judged::Bad` says.
    BadReply { at: usize },
    /// The server refused, with this status.
    Refused { status: u16 },
    /// After a hundred requests the tries have two hashes at the root: the device's, and the server's.
    OutOfSync { mine: i32, theirs: i32 },
    /// The clock refused the messages of an answer, or the reading.
    Clock(ClockFault),
    /// The keeper failed. The device is not to be used any more.
    Keeper,
    /// Memory ran out. The device is not to be used any more.
    NoMemory,
}

/// What a sync came to.
#[derive(Clone, Copy, Debug, PartialEq, Eq, Drop)]
pub struct Synced {
    /// How many requests were answered.
    pub requests: u64,
    /// How many messages came that the device did not have.
    pub received: u64,
}
