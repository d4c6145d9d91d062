//! What becomes of a connection.

/// What became of a connection.
#[derive(Clone, Copy, Debug, PartialEq, Eq)]
pub enum Served {
    /// A whole reply was written, with this status.
    Answered {
        /// The status of the reply.
        status: u16,
    },
    /// It ended without a whole reply.
    Cut,
}
