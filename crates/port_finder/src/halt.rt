//! Why a call came to no reply.

/// Why a call came to no reply.
#[derive(Clone, Copy)]
pub enum Halt {
    /// The session is lost.
    Lost,
    /// Out of memory.
    Memory,
}

/// What came of one attempt, if no reply did.
#[derive(Clone, Copy)]
pub enum Miss {
    /// The link failed.
    Failed,
    /// Nothing came in time.
    Silent,
    /// Too many records in a row came that answer no call.
    Flooded,
    /// Out of memory.
    Memory,
}
