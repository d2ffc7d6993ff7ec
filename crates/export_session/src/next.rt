//! How serving goes on, and how it ends.

/// How serving ends.
#[derive(Clone, Copy, Debug, PartialEq, Eq)]
pub enum End {
    /// As many calls were answered as were asked for.
    Served,
    /// No more is served, though calls are still to be answered.
    Lost,
    /// Out of memory.
    Memory,
}

/// How it goes on after a record.
#[derive(Clone, Copy)]
pub(crate) enum Next {
    /// The next record is waited for.
    Wait,
    /// No more is waited for here: the connection is closed, or a wait in vain is over.
    Close,
    /// Serving ends so.
    Stop(End),
}
