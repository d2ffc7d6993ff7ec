//! Why the set-up goes no further.

/// Why the set-up goes no further.
#[derive(Clone, Copy, Debug, PartialEq, Eq)]
pub(crate) enum Stop {
    /// The session is lost.
    Lost,
    /// Out of memory.
    Memory,
}
