//! Why a session is cut off.

/// Why a session is cut off.
#[derive(Clone, Copy, Debug, PartialEq, Eq)]
pub enum Halt {
    /// The sink failed.
    Output,
    /// Out of memory outside an operation.
    Memory,
}
