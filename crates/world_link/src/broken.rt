//! WRITEs that broke off.

use crate::directive::PartialWrite;

/// A WRITE that broke off: the place of its entry among those that are told, which doesn't say how many bytes were written.
#[derive(Clone, Copy, Debug, Drop)]
pub struct Broken {
    /// The place of its entry.
    pub at: usize,
    /// How many bytes were written, and the status of the reply.
    pub part: PartialWrite,
}
