//! The lines of a file in a script.

use world_model::Path;

/// So many bytes are asked for by a line.
pub(crate) const PIECE: u32 = 65_536;

/// The lines of a file in a script. It may have begun in an earlier one, and may go on in the next.
#[derive(Drop)]
pub(crate) struct Span {
    /// Its path below the one that is copied.
    pub(crate) path: Path,
    /// The number of its first line.
    pub(crate) first: u32,
    /// Whether that opens the file.
    pub(crate) opens: bool,
    /// How many lines read.
    pub(crate) reads: u32,
    /// Whether the last one of these reads up to the end, and a line behind it closes the file.
    pub(crate) ends: bool,
}
