//! Records that go out.

/// What became of the records that were sent on a connection.
#[derive(Clone, Copy, Debug, PartialEq, Eq)]
pub enum SendState {
    /// Each went out whole, or not at all.
    Fine,
    /// The wire failed after it took a part of one.
    Broken,
    /// Memory ran out after the wire took a part of one.
    Starved,
}

/// How many bytes the header of a fragment has.
pub(crate) const HEADER: usize = 4;
