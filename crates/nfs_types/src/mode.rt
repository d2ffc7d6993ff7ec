//! How a file is opened.

/// How a file is opened.
#[derive(Clone, Copy, Debug, PartialEq, Eq)]
pub enum Mode {
    /// To read.
    R,
    /// To write.
    W,
    /// To read and write.
    RW,
    /// To read and write; it is made if it isn't there.
    C,
    /// To read and write; it is made, and may not be there yet.
    X,
}
