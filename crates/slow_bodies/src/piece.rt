//! A piece with bytes of its own.

use std::alloc::{AllocError, Global};
use write_back::Piece;

/// Bytes that are sent by one WRITE.
#[derive(Debug, Drop, PartialEq, Eq)]
pub struct OwnPiece {
    /// Where the first byte stands in the file.
    pub offset: u64,
    /// The bytes.
    pub bytes: Vec<u8>,
    /// 2 if the server has to make them stable at once, else 0.
    pub how: u32,
}

/// A copy of a piece that is shown.
pub(crate) fn copied(
    alloc: Global,
    shown: Option<Piece<'_>>,
) -> Result<Option<OwnPiece>, AllocError> {
    match shown {
        None => Ok(None),
        Some(piece) => Ok(Some(OwnPiece {
            offset: piece.offset,
            bytes: piece.bytes.to_vec(alloc)?,
            how: piece.how,
        })),
    }
}
