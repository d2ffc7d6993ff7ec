//! Errors of the system as what a tree gives.

ghost use Rattle.std.specs.Prelude.{IfOk};
ghost use Rattle.file_trees.specs.Giving.{IsPiece};

use file_trees::{Cut, Node, Piece};
use std::io::{self, ErrorKind};
use xdr_codec::Memory;

/// The number of an error of the system, 0 if it has none. Out of memory is no such error.
fn number_of(error: &io::Error) -> Result<u32, Memory> {
    if error.kind() == ErrorKind::OutOfMemory {
        return Err(Memory);
    }
    match error.raw_os_error() {
        Some(number) => Ok(number.unsigned_abs()),
        None => Ok(0),
    }
}

/// What stands at a path that can't be read.
pub(crate) fn unread_node(error: &io::Error) -> Result<Node, Memory> {
    let number = number_of(error)?;
    Ok(Node::Unread(number))
}

/// What comes of a file that can't be read on.
pub(crate) fn unread_piece(error: &io::Error) -> Result<Piece, Memory>
    ensures { IfOk result IsPiece }
{
    let number = number_of(error)?;
    Ok(Piece::Cut(Cut::Unread(number)))
}
