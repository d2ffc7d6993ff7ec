//! Where trees come from.

ghost use Rattle.std.specs.Prelude.{◌≡◌, List, Option, None, Ok, IfOk};
ghost use Rattle.file_trees.specs.Giving.{Gives, IsPiece, told_item, told_piece};
ghost use Rattle.file_trees.specs.declared.tree.Given.{Given as GivenOf};

use crate::item::{Item, Piece};
use std::alloc::Global;
use xdr_codec::Memory;

/// What a tree gave at a call.
#[derive(Drop)]
pub enum Given {
    /// A path and what stands there.
    Item(Item),
    /// What came next of the file that was given last.
    Piece(Piece),
}

/// A tree of files. It gives a folder before what that holds, and each file's bytes behind it. What can't be read is given as such, and the rest goes on.
pub trait Tree {
    /// What it gave so far, if it tells.
    ghost given: { Self → Option (List GivenOf) };

    /// That it is at its end: it was asked for the next path, and gave none.
    ghost over: { Self → Type 0 };

    /// The next path and what stands there; none at the end. What is left of the file that was given last is passed over.
    fn next(&mut self, alloc: Global) -> Result<Option<Item>, Memory>
        ensures told { Gives (given self.old) (given self.new) (told_item result) }
        ensures over { result ≡ Ok None → over self.new };

    /// What comes next of the file that was given last.
    fn read(&mut self, alloc: Global) -> Result<Piece, Memory>
        ensures told { Gives (given self.old) (given self.new) (told_piece result) }
        ensures fits { IfOk result IsPiece };
}
