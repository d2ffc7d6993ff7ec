//! A tree in memory.

ghost use Rattle.std.specs.Prelude.{◌≡◌, ◌++◌, [], ◌∷◌, IfOk, IfSome, OnErr, OnOk};
ghost use Rattle.file_trees.specs.declared.tree.Given.TheVariants as gives;
ghost use Rattle.file_trees.specs.Giving.{IsPiece};

use crate::item::{Cut, Item, Piece};
use crate::tree::{Given, Tree};
use std::alloc::Global;
use std::marker::Model;
use xdr_codec::Memory;

/// The most bytes of a piece.
const MOST_BYTES: usize = 65_536;

/// A tree in memory: it gives what it was made of, in that order, and tells what it gave.
#[derive(Drop)]
pub struct MemTree {
    all: Vec<Given>,
    /// Where the next one stands.
    at: usize,
    given: Vec<Given>,
}

impl Model for MemTree {
    ghost use Rattle.std.specs.Prelude.{List};
    ghost use Rattle.file_trees.specs.declared.tree.Given.{Given as GivenOf};

    ghost Value = { List GivenOf };

    ghost view = { λ t. t.given.items };
}

impl MemTree {
    /// A tree of these: items, and behind each file its pieces. Bytes that aren't 1 to 65,536 can't be read.
    pub fn new(alloc: Global, all: Vec<Given>) -> MemTree
        ensures { result ≡ [] }
    {
        MemTree {
            all,
            at: 0,
            given: Vec::new(alloc),
        }
    }

    /// Where the next item stands, or one place behind the end.
    fn next_item(&self) -> usize {
        for at in self.at..self.all.len() {
            if is_item(&self.all[at]) {
                return at;
            }
        }
        self.all.len()
    }

    /// The item that stands there, if one does.
    fn item_at(&self, alloc: Global, at: usize) -> Result<Option<Item>, Memory> {
        match self.all.as_slice().get(at) {
            Some(given) => item_of(alloc, given),
            None => Ok(None),
        }
    }

    /// The piece that comes next, if one does.
    fn next_piece(&self, alloc: Global) -> Result<Option<Piece>, Memory>
        ensures { IfOk result (λ found. IfSome found IsPiece) }
    {
        match self.all.as_slice().get(self.at) {
            Some(given) => piece_of(alloc, given),
            None => Ok(None),
        }
    }

    /// Tells that an item was given.
    fn tell_item(&mut self, alloc: Global, item: &Item) -> Result<(), Memory>
        ensures ok { OnOk result (self.new ≡ self.old ++ gives.Item item.now ∷ []) }
        ensures err { OnErr result (self.new ≡ self.old) }
    {
        let told = item.copy(alloc)?;
        self.given.push(Given::Item(told))?;
        Ok(())
    }

    /// Tells that a piece was given.
    fn tell_piece(&mut self, alloc: Global, piece: &Piece) -> Result<(), Memory>
        ensures ok { OnOk result (self.new ≡ self.old ++ gives.Piece piece.now ∷ []) }
        ensures err { OnErr result (self.new ≡ self.old) }
    {
        let told = piece.copy(alloc)?;
        self.given.push(Given::Piece(told))?;
        Ok(())
    }
}

impl Tree for MemTree {
    ghost use Rattle.std.specs.Prelude.{Some};

    ghost given = { λ t. Some t };

    ghost over = { λ t. Unit {0} };

    fn next(&mut self, alloc: Global) -> Result<Option<Item>, Memory> {
        let at = self.next_item();
        let Some(item) = self.item_at(alloc, at)? else {
            return Ok(None);
        };
        self.tell_item(alloc, &item)?;
        self.at = at.saturating_add(1);
        Ok(Some(item))
    }

    fn read(&mut self, alloc: Global) -> Result<Piece, Memory> {
        let found = self.next_piece(alloc)?;
        let passed = usize::from(found.is_some());
        let piece = or_end(found);
        self.tell_piece(alloc, &piece)?;
        self.at = self.at.saturating_add(passed);
        Ok(piece)
    }
}

fn is_item(given: &Given) -> bool {
    match given {
        Given::Item(_) => true,
        Given::Piece(_) => false,
    }
}

fn item_of(alloc: Global, given: &Given) -> Result<Option<Item>, Memory> {
    match given {
        Given::Item(item) => Ok(Some(item.copy(alloc)?)),
        Given::Piece(_) => Ok(None),
    }
}

fn piece_of(alloc: Global, given: &Given) -> Result<Option<Piece>, Memory>
    ensures { IfOk result (λ found. IfSome found IsPiece) }
{
    match given {
        Given::Item(_) => Ok(None),
        Given::Piece(piece) => Ok(Some(fitting(piece.copy(alloc)?))),
    }
}

/// The piece that was found, or the end.
fn or_end(found: Option<Piece>) -> Piece
    requires { IfSome found IsPiece }
    ensures { IsPiece result }
{
    match found {
        Some(piece) => piece,
        None => Piece::End,
    }
}

/// The piece, if it has 1 to 65,536 bytes or isn't bytes.
fn fitting(piece: Piece) -> Piece
    ensures { IsPiece result }
{
    match piece {
        Piece::Bytes(bytes) => {
            let count = bytes.bytes().len();
            if count == 0 || count > MOST_BYTES {
                return Piece::Cut(Cut::Unread(0));
            }
            Piece::Bytes(bytes)
        }
        Piece::End => Piece::End,
        Piece::Cut(cut) => Piece::Cut(cut),
    }
}
