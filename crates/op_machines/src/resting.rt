//! Whether an operation waits so that a step that no reply made possible does nothing.

ghost use Rattle.std.specs.Prelude.{◌≡◌};
ghost use Rattle.std.specs.Bool.{OnTrue};
ghost use Rattle.op_machines.specs.Openers.{file_of};
ghost use Rattle.op_machines.specs.Rests.{Rests, FileRests, PathRests, truncate_rests, name_rests, visit_rests, pair_rests};

use crate::file_machine::FileMachine;
use crate::machine::Machine;
use crate::name_machine::NameMachine;
use crate::opener::Opener;
use crate::path_machine::PathMachine;
use client_shelf::Shelf;
use file_ops::{TruncateFile, Truncating};
use name_ops::{Pair, Visit};

impl Machine {
    /// Whether a step that no reply made possible does nothing: the operation waits for the reply to a call of its own, or for its
    /// turn at a file. It isn't said of each that does nothing.
    pub fn rests(&self, shelf: &Shelf) -> bool
        ensures { OnTrue result (Rests self.now shelf.now) }
    {
        match self {
            Machine::File(file) => file_rests(file, shelf),
            Machine::Path(path) => path_rests(path, shelf),
            Machine::Name(name) => name_rests(name),
        }
    }
}

/// An operation on a file.
fn file_rests(file: &FileMachine, shelf: &Shelf) -> bool
    ensures { OnTrue result (FileRests file.now shelf.now) }
{
    match file {
        FileMachine::Read(read) => read.rests(),
        FileMachine::Write(write) => write.rests(shelf),
        FileMachine::Sync(sync) => sync.rests(shelf),
        FileMachine::Close(close) => close.rests(shelf),
        FileMachine::Truncate(truncate) => truncate_rests(truncate),
        FileMachine::Put(put) => put.rests(shelf),
        FileMachine::Open(_) => false,
    }
}

/// A truncate waits for the reply to its SETATTR.
fn truncate_rests(truncate: &TruncateFile) -> bool
    ensures { result ≡ truncate_rests truncate.now.state }
{
    matches!(truncate.state, Truncating::Asked { .. })
}

/// An open or a put: its walk waits, or what it leads to.
fn path_rests(path: &PathMachine, shelf: &Shelf) -> bool
    ensures { OnTrue result (PathRests path.now shelf.now) }
{
    if path.arrived {
        return opener_rests(&path.opener, shelf);
    }
    path.walk.asked
}

/// The open or the put at the directory of its name.
fn opener_rests(opener: &Opener, shelf: &Shelf) -> bool
    ensures { OnTrue result (FileRests (file_of opener.now) shelf.now) }
{
    match opener {
        Opener::Open(open) => open.opening.asked,
        Opener::Put(put) => put.rests(shelf),
    }
}

/// An operation on names.
fn name_rests(name: &NameMachine) -> bool
    ensures { result ≡ name_rests name.now }
{
    match name {
        NameMachine::Change(change) => visit_rests(&change.visit),
        NameMachine::Stat(stat) => stat.asked || stat.walk.asked,
        NameMachine::Access(access) => visit_rests(&access.visit),
        NameMachine::ReadLink(link) => visit_rests(&link.visit),
        NameMachine::Remove(removal) => removal.asked,
        NameMachine::Rename(rename) => pair_rests(&rename.pair),
        NameMachine::Link(link) => pair_rests(&link.pair),
        NameMachine::SymLink(link) => visit_rests(&link.visit),
        NameMachine::List(list) => visit_rests(&list.visit),
    }
}

/// A walk, and then one call.
fn visit_rests(visit: &Visit) -> bool
    ensures { result ≡ visit_rests visit.now }
{
    visit.asked || visit.walk.asked
}

/// Two walks, and then one call.
fn pair_rests(pair: &Pair) -> bool
    ensures { result ≡ pair_rests pair.now }
{
    pair.asked || pair.second.asked || pair.first.asked
}
