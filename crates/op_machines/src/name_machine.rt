//! An operation on names that is under way.

ghost use Rattle.client_shelf.specs.Coming.{reply_of};
ghost use Rattle.op_machines.specs.NameSteps.{NameGoes, NameTakes};

use client_shelf::{Came, Shelf, Step, Turn};
use name_ops::{Access, DirChange, Link, ListDir, ReadLink, RemoveFile, Rename, Stat, SymLink};
use std::alloc::Global;

/// An operation on names that is under way.
#[derive(Drop)]
pub enum NameMachine {
    /// A directory is made or removed.
    Change(DirChange),
    /// The attributes of an object are shown.
    Stat(Stat),
    /// The server is asked which rights it grants.
    Access(Access),
    /// What a symbolic link leads to is shown.
    ReadLink(ReadLink),
    /// A name of a file is removed.
    Remove(RemoveFile),
    /// An object gets another name in place of one that it has.
    Rename(Rename),
    /// A file gets a further name.
    Link(Link),
    /// A symbolic link is made.
    SymLink(SymLink),
    /// The names of a directory are listed.
    List(ListDir),
}

impl NameMachine {
    /// A step that no reply made possible, the first one among them.
    pub fn go(&mut self, alloc: Global, turn: Turn, shelf: &mut Shelf) -> Step
        ensures { NameGoes self.old turn shelf.old result self.new shelf.new }
    {
        match self {
            NameMachine::Change(change) => change.resume(turn, shelf),
            NameMachine::Stat(stat) => stat.resume(turn, shelf),
            NameMachine::Access(access) => access.resume(turn, shelf),
            NameMachine::ReadLink(link) => link.resume(turn, shelf),
            NameMachine::Remove(removal) => removal.resume(turn, shelf),
            NameMachine::Rename(rename) => rename.resume(turn, shelf),
            NameMachine::Link(link) => link.resume(turn, shelf),
            NameMachine::SymLink(link) => link.resume(alloc, turn, shelf),
            NameMachine::List(list) => list.resume(turn, shelf),
        }
    }

    /// The step at what came of the call that the step with the turn `sent` asked for.
    pub fn took(
        &mut self,
        alloc: Global,
        sent: Turn,
        came: &Came<'_>,
        turn: Turn,
        shelf: &mut Shelf,
    ) -> Step
        ensures { NameTakes self.old sent turn (reply_of came.now) shelf.old result self.new shelf.new }
    {
        match self {
            NameMachine::Change(change) => change.took(sent, came, turn, shelf),
            NameMachine::Stat(stat) => stat.took(sent, came, turn, shelf),
            NameMachine::Access(access) => access.took(sent, came, turn, shelf),
            NameMachine::ReadLink(link) => link.took(alloc, sent, came, turn, shelf),
            NameMachine::Remove(removal) => removal.took(sent, came, turn, shelf),
            NameMachine::Rename(rename) => rename.took(sent, came, turn, shelf),
            NameMachine::Link(link) => link.took(sent, came, turn, shelf),
            NameMachine::SymLink(link) => link.took(alloc, sent, came, turn, shelf),
            NameMachine::List(list) => list.took(alloc, sent, came, turn, shelf),
        }
    }
}
