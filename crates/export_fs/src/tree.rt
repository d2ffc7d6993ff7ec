//! The objects of an export, as its calls change them.

ghost use Rattle.std.specs.Prelude.{◌≡◌, IfOk, ◌∷◌, []};
ghost use Rattle.world_model.specs.NameService.{keeps_all};
ghost use Rattle.export_fs.specs.Parts.{verifier};
ghost use Rattle.export_fs.specs.Changes.{new_dir};
ghost use Rattle.export_fs.specs.Refusals.{is_full};
ghost use Rattle.export_fs.specs.After.{next};
ghost use Rattle.export_fs.specs.Sound.{Sound};
ghost use Rattle.export_fs.specs.Stamped.{Stamped};

use crate::node::Node;
use crate::nodes::Nodes;
use crate::places::ROOT;
use byteorder::{BigEndian, ByteOrder};
use nfs_types::{SetAttr, SetTime, Verf};
use std::alloc::Global;
use std::marker::Model;
use xdr_codec::Memory;

/// The last number that a change can have, and the last count of restarts.
pub(crate) const LAST_NUMBER: u32 = 4_294_967_295;

/// Nothing is set.
pub(crate) const KEEPS_ALL: SetAttr = SetAttr {
    mode: None,
    uid: None,
    gid: None,
    size: None,
    atime: SetTime::Keep,
    mtime: SetTime::Keep,
};

/// The objects of an export, the number of the last change, and how many restarts there were.
#[derive(Drop)]
pub(crate) struct Tree {
    pub(crate) alloc: Global,
    pub(crate) nodes: Nodes,
    pub(crate) counter: u32,
    pub(crate) reboots: u32,
}

impl Model for Tree {
    ghost use Rattle.export_fs.specs.View.{View};

    ghost Value = { View };

    ghost view = { λ e. record { nodes = e.nodes; counter = e.counter; reboots = e.reboots } };
}

impl Tree {
    /// An empty root directory, which was made as change 1. Memory means out of memory.
    pub(crate) fn new(alloc: Global) -> Result<Tree, Memory>
        ensures empty { IfOk result (λ e. e ≡ record { nodes = new_dir 0 1 keeps_all ∷ []; counter = 1; reboots = 0 }) }
        ensures sound { IfOk result Sound }
        ensures stamped { IfOk result Stamped }
    {
        let mut nodes = Nodes::new(alloc);
        nodes.push(Node::new_dir(alloc, ROOT, 1, &KEEPS_ALL))?;
        Ok(Tree {
            alloc,
            nodes,
            counter: 1,
            reboots: 0,
        })
    }

    /// The number of the next change. It is Memory if none is left, which no call meets: one that takes a number is
    /// refused before.
    pub(crate) fn next_number(&self) -> Result<u32, Memory>
        ensures { IfOk result (λ number. number ≡ next self.now) }
    {
        match self.counter.checked_add(1) {
            Some(number) => Ok(number),
            None => Err(Memory),
        }
    }

    /// Whether no change has a number left.
    pub(crate) fn is_full(&self) -> bool
        ensures { result ≡ is_full self.now }
    {
        self.counter >= LAST_NUMBER
    }

    /// The write verifier (RFC 1813, section 4.8).
    #[tactic(auto, unfolding(xdr_codec::specs::Spelling::u64_bytes))]
    pub(crate) fn verifier(&self) -> Verf
        ensures { result ≡ verifier self.now }
    {
        let mut bytes = [0; 8];
        BigEndian::write_u64(&mut bytes, self.reboots as u64 + 1);
        Verf(bytes)
    }
}
