//! The objects of the export in order of making.

ghost use Rattle.std.specs.Prelude.{◌≡◌, ◌-◌, ◌∷◌, ◌++◌, [], length, take, option_copied, option_map, OnOk, OnErr, Some, IfSome, ◌≤◌};
ghost use Rattle.nfs_types.specs.Stamps.{stamp_of};
ghost use Rattle.export_fs.specs.Parts.{live, at_place, object, kind_at, kind, attr_at, attr, parent_in, bytes_in, text_in};
ghost use Rattle.export_fs.specs.Names.{named_at, named, is_below};
ghost use Rattle.export_fs.specs.Refusals.{is_stale};
ghost use Rattle.export_fs.specs.After.{changed_at};
ghost use Rattle.export_fs.specs.Changes as changes;
ghost use Rattle.export_fs.specs.Restart as restarts;

use crate::node::{Holds, Node};
use crate::places::{ROOT, place_of};
use nfs_types::{Attr, Handle, Name, SetAttr, Stamp};
use std::alloc::Global;
use std::marker::Model;
use xdr_codec::Memory;

/// The objects, those that are gone too: an object's place is its number less 1.
#[derive(Drop)]
pub(crate) struct Nodes {
    pub(crate) list: Vec<Node>,
}

impl Model for Nodes {
    ghost use Rattle.std.specs.Prelude.{List};
    ghost use Rattle.export_fs.specs.declared.node.Node.{Node};

    ghost Value = { List Node };

    ghost view = { λ n. n.list.items };
}

impl Nodes {
    /// No objects. It takes no memory.
    pub(crate) fn new(alloc: Global) -> Nodes
        ensures { result ≡ [] }
    {
        Nodes {
            list: Vec::new(alloc),
        }
    }

    /// How many there are.
    pub(crate) fn len(&self) -> usize
        ensures { result ≡ length self.now }
    {
        self.list.len()
    }

    /// The object at a place, unless it is gone.
    pub(crate) fn live(&self, place: u32) -> Option<&Node>
        ensures { option_copied result ≡ live self.now place }
    {
        match self.list.as_slice().get(place as usize) {
            Some(node) => { if node.gone { None } else { Some(node) } }
            None => None,
        }
    }

    /// The object at a place, if one is given.
    pub(crate) fn at(&self, place: Option<u32>) -> Option<&Node>
        ensures { option_copied result ≡ at_place self.now place }
    {
        match place {
            Some(place) => self.live(place),
            None => None,
        }
    }

    /// The object under a file handle.
    pub(crate) fn object(&self, handle: &Handle) -> Option<&Node>
        ensures { option_copied result ≡ object self.now handle.now }
    {
        self.at(place_of(handle))
    }

    /// Whether no object is under a file handle.
    pub(crate) fn is_stale(&self, handle: &Handle) -> bool
        ensures { result ≡ is_stale self.now handle.now }
    {
        self.object(handle).is_none()
    }

    /// The kind of the object at a place, and 0 if there is none.
    pub(crate) fn kind_at(&self, place: Option<u32>) -> u32
        ensures { result ≡ kind_at self.now place }
    {
        match self.at(place) {
            Some(node) => node.holds.kind(),
            None => 0,
        }
    }

    /// The kind of the object under a file handle, and 0 if there is none.
    pub(crate) fn kind(&self, handle: &Handle) -> u32
        ensures { result ≡ kind self.now handle.now }
    {
        self.kind_at(place_of(handle))
    }

    /// The attributes of the object at a place.
    pub(crate) fn attr_at(&self, place: Option<u32>) -> Option<Attr>
        ensures { result ≡ attr_at self.now place }
    {
        match place {
            Some(place) => match self.live(place) {
                Some(node) => Some(node.attr(place)),
                None => None,
            },
            None => None,
        }
    }

    /// The attributes of the object under a file handle.
    pub(crate) fn attr(&self, handle: &Handle) -> Option<Attr>
        ensures { result ≡ attr self.now handle.now }
    {
        self.attr_at(place_of(handle))
    }

    /// What a reply shows of the object before a change.
    pub(crate) fn stamp(&self, handle: &Handle) -> Option<Stamp>
        ensures { result ≡ option_map stamp_of (attr self.now handle.now) }
    {
        match self.attr(handle) {
            Some(attr) => Some(attr.stamp()),
            None => None,
        }
    }

    /// The bytes of the file under a file handle; none of another object.
    pub(crate) fn bytes(&self, handle: &Handle) -> &[u8]
        ensures { result.now ≡ bytes_in (object self.now handle.now) }
    {
        match self.object(handle) {
            Some(node) => node.holds.bytes(),
            None => &[],
        }
    }

    /// The text of the link under a file handle; None of another object.
    pub(crate) fn text(&self, handle: &Handle) -> Option<&[u8]>
        ensures text { option_copied result ≡ text_in (object self.now handle.now) }
        ensures fits { IfSome result (λ text. length text.now ≤ 1024) }
    {
        match self.object(handle) {
            Some(node) => node.holds.text(),
            None => None,
        }
    }

    /// The place of the object that has the name in the directory at a place.
    pub(crate) fn named_at(&self, dir: Option<u32>, name: &Name) -> Option<u32>
        ensures { result ≡ named_at self.now dir name.now }
    {
        match self.at(dir) {
            Some(node) => node.holds.find(name),
            None => None,
        }
    }

    /// The place of the object that has the name in the directory under a file handle.
    pub(crate) fn named(&self, dir: &Handle, name: &Name) -> Option<u32>
        ensures { result ≡ named self.now dir.now name.now }
    {
        self.named_at(place_of(dir), name)
    }

    /// The place of the directory above that at a place.
    fn parent(&self, place: u32) -> u32
        ensures { result ≡ parent_in (live self.now place) }
    {
        match self.live(place) {
            Some(node) => node.holds.parent(),
            None => ROOT,
        }
    }

    /// Whether the directory at the place `from` is that at the place `top` or lies below it.
    pub(crate) fn is_below(&self, top: u32, from: u32) -> bool
        ensures { result ≡ is_below (length self.now) self.now top from }
    {
        let mut at = from;
        let mut steps = self.list.len();
        while steps > 0 {
            if at == top {
                return true;
            }
            if at == ROOT {
                return false;
            }
            at = self.parent(at);
            steps -= 1;
        }
        at == top
    }

    /// One more object. When out of memory they are as they were.
    pub(crate) fn push(&mut self, node: Node) -> Result<(), Memory>
        ensures ok { OnOk result (self.new ≡ self.old ++ node ∷ []) }
        ensures err { OnErr result (self.new ≡ self.old) }
    {
        self.list.push(node)?;
        Ok(())
    }

    /// The last object is taken away.
    pub(crate) fn pop(&mut self)
        ensures { self.new ≡ take (length self.old - 1) self.old }
    {
        let _last = self.list.pop();
    }
}

/// Changes of the object at a place, if one is given and there is one. When out of memory it is as it was.
impl Nodes {
    /// SETATTR (RFC 1813, section 3.3.2).
    pub(crate) fn set_attr(
        &mut self,
        place: Option<u32>,
        number: u32,
        set: &SetAttr,
    ) -> Result<(), Memory>
        ensures ok { OnOk result (self.new ≡ changed_at (changes.with_set number set.now) place self.old) }
        ensures err { OnErr result (self.new ≡ self.old) }
    {
        if let Some(place) = place {
            if (place as usize) < self.list.len() {
                self.list[place as usize].set_attr(number, set)?;
            }
        }
        Ok(())
    }

    /// WRITE (RFC 1813, section 3.3.7).
    pub(crate) fn write(
        &mut self,
        place: Option<u32>,
        number: u32,
        offset: usize,
        how: u32,
        bytes: &[u8],
    ) -> Result<(), Memory>
        ensures ok { OnOk result (self.new ≡ changed_at (changes.written number offset how bytes.now) place self.old) }
        ensures err { OnErr result (self.new ≡ self.old) }
    {
        if let Some(place) = place {
            if (place as usize) < self.list.len() {
                self.list[place as usize].write(number, offset, how, bytes)?;
            }
        }
        Ok(())
    }

    /// COMMIT (RFC 1813, section 3.3.21).
    pub(crate) fn commit(
        &mut self,
        place: Option<u32>,
        offset: usize,
        count: usize,
    ) -> Result<(), Memory>
        ensures ok { OnOk result (self.new ≡ changed_at (changes.committed offset count) place self.old) }
        ensures err { OnErr result (self.new ≡ self.old) }
    {
        if let Some(place) = place {
            if (place as usize) < self.list.len() {
                self.list[place as usize].commit(offset, count)?;
            }
        }
        Ok(())
    }

    /// A name enters a directory.
    pub(crate) fn enter(
        &mut self,
        dir: Option<u32>,
        number: u32,
        name: &Name,
        place: u32,
    ) -> Result<(), Memory>
        ensures ok { OnOk result (self.new ≡ changed_at (changes.entered number name.now place) dir self.old) }
        ensures err { OnErr result (self.new ≡ self.old) }
    {
        if let Some(dir) = dir {
            if (dir as usize) < self.list.len() {
                self.list[dir as usize].enter(number, name, place)?;
            }
        }
        Ok(())
    }

    /// A name leaves a directory.
    pub(crate) fn leave(&mut self, dir: Option<u32>, number: u32, name: &Name)
        ensures { self.new ≡ changed_at (changes.left number name.now) dir self.old }
    {
        if let Some(dir) = dir {
            if (dir as usize) < self.list.len() {
                self.list[dir as usize].leave(number, name);
            }
        }
    }

    /// An object loses a name by RENAME (RFC 1813, section 3.3.14).
    pub(crate) fn lose_name(&mut self, place: Option<u32>)
        ensures { self.new ≡ changed_at changes.unnamed place self.old }
    {
        if let Some(place) = place {
            if (place as usize) < self.list.len() {
                self.list[place as usize].lose_name();
            }
        }
    }

    /// An object loses a name by REMOVE or RMDIR (RFC 1813, sections 3.3.12 and 3.3.13).
    pub(crate) fn remove(&mut self, place: Option<u32>, number: u32)
        ensures { self.new ≡ changed_at (changes.removed number) place self.old }
    {
        if let Some(place) = place {
            if (place as usize) < self.list.len() {
                self.list[place as usize].remove(number);
            }
        }
    }

    /// LINK (RFC 1813, section 3.3.15).
    pub(crate) fn link(&mut self, place: u32, number: u32)
        ensures { self.new ≡ changes.changed (changes.linked number) place self.old }
    {
        if (place as usize) < self.list.len() {
            self.list[place as usize].link(number);
        }
    }

    /// It moves into the directory at the place `parent`, if it is a directory.
    pub(crate) fn move_into(&mut self, place: u32, parent: u32)
        ensures { self.new ≡ changes.changed (changes.moved parent) place self.old }
    {
        if (place as usize) < self.list.len() {
            self.list[place as usize].move_into(parent);
        }
    }
}
