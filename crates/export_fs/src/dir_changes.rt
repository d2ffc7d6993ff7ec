//! How calls on directories and names change the export.

ghost use Rattle.std.specs.Prelude.{◌≡◌, OnOk, OnErr, length, ◌≤◌};
ghost use Rattle.export_fs.specs.Parts.{place_of};
ghost use Rattle.export_fs.specs.After as after;

use crate::dir_refusal::{same_place, sets_nothing};
use crate::link_text::LinkText;
use crate::node::Node;
use crate::places::{ROOT, place_of};
use crate::tree::Tree;
use nfs_dir_calls::Making;
use nfs_types::{Handle, Name, SetAttr};
use xdr_codec::Memory;

/// The place of a directory, or that of the root.
fn place_or_root(dir: &Handle) -> u32
    ensures { result ≡ after.place_or_root dir.now }
{
    match place_of(dir) {
        Some(place) => place,
        None => ROOT,
    }
}

impl Tree {
    /// A new object gets a name in the directory at a place. When out of memory nothing is changed.
    pub(crate) fn make_at(
        &mut self,
        dir: Option<u32>,
        name: &Name,
        node: Node,
    ) -> Result<(), Memory>
        ensures ok { OnOk result (self.new ≡ after.after_making_at self.old dir name.now node) }
        ensures err { OnErr result (self.new ≡ self.old) }
    {
        let number = self.next_number()?;
        let Ok(place) = u32::try_from(self.nodes.len()) else {
            return Err(Memory);
        };
        self.nodes.push(node)?;
        match self.nodes.enter(dir, number, name, place) {
            Ok(()) => {}
            Err(_) => {
                self.nodes.pop();
                return Err(Memory);
            }
        }
        self.counter = number;
        Ok(())
    }

    /// A new object gets a name in a directory. When out of memory nothing is changed.
    fn make(&mut self, dir: &Handle, name: &Name, node: Node) -> Result<(), Memory>
        ensures ok { OnOk result (self.new ≡ after.after_making self.old dir.now name.now node) }
        ensures err { OnErr result (self.new ≡ self.old) }
    {
        self.make_at(place_of(dir), name, node)
    }

    /// A new file (RFC 1813, section 3.3.8).
    fn make_file(&mut self, dir: &Handle, name: &Name, set: &SetAttr) -> Result<(), Memory>
        ensures ok { OnOk result (self.new ≡ after.after_file_made self.old dir.now name.now set.now) }
        ensures err { OnErr result (self.new ≡ self.old) }
    {
        let number = self.next_number()?;
        let node = Node::new_file(self.alloc, number, set)?;
        self.make(dir, name, node)
    }

    /// CREATE UNCHECKED of a file that is there only sets what is given.
    fn meet(&mut self, place: u32, set: &SetAttr) -> Result<(), Memory>
        ensures ok { OnOk result (self.new ≡ after.after_meeting self.old place set.now) }
        ensures err { OnErr result (self.new ≡ self.old) }
    {
        if sets_nothing(set) {
            Ok(())
        } else {
            self.set_attr(Some(place), set)
        }
    }

    /// CREATE (RFC 1813, section 3.3.8). When out of memory nothing is changed.
    pub(crate) fn create(
        &mut self,
        dir: &Handle,
        name: &Name,
        making: &Making,
    ) -> Result<(), Memory>
        ensures ok { OnOk result (self.new ≡ after.after_create self.old dir.now name.now making.now) }
        ensures err { OnErr result (self.new ≡ self.old) }
    {
        match making {
            Making::Unchecked(set) => match self.nodes.named(dir, name) {
                Some(place) => self.meet(place, set),
                None => self.make_file(dir, name, set),
            },
            Making::Guarded(set) => self.make_file(dir, name, set),
            Making::Exclusive(_) => Ok(()),
        }
    }

    /// MKDIR (RFC 1813, section 3.3.9). When out of memory nothing is changed.
    pub(crate) fn make_dir(
        &mut self,
        dir: &Handle,
        name: &Name,
        set: &SetAttr,
    ) -> Result<(), Memory>
        ensures ok { OnOk result (self.new ≡ after.after_mkdir self.old dir.now name.now set.now) }
        ensures err { OnErr result (self.new ≡ self.old) }
    {
        let number = self.next_number()?;
        let node = Node::new_dir(self.alloc, place_or_root(dir), number, set);
        self.make(dir, name, node)
    }

    /// SYMLINK (RFC 1813, section 3.3.10). When out of memory nothing is changed.
    pub(crate) fn make_link(
        &mut self,
        dir: &Handle,
        name: &Name,
        set: &SetAttr,
        target: &[u8],
    ) -> Result<(), Memory>
        requires { length target.now ≤ 1024 }
        ensures ok { OnOk result (self.new ≡ after.after_symlink self.old dir.now name.now set.now target.now) }
        ensures err { OnErr result (self.new ≡ self.old) }
    {
        let number = self.next_number()?;
        let text = LinkText::copy(self.alloc, target)?;
        let node = Node::new_link(text, number, set);
        self.make(dir, name, node)
    }

    /// REMOVE and RMDIR (RFC 1813, sections 3.3.12 and 3.3.13).
    pub(crate) fn remove(&mut self, dir: &Handle, name: &Name) -> Result<(), Memory>
        ensures ok { OnOk result (self.new ≡ after.after_remove self.old dir.now name.now) }
        ensures err { OnErr result (self.new ≡ self.old) }
    {
        let number = self.next_number()?;
        let place = self.nodes.named(dir, name);
        self.nodes.leave(place_of(dir), number, name);
        self.nodes.remove(place, number);
        self.counter = number;
        Ok(())
    }

    /// The object at a place moves from one name to another, which the target loses.
    fn move_name(
        &mut self,
        from: (&Handle, &Name),
        to: (&Handle, &Name),
        target: Option<u32>,
        place: u32,
    ) -> Result<(), Memory>
        ensures ok { OnOk result (self.new ≡ after.after_moving self.old from.entry.0.now from.entry.1.now to.entry.0.now to.entry.1.now target place) }
        ensures err { OnErr result (self.new ≡ self.old) }
    {
        let (from_dir, from_name) = from;
        let (to_dir, to_name) = to;
        let number = self.next_number()?;
        self.nodes.enter(place_of(to_dir), number, to_name, place)?;
        self.nodes.leave(place_of(from_dir), number, from_name);
        self.nodes.lose_name(target);
        self.nodes.move_into(place, place_or_root(to_dir));
        self.counter = number;
        Ok(())
    }

    /// RENAME (RFC 1813, section 3.3.14). When out of memory nothing is changed.
    pub(crate) fn rename(
        &mut self,
        from_dir: &Handle,
        from: &Name,
        to_dir: &Handle,
        to: &Name,
    ) -> Result<(), Memory>
        ensures ok { OnOk result (self.new ≡ after.after_rename self.old from_dir.now from.now to_dir.now to.now) }
        ensures err { OnErr result (self.new ≡ self.old) }
    {
        let target = self.nodes.named(to_dir, to);
        match self.nodes.named(from_dir, from) {
            Some(place) => {
                if same_place(Some(place), target) {
                    Ok(())
                } else {
                    self.move_name((from_dir, from), (to_dir, to), target, place)
                }
            }
            None => Ok(()),
        }
    }

    /// LINK (RFC 1813, section 3.3.15). When out of memory nothing is changed.
    pub(crate) fn link(&mut self, file: &Handle, dir: &Handle, name: &Name) -> Result<(), Memory>
        ensures ok { OnOk result (self.new ≡ after.after_linking self.old dir.now name.now (place_of file.now)) }
        ensures err { OnErr result (self.new ≡ self.old) }
    {
        match place_of(file) {
            Some(place) => self.link_at(place, dir, name),
            None => Ok(()),
        }
    }

    fn link_at(&mut self, place: u32, dir: &Handle, name: &Name) -> Result<(), Memory>
        ensures ok { OnOk result (self.new ≡ after.after_linking_at self.old dir.now name.now place) }
        ensures err { OnErr result (self.new ≡ self.old) }
    {
        let number = self.next_number()?;
        self.nodes.enter(place_of(dir), number, name, place)?;
        self.nodes.link(place, number);
        self.counter = number;
        Ok(())
    }
}
