//! Objects that are placed in the export by hand, before it is used.

ghost use Rattle.std.specs.Prelude.{◌≡◌, Some, option_copied, is_some, unwrap_or, IfOk, OnOk, OnErr};
ghost use Rattle.export_fs.specs.Placing as placings;
ghost use Rattle.export_fs.specs.Sound.{Sound};
ghost use Rattle.export_fs.specs.Stamped.{Stamped};

use crate::file_bytes::FileBytes;
use crate::node::{DIRECTORY, Node};
use crate::nodes::Nodes;
use crate::places::{ROOT, is_own_name};
use crate::tree::{KEEPS_ALL, Tree};
use nfs_types::Name;
use world_model::Path;
use xdr_codec::Memory;

impl Nodes {
    /// The place to which the names lead from the root.
    pub(crate) fn walk(&self, names: &[Name]) -> Option<u32>
        ensures { result ≡ placings.walked self.now (Some 0) names.now }
    {
        let mut at = Some(ROOT);
        for name in names {
            at = self.named_at(at, name);
        }
        at
    }
}

impl Tree {
    /// A file that is there with these bytes, all of them stable, or a directory.
    fn new_object(&self, parent: u32, number: u32, file: Option<&[u8]>) -> Result<Node, Memory>
        ensures { IfOk result (λ node. node ≡ placings.new_object parent number (option_copied file.entry)) }
    {
        match file {
            Some(bytes) => {
                let content = FileBytes::copy(self.alloc, bytes)?;
                Ok(Node::placed_file(content, number, &KEEPS_ALL))
            }
            None => Ok(Node::new_dir(self.alloc, parent, number, &KEEPS_ALL)),
        }
    }

    /// A new object gets the name in the directory at a place. When out of memory nothing is changed.
    fn put(&mut self, dir: u32, name: &Name, file: Option<&[u8]>) -> Result<(), Memory>
        ensures ok { OnOk result (self.new ≡ placings.after_placing self.old dir name.now (option_copied file.entry)) }
        ensures err { OnErr result (self.new ≡ self.old) }
    {
        let number = self.next_number()?;
        let node = self.new_object(dir, number, file)?;
        self.make_at(Some(dir), name, node)
    }

    /// Places a file with these bytes, all of them stable, or a directory at the end of the path, as one change. It is
    /// false, and nothing is changed, exactly in these cases:
    /// - the path is the root, or its directory isn't there;
    /// - the name is there, or is `.` or `..`;
    /// - no change has a number left.
    ///
    /// Memory means out of memory, and then nothing is changed.
    pub(crate) fn place(&mut self, path: &Path, file: Option<&[u8]>) -> Result<bool, Memory>
        ensures made { IfOk result (λ made. made ≡ is_some (placings.placed self.old path.now (option_copied file.entry))) }
        ensures after { OnOk result (self.new ≡ unwrap_or (placings.placed self.old path.now (option_copied file.entry)) self.old) }
        ensures err { OnErr result (self.new ≡ self.old) }
        ensures sound { Sound self.old → Sound self.new }
        ensures stamped { Stamped self.old → Stamped self.new }
    {
        match path.names().split_last() {
            Some((name, front)) => {
                let dir = self.nodes.walk(front);
                self.place_in(dir, name, file)
            }
            None => Ok(false),
        }
    }

    fn place_in(
        &mut self,
        dir: Option<u32>,
        name: &Name,
        file: Option<&[u8]>,
    ) -> Result<bool, Memory>
        ensures made { IfOk result (λ made. made ≡ is_some (placings.placed_in self.old name.now (option_copied file.entry) dir)) }
        ensures after { OnOk result (self.new ≡ unwrap_or (placings.placed_in self.old name.now (option_copied file.entry) dir) self.old) }
        ensures err { OnErr result (self.new ≡ self.old) }
    {
        match dir {
            Some(dir) => {
                if !self.may_place(dir, name) {
                    return Ok(false);
                }
                self.put(dir, name, file)?;
                Ok(true)
            }
            None => Ok(false),
        }
    }

    /// Whether an object can be placed under the name in the directory at a place.
    fn may_place(&self, dir: u32, name: &Name) -> bool
        ensures { result ≡ placings.may_place self.now dir name.now }
    {
        self.nodes.kind_at(Some(dir)) == DIRECTORY
            && !is_own_name(name)
            && self.nodes.named_at(Some(dir), name).is_none()
            && !self.is_full()
    }
}
