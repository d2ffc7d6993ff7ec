//! Objects of the export by their paths, and the sizes of files.

ghost use Rattle.std.specs.Prelude.{◌≡◌};
ghost use Rattle.export_fs.specs.Finding.{found, file_size};

use crate::node::FILE;
use crate::places::handle_of;
use crate::tree::Tree;
use nfs_types::{Handle, Name};

impl Tree {
    /// The file handle of the object to which a path leads from the root. None exactly if it leads to none.
    pub(crate) fn find(&self, path: &[Name]) -> Option<Handle>
        ensures { result ≡ found self.now path.now }
    {
        match self.nodes.walk(path) {
            Some(place) => Some(handle_of(place)),
            None => None,
        }
    }

    /// How many bytes a file has. None exactly if the handle is that of no file, or of one that is gone.
    pub(crate) fn file_size(&self, file: &Handle) -> Option<u64>
        ensures { result ≡ file_size self.now file.now }
    {
        if self.nodes.kind(file) == FILE {
            Some(self.nodes.bytes(file).len() as u64)
        } else {
            None
        }
    }
}
