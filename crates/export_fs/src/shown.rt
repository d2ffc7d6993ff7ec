//! What the objects of the export are, those that are gone too.

ghost use Rattle.std.specs.Prelude.{◌≡◌, ◌∷◌, [], length, MatchOption, option_copied, option_map, slice_get};
ghost use Rattle.export_fs.specs.Shown.{is_gone_in, stable_in, stable_of};
ghost use Rattle.export_fs.specs.Pages.{rows_after};
ghost use Rattle.export_fs.specs.Parts.{attr_of, bytes_in, rows_in, text_in};

use crate::node::{Holds, Node};
use crate::nodes::Nodes;
use crate::row::Row;
use crate::tree::Tree;
use nfs_types::Attr;

impl Holds {
    /// The bytes of a file that a restart leaves; none of another object.
    pub(crate) fn stable(&self) -> &[u8]
        ensures { result.now ≡ stable_of self.now }
    {
        match self {
            Holds::File(content) => content.stable(),
            _ => &[],
        }
    }
}

impl Nodes {
    /// The object at a place, also if it is gone.
    pub(crate) fn made(&self, place: u32) -> Option<&Node>
        ensures { option_copied result ≡ slice_get self.now place }
    {
        self.list.as_slice().get(place as usize)
    }

    /// The attributes of the object at a place, also if it is gone.
    fn attr_made(&self, place: u32) -> Option<Attr>
        ensures { result ≡ option_map (attr_of place) (slice_get self.now place) }
    {
        match self.made(place) {
            Some(node) => Some(node.attr(place)),
            None => None,
        }
    }

    /// Whether the object at a place lost its last name.
    fn is_gone(&self, place: u32) -> bool
        ensures { result ≡ is_gone_in (slice_get self.now place) }
    {
        match self.made(place) {
            Some(node) => node.gone,
            None => false,
        }
    }

    /// The bytes of the file at a place as they are, also if it is gone.
    fn bytes_made(&self, place: u32) -> &[u8]
        ensures { result.now ≡ bytes_in (slice_get self.now place) }
    {
        match self.made(place) {
            Some(node) => node.holds.bytes(),
            None => &[],
        }
    }

    /// The bytes of the file at a place that a restart leaves, also if it is gone.
    fn stable_made(&self, place: u32) -> &[u8]
        ensures { result.now ≡ stable_in (slice_get self.now place) }
    {
        match self.made(place) {
            Some(node) => node.holds.stable(),
            None => &[],
        }
    }

    /// The text of the symbolic link at a place, also if it is gone.
    fn text_made(&self, place: u32) -> Option<&[u8]>
        ensures { option_copied result ≡ text_in (slice_get self.now place) }
    {
        match self.made(place) {
            Some(node) => node.holds.text(),
            None => None,
        }
    }

    /// The next entry after a cookie of the directory at a place, also if it is gone.
    fn row_made(&self, place: u32, cookie: u64) -> Option<Row>
        ensures { MatchOption result (rows_after cookie (rows_in (slice_get self.now place)) ≡ []) (λ row. rows_after cookie (rows_in (slice_get self.now place)) ≡ row ∷ rows_after row.cookie (rows_in (slice_get self.now place))) }
    {
        match self.made(place) {
            Some(node) => node.holds.next(cookie),
            None => None,
        }
    }
}

impl Tree {
    /// How many objects were made.
    pub(crate) fn made(&self) -> usize
        ensures { result ≡ length self.now.nodes }
    {
        self.nodes.len()
    }

    /// The attributes of the object at a place, also if it is gone.
    pub(crate) fn attr_made(&self, place: u32) -> Option<Attr>
        ensures { result ≡ option_map (attr_of place) (slice_get self.now.nodes place) }
    {
        self.nodes.attr_made(place)
    }

    /// Whether the object at a place lost its last name.
    pub(crate) fn is_gone(&self, place: u32) -> bool
        ensures { result ≡ is_gone_in (slice_get self.now.nodes place) }
    {
        self.nodes.is_gone(place)
    }

    /// The bytes of the file at a place as they are, also if it is gone.
    pub(crate) fn bytes_made(&self, place: u32) -> &[u8]
        ensures { result.now ≡ bytes_in (slice_get self.now.nodes place) }
    {
        self.nodes.bytes_made(place)
    }

    /// The bytes of the file at a place that a restart leaves, also if it is gone.
    pub(crate) fn stable_made(&self, place: u32) -> &[u8]
        ensures { result.now ≡ stable_in (slice_get self.now.nodes place) }
    {
        self.nodes.stable_made(place)
    }

    /// The text of the symbolic link at a place, also if it is gone.
    pub(crate) fn text_made(&self, place: u32) -> Option<&[u8]>
        ensures { option_copied result ≡ text_in (slice_get self.now.nodes place) }
    {
        self.nodes.text_made(place)
    }

    /// The next entry after a cookie of the directory at a place, also if it is gone.
    pub(crate) fn row_made(&self, place: u32, cookie: u64) -> Option<Row>
        ensures { MatchOption result (rows_after cookie (rows_in (slice_get self.now.nodes place)) ≡ []) (λ row. rows_after cookie (rows_in (slice_get self.now.nodes place)) ≡ row ∷ rows_after row.cookie (rows_in (slice_get self.now.nodes place))) }
    {
        self.nodes.row_made(place, cookie)
    }
}
