//! When a call on a directory or a name is refused.

ghost use Rattle.std.specs.Prelude.{◌≡◌};
ghost use Rattle.export_fs.specs.Refusals as refusals;

use crate::file_refusal::MOST_SIZE;
use crate::link_text::MOST_TEXT;
use crate::node::{DIRECTORY, FILE, LINK};
use crate::nodes::Nodes;
use crate::places::{is_bad, is_own_name, place_of};
use crate::status::{
    BAD_COOKIE, BADHANDLE, EXIST, FBIG, INVAL, ISDIR, NAMETOOLONG, NOENT, NOSPC, NOTDIR, NOTEMPTY,
    NOTSUPP, OK, STALE,
};
use crate::tree::Tree;
use nfs_dir_calls::{DirCall, Making};
use nfs_types::{Handle, Name, SetAttr, SetTime};

/// The directory of a call, or READLINK's link.
pub(crate) fn dir_of(call: &DirCall) -> &Handle
    ensures { result.now ≡ refusals.dir_of call.entry.now }
{
    match call {
        DirCall::Lookup { dir, .. }
        | DirCall::Create { dir, .. }
        | DirCall::MkDir { dir, .. }
        | DirCall::SymLink { dir, .. }
        | DirCall::MkNod { dir, .. }
        | DirCall::Remove { dir, .. }
        | DirCall::RmDir { dir, .. }
        | DirCall::Link { dir, .. }
        | DirCall::ReadDir { dir, .. }
        | DirCall::ReadDirPlus { dir, .. } => dir,
        DirCall::ReadLink { file } => file,
        DirCall::Rename { from_dir, .. } => from_dir,
    }
}

/// The second file handle of a call, or its only one.
pub(crate) fn other_of(call: &DirCall) -> &Handle
    ensures { result.now ≡ refusals.other_of call.entry.now }
{
    match call {
        DirCall::Rename { to_dir, .. } => to_dir,
        DirCall::Link { file, .. } => file,
        _ => dir_of(call),
    }
}

/// Whether the size to set is past the most bytes of a file.
fn is_size_too_big(set: &SetAttr) -> bool
    ensures { result ≡ refusals.is_size_too_big set.now.size }
{
    match set.size {
        Some(size) => size > MOST_SIZE,
        None => false,
    }
}

/// Whether the size of a CREATE is past the most bytes of a file.
fn is_made_too_big(call: &DirCall) -> bool
    ensures { result ≡ refusals.is_made_too_big call.now }
{
    match call {
        DirCall::Create { making, .. } => match making {
            Making::Unchecked(set) => is_size_too_big(set),
            Making::Guarded(set) => is_size_too_big(set),
            Making::Exclusive(_) => false,
        },
        _ => false,
    }
}

/// Whether the export never does such calls.
fn is_unsupported(call: &DirCall) -> bool
    ensures { result ≡ refusals.is_unsupported call.now }
{
    match call {
        DirCall::Create { making, .. } => match making {
            Making::Exclusive(_) => true,
            _ => false,
        },
        DirCall::MkNod { .. } => true,
        DirCall::ReadDir { .. } => true,
        _ => false,
    }
}

/// Whether the text of a new link has more bytes than a READLINK can answer.
fn is_text_too_long(call: &DirCall) -> bool
    ensures { result ≡ refusals.is_text_too_long call.now }
{
    match call {
        DirCall::SymLink { target, .. } => target.bytes().len() > MOST_TEXT,
        _ => false,
    }
}

/// Whether a time is kept.
fn is_kept(time: &SetTime) -> bool
    ensures { result ≡ refusals.is_kept time.now }
{
    match time {
        SetTime::Keep => true,
        _ => false,
    }
}

/// Whether nothing is set.
pub(crate) fn sets_nothing(set: &SetAttr) -> bool
    ensures { result ≡ refusals.sets_nothing set.now }
{
    set.mode.is_none()
        && set.uid.is_none()
        && set.gid.is_none()
        && set.size.is_none()
        && is_kept(&set.atime)
        && is_kept(&set.mtime)
}

/// Whether both are the same place.
pub(crate) fn same_place(a: Option<u32>, b: Option<u32>) -> bool
    ensures { result ≡ refusals.same_place a b }
{
    match a {
        Some(a) => match b {
            Some(b) => a == b,
            None => false,
        },
        None => false,
    }
}

impl Nodes {
    fn is_dir(&self, handle: &Handle) -> bool
        ensures { result ≡ refusals.is_dir self.now handle.now }
    {
        self.kind(handle) == DIRECTORY
    }

    /// Whether a directory is needed where there is another kind.
    fn is_no_dir(&self, call: &DirCall) -> bool
        ensures { result ≡ refusals.is_no_dir self.now call.now }
    {
        match call {
            DirCall::ReadLink { .. } => false,
            DirCall::RmDir { dir, name } => !self.is_dir(dir) || self.is_named_no_dir(dir, name),
            DirCall::Rename {
                from_dir,
                to_dir,
                ..
            } => !self.is_dir(from_dir) || !self.is_dir(to_dir),
            _ => !self.is_dir(dir_of(call)),
        }
    }

    /// Whether the name is there and no directory has it.
    fn is_named_no_dir(&self, dir: &Handle, name: &Name) -> bool
        ensures { result ≡ refusals.is_named_no_dir self.now dir.now name.now }
    {
        let named = self.named(dir, name);
        named.is_some() && self.kind_at(named) != DIRECTORY
    }

    /// Whether a REMOVE or LINK names a directory.
    fn is_a_dir(&self, call: &DirCall) -> bool
        ensures { result ≡ refusals.is_a_dir self.now call.now }
    {
        match call {
            DirCall::Remove { dir, name } => self.kind_at(self.named(dir, name)) == DIRECTORY,
            DirCall::Link { file, .. } => self.is_dir(file),
            _ => false,
        }
    }

    /// Whether a directory would move into itself or below itself.
    fn goes_below(&self, moved: Option<u32>, to_dir: Option<u32>) -> bool
        ensures { result ≡ refusals.goes_below self.now moved to_dir }
    {
        match moved {
            Some(top) => match to_dir {
                Some(from) => { self.kind_at(Some(top)) == DIRECTORY && self.is_below(top, from) }
                None => false,
            },
            None => false,
        }
    }

    /// Whether READLINK is of another kind than a link, or RENAME moves a directory below itself.
    fn is_invalid(&self, call: &DirCall) -> bool
        ensures { result ≡ refusals.is_invalid self.now call.now }
    {
        match call {
            DirCall::ReadLink { file } => self.kind(file) != LINK,
            DirCall::Rename {
                from_dir,
                from,
                to_dir,
                ..
            } => self.goes_below(self.named(from_dir, from), place_of(to_dir)),
            _ => false,
        }
    }

    /// Whether the name to look up, remove or rename isn't there.
    fn is_missing(&self, call: &DirCall) -> bool
        ensures { result ≡ refusals.is_missing self.now call.now }
    {
        match call {
            DirCall::Lookup { dir, name } => self.named(dir, name).is_none(),
            DirCall::Remove { dir, name } => self.named(dir, name).is_none(),
            DirCall::RmDir { dir, name } => self.named(dir, name).is_none(),
            DirCall::Rename { from_dir, from, .. } => self.named(from_dir, from).is_none(),
            _ => false,
        }
    }

    /// Whether a name can't be made.
    fn is_taken(&self, dir: &Handle, name: &Name) -> bool
        ensures { result ≡ refusals.is_taken self.now dir.now name.now }
    {
        is_own_name(name) || self.named(dir, name).is_some()
    }

    /// Whether there is an object that is no file.
    fn is_no_file(&self, place: Option<u32>) -> bool
        ensures { result ≡ refusals.is_no_file self.now place }
    {
        place.is_some() && self.kind_at(place) != FILE
    }

    /// Whether there is a target, and one of the two is a directory and the other isn't.
    fn is_one_a_dir(&self, moved: Option<u32>, target: Option<u32>) -> bool
        ensures { result ≡ refusals.is_one_a_dir self.now moved target }
    {
        if target.is_none() {
            return false;
        }
        if self.kind_at(moved) == DIRECTORY {
            self.kind_at(target) != DIRECTORY
        } else {
            self.kind_at(target) == DIRECTORY
        }
    }

    /// Whether the name that a CREATE makes is there.
    fn is_made(&self, dir: &Handle, name: &Name, making: &Making) -> bool
        ensures { result ≡ refusals.is_made self.now dir.now name.now making.now }
    {
        match making {
            Making::Unchecked(_) => is_own_name(name) || self.is_no_file(self.named(dir, name)),
            Making::Guarded(_) => self.is_taken(dir, name),
            Making::Exclusive(_) => false,
        }
    }

    /// Whether the name to make is there.
    fn exists(&self, call: &DirCall) -> bool
        ensures { result ≡ refusals.exists self.now call.now }
    {
        match call {
            DirCall::Create { dir, name, making } => self.is_made(dir, name, making),
            DirCall::MkDir { dir, name, .. } => self.is_taken(dir, name),
            DirCall::SymLink { dir, name, .. } => self.is_taken(dir, name),
            DirCall::Link { dir, name, .. } => self.is_taken(dir, name),
            DirCall::Rename {
                from_dir,
                from,
                to_dir,
                to,
            } => {
                is_own_name(to)
                    || self.is_one_a_dir(self.named(from_dir, from), self.named(to_dir, to))
            }
            _ => false,
        }
    }

    /// Whether the object at a place is a directory that has a name.
    fn is_filled_at(&self, place: Option<u32>) -> bool
        ensures { result ≡ refusals.is_filled_at self.now place }
    {
        match self.at(place) {
            Some(node) => node.holds.is_filled(),
            None => false,
        }
    }

    /// Whether a directory that is to go isn't empty.
    fn is_not_empty(&self, call: &DirCall) -> bool
        ensures { result ≡ refusals.is_not_empty self.now call.now }
    {
        match call {
            DirCall::RmDir { dir, name } => self.is_filled_at(self.named(dir, name)),
            DirCall::Rename {
                from_dir,
                from,
                to_dir,
                to,
            } => {
                let target = self.named(to_dir, to);
                !same_place(self.named(from_dir, from), target) && self.is_filled_at(target)
            }
            _ => false,
        }
    }

    /// The last cookie of a directory.
    fn last(&self, dir: &Handle) -> u64
        ensures { result ≡ refusals.last_cookie self.now dir.now }
    {
        match self.object(dir) {
            Some(node) => node.holds.last(),
            None => 0,
        }
    }

    /// Whether the directory never gave the cookie.
    fn is_bad_cookie(&self, call: &DirCall) -> bool
        ensures { result ≡ refusals.is_bad_cookie self.now call.now }
    {
        match call {
            DirCall::ReadDirPlus { dir, cookie, .. } => self.last(dir) < *cookie,
            _ => false,
        }
    }

    /// Whether a CREATE is a change.
    fn is_making(&self, dir: &Handle, name: &Name, making: &Making) -> bool
        ensures { result ≡ refusals.is_making self.now dir.now name.now making.now }
    {
        match making {
            Making::Unchecked(set) => self.named(dir, name).is_none() || !sets_nothing(set),
            Making::Guarded(_) => true,
            Making::Exclusive(_) => false,
        }
    }

    /// Whether the call is a change that takes a number.
    fn changes(&self, call: &DirCall) -> bool
        ensures { result ≡ refusals.changes self.now call.now }
    {
        match call {
            DirCall::Create { dir, name, making } => self.is_making(dir, name, making),
            DirCall::Rename {
                from_dir,
                from,
                to_dir,
                to,
            } => !same_place(self.named(from_dir, from), self.named(to_dir, to)),
            DirCall::MkDir { .. } => true,
            DirCall::SymLink { .. } => true,
            DirCall::Remove { .. } => true,
            DirCall::RmDir { .. } => true,
            DirCall::Link { .. } => true,
            _ => false,
        }
    }
}

impl Tree {
    /// The status of a call on a directory that is refused, and 0 of another one: the first of these that holds.
    pub(crate) fn dir_refusal(&self, call: &DirCall) -> u32
        ensures { result ≡ refusals.dir_refusal self.now call.now }
    {
        let nodes = &self.nodes;
        if is_bad(dir_of(call)) || is_bad(other_of(call)) {
            BADHANDLE
        } else if nodes.is_stale(dir_of(call)) || nodes.is_stale(other_of(call)) {
            STALE
        } else if nodes.is_no_dir(call) {
            NOTDIR
        } else if nodes.is_a_dir(call) {
            ISDIR
        } else if nodes.is_invalid(call) {
            INVAL
        } else if is_unsupported(call) {
            NOTSUPP
        } else if nodes.is_missing(call) {
            NOENT
        } else if nodes.exists(call) {
            EXIST
        } else if nodes.is_not_empty(call) {
            NOTEMPTY
        } else if is_made_too_big(call) {
            FBIG
        } else if nodes.is_bad_cookie(call) {
            BAD_COOKIE
        } else if nodes.changes(call) && self.is_full() {
            NOSPC
        } else if is_text_too_long(call) {
            NAMETOOLONG
        } else {
            OK
        }
    }
}
