//! The export.

ghost use Rattle.std.specs.Prelude.{◌≡◌, ◌<◌, ◌∷◌, [], true, if◌then◌else◌, is_some, unwrap_or, option_copied, option_map, slice_get, length, MatchOption, IfOk, OnOk, OnErr};
ghost use Rattle.world_model.specs.Lawful.{Flushes};
ghost use Rattle.world_model.specs.NameService.{keeps_all};
ghost use Rattle.world_model.specs.Rising.{RisesAt};
ghost use Rattle.world_model.specs.Service.{Serves};
ghost use Rattle.export_fs.specs.Changes.{new_dir};
ghost use Rattle.export_fs.specs.Executed.{executed};
ghost use Rattle.export_fs.specs.Finding as findings;
ghost use Rattle.export_fs.specs.Later.{RestartsLater};
ghost use Rattle.export_fs.specs.Partial.{IsWrite, partly_executed};
ghost use Rattle.export_fs.specs.Shown.{is_gone_in, stable_in};
ghost use Rattle.export_fs.specs.Pages.{rows_after};
ghost use Rattle.export_fs.specs.Parts.{attr_of, bytes_in, kind, rows_in, text_in, verifier};
ghost use Rattle.export_fs.specs.Placing.{placed};
ghost use Rattle.export_fs.specs.Restart.{may_restart, after_restart, after_flush};
ghost use Rattle.export_fs.specs.Risen.{TakesNew};
ghost use Rattle.export_fs.specs.Seen.{server_of};
ghost use Rattle.export_fs.specs.Sound.{Sound};
ghost use Rattle.export_fs.specs.Spelling.{HasSpellingCall, HasSpellingReply};
ghost use Rattle.export_fs.specs.Stamped.{Stamped};

use crate::row::Row;
use crate::tree::Tree;
use nfs_types::{Attr, Handle, Name, Verf};
use std::alloc::Global;
use std::marker::Model;
use world_model::{Call, Path, Reply};
use xdr_codec::Memory;

/// A file system in memory, whose name is `/srv`. Whatever is done with it, each of its names is of an object that is
/// there. No time that it gave is above the number of its last change.
#[derive(Drop)]
pub struct Export {
    tree: Tree,
}

impl Model for Export {
    ghost use Rattle.export_fs.specs.View.{View};
    ghost use Rattle.export_fs.specs.Sound.{Sound};
    ghost use Rattle.export_fs.specs.Stamped.{Stamped};

    ghost Value = { View };

    ghost view = { λ e. e.tree };

    ghost invariant = { λ e. Sound e.tree × Stamped e.tree };
}

impl Export {
    /// An export with an empty root directory, which was made as change 1. Memory means out of memory.
    pub fn new(alloc: Global) -> Result<Export, Memory>
        ensures empty { IfOk result (λ e. e ≡ record { nodes = new_dir 0 1 keeps_all ∷ []; counter = 1; reboots = 0 }) }
    {
        match Tree::new(alloc) {
            Ok(tree) => Ok(Export { tree }),
            Err(memory) => Err(memory),
        }
    }

    /// What holds of every export. A fact for proofs: it does nothing.
    pub fn is_kept(&self)
        ensures sound { Sound self.now }
        ensures stamped { Stamped self.now }
    {
        let _tree = &self.tree;
    }

    /// Executes a call: the export is then as the call leaves it, and the reply tells of it (RFC 1813, section 3.3).
    /// A call that is refused changes nothing. Memory means out of memory, and then nothing is changed.
    ///
    /// Each call that has a spelling is what a server may do. What changes takes a stamp that was never given, and
    /// cookies rise. The reply has a spelling.
    pub fn execute(&mut self, call: &Call) -> Result<Reply, Memory>
        ensures ok { IfOk result (λ reply. (self.new ≡ (executed self.old call.now).0) × (reply ≡ (executed self.old call.now).1)) }
        ensures spelled { IfOk result HasSpellingReply }
        ensures err { OnErr result (self.new ≡ self.old) }
        ensures serves { HasSpellingCall call.now → IfOk result (λ reply. Serves (server_of self.old) call.now reply (server_of self.new)) }
        ensures fresh { TakesNew self.old self.new }
        ensures rises { IfOk result (λ reply. RisesAt (server_of self.old) call.now reply) }
    {
        self.tree.execute(call)
    }

    /// Executes a WRITE that breaks off (RFC 1813, section 3.3.7). Its first bytes, at most so many, are in the file as a
    /// change of their own, none of them stable. The reply has the status. No bytes are no change. A call that `execute`
    /// would refuse is answered as by `execute`. Memory means out of memory, and then nothing is changed.
    ///
    /// Each call that has a spelling is what a server may do. What changes takes a stamp that was never given. The reply
    /// has a spelling.
    pub fn execute_partial(&mut self, call: &Call, bytes: u32, status: u32) -> Result<Reply, Memory>
        requires write { IsWrite call.now }
        requires fails { 0 < status }
        ensures ok { IfOk result (λ reply. (self.new ≡ (partly_executed self.old call.now bytes status).0) × (reply ≡ (partly_executed self.old call.now bytes status).1)) }
        ensures spelled { IfOk result HasSpellingReply }
        ensures err { OnErr result (self.new ≡ self.old) }
        ensures serves { HasSpellingCall call.now → IfOk result (λ reply. Serves (server_of self.old) call.now reply (server_of self.new)) }
        ensures fresh { TakesNew self.old self.new }
    {
        self.tree.execute_partial(call, bytes, status)
    }

    /// Restarts: each file is left with its stable bytes, and the write verifier is new. It is false, and nothing is
    /// changed, exactly if a file that changes has no number left, or if 4,294,967,295 restarts were made.
    pub fn reboot(&mut self) -> bool
        ensures done { result ≡ may_restart self.old }
        ensures after { self.new ≡ (if may_restart self.old then after_restart self.old else self.old) }
        ensures fresh { TakesNew self.old self.new }
        ensures restarts { result ≡ true → RestartsLater self.old self.new }
    {
        self.tree.reboot()
    }

    /// So many bytes of a file from an offset become stable, as far as they are there. So do those of a file that lost
    /// its last name. A handle of no file changes nothing. Memory means out of memory, and then nothing is changed.
    pub fn flush(&mut self, file: &Handle, from: u64, len: u64) -> Result<(), Memory>
        ensures ok { OnOk result (self.new ≡ after_flush self.old file.now from len) }
        ensures err { OnErr result (self.new ≡ self.old) }
        ensures fresh { TakesNew self.old self.new }
        ensures flushes { kind self.old.nodes file.now ≡ 1 → OnOk result (Flushes (server_of self.old) (server_of self.new) file.now from len) }
    {
        self.tree.flush(file, from, len)
    }

    /// Places a file with these bytes, all of them stable, or a directory at the end of the path, as one change. It is
    /// false, and nothing is changed, exactly in these cases:
    /// - the path is the root, or its directory isn't there;
    /// - the name is there, or is `.` or `..`;
    /// - no change has a number left.
    ///
    /// Memory means out of memory, and then nothing is changed.
    pub fn place(&mut self, path: &Path, file: Option<&[u8]>) -> Result<bool, Memory>
        ensures made { IfOk result (λ made. made ≡ is_some (placed self.old path.now (option_copied file.entry))) }
        ensures after { OnOk result (self.new ≡ unwrap_or (placed self.old path.now (option_copied file.entry)) self.old) }
        ensures err { OnErr result (self.new ≡ self.old) }
    {
        self.tree.place(path, file)
    }

    /// The file handle of the object to which a path leads from the root. None exactly if it leads to none.
    pub fn find(&self, path: &[Name]) -> Option<Handle>
        ensures { result ≡ findings.found self.now path.now }
    {
        self.tree.find(path)
    }

    /// How many bytes a file has. None exactly if the handle is that of no file, or of one that is gone.
    pub fn file_size(&self, file: &Handle) -> Option<u64>
        ensures { result ≡ findings.file_size self.now file.now }
    {
        self.tree.file_size(file)
    }

    /// The write verifier (RFC 1813, section 4.8).
    pub fn verifier(&self) -> Verf
        ensures { result ≡ verifier self.now }
    {
        self.tree.verifier()
    }

    /// How many objects were made, those that are gone too. Each number below is the place of one.
    pub fn made(&self) -> usize
        ensures { result ≡ length self.now.nodes }
    {
        self.tree.made()
    }

    /// The attributes of the object at a place, also if it is gone. None exactly if no object has the place.
    pub fn attr_made(&self, place: u32) -> Option<Attr>
        ensures { result ≡ option_map (attr_of place) (slice_get self.now.nodes place) }
    {
        self.tree.attr_made(place)
    }

    /// Whether the object at a place lost its last name.
    pub fn is_gone(&self, place: u32) -> bool
        ensures { result ≡ is_gone_in (slice_get self.now.nodes place) }
    {
        self.tree.is_gone(place)
    }

    /// The bytes of the file at a place as they are, also if it is gone; none of another object.
    pub fn bytes_made(&self, place: u32) -> &[u8]
        ensures { result.now ≡ bytes_in (slice_get self.now.nodes place) }
    {
        self.tree.bytes_made(place)
    }

    /// The bytes of the file at a place that a restart leaves, also if it is gone; none of another object.
    pub fn stable_made(&self, place: u32) -> &[u8]
        ensures { result.now ≡ stable_in (slice_get self.now.nodes place) }
    {
        self.tree.stable_made(place)
    }

    /// The text of the symbolic link at a place, also if it is gone. None exactly if it is no link.
    pub fn text_made(&self, place: u32) -> Option<&[u8]>
        ensures { option_copied result ≡ text_in (slice_get self.now.nodes place) }
    {
        self.tree.text_made(place)
    }

    /// The next entry after a cookie of the directory at a place, also if it is gone. None exactly if no entry
    /// has a cookie above, or if it is no directory.
    pub fn row_made(&self, place: u32, cookie: u64) -> Option<Row>
        ensures { MatchOption result (rows_after cookie (rows_in (slice_get self.now.nodes place)) ≡ []) (λ row. rows_after cookie (rows_in (slice_get self.now.nodes place)) ≡ row ∷ rows_after row.cookie (rows_in (slice_get self.now.nodes place))) }
    {
        self.tree.row_made(place, cookie)
    }
}
