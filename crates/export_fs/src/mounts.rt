//! Calls of MOUNT, and calls of all kinds.

ghost use Rattle.std.specs.Prelude.{◌≡◌, IfOk, OnErr};
ghost use Rattle.export_fs.specs.Answer.{mnt_answer, export_answer, mount_answer};
ghost use Rattle.export_fs.specs.Spelling.{HasSpellingCall, TextFits, HasSpellingReply};
ghost use Rattle.export_fs.specs.Executed.{executed};
ghost use Rattle.world_model.specs.Rising.{RisesAt};
ghost use Rattle.world_model.specs.Service.{Serves};
ghost use Rattle.export_fs.specs.Seen.{server_of};
ghost use Rattle.export_fs.specs.Sound.{Sound};
ghost use Rattle.export_fs.specs.Stamped.{Stamped};
ghost use Rattle.export_fs.specs.Risen.{TakesNew};
ghost use Rattle.export_fs.specs.Spelled.{HandlesAreBytes};

use crate::dir_refusal::{dir_of, other_of};
use crate::file_refusal::file_of;
use crate::places::{ROOT, handle_of, holds_bytes};
use crate::status::NOENT;
use crate::tree::Tree;
use mount_calls::{ExportList, ExportRow, Flavors, Groups, MountCall, MountReply};
use nfs_dir_calls::DirCall;
use std::alloc::Global;
use world_model::{Call, Reply};
use xdr_codec::{Blob, Memory};

/// The authentication flavors that the export takes (RFC 5531, section 8.2): AUTH_NONE and AUTH_SYS.
const FLAVORS: [u32; 2] = [0, 1];

/// MNT (RFC 1813, section 5.2.1).
fn mount(alloc: Global, path: &[u8]) -> Result<MountReply, Memory>
    ensures { IfOk result (λ reply. reply ≡ mnt_answer path.now) }
{
    let name: &[u8] = b"/srv";
    if path == name {
        Ok(MountReply::MntOk {
            root: handle_of(ROOT),
            flavors: Flavors::of(Vec::from_slice(alloc, &FLAVORS)?),
        })
    } else {
        Ok(MountReply::MntFail { stat: NOENT })
    }
}

/// EXPORT (RFC 1813, section 5.2.5).
fn exports(alloc: Global) -> Result<MountReply, Memory>
    ensures { IfOk result (λ reply. reply ≡ export_answer) }
{
    let name: &[u8] = b"/srv";
    let mut rows = Vec::new(alloc);
    rows.push(ExportRow {
        path: Blob::copy(alloc, name)?,
        groups: Groups::of(Vec::new(alloc)),
    })?;
    Ok(MountReply::Export {
        list: ExportList::of(rows),
    })
}

/// The reply to a call of MOUNT.
fn execute_mount(alloc: Global, call: &MountCall) -> Result<MountReply, Memory>
    ensures { IfOk result (λ reply. reply ≡ mount_answer call.now) }
{
    match call {
        MountCall::Null => Ok(MountReply::Null),
        MountCall::Mnt { path } => mount(alloc, path.bytes()),
        MountCall::Umnt { .. } => Ok(MountReply::Umnt),
        MountCall::Export => exports(alloc),
    }
}

/// That the file handles of a call are bytes. A fact for proofs: it does nothing.
pub fn handles_fit(call: &Call)
    ensures { HandlesAreBytes call.now }
{
    match call {
        Call::File(call) => {
            if let Some(file) = file_of(call) {
                holds_bytes(file);
            }
        }
        Call::Dir(call) => {
            holds_bytes(dir_of(call));
            holds_bytes(other_of(call));
        }
        Call::Mount(_) => {}
    }
}

impl Tree {
    /// Executes a call: the export is then as the call leaves it, and the reply tells of it (RFC 1813, section 3.3).
    /// A call that is refused changes nothing. Memory means out of memory, and then nothing is changed.
    ///
    /// The reply has a spelling. A sound export stays sound, and does what a server may do at each call that has a
    /// spelling. What changes takes a stamp that was never given, and cookies rise.
    pub(crate) fn execute(&mut self, call: &Call) -> Result<Reply, Memory>
        ensures ok { IfOk result (λ reply. (self.new ≡ (executed self.old call.now).0) × (reply ≡ (executed self.old call.now).1)) }
        ensures spelled { IfOk result HasSpellingReply }
        ensures err { OnErr result (self.new ≡ self.old) }
        ensures sound { Sound self.old → Sound self.new }
        ensures serves { Sound self.old → HasSpellingCall call.now → IfOk result (λ reply. Serves (server_of self.old) call.now reply (server_of self.new)) }
        ensures stamped { Stamped self.old → Stamped self.new }
        ensures fresh { TakesNew self.old self.new }
        ensures rises { Stamped self.old → IfOk result (λ reply. RisesAt (server_of self.old) call.now reply) }
    {
        handles_fit(call);
        self.texts_fit(call);
        self.execute_call(call)
    }

    /// That a link's text can be answered.
    fn texts_fit(&self, call: &Call)
        ensures { TextFits self.now call.now }
    {
        if let Call::Dir(DirCall::ReadLink { file }) = call {
            let _text = self.nodes.text(file);
        }
    }

    pub(crate) fn execute_call(&mut self, call: &Call) -> Result<Reply, Memory>
        ensures ok { IfOk result (λ reply. (self.new ≡ (executed self.old call.now).0) × (reply ≡ (executed self.old call.now).1)) }
        ensures err { OnErr result (self.new ≡ self.old) }
    {
        match call {
            Call::File(call) => Ok(Reply::File(self.execute_file(call)?)),
            Call::Dir(call) => Ok(Reply::Dir(self.execute_dir(call)?)),
            Call::Mount(call) => Ok(Reply::Mount(execute_mount(self.alloc, call)?)),
        }
    }
}
