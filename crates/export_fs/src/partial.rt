//! WRITEs that break off.

ghost use Rattle.std.specs.Prelude.{◌≡◌, ◌<◌, IfOk, OnOk, OnErr};
ghost use Rattle.world_model.specs.Service.{Serves};
ghost use Rattle.export_fs.specs.Partial.{IsWrite, after_part, part_answer, file_partly_executed, partly_executed};
ghost use Rattle.export_fs.specs.Risen.{TakesNew};
ghost use Rattle.export_fs.specs.Seen.{server_of};
ghost use Rattle.export_fs.specs.Sound.{Sound};
ghost use Rattle.export_fs.specs.Spelling.{HasSpellingCall, HasSpellingReply};
ghost use Rattle.export_fs.specs.Stamped.{Stamped};

use crate::file_bytes::part;
use crate::mounts::handles_fit;
use crate::status::OK;
use crate::tree::Tree;
use nfs_file_calls::{FileCall, FileKept};
use nfs_types::{Handle, Status, Wcc};
use world_model::{Call, Reply};
use xdr_codec::Memory;

/// The bytes of a WRITE may be lost in a restart (RFC 1813, section 3.3.7, stable_how).
const UNSTABLE: u32 = 0;

impl Tree {
    /// Executes a WRITE that breaks off after at most so many bytes and fails with the status. One that would be refused
    /// is refused. Memory means out of memory, and then nothing is changed.
    ///
    /// The reply has a spelling. A sound export stays sound, and does what a server may do at each call that has a
    /// spelling. What changes takes a stamp that was never given.
    pub(crate) fn execute_partial(
        &mut self,
        call: &Call,
        bytes: u32,
        status: u32,
    ) -> Result<Reply, Memory>
        requires write { IsWrite call.now }
        requires fails { 0 < status }
        ensures ok { IfOk result (λ reply. (self.new ≡ (partly_executed self.old call.now bytes status).0) × (reply ≡ (partly_executed self.old call.now bytes status).1)) }
        ensures spelled { IfOk result HasSpellingReply }
        ensures err { OnErr result (self.new ≡ self.old) }
        ensures sound { Sound self.old → Sound self.new }
        ensures serves { Sound self.old → HasSpellingCall call.now → IfOk result (λ reply. Serves (server_of self.old) call.now reply (server_of self.new)) }
        ensures stamped { Stamped self.old → Stamped self.new }
        ensures fresh { TakesNew self.old self.new }
    {
        handles_fit(call);
        self.execute_part(call, bytes, status)
    }

    fn execute_part(&mut self, call: &Call, bytes: u32, status: u32) -> Result<Reply, Memory>
        ensures ok { IfOk result (λ reply. (self.new ≡ (partly_executed self.old call.now bytes status).0) × (reply ≡ (partly_executed self.old call.now bytes status).1)) }
        ensures err { OnErr result (self.new ≡ self.old) }
    {
        match call {
            Call::File(call) => Ok(Reply::File(self.execute_file_part(call, bytes, status)?)),
            _ => self.execute_call(call),
        }
    }

    fn execute_file_part(
        &mut self,
        call: &FileCall,
        bytes: u32,
        status: u32,
    ) -> Result<FileKept, Memory>
        ensures ok { IfOk result (λ reply. (self.new ≡ (file_partly_executed self.old call.now bytes status).0) × (reply ≡ (file_partly_executed self.old call.now bytes status).1)) }
        ensures err { OnErr result (self.new ≡ self.old) }
    {
        if self.file_refusal(call) != OK {
            return self.execute_file(call);
        }
        match call {
            FileCall::Write {
                file,
                offset,
                bytes: given,
                ..
            } => {
                let written = part(given.bytes(), 0, bytes as usize);
                self.fail_after(file, *offset, written, status)
            }
            _ => self.execute_file(call),
        }
    }

    /// Writes the bytes, and fails. When out of memory nothing is changed.
    fn fail_after(
        &mut self,
        file: &Handle,
        offset: u64,
        bytes: &[u8],
        status: u32,
    ) -> Result<FileKept, Memory>
        ensures ok { IfOk result (λ reply. (self.new ≡ after_part self.old file.now offset bytes.now) × (reply ≡ part_answer self.old self.new file.now status)) }
        ensures err { OnErr result (self.new ≡ self.old) }
    {
        let before = self.nodes.stamp(file);
        self.write_part(file, offset, bytes)?;
        Ok(FileKept::WriteFail {
            status: Status(status),
            wcc: Wcc {
                before,
                after: self.nodes.attr(file),
            },
        })
    }

    /// Writes bytes, none of which is stable; no bytes are no change. When out of memory nothing is changed.
    fn write_part(&mut self, file: &Handle, offset: u64, bytes: &[u8]) -> Result<(), Memory>
        ensures ok { OnOk result (self.new ≡ after_part self.old file.now offset bytes.now) }
        ensures err { OnErr result (self.new ≡ self.old) }
    {
        if bytes.is_empty() {
            return Ok(());
        }
        self.write(file, offset, UNSTABLE, bytes)
    }
}
