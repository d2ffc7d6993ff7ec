//! Calls on files.

ghost use Rattle.std.specs.Prelude.{◌≡◌, ◌==◌, ℕ, true, false, if◌then◌else◌, length, IfOk, OnOk, OnErr};
ghost use Rattle.export_fs.specs.Parts.{place_of, attr, wcc, verifier};
ghost use Rattle.export_fs.specs.After.{after_set_attr, after_write, after_commit, after_file};
ghost use Rattle.export_fs.specs.Answer.{get_attr_answer, read_answer, read_bytes, fs_stat_answer, fs_info_answer, path_conf_answer, file_answer, file_refused};
ghost use Rattle.export_fs.specs.Executed.{file_executed};
ghost use Rattle.nfs_file_calls.specs.declared.owned.FileKept.TheVariants as kept;

use crate::file_bytes::part;
use crate::file_refusal::MOST_SIZE;
use crate::node::second;
use crate::places::place_of;
use crate::status::{OK, STALE};
use crate::tree::Tree;
use nfs_file_calls::{FileCall, FileKept};
use nfs_types::{Attr, Handle, SetAttr, Status, Wcc};
use xdr_codec::{Blob, Memory};

/// The most bytes of a READ or a WRITE that the export asks for.
const MOST_TRANSFER: u32 = 65_536;

/// What the export asks READ and WRITE to be a multiple of.
const TRANSFER_MULTIPLE: u32 = 4_096;

/// The bytes of listings that the export asks for.
const LISTING: u32 = 32_768;

/// Links, symbolic links and times that can be set, and the same answer to PATHCONF for all (RFC 1813, section 3.3.19).
const PROPERTIES: u32 = 11;

/// The bytes, and the files, of the export.
const SPACE: u64 = 1_073_741_824;

const FILES: u64 = 65_536;

fn got_attr(attr: Option<Attr>) -> FileKept
    ensures { result ≡ get_attr_answer attr }
{
    match attr {
        Some(attr) => FileKept::GetAttr { attr },
        None => FileKept::GetAttrFail {
            status: Status(STALE),
        },
    }
}

fn fs_stat(attr: Option<Attr>) -> FileKept
    ensures { result ≡ fs_stat_answer attr }
{
    FileKept::FsStat {
        attr,
        tbytes: SPACE,
        fbytes: SPACE,
        abytes: SPACE,
        tfiles: FILES,
        ffiles: FILES,
        afiles: FILES,
        invarsec: 0,
    }
}

fn fs_info(attr: Option<Attr>) -> FileKept
    ensures { result ≡ fs_info_answer attr }
{
    FileKept::FsInfo {
        attr,
        rtmax: MOST_TRANSFER,
        rtpref: MOST_TRANSFER,
        rtmult: TRANSFER_MULTIPLE,
        wtmax: MOST_TRANSFER,
        wtpref: MOST_TRANSFER,
        wtmult: TRANSFER_MULTIPLE,
        dtpref: LISTING,
        maxfilesize: MOST_SIZE,
        time_delta: second(1),
        properties: PROPERTIES,
    }
}

fn path_conf(attr: Option<Attr>) -> FileKept
    ensures { result ≡ path_conf_answer attr }
{
    FileKept::PathConf {
        attr,
        linkmax: 1_000,
        name_max: 255,
        no_trunc: true,
        chown_restricted: true,
        case_insensitive: false,
        case_preserving: true,
    }
}

impl Tree {
    /// What a reply shows of an object that a call leaves as it is.
    pub(crate) fn unchanged(&self, handle: &Handle) -> Wcc
        ensures { result ≡ wcc self.now.nodes self.now.nodes handle.now }
    {
        Wcc {
            before: self.nodes.stamp(handle),
            after: self.nodes.attr(handle),
        }
    }

    /// SETATTR of the object at a place (RFC 1813, section 3.3.2). When out of memory nothing is changed.
    pub(crate) fn set_attr(&mut self, place: Option<u32>, set: &SetAttr) -> Result<(), Memory>
        ensures ok { OnOk result (self.new ≡ after_set_attr self.old place set.now) }
        ensures err { OnErr result (self.new ≡ self.old) }
    {
        let number = self.next_number()?;
        self.nodes.set_attr(place, number, set)?;
        self.counter = number;
        Ok(())
    }

    fn done_set_attr(&mut self, file: &Handle, set: &SetAttr) -> Result<FileKept, Memory>
        ensures ok { IfOk result (λ reply. (self.new ≡ after_set_attr self.old (place_of file.now) set.now) × (reply ≡ kept.SetAttr (wcc self.old.nodes self.new.nodes file.now))) }
        ensures err { OnErr result (self.new ≡ self.old) }
    {
        let before = self.nodes.stamp(file);
        self.set_attr(place_of(file), set)?;
        Ok(FileKept::SetAttr {
            wcc: Wcc {
                before,
                after: self.nodes.attr(file),
            },
        })
    }

    fn done_read(&self, file: &Handle, offset: u64, count: u32) -> Result<FileKept, Memory>
        ensures { IfOk result (λ reply. reply ≡ read_answer self.now.nodes file.now offset (read_bytes self.now.nodes file.now offset count)) }
    {
        let bytes = self.nodes.bytes(file);
        let read = part(bytes, offset as usize, count.min(MOST_TRANSFER) as usize);
        Ok(FileKept::Read {
            attr: self.nodes.attr(file),
            count: read.len() as u32,
            eof: bytes.len() as u64 <= offset.saturating_add(read.len() as u64),
            bytes: Blob::copy(self.alloc, read)?,
        })
    }

    /// WRITE (RFC 1813, section 3.3.7). When out of memory nothing is changed.
    pub(crate) fn write(
        &mut self,
        file: &Handle,
        offset: u64,
        how: u32,
        bytes: &[u8],
    ) -> Result<(), Memory>
        ensures ok { OnOk result (self.new ≡ after_write self.old file.now offset how bytes.now) }
        ensures err { OnErr result (self.new ≡ self.old) }
    {
        let number = self.next_number()?;
        self.nodes
            .write(place_of(file), number, offset as usize, how, bytes)?;
        self.counter = number;
        Ok(())
    }

    fn done_write(
        &mut self,
        file: &Handle,
        offset: u64,
        how: u32,
        bytes: &[u8],
    ) -> Result<FileKept, Memory>
        ensures ok { IfOk result (λ reply. (self.new ≡ after_write self.old file.now offset how bytes.now) × (reply ≡ kept.Write (wcc self.old.nodes self.new.nodes file.now) (length bytes.now) how (verifier self.new))) }
        ensures err { OnErr result (self.new ≡ self.old) }
    {
        let Ok(count) = u32::try_from(bytes.len()) else {
            return Err(Memory);
        };
        let before = self.nodes.stamp(file);
        self.write(file, offset, how, bytes)?;
        Ok(FileKept::Write {
            wcc: Wcc {
                before,
                after: self.nodes.attr(file),
            },
            count,
            committed: how,
            verf: self.verifier(),
        })
    }

    fn done_commit(&mut self, file: &Handle, offset: u64, count: u32) -> Result<FileKept, Memory>
        ensures ok { IfOk result (λ reply. (self.new ≡ after_commit self.old file.now offset count) × (reply ≡ kept.Commit (wcc self.old.nodes self.new.nodes file.now) (verifier self.new))) }
        ensures err { OnErr result (self.new ≡ self.old) }
    {
        let before = self.nodes.stamp(file);
        self.nodes
            .commit(place_of(file), offset as usize, count as usize)?;
        Ok(FileKept::Commit {
            wcc: Wcc {
                before,
                after: self.nodes.attr(file),
            },
            verf: self.verifier(),
        })
    }

    /// Does a call on a file that isn't refused. When out of memory nothing is changed.
    fn done_file(&mut self, call: &FileCall) -> Result<FileKept, Memory>
        ensures ok { IfOk result (λ reply. (self.new ≡ after_file self.old call.now) × (reply ≡ file_answer self.old self.new call.now)) }
        ensures err { OnErr result (self.new ≡ self.old) }
    {
        match call {
            FileCall::Null => Ok(FileKept::Null),
            FileCall::GetAttr { file } => Ok(got_attr(self.nodes.attr(file))),
            FileCall::SetAttr { file, set, .. } => self.done_set_attr(file, set),
            FileCall::Access { file, bits } => Ok(FileKept::Access {
                attr: self.nodes.attr(file),
                bits: *bits,
            }),
            FileCall::Read {
                file,
                offset,
                count,
            } => self.done_read(file, *offset, *count),
            FileCall::Write {
                file,
                offset,
                how,
                bytes,
            } => self.done_write(file, *offset, *how, bytes.bytes()),
            FileCall::FsStat { file } => Ok(fs_stat(self.nodes.attr(file))),
            FileCall::FsInfo { file } => Ok(fs_info(self.nodes.attr(file))),
            FileCall::PathConf { file } => Ok(path_conf(self.nodes.attr(file))),
            FileCall::Commit {
                file,
                offset,
                count,
            } => self.done_commit(file, *offset, *count),
        }
    }

    /// The reply to a call on a file that is refused with a status.
    fn refused_file(&self, number: u32, call: &FileCall) -> FileKept
        ensures { result ≡ file_refused self.now.nodes number call.now }
    {
        let status = Status(number);
        match call {
            FileCall::Null => FileKept::Null,
            FileCall::GetAttr { .. } => FileKept::GetAttrFail { status },
            FileCall::SetAttr { file, .. } => FileKept::SetAttrFail {
                status,
                wcc: self.unchanged(file),
            },
            FileCall::Access { file, .. } => FileKept::AccessFail {
                status,
                attr: self.nodes.attr(file),
            },
            FileCall::Read { file, .. } => FileKept::ReadFail {
                status,
                attr: self.nodes.attr(file),
            },
            FileCall::Write { file, .. } => FileKept::WriteFail {
                status,
                wcc: self.unchanged(file),
            },
            FileCall::FsStat { file } => FileKept::FsStatFail {
                status,
                attr: self.nodes.attr(file),
            },
            FileCall::FsInfo { file } => FileKept::FsInfoFail {
                status,
                attr: self.nodes.attr(file),
            },
            FileCall::PathConf { file } => FileKept::PathConfFail {
                status,
                attr: self.nodes.attr(file),
            },
            FileCall::Commit { file, .. } => FileKept::CommitFail {
                status,
                wcc: self.unchanged(file),
            },
        }
    }

    /// Executes a call on a file. When out of memory nothing is changed.
    pub(crate) fn execute_file(&mut self, call: &FileCall) -> Result<FileKept, Memory>
        ensures ok { IfOk result (λ reply. (self.new ≡ (file_executed self.old call.now).0) × (reply ≡ (file_executed self.old call.now).1)) }
        ensures err { OnErr result (self.new ≡ self.old) }
    {
        let number = self.file_refusal(call);
        if number == OK {
            self.done_file(call)
        } else {
            Ok(self.refused_file(number, call))
        }
    }
}
