//! Calls on files.

ghost use Rattle.std.specs.Prelude.{◌≡◌, ◌++◌, IsTrue, IfOk, OnOk, OnErr};
ghost use Rattle.xdr_codec.specs.Spelling.{BeginsWith};
ghost use Rattle.xdr_codec.specs.Spells.{Wrote};
ghost use Rattle.xdr_codec.specs.Whole.{GivesOwned, FindsOwned};
ghost use Rattle.nfs_file_calls.specs.Calls.{file_proc, is_file_proc, IsFileProc, HasSpellingCall, file_call_at, file_call_bytes, SpellsFileArgs, SpellsFileCall};

use crate::attributes::{
    read_access_call, read_get_attr_call, read_null_call, read_set_attr_call, write_access_args,
    write_set_attr_args,
};
use crate::file_system::{read_fs_info_call, read_fs_stat_call, read_path_conf_call};
use crate::read_back::spells_call;
use crate::transfer::{
    read_commit_call, read_read_call, read_write_call, write_range_args, write_write_args,
};
use nfs_types::nfs_proc::{
    ACCESS, COMMIT, FSINFO, FSSTAT, GETATTR, NULL, PATHCONF, READ, SETATTR, WRITE,
};
use nfs_types::{Handle, SetAttr, Time, write_handle};
use std::alloc::Global;
use xdr_codec::{Blob, CodecFault, Memory, Reader, Writer, XdrFault};

/// A call on a file (RFC 1813, section 3.3).
#[derive(Debug, Drop)]
pub enum FileCall {
    /// Does nothing (section 3.3.0).
    Null,
    /// Asks for the attributes (section 3.3.1).
    GetAttr {
        file: Handle,
    },
    /// Sets attributes, if there is no guard or the ctime is the guard (section 3.3.2).
    SetAttr {
        file: Handle,
        set: SetAttr,
        guard: Option<Time>,
    },
    /// Asks which of these rights there are (section 3.3.4): the sum of 1 READ, 2 LOOKUP, 4 MODIFY, 8 EXTEND,
    /// 16 DELETE and 32 EXECUTE.
    Access {
        file: Handle,
        bits: u32,
    },
    /// Reads so many bytes from the offset on (section 3.3.6).
    Read {
        file: Handle,
        offset: u64,
        count: u32,
    },
    /// Writes the bytes at the offset (section 3.3.7). `how` is 0 UNSTABLE, 1 DATA_SYNC or 2 FILE_SYNC.
    Write {
        file: Handle,
        offset: u64,
        how: u32,
        bytes: Blob,
    },
    /// Asks how full the file system is (section 3.3.18).
    FsStat {
        file: Handle,
    },
    /// Asks for the sizes that the server takes (section 3.3.19).
    FsInfo {
        file: Handle,
    },
    /// Asks for the rules for names (section 3.3.20).
    PathConf {
        file: Handle,
    },
    /// Makes stable what was written of so many bytes from the offset on (section 3.3.21). Offset 0 and count 0
    /// mean the whole file.
    Commit {
        file: Handle,
        offset: u64,
        count: u32,
    },
}

/// Whether it is the number of a procedure that this crate reads and writes.
pub fn is_file_proc(proc: u32) -> bool
    ensures { result ≡ is_file_proc proc }
{
    matches!(
        proc,
        NULL | GETATTR | SETATTR | ACCESS | READ | WRITE | FSSTAT | FSINFO | PATHCONF | COMMIT
    )
}

/// The number of the procedure that a call names.
pub fn file_proc(call: &FileCall) -> u32
    ensures names { result ≡ file_proc call.now }
    ensures known { IsFileProc result }
{
    match call {
        FileCall::Null => NULL,
        FileCall::GetAttr { .. } => GETATTR,
        FileCall::SetAttr { .. } => SETATTR,
        FileCall::Access { .. } => ACCESS,
        FileCall::Read { .. } => READ,
        FileCall::Write { .. } => WRITE,
        FileCall::FsStat { .. } => FSSTAT,
        FileCall::FsInfo { .. } => FSINFO,
        FileCall::PathConf { .. } => PATHCONF,
        FileCall::Commit { .. } => COMMIT,
    }
}

/// Reads the call of a procedure from all of its arguments, with the first fault in order of spelling. A WRITE
/// whose `how` is above 2, or whose count isn't the length of its data, is BadValue. Data have at most
/// 65,536 bytes, else TooLong. Memory means out of memory.
pub fn read_file_call(alloc: Global, proc: u32, args: &[u8]) -> Result<FileCall, CodecFault>
    requires { IsFileProc proc }
    ensures exact { GivesOwned result (file_call_at proc args.now) }
    ensures spelled { FindsOwned (SpellsFileCall proc) args.now result }
    ensures writable { IfOk result HasSpellingCall }
{
    let reader = Reader::new(args);
    reader.holds_bytes();
    file_call(alloc, proc, args)
}

fn file_call(alloc: Global, proc: u32, args: &[u8]) -> Result<FileCall, CodecFault>
    ensures { GivesOwned result (file_call_at proc args.now) }
{
    match proc {
        NULL => read_null_call(args),
        GETATTR => read_get_attr_call(args),
        SETATTR => read_set_attr_call(args),
        ACCESS => read_access_call(args),
        READ => read_read_call(args),
        WRITE => read_write_call(alloc, args),
        FSSTAT => read_fs_stat_call(args),
        FSINFO => read_fs_info_call(args),
        PATHCONF => read_path_conf_call(args),
        COMMIT => read_commit_call(args),
        _ => Err(CodecFault::Xdr(XdrFault::BadValue)),
    }
}

/// Writes the arguments of a call. After Memory a part of them may stand there.
pub fn write_file_call(w: &mut Writer, call: &FileCall) -> Result<(), Memory>
    requires { HasSpellingCall call.now }
    ensures ok { OnOk result (w.new ≡ w.old ++ file_call_bytes call.now) }
    ensures err { OnErr result (BeginsWith w.old w.new) }
    ensures spelled { OnOk result (Wrote (SpellsFileArgs call.now) w.old w.new) }
{
    spells_call(call);
    file_call_into(w, call)
}

#[tactic(auto, unfolding(crate::specs::Calls::file_call_bytes))]
fn file_call_into(w: &mut Writer, call: &FileCall) -> Result<(), Memory>
    requires { HasSpellingCall call.now }
    ensures ok { OnOk result (w.new ≡ w.old ++ file_call_bytes call.now) }
    ensures err { OnErr result (BeginsWith w.old w.new) }
{
    match call {
        FileCall::Null => Ok(()),
        FileCall::SetAttr { file, set, guard } => write_set_attr_args(w, file, set, guard),
        FileCall::Access { file, bits } => write_access_args(w, file, *bits),
        FileCall::Write {
            file,
            offset,
            how,
            bytes,
        } => write_write_args(w, file, *offset, *how, bytes.bytes()),
        FileCall::Read {
            file,
            offset,
            count,
        }
        | FileCall::Commit {
            file,
            offset,
            count,
        } => write_range_args(w, file, *offset, *count),
        FileCall::GetAttr { file }
        | FileCall::FsStat { file }
        | FileCall::FsInfo { file }
        | FileCall::PathConf { file } => write_handle(w, file),
    }
}
