//! The calls: what a client asks of a directory.

ghost use Rattle.std.specs.Prelude.{◌≡◌, ◌++◌, IsTrue, ◌↔◌, OnOk, OnErr, IfOk};
ghost use Rattle.xdr_codec.specs.Spelling.{BeginsWith};
ghost use Rattle.xdr_codec.specs.Spells.{Wrote};
ghost use Rattle.xdr_codec.specs.Whole.{GivesOwned, FindsOwned};
ghost use Rattle.nfs_dir_calls.specs.Calls.{IsDirProc, dir_proc, dir_call_at, dir_call_bytes, HasSpellingDirCall, SpellsDirCall, SpellsDirCallOf};

use crate::create::Making;
use crate::mknod::Node;
use crate::place::write_place;
use crate::{
    create, link, lookup, mkdir, mknod, readdir, readdirplus, readlink, remove, rename, rmdir,
    symlink,
};
use nfs_types::nfs_proc::{
    CREATE, LINK, LOOKUP, MKDIR, MKNOD, READDIR, READDIRPLUS, READLINK, REMOVE, RENAME, RMDIR,
    SYMLINK,
};
use nfs_types::{Handle, Name, SetAttr, Verf, write_handle};
use std::alloc::Global;
use xdr_codec::{Blob, CodecFault, Memory, Reader, Writer, XdrFault};

/// A call on a directory or a name, with data of its own. Each variant is a procedure of RFC 1813.
#[derive(Debug, Drop)]
pub enum DirCall {
    /// LOOKUP, procedure 3 (section 3.3.3): what has this name in this directory?
    Lookup {
        dir: Handle,
        name: Name,
    },
    /// READLINK, procedure 5 (section 3.3.5): what is this symbolic link's text?
    ReadLink {
        file: Handle,
    },
    /// CREATE, procedure 8 (section 3.3.8): make a regular file of this name in this directory.
    Create {
        dir: Handle,
        name: Name,
        making: Making,
    },
    /// MKDIR, procedure 9 (section 3.3.9): make a directory of this name in this directory, with these attributes.
    MkDir {
        dir: Handle,
        name: Name,
        set: SetAttr,
    },
    /// SYMLINK, procedure 10 (section 3.3.10): make a symbolic link of this name in this directory, with these
    /// attributes; its text, `target`, has at most 1,024 bytes of any value.
    SymLink {
        dir: Handle,
        name: Name,
        set: SetAttr,
        target: Blob,
    },
    /// MKNOD, procedure 11 (section 3.3.11): make a device, a socket or a pipe of this name in this directory.
    MkNod {
        dir: Handle,
        name: Name,
        node: Node,
    },
    /// REMOVE, procedure 12 (section 3.3.12): remove this name from this directory; it is not the name of a directory.
    Remove {
        dir: Handle,
        name: Name,
    },
    /// RMDIR, procedure 13 (section 3.3.13): remove this name from this directory; it is the name of a directory.
    RmDir {
        dir: Handle,
        name: Name,
    },
    /// RENAME, procedure 14 (section 3.3.14): give what is named `from` in `from_dir` the name `to` in `to_dir`.
    Rename {
        from_dir: Handle,
        from: Name,
        to_dir: Handle,
        to: Name,
    },
    /// LINK, procedure 15 (section 3.3.15): give this file a further name in this directory.
    Link {
        file: Handle,
        dir: Handle,
        name: Name,
    },
    /// READDIR, procedure 16 (section 3.3.16): list the names of this directory that follow a cookie, 0 for all of
    /// them; the verifier is the one that came with the cookie, and the reply is to have at most `count` bytes.
    ReadDir {
        dir: Handle,
        cookie: u64,
        verf: Verf,
        count: u32,
    },
    /// READDIRPLUS, procedure 17 (section 3.3.17): list the names of this directory that follow a cookie, 0 for all of
    /// them, with attributes and file handles; the verifier is the one that came with the cookie, `dircount` bounds the
    /// bytes of names and cookies, and `maxcount` those of the reply.
    ReadDirPlus {
        dir: Handle,
        cookie: u64,
        verf: Verf,
        dircount: u32,
        maxcount: u32,
    },
}

/// Whether these calls have a procedure of this number.
pub fn is_dir_proc(proc: u32) -> bool
    ensures { IsTrue result ↔ IsDirProc proc }
{
    matches!(
        proc,
        LOOKUP
            | READLINK
            | CREATE
            | MKDIR
            | SYMLINK
            | MKNOD
            | REMOVE
            | RMDIR
            | RENAME
            | LINK
            | READDIR
            | READDIRPLUS
    )
}

/// The number of a call's procedure.
pub fn dir_proc(call: &DirCall) -> u32
    ensures proc { result ≡ dir_proc call.now }
    ensures known { IsDirProc result }
{
    match call {
        DirCall::Lookup { .. } => LOOKUP,
        DirCall::ReadLink { .. } => READLINK,
        DirCall::Create { .. } => CREATE,
        DirCall::MkDir { .. } => MKDIR,
        DirCall::SymLink { .. } => SYMLINK,
        DirCall::MkNod { .. } => MKNOD,
        DirCall::Remove { .. } => REMOVE,
        DirCall::RmDir { .. } => RMDIR,
        DirCall::Rename { .. } => RENAME,
        DirCall::Link { .. } => LINK,
        DirCall::ReadDir { .. } => READDIR,
        DirCall::ReadDirPlus { .. } => READDIRPLUS,
    }
}

/// Reads a call of a procedure from all of its arguments.
///
/// `Xdr` is answered exactly if the bytes spell no call of that procedure, with the first fault in order of
/// spelling.
pub fn read_dir_call(alloc: Global, proc: u32, args: &[u8]) -> Result<DirCall, CodecFault>
    requires { IsDirProc proc }
    ensures exact { GivesOwned result (dir_call_at proc args.now) }
    ensures spelled { FindsOwned (SpellsDirCallOf proc) args.now result }
    ensures writable { IfOk result HasSpellingDirCall }
{
    Reader::new(args).holds_bytes();
    call_of(alloc, proc, args)
}

fn call_of(alloc: Global, proc: u32, args: &[u8]) -> Result<DirCall, CodecFault>
    ensures { GivesOwned result (dir_call_at proc args.now) }
{
    match proc {
        LOOKUP => Ok(lookup::read_call(args)?),
        READLINK => Ok(readlink::read_call(args)?),
        CREATE => Ok(create::read_call(args)?),
        MKDIR => Ok(mkdir::read_call(args)?),
        SYMLINK => symlink::read_call(alloc, args),
        MKNOD => Ok(mknod::read_call(args)?),
        REMOVE => Ok(remove::read_call(args)?),
        RMDIR => Ok(rmdir::read_call(args)?),
        RENAME => Ok(rename::read_call(args)?),
        LINK => Ok(link::read_call(args)?),
        READDIR => Ok(readdir::read_call(args)?),
        READDIRPLUS => Ok(readdirplus::read_call(args)?),
        _ => Err(CodecFault::Xdr(XdrFault::BadValue)),
    }
}

/// Appends a call's arguments.
#[tactic(auto, unfolding(crate::specs::Calls::dir_call_bytes))]
pub fn write_dir_call(w: &mut Writer, call: &DirCall) -> Result<(), Memory>
    requires { HasSpellingDirCall call.now }
    ensures ok { OnOk result (w.new ≡ w.old ++ dir_call_bytes call.now) }
    ensures err { OnErr result (BeginsWith w.old w.new) }
    ensures spelled { OnOk result (Wrote (SpellsDirCall call.now) w.old w.new) }
{
    match call {
        DirCall::Lookup { dir, name } => write_place(w, dir, name),
        DirCall::ReadLink { file } => write_handle(w, file),
        DirCall::Create { dir, name, making } => create::write_call(w, dir, name, making),
        DirCall::MkDir { dir, name, set } => mkdir::write_call(w, dir, name, set),
        DirCall::SymLink {
            dir,
            name,
            set,
            target,
        } => symlink::write_call(w, dir, name, set, target),
        DirCall::MkNod { dir, name, node } => mknod::write_call(w, dir, name, node),
        DirCall::Remove { dir, name } => write_place(w, dir, name),
        DirCall::RmDir { dir, name } => write_place(w, dir, name),
        DirCall::Rename {
            from_dir,
            from,
            to_dir,
            to,
        } => rename::write_call(w, from_dir, from, to_dir, to),
        DirCall::Link { file, dir, name } => link::write_call(w, file, dir, name),
        DirCall::ReadDir {
            dir,
            cookie,
            verf,
            count,
        } => readdir::write_call(w, dir, *cookie, verf, *count),
        DirCall::ReadDirPlus {
            dir,
            cookie,
            verf,
            dircount,
            maxcount,
        } => readdirplus::write_call(w, dir, *cookie, verf, *dircount, *maxcount),
    }
}
