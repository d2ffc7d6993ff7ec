//! Calls of MOUNT.

ghost use Rattle.std.specs.Prelude.{◌≡◌, ◌++◌, IfOk, OnOk, OnErr};
ghost use Rattle.xdr_codec.specs.Spelling.{BeginsWith};
ghost use Rattle.xdr_codec.specs.Whole.{GivesOwned, FindsOwned};
ghost use Rattle.mount_calls.specs.Calls.{mount_proc, is_mount_proc, IsMountProc, mount_call_at, null_call_at, mnt_call_at, umnt_call_at, export_call_at, mount_call_bytes, HasSpellingCall, SpellsMountArgs, SpellsMountCall};

use crate::text::{PATH_MAX, read_text};
use nfs_types::mount_proc::{EXPORT, MNT, NULL, UMNT};
use std::alloc::Global;
use xdr_codec::{Blob, CodecFault, Memory, Reader, Writer, XdrFault};

/// A call of MOUNT (RFC 1813, section 5.2).
#[derive(Debug, Drop)]
pub enum MountCall {
    /// Does nothing: procedure 0 (section 5.2.0).
    Null,
    /// Asks for the root of an export: procedure 1 (section 5.2.1).
    Mnt {
        /// The directory, at most 1,024 bytes.
        path: Blob,
    },
    /// Takes the client off the list of those that mounted the directory: procedure 3 (section 5.2.3).
    Umnt {
        /// The directory, at most 1,024 bytes.
        path: Blob,
    },
    /// Asks for the exports: procedure 5 (section 5.2.5).
    Export,
}

/// Whether it is the number of a procedure that this crate reads and writes: 0 NULL, 1 MNT, 3 UMNT or 5 EXPORT.
pub fn is_mount_proc(proc: u32) -> bool
    ensures { result ≡ is_mount_proc proc }
{
    matches!(proc, NULL | MNT | UMNT | EXPORT)
}

/// The number of the procedure that a call names.
pub fn mount_proc(call: &MountCall) -> u32
    ensures names { result ≡ mount_proc call.now }
    ensures known { IsMountProc result }
{
    match call {
        MountCall::Null => NULL,
        MountCall::Mnt { .. } => MNT,
        MountCall::Umnt { .. } => UMNT,
        MountCall::Export => EXPORT,
    }
}

/// Reads the call of a procedure from all of its arguments, with the first fault in order of spelling. A path of
/// more than 1,024 bytes is TooLong. Memory means out of memory.
pub fn read_mount_call(alloc: Global, proc: u32, args: &[u8]) -> Result<MountCall, CodecFault>
    requires { IsMountProc proc }
    ensures exact { GivesOwned result (mount_call_at proc args.now) }
    ensures spelled { FindsOwned (SpellsMountCall proc) args.now result }
    ensures writable { IfOk result HasSpellingCall }
{
    Reader::new(args).holds_bytes();
    call_of(alloc, proc, args)
}

fn call_of(alloc: Global, proc: u32, args: &[u8]) -> Result<MountCall, CodecFault>
    ensures { GivesOwned result (mount_call_at proc args.now) }
{
    match proc {
        NULL => null_call(args),
        MNT => mnt_call(alloc, args),
        UMNT => umnt_call(alloc, args),
        EXPORT => export_call(args),
        _ => Err(CodecFault::Xdr(XdrFault::BadValue)),
    }
}

#[tactic(auto, unfolding(crate::specs::Calls::null_call_at))]
fn null_call(args: &[u8]) -> Result<MountCall, CodecFault>
    ensures { GivesOwned result (null_call_at args.now) }
{
    Reader::new(args).end()?;
    Ok(MountCall::Null)
}

#[tactic(auto, unfolding(crate::specs::Calls::mnt_call_at))]
fn mnt_call(alloc: Global, args: &[u8]) -> Result<MountCall, CodecFault>
    ensures { GivesOwned result (mnt_call_at args.now) }
{
    let mut r = Reader::new(args);
    let path = read_text(alloc, &mut r, PATH_MAX)?;
    r.end()?;
    Ok(MountCall::Mnt { path })
}

#[tactic(auto, unfolding(crate::specs::Calls::umnt_call_at))]
fn umnt_call(alloc: Global, args: &[u8]) -> Result<MountCall, CodecFault>
    ensures { GivesOwned result (umnt_call_at args.now) }
{
    let mut r = Reader::new(args);
    let path = read_text(alloc, &mut r, PATH_MAX)?;
    r.end()?;
    Ok(MountCall::Umnt { path })
}

#[tactic(auto, unfolding(crate::specs::Calls::export_call_at))]
fn export_call(args: &[u8]) -> Result<MountCall, CodecFault>
    ensures { GivesOwned result (export_call_at args.now) }
{
    Reader::new(args).end()?;
    Ok(MountCall::Export)
}

/// Writes the arguments of a call. When out of memory the writer begins with what it held.
#[tactic(auto, unfolding(crate::specs::Calls::mount_call_bytes))]
pub fn write_mount_call(w: &mut Writer, call: &MountCall) -> Result<(), Memory>
    requires { HasSpellingCall call.now }
    ensures ok { OnOk result (w.new ≡ w.old ++ mount_call_bytes call.now) }
    ensures err { OnErr result (BeginsWith w.old w.new) }
    ensures spelled { OnOk result (SpellsMountArgs call.now (mount_call_bytes call.now)) }
{
    match call {
        MountCall::Null | MountCall::Export => Ok(()),
        MountCall::Mnt { path } | MountCall::Umnt { path } => w.opaque(path.bytes()),
    }
}
