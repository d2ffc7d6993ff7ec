//! Replies of MOUNT.

ghost use Rattle.std.specs.Prelude.{◌≡◌, ◌++◌, ◌≤◌, ◌<◌, length, IfOk, OnOk, OnErr};
ghost use Rattle.xdr_codec.specs.Spelling.{u32_bytes, BeginsWith};
ghost use Rattle.xdr_codec.specs.Spells.{◌⨾◌, SpellsU32};
ghost use Rattle.xdr_codec.specs.Whole.{GivesOwned, FindsOwned};
ghost use Rattle.nfs_types.specs.Spells.{SpellsHandle};
ghost use Rattle.mount_calls.specs.Calls.{IsMountProc};
ghost use Rattle.mount_calls.specs.Flavors.{SpellsFlavors};
ghost use Rattle.mount_calls.specs.Replies.{mount_reply_at, null_reply_at, mnt_reply_at, mnt_done_at, umnt_reply_at, export_reply_at, mount_reply_bytes, mnt_ok_bytes, HasSpellingReply, SpellsFailure, SpellsMountResults, SpellsMountReply};

use crate::exports::{ExportList, read_exports, write_exports};
use crate::flavors::{Flavors, read_flavors, write_flavors};
use nfs_types::mount_proc::{EXPORT, MNT, NULL, UMNT};
use nfs_types::{Handle, read_handle};
use std::alloc::Global;
use xdr_codec::{CodecFault, Memory, Reader, Writer, XdrFault};

/// The status of a mount that was granted (RFC 1813, section 5.1.5, mountstat3).
const MNT3_OK: u32 = 0;

/// A reply of MOUNT (RFC 1813, section 5.2).
#[derive(Debug, Drop)]
pub enum MountReply {
    /// To NULL.
    Null,
    /// To MNT: the directory may be mounted.
    MntOk {
        /// The file handle of the directory.
        root: Handle,
        /// The authentication flavors that the server takes there, at most 64.
        flavors: Flavors,
    },
    /// To MNT: the directory may not be mounted.
    MntFail {
        /// Why, which isn't 0: 1 PERM, 2 NOENT, 5 IO, 13 ACCES, 20 NOTDIR, 22 INVAL, 63 NAMETOOLONG, 10004 NOTSUPP,
        /// 10006 SERVERFAULT, or another number.
        stat: u32,
    },
    /// To UMNT.
    Umnt,
    /// To EXPORT.
    Export {
        /// The exports.
        list: ExportList,
    },
}

/// Reads the reply of a procedure from all of its results, with the first fault in order of spelling. A count of
/// flavors above 64, a path of more than 1,024 bytes and a name of more than 255 bytes are TooLong. Memory is want
/// of memory.
pub fn read_mount_reply(alloc: Global, proc: u32, results: &[u8]) -> Result<MountReply, CodecFault>
    requires { IsMountProc proc }
    ensures exact { GivesOwned result (mount_reply_at proc results.now) }
    ensures spelled { FindsOwned (SpellsMountReply proc) results.now result }
    ensures writable { IfOk result HasSpellingReply }
{
    Reader::new(results).holds_bytes();
    reply_of(alloc, proc, results)
}

fn reply_of(alloc: Global, proc: u32, results: &[u8]) -> Result<MountReply, CodecFault>
    ensures { GivesOwned result (mount_reply_at proc results.now) }
{
    match proc {
        NULL => null_reply(results),
        MNT => mnt_reply(alloc, results),
        UMNT => umnt_reply(results),
        EXPORT => export_reply(alloc, results),
        _ => Err(CodecFault::Xdr(XdrFault::BadValue)),
    }
}

#[tactic(auto, unfolding(crate::specs::Replies::null_reply_at))]
fn null_reply(results: &[u8]) -> Result<MountReply, CodecFault>
    ensures { GivesOwned result (null_reply_at results.now) }
{
    Reader::new(results).end()?;
    Ok(MountReply::Null)
}

#[tactic(auto, unfolding(crate::specs::Replies::mnt_reply_at))]
fn mnt_reply(alloc: Global, results: &[u8]) -> Result<MountReply, CodecFault>
    ensures { GivesOwned result (mnt_reply_at results.now) }
{
    let mut r = Reader::new(results);
    let stat = r.u32()?;
    if stat == MNT3_OK {
        return mnt_done(alloc, r);
    }
    r.end()?;
    Ok(MountReply::MntFail { stat })
}

#[tactic(auto, unfolding(crate::specs::Replies::mnt_done_at))]
fn mnt_done(alloc: Global, mut r: Reader<'_>) -> Result<MountReply, CodecFault>
    ensures { GivesOwned result (mnt_done_at r.entry) }
{
    let root = read_handle(&mut r)?;
    let flavors = read_flavors(alloc, &mut r)?;
    r.end()?;
    Ok(MountReply::MntOk { root, flavors })
}

#[tactic(auto, unfolding(crate::specs::Replies::umnt_reply_at))]
fn umnt_reply(results: &[u8]) -> Result<MountReply, CodecFault>
    ensures { GivesOwned result (umnt_reply_at results.now) }
{
    Reader::new(results).end()?;
    Ok(MountReply::Umnt)
}

#[tactic(auto, unfolding(crate::specs::Replies::export_reply_at))]
fn export_reply(alloc: Global, results: &[u8]) -> Result<MountReply, CodecFault>
    ensures { GivesOwned result (export_reply_at results.now) }
{
    let mut r = Reader::new(results);
    let list = read_exports(alloc, &mut r)?;
    r.end()?;
    Ok(MountReply::Export { list })
}

/// Writes the results of a call. When out of memory the writer begins with what it held.
#[tactic(auto, unfolding(crate::specs::Replies::mount_reply_bytes))]
pub fn write_mount_reply(w: &mut Writer, reply: &MountReply) -> Result<(), Memory>
    requires { HasSpellingReply reply.now }
    ensures ok { OnOk result (w.new ≡ w.old ++ mount_reply_bytes reply.now) }
    ensures err { OnErr result (BeginsWith w.old w.new) }
    ensures spelled { OnOk result (SpellsMountResults reply.now (mount_reply_bytes reply.now)) }
{
    match reply {
        MountReply::Null | MountReply::Umnt => Ok(()),
        MountReply::MntOk { root, flavors } => write_mnt_ok(w, root, flavors),
        MountReply::MntFail { stat } => write_mnt_fail(w, *stat),
        MountReply::Export { list } => write_exports(w, list),
    }
}

#[tactic(auto, using(xdr_codec::proofs::Begins::begins_a, xdr_codec::proofs::Begins::after_b, xdr_codec::proofs::Begins::grown_c), unfolding(crate::specs::Replies::mnt_ok_bytes, nfs_types::specs::Fields::handle_bytes))]
fn write_mnt_ok(w: &mut Writer, root: &Handle, flavors: &Flavors) -> Result<(), Memory>
    requires { length flavors.now ≤ 64 }
    ensures ok { OnOk result (w.new ≡ w.old ++ mnt_ok_bytes root.now flavors.now) }
    ensures err { OnErr result (BeginsWith w.old w.new) }
    ensures spelled { OnOk result ((SpellsU32 0 ⨾ SpellsHandle root.now ⨾ SpellsFlavors flavors.now) (mnt_ok_bytes root.now flavors.now)) }
{
    w.u32(MNT3_OK)?;
    w.opaque(root.bytes())?;
    write_flavors(w, flavors)?;
    Ok(())
}

fn write_mnt_fail(w: &mut Writer, stat: u32) -> Result<(), Memory>
    requires { 0 < stat }
    ensures ok { OnOk result (w.new ≡ w.old ++ u32_bytes stat) }
    ensures err { OnErr result (BeginsWith w.old w.new) }
    ensures spelled { OnOk result (SpellsFailure stat (u32_bytes stat)) }
{
    w.u32(stat)?;
    Ok(())
}
