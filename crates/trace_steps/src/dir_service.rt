//! Each call on a name and its replies.

ghost use Rattle.std.specs.Prelude.{◌≡◌, IfOk};
ghost use Rattle.trace_steps.specs.StepTests.{serves_lookup, serves_readlink, serves_create, serves_mkdir, serves_symlink, serves_mknod, serves_remove, serves_rmdir, serves_rename, serves_link, serves_readdir, serves_readdirplus, serves_dir};

use crate::file_service::{refuses_wcc, refuses_with};
use crate::name_service::{creates, links, looks_up, makes_other, reads_link, refuses_link};
use crate::pages::{lists_names, lists_objects};
use crate::removal::removes;
use crate::renaming::{refuses_rename, renames};
use nfs_dir_calls::{DirCall, DirKept, Making};
use nfs_types::{Handle, Name};
use std::alloc::Global;
use trace_data::Trace;
use xdr_codec::Memory;

fn serves_lookup(trace: &Trace, entry: usize, dir: &Handle, name: &Name, reply: &DirKept) -> bool
    ensures { result ≡ serves_lookup trace.now entry dir.now name.now reply.now }
{
    match reply {
        DirKept::Lookup {
            found,
            attr,
            dir: of_dir,
        } => looks_up(trace, entry, dir, name, found, attr, of_dir),
        DirKept::LookupFail {
            status,
            dir: of_dir,
        } => refuses_with(trace, entry, status, dir, of_dir),
        _ => false,
    }
}

fn serves_readlink(trace: &Trace, entry: usize, link: &Handle, reply: &DirKept) -> bool
    ensures { result ≡ serves_readlink trace.now entry link.now reply.now }
{
    match reply {
        DirKept::ReadLink { attr, text } => reads_link(trace, entry, link, attr, text.bytes()),
        DirKept::ReadLinkFail { status, attr } => refuses_with(trace, entry, status, link, attr),
        _ => false,
    }
}

fn serves_create(
    trace: &Trace,
    entry: usize,
    call: &DirCall,
    dir: &Handle,
    name: &Name,
    making: &Making,
    reply: &DirKept,
) -> bool
    ensures { result ≡ serves_create trace.now entry call.now dir.now name.now making.now reply.now }
{
    match reply {
        DirKept::Create { found, attr, wcc } => {
            creates(trace, entry, call, dir, name, making, found, attr, wcc)
        }
        DirKept::CreateFail { status, wcc } => refuses_wcc(trace, entry, status, dir, wcc),
        _ => false,
    }
}

fn serves_mkdir(
    trace: &Trace,
    entry: usize,
    call: &DirCall,
    dir: &Handle,
    name: &Name,
    reply: &DirKept,
) -> bool
    ensures { result ≡ serves_mkdir trace.now entry call.now dir.now name.now reply.now }
{
    match reply {
        DirKept::MkDir { found, attr, wcc } => {
            makes_other(trace, entry, call, dir, name, found, attr, wcc)
        }
        DirKept::MkDirFail { status, wcc } => refuses_wcc(trace, entry, status, dir, wcc),
        _ => false,
    }
}

fn serves_symlink(
    trace: &Trace,
    entry: usize,
    call: &DirCall,
    dir: &Handle,
    name: &Name,
    reply: &DirKept,
) -> bool
    ensures { result ≡ serves_symlink trace.now entry call.now dir.now name.now reply.now }
{
    match reply {
        DirKept::SymLink { found, attr, wcc } => {
            makes_other(trace, entry, call, dir, name, found, attr, wcc)
        }
        DirKept::SymLinkFail { status, wcc } => refuses_wcc(trace, entry, status, dir, wcc),
        _ => false,
    }
}

fn serves_mknod(
    trace: &Trace,
    entry: usize,
    call: &DirCall,
    dir: &Handle,
    name: &Name,
    reply: &DirKept,
) -> bool
    ensures { result ≡ serves_mknod trace.now entry call.now dir.now name.now reply.now }
{
    match reply {
        DirKept::MkNod { found, attr, wcc } => {
            makes_other(trace, entry, call, dir, name, found, attr, wcc)
        }
        DirKept::MkNodFail { status, wcc } => refuses_wcc(trace, entry, status, dir, wcc),
        _ => false,
    }
}

fn serves_remove(trace: &Trace, entry: usize, dir: &Handle, name: &Name, reply: &DirKept) -> bool
    ensures { result ≡ serves_remove trace.now entry dir.now name.now reply.now }
{
    match reply {
        DirKept::Remove { wcc } => removes(trace, entry, dir, name, wcc),
        DirKept::RemoveFail { status, wcc } => refuses_wcc(trace, entry, status, dir, wcc),
        _ => false,
    }
}

fn serves_rmdir(trace: &Trace, entry: usize, dir: &Handle, name: &Name, reply: &DirKept) -> bool
    ensures { result ≡ serves_rmdir trace.now entry dir.now name.now reply.now }
{
    match reply {
        DirKept::RmDir { wcc } => removes(trace, entry, dir, name, wcc),
        DirKept::RmDirFail { status, wcc } => refuses_wcc(trace, entry, status, dir, wcc),
        _ => false,
    }
}

fn serves_rename(
    alloc: Global,
    trace: &Trace,
    entry: usize,
    from_dir: &Handle,
    from: &Name,
    to_dir: &Handle,
    to: &Name,
    reply: &DirKept,
) -> Result<bool, Memory>
    ensures { IfOk result (λ b. b ≡ serves_rename trace.now entry from_dir.now from.now to_dir.now to.now reply.now) }
{
    match reply {
        DirKept::Rename {
            from: source,
            to: target,
        } => renames(
            alloc, trace, entry, from_dir, from, to_dir, to, source, target,
        ),
        DirKept::RenameFail {
            status,
            from: source,
            to: target,
        } => Ok(refuses_rename(trace, entry, status, from_dir, source, to_dir, target)),
        _ => Ok(false),
    }
}

fn serves_link(
    trace: &Trace,
    entry: usize,
    file: &Handle,
    dir: &Handle,
    name: &Name,
    reply: &DirKept,
) -> bool
    ensures { result ≡ serves_link trace.now entry file.now dir.now name.now reply.now }
{
    match reply {
        DirKept::Link { attr, wcc } => links(trace, entry, file, dir, name, attr, wcc),
        DirKept::LinkFail { status, attr, wcc } => {
            refuses_link(trace, entry, status, dir, wcc, file, attr)
        }
        _ => false,
    }
}

fn serves_readdir(trace: &Trace, entry: usize, dir: &Handle, reply: &DirKept) -> bool
    ensures { result ≡ serves_readdir trace.now entry dir.now reply.now }
{
    match reply {
        DirKept::ReadDir {
            attr,
            page,
            eof,
            ..
        } => lists_names(trace, entry, dir, attr, page.rows(), *eof),
        DirKept::ReadDirFail { status, attr } => refuses_with(trace, entry, status, dir, attr),
        _ => false,
    }
}

fn serves_readdirplus(trace: &Trace, entry: usize, dir: &Handle, reply: &DirKept) -> bool
    ensures { result ≡ serves_readdirplus trace.now entry dir.now reply.now }
{
    match reply {
        DirKept::ReadDirPlus {
            attr,
            page,
            eof,
            ..
        } => lists_objects(trace, entry, dir, attr, page.rows(), *eof),
        DirKept::ReadDirPlusFail { status, attr } => {
            refuses_with(trace, entry, status, dir, attr)
        }
        _ => false,
    }
}

/// Whether the entry serves the call on a name with this reply.
// One arm a call: a split would only hide the table.
pub(crate) fn serves_dir(
    alloc: Global,
    trace: &Trace,
    entry: usize,
    call: &DirCall,
    reply: &DirKept,
) -> Result<bool, Memory>
    ensures { IfOk result (λ b. b ≡ serves_dir trace.now entry call.now reply.now) }
{
    match call {
        DirCall::Lookup { dir, name } => Ok(serves_lookup(trace, entry, dir, name, reply)),
        DirCall::ReadLink { file } => Ok(serves_readlink(trace, entry, file, reply)),
        DirCall::Create { dir, name, making } => {
            Ok(serves_create(trace, entry, call, dir, name, making, reply))
        }
        DirCall::MkDir { dir, name, .. } => Ok(serves_mkdir(trace, entry, call, dir, name, reply)),
        DirCall::SymLink { dir, name, .. } => {
            Ok(serves_symlink(trace, entry, call, dir, name, reply))
        }
        DirCall::MkNod { dir, name, .. } => Ok(serves_mknod(trace, entry, call, dir, name, reply)),
        DirCall::Remove { dir, name } => Ok(serves_remove(trace, entry, dir, name, reply)),
        DirCall::RmDir { dir, name } => Ok(serves_rmdir(trace, entry, dir, name, reply)),
        DirCall::Rename {
            from_dir,
            from,
            to_dir,
            to,
        } => serves_rename(alloc, trace, entry, from_dir, from, to_dir, to, reply),
        DirCall::Link { file, dir, name } => {
            Ok(serves_link(trace, entry, file, dir, name, reply))
        }
        DirCall::ReadDir { dir, .. } => Ok(serves_readdir(trace, entry, dir, reply)),
        DirCall::ReadDirPlus { dir, .. } => Ok(serves_readdirplus(trace, entry, dir, reply)),
    }
}
