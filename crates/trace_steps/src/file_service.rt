//! Calls on files and their replies (RFC 1813, section 3.3).

ghost use Rattle.std.specs.Prelude.{◌≡◌};
ghost use Rattle.trace_steps.specs.FileTests.{refuses, refuses_with, refuses_wcc, is_verf_of, asks, sets, is_counted, reads_bytes, is_firm, writes, breaks_off, commits, serves_null, serves_getattr, serves_setattr, serves_access, serves_read, serves_write, serves_fsstat, serves_fsinfo, serves_pathconf, serves_commit, serves_file};

use crate::moments::{is_same, only};
use crate::ranges::up_to;
use crate::turning::{
    begins, commits, gives, is_set, looks, showed_attr, showed_wcc, shows_attr, shows_wcc, takes,
};
use nfs_file_calls::{FileCall, FileKept};
use nfs_types::{Attr, Handle, SetAttr, Status, Verf, Wcc};
use trace_data::{Trace, verf_at};
use trace_rules::same_verf;

// ---- what a server may do

/// Whether a call is refused: with a status other than 0, and nothing changes.
#[tactic(auto, unfolding(crate::specs::FileTests::refuses))]
pub(crate) fn refuses(trace: &Trace, entry: usize, status: &Status) -> bool
    ensures { result ≡ refuses trace.now entry status.now }
{
    status.0 != 0 && is_same(trace, entry)
}

#[tactic(auto, unfolding(crate::specs::FileTests::refuses_with))]
pub(crate) fn refuses_with(
    trace: &Trace,
    entry: usize,
    status: &Status,
    handle: &Handle,
    attr: &Option<Attr>,
) -> bool
    ensures { result ≡ refuses_with trace.now entry status.now handle.now attr.now }
{
    refuses(trace, entry, status) && showed_attr(trace, entry, handle, attr)
}

#[tactic(auto, unfolding(crate::specs::FileTests::refuses_wcc))]
pub(crate) fn refuses_wcc(
    trace: &Trace,
    entry: usize,
    status: &Status,
    handle: &Handle,
    wcc: &Wcc,
) -> bool
    ensures { result ≡ refuses_wcc trace.now entry status.now handle.now wcc.now }
{
    refuses(trace, entry, status) && showed_wcc(trace, entry, handle, wcc)
}

/// Whether the write verifier is that of the server before the entry.
#[tactic(auto, unfolding(crate::specs::FileTests::is_verf_of))]
fn is_verf_of(trace: &Trace, entry: usize, verf: &Verf) -> bool
    ensures { result ≡ is_verf_of trace.now entry verf.now }
{
    same_verf(
        *verf,
        verf_at(trace.start.verf, trace.updates.as_slice(), entry),
    )
}

/// Whether an object is read, and perhaps its attributes are shown.
#[tactic(auto, unfolding(crate::specs::FileTests::asks))]
fn asks(trace: &Trace, entry: usize, handle: &Handle, attr: &Option<Attr>) -> bool
    ensures { result ≡ asks trace.now entry handle.now attr.now }
{
    looks(trace, entry, handle) && shows_attr(trace, entry, handle, attr)
}

/// Whether attributes are set.
#[tactic(auto, unfolding(crate::specs::FileTests::sets))]
fn sets(trace: &Trace, entry: usize, handle: &Handle, set: &SetAttr, wcc: &Wcc) -> bool
    ensures { result ≡ sets trace.now entry handle.now set.now wcc.now }
{
    is_set(trace, entry, handle, set.size)
        && only(trace, entry, handle, handle, handle)
        && shows_wcc(trace, entry, handle, wcc)
}

/// Whether as many bytes came as are counted, and none only if none was asked for or at the end.
#[tactic(auto, unfolding(crate::specs::FileTests::is_counted))]
fn is_counted(count: u32, counted: u32, eof: bool, bytes: &[u8]) -> bool
    ensures { result ≡ is_counted count counted eof bytes.now }
{
    bytes.len() as u64 == counted as u64 && counted <= count && (counted != 0 || count == 0 || eof)
}

/// Whether bytes are read.
#[tactic(auto, unfolding(crate::specs::FileTests::reads_bytes))]
fn reads_bytes(
    trace: &Trace,
    entry: usize,
    handle: &Handle,
    offset: u64,
    count: u32,
    attr: &Option<Attr>,
    counted: u32,
    eof: bool,
    bytes: &[u8],
) -> bool
    ensures { result ≡ reads_bytes trace.now entry handle.now offset count attr.now counted eof bytes.now }
{
    gives(trace, entry, handle, offset, counted, eof, bytes)
        && only(trace, entry, handle, handle, handle)
        && shows_attr(trace, entry, handle, attr)
        && is_counted(count, counted, eof, bytes)
}

/// Whether a WRITE took some of its bytes, and made them as stable as was asked.
#[tactic(auto, unfolding(crate::specs::FileTests::is_firm))]
fn is_firm(how: u32, bytes: &[u8], counted: u32, committed: u32) -> bool
    ensures { result ≡ is_firm how bytes.now counted committed }
{
    counted as u64 <= bytes.len() as u64
        && (bytes.len() <= 0 || 1 <= counted)
        && how <= committed
        && committed <= 2
}

/// Whether bytes are written.
#[tactic(auto, unfolding(crate::specs::FileTests::writes))]
fn writes(
    trace: &Trace,
    entry: usize,
    handle: &Handle,
    offset: u64,
    how: u32,
    bytes: &[u8],
    wcc: &Wcc,
    counted: u32,
    committed: u32,
    verf: &Verf,
) -> bool
    ensures { result ≡ writes trace.now entry handle.now offset how bytes.now wcc.now counted committed verf.now }
{
    is_firm(how, bytes, counted, committed)
        && takes(
            trace,
            entry,
            handle,
            committed,
            offset,
            up_to(bytes, counted as u64),
        )
        && only(trace, entry, handle, handle, handle)
        && shows_wcc(trace, entry, handle, wcc)
        && is_verf_of(trace, entry, verf)
}

/// Whether a WRITE is refused while a prefix of its bytes is put into the file.
#[tactic(auto, unfolding(crate::specs::FileTests::breaks_off))]
fn breaks_off(
    trace: &Trace,
    entry: usize,
    handle: &Handle,
    offset: u64,
    bytes: &[u8],
    status: &Status,
    wcc: &Wcc,
) -> bool
    ensures { result ≡ breaks_off trace.now entry handle.now offset bytes.now status.now wcc.now }
{
    status.0 != 0
        && begins(trace, entry, handle, offset, bytes)
        && only(trace, entry, handle, handle, handle)
        && shows_wcc(trace, entry, handle, wcc)
}

/// Whether a range becomes stable.
#[tactic(auto, unfolding(crate::specs::FileTests::commits))]
fn is_commit(
    trace: &Trace,
    entry: usize,
    handle: &Handle,
    offset: u64,
    count: u32,
    wcc: &Wcc,
    verf: &Verf,
) -> bool
    ensures { result ≡ commits trace.now entry handle.now offset count wcc.now verf.now }
{
    commits(trace, entry, handle, offset, count)
        && only(trace, entry, handle, handle, handle)
        && shows_wcc(trace, entry, handle, wcc)
        && is_verf_of(trace, entry, verf)
}

// ---- each call and its replies

fn serves_null(trace: &Trace, entry: usize, reply: &FileKept) -> bool
    ensures { result ≡ serves_null trace.now entry reply.now }
{
    match reply {
        FileKept::Null => is_same(trace, entry),
        _ => false,
    }
}

fn serves_getattr(trace: &Trace, entry: usize, file: &Handle, reply: &FileKept) -> bool
    ensures { result ≡ serves_getattr trace.now entry file.now reply.now }
{
    match reply {
        FileKept::GetAttr { attr } => asks(trace, entry, file, &Some(*attr)),
        FileKept::GetAttrFail { status } => refuses(trace, entry, status),
        _ => false,
    }
}

fn serves_setattr(
    trace: &Trace,
    entry: usize,
    file: &Handle,
    set: &SetAttr,
    reply: &FileKept,
) -> bool
    ensures { result ≡ serves_setattr trace.now entry file.now set.now reply.now }
{
    match reply {
        FileKept::SetAttr { wcc } => sets(trace, entry, file, set, wcc),
        FileKept::SetAttrFail { status, wcc } => refuses_wcc(trace, entry, status, file, wcc),
        _ => false,
    }
}

fn serves_access(trace: &Trace, entry: usize, file: &Handle, reply: &FileKept) -> bool
    ensures { result ≡ serves_access trace.now entry file.now reply.now }
{
    match reply {
        FileKept::Access { attr, .. } => asks(trace, entry, file, attr),
        FileKept::AccessFail { status, attr } => refuses_with(trace, entry, status, file, attr),
        _ => false,
    }
}

fn serves_read(
    trace: &Trace,
    entry: usize,
    file: &Handle,
    offset: u64,
    count: u32,
    reply: &FileKept,
) -> bool
    ensures { result ≡ serves_read trace.now entry file.now offset count reply.now }
{
    match reply {
        FileKept::Read {
            attr,
            count: counted,
            eof,
            bytes,
        } => reads_bytes(
            trace,
            entry,
            file,
            offset,
            count,
            attr,
            *counted,
            *eof,
            bytes.bytes(),
        ),
        FileKept::ReadFail { status, attr } => refuses_with(trace, entry, status, file, attr),
        _ => false,
    }
}

fn serves_write(
    trace: &Trace,
    entry: usize,
    file: &Handle,
    offset: u64,
    how: u32,
    bytes: &[u8],
    reply: &FileKept,
) -> bool
    ensures { result ≡ serves_write trace.now entry file.now offset how bytes.now reply.now }
{
    match reply {
        FileKept::Write {
            wcc,
            count,
            committed,
            verf,
        } => writes(
            trace, entry, file, offset, how, bytes, wcc, *count, *committed, verf,
        ),
        FileKept::WriteFail { status, wcc } => {
            refuses_wcc(trace, entry, status, file, wcc)
                || breaks_off(trace, entry, file, offset, bytes, status, wcc)
        }
        _ => false,
    }
}

fn serves_fsstat(trace: &Trace, entry: usize, file: &Handle, reply: &FileKept) -> bool
    ensures { result ≡ serves_fsstat trace.now entry file.now reply.now }
{
    match reply {
        FileKept::FsStat { attr, .. } => asks(trace, entry, file, attr),
        FileKept::FsStatFail { status, attr } => refuses_with(trace, entry, status, file, attr),
        _ => false,
    }
}

fn serves_fsinfo(trace: &Trace, entry: usize, file: &Handle, reply: &FileKept) -> bool
    ensures { result ≡ serves_fsinfo trace.now entry file.now reply.now }
{
    match reply {
        FileKept::FsInfo { attr, .. } => asks(trace, entry, file, attr),
        FileKept::FsInfoFail { status, attr } => refuses_with(trace, entry, status, file, attr),
        _ => false,
    }
}

fn serves_pathconf(trace: &Trace, entry: usize, file: &Handle, reply: &FileKept) -> bool
    ensures { result ≡ serves_pathconf trace.now entry file.now reply.now }
{
    match reply {
        FileKept::PathConf { attr, .. } => asks(trace, entry, file, attr),
        FileKept::PathConfFail { status, attr } => refuses_with(trace, entry, status, file, attr),
        _ => false,
    }
}

fn serves_commit(
    trace: &Trace,
    entry: usize,
    file: &Handle,
    offset: u64,
    count: u32,
    reply: &FileKept,
) -> bool
    ensures { result ≡ serves_commit trace.now entry file.now offset count reply.now }
{
    match reply {
        FileKept::Commit { wcc, verf } => is_commit(trace, entry, file, offset, count, wcc, verf),
        FileKept::CommitFail { status, wcc } => refuses_wcc(trace, entry, status, file, wcc),
        _ => false,
    }
}

/// Whether the entry serves the call on a file with this reply.
pub(crate) fn serves_file(trace: &Trace, entry: usize, call: &FileCall, reply: &FileKept) -> bool
    ensures { result ≡ serves_file trace.now entry call.now reply.now }
{
    match call {
        FileCall::Null => serves_null(trace, entry, reply),
        FileCall::GetAttr { file } => serves_getattr(trace, entry, file, reply),
        FileCall::SetAttr { file, set, .. } => serves_setattr(trace, entry, file, set, reply),
        FileCall::Access { file, .. } => serves_access(trace, entry, file, reply),
        FileCall::Read {
            file,
            offset,
            count,
        } => serves_read(trace, entry, file, *offset, *count, reply),
        FileCall::Write {
            file,
            offset,
            how,
            bytes,
        } => serves_write(trace, entry, file, *offset, *how, bytes.bytes(), reply),
        FileCall::FsStat { file } => serves_fsstat(trace, entry, file, reply),
        FileCall::FsInfo { file } => serves_fsinfo(trace, entry, file, reply),
        FileCall::PathConf { file } => serves_pathconf(trace, entry, file, reply),
        FileCall::Commit {
            file,
            offset,
            count,
        } => serves_commit(trace, entry, file, *offset, *count, reply),
    }
}
