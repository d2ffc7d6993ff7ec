//! Which file an open found, and which one a put wrote.

ghost use Rattle.std.specs.Prelude.{◌≡◌, ◌≤◌, IfOk, length};
ghost use Rattle.claims.specs.Modes.{Modes};
ghost use Rattle.trace_answers.specs.Calling.{LastCalled};
ghost use Rattle.trace_answers.specs.Filing.{FindsFile, NamesAFile};
ghost use Rattle.trace_answers.specs.Filing.{asked_of, create_in, create_of, file_in, given_by, lookup_in, lookup_of, named_in, named_of};

use crate::calls::{LastCall, came_bytes, last_call};
use nfs_dir_calls::{DirCall, DirKept};
use nfs_file_calls::FileCall;
use nfs_types::Handle;
use std::alloc::Global;
use trace_calls::reply_to;
use world_model::{Call, Entry, Reply};
use xdr_codec::Memory;

/// The file that an open has which succeeded at a place: the one whose attributes were asked for last; or, if an open may go
/// by attributes that are kept, the one that the last LOOKUP or CREATE gave. None exactly if it has none.
pub fn opened_file(
    alloc: Global,
    entries: &[Entry],
    nocto: bool,
    place: usize,
) -> Result<Option<Handle>, Memory>
    requires { place ≤ length entries.now }
    ensures { (m : Modes) → m.nocto ≡ nocto → IfOk result (FindsFile m entries.now place) }
{
    match last_call(alloc, entries, place)? {
        Some(last) => found_by(alloc, entries, nocto, place, &last),
        None => Ok(None),
    }
}

/// The file that an open has by its last call.
fn found_by(
    alloc: Global,
    entries: &[Entry],
    nocto: bool,
    place: usize,
    last: &LastCall,
) -> Result<Option<Handle>, Memory>
    requires { LastCalled entries.now place last.now }
    ensures { (m : Modes) → m.nocto ≡ nocto → IfOk result (FindsFile m entries.now place) }
{
    let reply = reply_to(alloc, last.xid, &last.call, came_bytes(entries, last.at))?;
    Ok(file_in(nocto, &last.call, &reply))
}

/// The file that a put wrote which succeeded at a place: the one that its last WRITE or COMMIT names. None exactly if the last
/// record that came isn't of such a call.
pub fn put_file(alloc: Global, entries: &[Entry], place: usize) -> Result<Option<Handle>, Memory>
    requires { place ≤ length entries.now }
    ensures { IfOk result (NamesAFile entries.now place) }
{
    match last_call(alloc, entries, place)? {
        Some(last) => Ok(named_in(&last.call)),
        None => Ok(None),
    }
}

/// The file that a call of WRITE or COMMIT names.
fn named_in(call: &Call) -> Option<Handle>
    ensures { result ≡ named_in call.now }
{
    match call {
        Call::File(call) => named_of(call),
        _ => None,
    }
}

fn named_of(call: &FileCall) -> Option<Handle>
    ensures { result ≡ named_of call.now }
{
    match call {
        FileCall::Write { file, .. } => Some(*file),
        FileCall::Commit { file, .. } => Some(*file),
        _ => None,
    }
}

/// The file that an open has after a call and its reply.
fn file_in(nocto: bool, call: &Call, reply: &Option<Reply>) -> Option<Handle>
    ensures { result ≡ file_in nocto call.now reply.now }
{
    match call {
        Call::File(call) => asked_of(call),
        Call::Dir(call) => { if nocto { given_by(call, reply) } else { None } }
        Call::Mount(_) => None,
    }
}

/// The file whose attributes a call asks for.
fn asked_of(call: &FileCall) -> Option<Handle>
    ensures { result ≡ asked_of call.now }
{
    match call {
        FileCall::GetAttr { file } => Some(*file),
        _ => None,
    }
}

/// The object that the reply to a LOOKUP or CREATE gives.
fn given_by(call: &DirCall, reply: &Option<Reply>) -> Option<Handle>
    ensures { result ≡ given_by call.now reply.now }
{
    match call {
        DirCall::Lookup { .. } => lookup_of(reply),
        DirCall::Create { .. } => create_of(reply),
        _ => None,
    }
}

fn lookup_of(reply: &Option<Reply>) -> Option<Handle>
    ensures { result ≡ lookup_of reply.now }
{
    match reply {
        Some(Reply::Dir(reply)) => lookup_in(reply),
        _ => None,
    }
}

fn lookup_in(reply: &DirKept) -> Option<Handle>
    ensures { result ≡ lookup_in reply.now }
{
    match reply {
        DirKept::Lookup { found, .. } => Some(*found),
        _ => None,
    }
}

fn create_of(reply: &Option<Reply>) -> Option<Handle>
    ensures { result ≡ create_of reply.now }
{
    match reply {
        Some(Reply::Dir(reply)) => create_in(reply),
        _ => None,
    }
}

fn create_in(reply: &DirKept) -> Option<Handle>
    ensures { result ≡ create_in reply.now }
{
    match reply {
        DirKept::Create { found, .. } => *found,
        _ => None,
    }
}
