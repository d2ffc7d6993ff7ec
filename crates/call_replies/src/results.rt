//! What the results of a procedure say.

ghost use Rattle.std.specs.Prelude.{◌≡◌, ◌+◌, ◌-◌, ◌≤◌, length, Ok};
ghost use Rattle.client_shelf.specs.Coming.{reply_of};
ghost use Rattle.nfs_dir_calls.specs.Calls.{IsDirProc};
ghost use Rattle.nfs_dir_calls.specs.Replies.{dir_reply_at};
ghost use Rattle.xdr_codec.specs.Blobs.{part_of};
ghost use Rattle.xdr_codec.specs.Reading.{padding};
ghost use Rattle.nfs_file_calls.specs.Calls.{IsFileProc};
ghost use Rattle.nfs_file_calls.specs.Replies.{file_reply_at, kept_of};
ghost use Rattle.world_model.specs.declared.message.Reply.TheVariants.{File};
ghost use Rattle.call_replies.specs.Data.{DataLast, EndsIn};
ghost use Rattle.call_replies.specs.Results.{dir_said, file_said, said_in, DirSays, FileSays, Tells};

use client_shelf::Came;
use nfs_dir_calls::{is_dir_proc, read_dir_reply};
use nfs_file_calls::{FileReply, is_file_proc, read_file_reply};
use world_model::Fault;
use xdr_codec::Lent;

/// What the results of a procedure of NFS say, which stand last in the record. Those of a number that no procedure has say nothing.
pub(crate) fn came_in<'a>(proc: u32, rec: &Lent<'a>, results: &'a [u8]) -> Came<'a>
    requires { EndsIn results.now rec.now }
    ensures exact { reply_of result ≡ said_in proc results.entry.now }
    ensures tells { Tells proc results.entry.now (reply_of result) }
{
    if is_dir_proc(proc) {
        return dir_came(proc, results);
    }
    if is_file_proc(proc) {
        return file_came_in(proc, rec, results);
    }
    Came::Refused(Fault::Bad(2))
}

/// The reply to a call on a directory.
fn dir_came<'a>(proc: u32, results: &'a [u8]) -> Came<'a>
    requires { IsDirProc proc }
    ensures exact { reply_of result ≡ dir_said (dir_reply_at proc results.entry.now) }
    ensures says { DirSays proc results.entry.now (reply_of result) }
{
    match read_dir_reply(proc, results) {
        Ok(reply) => Came::Dir(reply),
        Err(_) => Came::Refused(Fault::Bad(2)),
    }
}

/// The reply to a call on a file.
fn file_came<'a>(proc: u32, results: &'a [u8]) -> Came<'a>
    requires { IsFileProc proc }
    ensures exact { reply_of result ≡ file_said (file_reply_at proc results.entry.now) }
    ensures says { FileSays proc results.entry.now (reply_of result) }
{
    match read_file_reply(proc, results) {
        Ok(reply) => Came::File(reply),
        Err(_) => Came::Refused(Fault::Bad(2)),
    }
}

/// The same with its data where they stand in the record.
fn file_came_in<'a>(proc: u32, rec: &Lent<'a>, results: &'a [u8]) -> Came<'a>
    requires file { IsFileProc proc }
    requires last { EndsIn results.now rec.now }
    ensures exact { reply_of result ≡ file_said (file_reply_at proc results.entry.now) }
    ensures says { FileSays proc results.entry.now (reply_of result) }
{
    lying_in(rec, file_came(proc, results))
}

/// What came, with its data where they stand in the record.
fn lying_in<'a>(rec: &Lent<'a>, came: Came<'a>) -> Came<'a>
    requires { DataLast (reply_of came) rec.now }
    ensures { reply_of result ≡ reply_of came.entry }
{
    match came {
        Came::File(reply) => Came::File(reply_in(rec, reply)),
        Came::Dir(reply) => Came::Dir(reply),
        Came::Refused(fault) => Came::Refused(fault),
    }
}

/// The same of a reply to a call on a file.
fn reply_in<'a>(rec: &Lent<'a>, reply: FileReply<'a>) -> FileReply<'a>
    requires { DataLast (Ok (File (kept_of reply))) rec.now }
    ensures { kept_of result ≡ kept_of reply.entry }
{
    let FileReply::Read {
        attr,
        count,
        eof,
        ref bytes,
    } = reply
    else {
        return reply;
    };
    FileReply::Read {
        attr,
        count,
        eof,
        bytes: data_in(rec, bytes.bytes().len()),
    }
}

/// So many bytes that stand last in the record but for their padding.
fn data_in<'a>(rec: &Lent<'a>, len: usize) -> Lent<'a>
    requires { padding len + len ≤ length rec.now }
    ensures { result ≡ part_of (length rec.now - padding len - len) len rec.now }
{
    let pad = (4 - len % 4) % 4;
    rec.part(rec.bytes().len() - pad - len, len)
}
