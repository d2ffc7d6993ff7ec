//! What the reply to a READ says.

ghost use Rattle.std.specs.Prelude.{◌≡◌, None};
ghost use Rattle.client_shelf.specs.Coming.{reply_of};
ghost use Rattle.file_ops.specs.ReadReply.{said_of, said_to, said_by, refusal};
ghost use Rattle.nfs_file_calls.specs.Replies.{kept_of};
ghost use Rattle.nfs_file_calls.specs.declared.owned.FileKept.TheVariants as files;
ghost use Rattle.world_model.specs.declared.answer.Fault.TheVariants as faults;
ghost use Rattle.world_model.specs.declared.message.Reply.TheVariants as replies;

use client_shelf::Came;
use nfs_file_calls::FileReply;
use nfs_types::Attr;
use world_model::Fault;
use xdr_codec::Lent;

/// What the reply to a READ says.
#[derive(Debug, Drop)]
pub enum ReadSaid<'a> {
    /// The bytes from where they were asked for on, and whether the file ends after them.
    Part {
        /// The file's attributes after the READ.
        attr: Option<Attr>,
        /// Whether the file ends after them.
        eof: bool,
        /// The bytes.
        bytes: Lent<'a>,
    },
    /// There are none.
    Refusal {
        /// The file's attributes after the READ.
        attr: Option<Attr>,
        /// Why.
        fault: Fault,
    },
}

/// What came of a READ that asked for so many bytes. A reply with more data than that, with data unlike their count, or
/// with none though the file doesn't end, is a fault.
pub(crate) fn read_reply<'a>(came: &Came<'a>, asked: u32) -> ReadSaid<'a>
    ensures { said_of result ≡ said_to asked (reply_of came.now) }
{
    match came {
        Came::File(reply) => file_reply(reply, asked),
        Came::Dir(_) => bad(2),
        Came::Refused(fault) => ReadSaid::Refusal {
            attr: None,
            fault: *fault,
        },
    }
}

/// The same of a reply to a call on a file.
fn file_reply<'a>(reply: &FileReply<'a>, asked: u32) -> ReadSaid<'a>
    ensures { said_of result ≡ said_by asked (replies.File (kept_of reply.now)) }
{
    match *reply {
        FileReply::Read {
            attr,
            count,
            eof,
            ref bytes,
        } => part(attr, count, eof, bytes, asked),
        FileReply::ReadFail { status, attr } => ReadSaid::Refusal {
            attr,
            fault: Fault::Nfs(status.0),
        },
        _ => bad(2),
    }
}

/// The same of data.
fn part<'a>(attr: Option<Attr>, count: u32, eof: bool, bytes: &Lent<'a>, asked: u32) -> ReadSaid<'a>
    ensures { said_of result ≡ said_by asked (replies.File (files.Read attr count eof bytes.now)) }
{
    let len = bytes.bytes().len();
    if len > asked as usize || len != count as usize || (len == 0 && !eof) {
        return ReadSaid::Refusal {
            attr,
            fault: Fault::Bad(5),
        };
    }
    ReadSaid::Part {
        attr,
        eof,
        bytes: bytes.again(),
    }
}

/// A reply that breaks a rule says nothing.
fn bad<'a>(rule: u32) -> ReadSaid<'a>
    ensures { said_of result ≡ refusal None (faults.Bad rule) }
{
    ReadSaid::Refusal {
        attr: None,
        fault: Fault::Bad(rule),
    }
}
