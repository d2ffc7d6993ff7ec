//! The replies that are kept, so that a call that comes again isn't executed again.

ghost use Rattle.std.specs.Prelude.{◌≡◌, ◌≤◌, [], length, MatchOption, IfSome, Some, None, OnOk, OnErr};
ghost use Rattle.export_serve.specs.Kept.{reply_kept, keeps, IsKept, IsExecuted};

use std::alloc::Global;
use std::collections::VecDeque;
use std::marker::Model;
use xdr_codec::{Blob, Memory};

/// How many replies are kept.
const MOST: usize = 64;

/// The record of a call that was executed, and the one of the reply to it.
#[derive(Drop)]
pub(crate) struct KeptReply {
    /// The xid of both.
    pub xid: u32,
    /// The record of the call.
    pub call: Blob,
    /// The record of the reply.
    pub reply: Blob,
}

/// The last 64 replies, at most one under each xid; the newest stands last.
#[derive(Drop)]
pub(crate) struct KeptReplies {
    replies: VecDeque<KeptReply>,
}

impl Model for KeptReplies {
    ghost use Rattle.std.specs.Prelude.{List, length, ◌≤◌, All};
    ghost use Rattle.export_serve.specs.declared.kept_replies.KeptReply.{KeptReply};
    ghost use Rattle.export_serve.specs.Kept.{IsKept};

    ghost Value = { List KeptReply };

    ghost view = { λ k. k.replies.items };

    ghost invariant = { λ k. (length k.replies.items ≤ 64) × All IsKept k.replies.items };
}

impl KeptReplies {
    /// None yet.
    pub fn new(alloc: Global) -> KeptReplies
        ensures { result ≡ [] }
    {
        KeptReplies {
            replies: VecDeque::new(alloc),
        }
    }

    /// The reply to an equal record; None exactly if none is kept.
    pub fn reply_to(&self, rec: &[u8]) -> Option<&Blob>
        ensures found { MatchOption result (reply_kept rec.now self.now ≡ None) (λ reply. reply_kept rec.now self.now ≡ Some reply.now) }
        ensures call { IfSome result (λ reply. IsExecuted rec.now) }
    {
        reply_among(&self.replies, rec)
    }

    /// Keeps one more in place of an older one under its xid; of more than 64 the oldest goes. When out of memory
    /// nothing is changed.
    pub fn keep(&mut self, new: KeptReply) -> Result<(), Memory>
        requires { IsKept new }
        ensures ok { OnOk result (self.new ≡ keeps new self.old) }
        ensures err { OnErr result (self.new ≡ self.old) }
    {
        keep_last(&mut self.replies, new)
    }
}

/// The reply to an equal record among these.
fn reply_among<'a>(replies: &'a VecDeque<KeptReply>, rec: &[u8]) -> Option<&'a Blob>
    ensures { MatchOption result (reply_kept rec.now replies.entry.now.items ≡ None) (λ reply. reply_kept rec.now replies.entry.now.items ≡ Some reply.now) }
{
    for kept in replies.iter() {
        if kept.call.bytes() == rec {
            return Some(&kept.reply);
        }
    }
    None
}

/// Puts a reply last in place of an older one under its xid; of more than 64 the oldest goes.
fn keep_last(replies: &mut VecDeque<KeptReply>, new: KeptReply) -> Result<(), Memory>
    requires { length replies.old.items ≤ 64 }
    ensures ok { OnOk result (replies.new.items ≡ keeps new replies.old.items) }
    ensures err { OnErr result (replies.new.items ≡ replies.old.items) }
{
    replies.reserve(1)?;
    let xid = new.xid;
    replies.retain(|kept| kept.xid != xid);
    replies.push_back_reserved(new);
    if replies.len() > MOST {
        let _ = replies.pop_front();
    }
    Ok(())
}
