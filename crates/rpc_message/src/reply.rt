//! Replies, refusals and denials.

ghost use Rattle.std.specs.Prelude.{◌≡◌, ◌≢◌, ◌≤◌, ◌++◌, OnOk, OnErr, List, ℕ};
ghost use Rattle.xdr_codec.specs.Spelling.{BeginsWith};
ghost use Rattle.xdr_codec.specs.Whole.{Gives};
ghost use Rattle.rpc_message.specs.Reply.{reply_at, answer_at, accepted_at, accepted_as, denied_at, denied_as, range_at, one_word_at, reply_of, GivesReply, FindsReply, verified_bytes, accepted_bytes, range_bytes, refused_bytes, denied_opening_bytes, second_bytes, denied_bytes, Refused, Denied, SpellsReply, SpellsAccepted};

use crate::cred::write_none;
use crate::front::{after_auth, word};
use xdr_codec::{Memory, Reader, Writer, XdrFault};

/// The message type of a reply (RFC 5531, section 9, msg_type).
const REPLY: u32 = 1;

/// The reply status of a call that was accepted (RFC 5531, section 9, reply_stat).
const MSG_ACCEPTED: u32 = 0;

/// The reply status of a call that was denied.
const MSG_DENIED: u32 = 1;

/// The accept status of a call that was executed (RFC 5531, section 9, accept_stat).
const SUCCESS: u32 = 0;

/// The program isn't served.
const PROG_UNAVAIL: u32 = 1;

/// The program isn't served in that version.
const PROG_MISMATCH: u32 = 2;

/// The program has no such procedure.
const PROC_UNAVAIL: u32 = 3;

/// The server failed, as by lack of memory. Between this and PROC_UNAVAIL lies GARBAGE_ARGS, for arguments that can't
/// be read.
const SYSTEM_ERR: u32 = 5;

/// The reject status of a call in another version of RPC (RFC 5531, section 9, reject_stat).
const RPC_MISMATCH: u32 = 0;

/// The reject status of a call whose credential or verifier is refused.
const AUTH_ERROR: u32 = 1;

/// A reply (RFC 5531, section 9, reply_body). Its verifier is read and not used.
#[derive(Clone, Copy, Debug, PartialEq, Eq)]
pub enum Reply<'a> {
    /// The call was executed.
    Accepted {
        /// The number of the call.
        xid: u32,
        /// The results, which are the rest of the record.
        results: &'a [u8],
    },
    /// The call was accepted, and not executed.
    Refused {
        /// The number of the call.
        xid: u32,
        /// Why: 1 PROG_UNAVAIL, 2 PROG_MISMATCH, 3 PROC_UNAVAIL, 4 GARBAGE_ARGS or 5 SYSTEM_ERR.
        stat: u32,
        /// At PROG_MISMATCH the lowest version of the program that is served, else 0.
        low: u32,
        /// At PROG_MISMATCH the highest version of the program that is served, else 0.
        high: u32,
    },
    /// The call was denied.
    Denied {
        /// The number of the call.
        xid: u32,
        /// Why: 0 RPC_MISMATCH or 1 AUTH_ERROR.
        stat: u32,
        /// At RPC_MISMATCH the lowest RPC version that is served, at AUTH_ERROR the auth status.
        first: u32,
        /// At RPC_MISMATCH the highest RPC version that is served, at AUTH_ERROR 0.
        second: u32,
    },
}

/// Why bytes are no reply.
#[derive(Clone, Copy, Debug, PartialEq, Eq)]
pub enum ReplyFault {
    /// The second word is there and isn't 1, the message type of a reply.
    NotReply,
    /// The second word is missing, or is 1 and no reply is spelled.
    Xdr(XdrFault),
}

impl From<XdrFault> for ReplyFault {
    ghost use Rattle.std.specs.Prelude.{◌≡◌, ◌≢◌, ◌≤◌, ◌++◌, OnOk, OnErr, List, ℕ};
    ghost use Rattle.xdr_codec.specs.Spelling.{BeginsWith};
    ghost use Rattle.rpc_message.specs.declared.reply.ReplyFault.TheVariants.{Xdr};

    ghost from_gives = { λ f e. e ≡ Xdr f };

    fn from(fault: XdrFault) -> ReplyFault {
        ReplyFault::Xdr(fault)
    }
}

/// A reply, whose results are the rest of the record (RFC 5531, section 9). NotReply comes exactly if the second word
/// is there and isn't 1. Xdr comes exactly if the second word is missing, or is 1 and no reply is spelled:
/// - BadValue at a reply status above 1, a reject status above 1 or an accept status above 5;
/// - Trailing if bytes follow a refusal or denial.
pub fn read_reply<'a>(rec: &'a [u8]) -> Result<Reply<'a>, ReplyFault>
    ensures exact { GivesReply reply_of result (reply_at rec.entry.now) }
    ensures spelled { FindsReply reply_of result rec.entry.now }
{
    Reader::new(rec).holds_bytes();
    reply_in(rec)
}

#[tactic(auto, unfolding(crate::specs::Reply::reply_at))]
fn reply_in<'a>(rec: &'a [u8]) -> Result<Reply<'a>, ReplyFault>
    ensures { GivesReply reply_of result (reply_at rec.entry.now) }
{
    let (xid, bytes) = word(rec)?;
    let (kind, bytes) = word(bytes)?;
    if kind != REPLY {
        return Err(ReplyFault::NotReply);
    }
    Ok(answer(xid, bytes)?)
}

#[tactic(auto, unfolding(crate::specs::Reply::answer_at))]
fn answer<'a>(xid: u32, bytes: &'a [u8]) -> Result<Reply<'a>, XdrFault>
    ensures { Gives reply_of result (answer_at xid bytes.entry.now) }
{
    let (status, bytes) = word(bytes)?;
    match status {
        MSG_ACCEPTED => accepted(xid, bytes),
        MSG_DENIED => denied(xid, bytes),
        _ => Err(XdrFault::BadValue),
    }
}

#[tactic(auto, unfolding(crate::specs::Reply::accepted_at))]
fn accepted<'a>(xid: u32, bytes: &'a [u8]) -> Result<Reply<'a>, XdrFault>
    ensures { Gives reply_of result (accepted_at xid bytes.entry.now) }
{
    let bytes = after_auth(bytes)?;
    let (stat, bytes) = word(bytes)?;
    accepted_as(xid, stat, bytes)
}

fn accepted_as<'a>(xid: u32, stat: u32, bytes: &'a [u8]) -> Result<Reply<'a>, XdrFault>
    ensures { Gives reply_of result (accepted_as xid stat bytes.entry.now) }
{
    match stat {
        SUCCESS => Ok(Reply::Accepted {
            xid,
            results: bytes,
        }),
        PROG_MISMATCH => {
            let (low, high) = range(bytes)?;
            Ok(Reply::Refused {
                xid,
                stat,
                low,
                high,
            })
        }
        PROG_UNAVAIL | PROC_UNAVAIL..=SYSTEM_ERR => {
            Reader::new(bytes).end()?;
            Ok(Reply::Refused {
                xid,
                stat,
                low: 0,
                high: 0,
            })
        }
        _ => Err(XdrFault::BadValue),
    }
}

#[tactic(auto, unfolding(crate::specs::Reply::denied_at))]
fn denied<'a>(xid: u32, bytes: &'a [u8]) -> Result<Reply<'a>, XdrFault>
    ensures { Gives reply_of result (denied_at xid bytes.entry.now) }
{
    let (stat, bytes) = word(bytes)?;
    denied_as(xid, stat, bytes)
}

fn denied_as<'a>(xid: u32, stat: u32, bytes: &'a [u8]) -> Result<Reply<'a>, XdrFault>
    ensures { Gives reply_of result (denied_as xid stat bytes.entry.now) }
{
    match stat {
        RPC_MISMATCH => {
            let (first, second) = range(bytes)?;
            Ok(Reply::Denied {
                xid,
                stat,
                first,
                second,
            })
        }
        AUTH_ERROR => {
            let first = last_word(bytes)?;
            Ok(Reply::Denied {
                xid,
                stat,
                first,
                second: 0,
            })
        }
        _ => Err(XdrFault::BadValue),
    }
}

/// The lowest and the highest version, and nothing after them.
#[tactic(auto, unfolding(crate::specs::Reply::range_at))]
fn range(bytes: &[u8]) -> Result<(u32, u32), XdrFault>
    ensures { Gives (λ x. x) result (range_at bytes.now) }
{
    let mut at = Reader::new(bytes);
    let low = at.u32()?;
    let high = at.u32()?;
    at.end()?;
    Ok((low, high))
}

/// A word, and nothing after it.
#[tactic(auto, unfolding(crate::specs::Reply::one_word_at))]
fn last_word(bytes: &[u8]) -> Result<u32, XdrFault>
    ensures { Gives (λ x. x) result (one_word_at bytes.now) }
{
    let mut at = Reader::new(bytes);
    let word = at.u32()?;
    at.end()?;
    Ok(word)
}

/// Writes the reply to a call that was executed, up to its results; the verifier is AUTH_NONE. When out of memory
/// the writer begins with what it held.
#[tactic(auto, using(xdr_codec::proofs::Begins::begins_then, std::proofs::Common::append_assoc), unfolding(crate::specs::Reply::accepted_bytes))]
pub fn write_accepted(w: &mut Writer, xid: u32) -> Result<(), Memory>
    ensures ok { OnOk result (w.new ≡ w.old ++ accepted_bytes xid) }
    ensures err { OnErr result (BeginsWith w.old w.new) }
    ensures spelled { OnOk result ((results : List ℕ) → SpellsAccepted xid results (accepted_bytes xid ++ results)) }
{
    write_verified(w, xid)?;
    w.u32(SUCCESS)?;
    Ok(())
}

/// Writes the reply to a call that was accepted and not executed: stat is 1 to 5, and low and high are 0 unless it
/// is 2, PROG_MISMATCH. When out of memory the writer begins with what it held.
#[tactic(auto, using(xdr_codec::proofs::Begins::begins_a, xdr_codec::proofs::Begins::after_b, xdr_codec::proofs::Begins::grown_c), unfolding(crate::specs::Reply::refused_bytes))]
pub fn write_refused(w: &mut Writer, xid: u32, stat: u32, low: u32, high: u32) -> Result<(), Memory>
    requires refused { 1 ≤ stat }
    requires known { stat ≤ 5 }
    requires plain { stat ≢ 2 → (low ≡ 0) × (high ≡ 0) }
    ensures ok { OnOk result (w.new ≡ w.old ++ refused_bytes xid stat low high) }
    ensures err { OnErr result (BeginsWith w.old w.new) }
    ensures spelled { OnOk result (SpellsReply (Refused xid stat low high) (refused_bytes xid stat low high)) }
{
    write_verified(w, xid)?;
    w.u32(stat)?;
    write_range(w, stat, low, high)?;
    Ok(())
}

/// Writes the reply to a call that was denied: stat is 0, RPC_MISMATCH, or 1, AUTH_ERROR, and at 1 second is 0. When
/// out of memory the writer begins with what it held.
#[tactic(auto, using(xdr_codec::proofs::Begins::begins_a, xdr_codec::proofs::Begins::begins_b, xdr_codec::proofs::Begins::after_c, xdr_codec::proofs::Begins::grown_d), unfolding(crate::specs::Reply::denied_bytes))]
pub fn write_denied(
    w: &mut Writer,
    xid: u32,
    stat: u32,
    first: u32,
    second: u32,
) -> Result<(), Memory>
    requires known { stat ≤ 1 }
    requires plain { stat ≡ 1 → second ≡ 0 }
    ensures ok { OnOk result (w.new ≡ w.old ++ denied_bytes xid stat first second) }
    ensures err { OnErr result (BeginsWith w.old w.new) }
    ensures spelled { OnOk result (SpellsReply (Denied xid stat first second) (denied_bytes xid stat first second)) }
{
    write_denied_opening(w, xid)?;
    w.u32(stat)?;
    w.u32(first)?;
    write_second(w, stat, second)?;
    Ok(())
}

#[tactic(auto, using(xdr_codec::proofs::Begins::begins_a, xdr_codec::proofs::Begins::begins_b, xdr_codec::proofs::Begins::after_c, xdr_codec::proofs::Begins::grown_d), unfolding(crate::specs::Reply::verified_bytes))]
fn write_verified(w: &mut Writer, xid: u32) -> Result<(), Memory>
    ensures ok { OnOk result (w.new ≡ w.old ++ verified_bytes xid) }
    ensures err { OnErr result (BeginsWith w.old w.new) }
{
    w.u32(xid)?;
    w.u32(REPLY)?;
    w.u32(MSG_ACCEPTED)?;
    write_none(w)?;
    Ok(())
}

#[tactic(auto, using(xdr_codec::proofs::Begins::begins_a, xdr_codec::proofs::Begins::begins_b, xdr_codec::proofs::Begins::grown_c), unfolding(crate::specs::Reply::denied_opening_bytes))]
fn write_denied_opening(w: &mut Writer, xid: u32) -> Result<(), Memory>
    ensures ok { OnOk result (w.new ≡ w.old ++ denied_opening_bytes xid) }
    ensures err { OnErr result (BeginsWith w.old w.new) }
{
    w.u32(xid)?;
    w.u32(REPLY)?;
    w.u32(MSG_DENIED)?;
    Ok(())
}

#[tactic(auto, using(xdr_codec::proofs::Begins::begins_then, std::proofs::Common::append_assoc))]
fn write_range(w: &mut Writer, stat: u32, low: u32, high: u32) -> Result<(), Memory>
    ensures ok { OnOk result (w.new ≡ w.old ++ range_bytes stat low high) }
    ensures err { OnErr result (BeginsWith w.old w.new) }
{
    if stat != PROG_MISMATCH {
        return Ok(());
    }
    w.u32(low)?;
    w.u32(high)?;
    Ok(())
}

#[tactic(auto, using(xdr_codec::proofs::Begins::begins_then, std::proofs::Common::append_assoc))]
fn write_second(w: &mut Writer, stat: u32, second: u32) -> Result<(), Memory>
    ensures ok { OnOk result (w.new ≡ w.old ++ second_bytes stat second) }
    ensures err { OnErr result (BeginsWith w.old w.new) }
{
    if stat != RPC_MISMATCH {
        return Ok(());
    }
    w.u32(second)
}
