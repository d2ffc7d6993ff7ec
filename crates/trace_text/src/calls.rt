//! Calls and replies, each as a whole record.

ghost use Rattle.script_text.specs.Lines.{words};
ghost use Rattle.export_serve.specs.Asking.{asked_at};
ghost use Rattle.trace_calls.specs.ReplyReading.{reply_by};
ghost use Rattle.trace_text.specs.EntryLines.{answered_call_of, replied, replied_by};
ghost use Rattle.trace_text.specs.Words.{Gives};

use crate::fault::LineFault;
use crate::words::{bytes, two};
use export_serve::{Asked, asked};
use std::alloc::Global;
use trace_calls::reply_to;
use world_model::{Call, Reply};

/// A call and its reply, and the xid of both.
#[tactic(auto, unfolding(crate::specs::EntryLines::answered_call_of))]
pub(crate) fn answered_call(alloc: Global, line: &[u8]) -> Result<(u32, Call, Reply), LineFault>
    ensures { Gives (λ c. c) result (answered_call_of (words line.now)) }
{
    let (call_word, reply_word) = two(line)?;
    let call = bytes(alloc, call_word)?;
    let reply = bytes(alloc, reply_word)?;
    let asked = asked(alloc, call.as_slice())?;
    replied(alloc, asked, reply.as_slice())
}

/// What was asked for, and the reply to it.
fn replied(alloc: Global, asked: Asked, reply: &[u8]) -> Result<(u32, Call, Reply), LineFault>
    ensures { Gives (λ c. c) result (replied reply.now asked) }
{
    match asked {
        Asked::Serve { xid, call } => replied_by(alloc, xid, call, reply),
        _ => Err(LineFault::Form),
    }
}

fn replied_by(
    alloc: Global,
    xid: u32,
    call: Call,
    reply: &[u8],
) -> Result<(u32, Call, Reply), LineFault>
    ensures { Gives (λ c. c) result (replied_by xid call (reply_by xid call reply.now)) }
{
    match reply_to(alloc, xid, &call, reply)? {
        Some(reply) => Ok((xid, call, reply)),
        None => Err(LineFault::Form),
    }
}
