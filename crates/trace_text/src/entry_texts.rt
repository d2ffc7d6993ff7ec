//! Writes entries.

ghost use Rattle.std.specs.Prelude.{◌≡◌, ◌++◌, ◌∷◌, [], codes, decimal, OnOk};
ghost use Rattle.export_fs.specs.Spelling.{HasSpellingCall, HasSpellingReply};
ghost use Rattle.export_serve.specs.Spelling.{reply_bytes};
ghost use Rattle.trace_calls.specs.Sending.{call_bytes};
ghost use Rattle.trace_text.specs.Pages.{put};
ghost use Rattle.trace_text.specs.Texts.{IsSpelled, call_words, entry_text, hex_word, line_of};
ghost use Rattle.world_model.specs.declared.entry.Entry.TheVariants as entries;

use crate::op_texts::write_op;
use crate::page::Page;
use export_serve::spelled;
use nfs_script::whole_line;
use nfs_types::Handle;
use std::alloc::Global;
use trace_calls::{call_record, is_spellable, is_spellable_reply};
use world_model::{Answer, Call, Entry, Op, Reply};
use xdr_codec::Memory;

/// Writes the line of an entry.
pub(crate) fn write_entry(page: &mut Page, alloc: Global, entry: &Entry) -> Result<(), Memory>
    ensures { IsSpelled entry.now → OnOk result (page.new ≡ put page.old (entry_text entry.now)) }
{
    match entry {
        Entry::Began { lane, line, op } => write_began(page, alloc, *lane, *line, op),
        Entry::Answered { lane, line, answer } => {
            write_answered(page, alloc, *lane, *line, answer)
        }
        Entry::Dialed { port } => page.number_line(b"dialed", u64::from(*port)),
        Entry::Sent { bytes } => page.bytes_line(alloc, b"sent", bytes.bytes()),
        Entry::Executed { xid, call, reply } => {
            write_calls(page, alloc, b"executed", *xid, call, reply)
        }
        Entry::Foreign { call, reply } => write_calls(page, alloc, b"foreign", 0, call, reply),
        Entry::Flushed { file, from, len } => write_flushed(page, alloc, file, *from, *len),
        Entry::Reboot { verf } => page.bytes_line(alloc, b"reboot", &verf.0),
        Entry::Delivered { bytes } => page.bytes_line(alloc, b"delivered", bytes.bytes()),
        Entry::Failed => page.text(b"failed\n"),
        Entry::Clock { ms } => page.number_line(b"clock", *ms),
    }
}

fn write_began(page: &mut Page, alloc: Global, lane: u8, line: u32, op: &Op) -> Result<(), Memory>
    ensures { OnOk result (page.new ≡ put page.old (entry_text (entries.Began lane line op.now))) }
{
    page.text(b"began")?;
    page.next_number(u64::from(lane))?;
    page.next_number(u64::from(line))?;
    write_op(page, alloc, op)?;
    page.text(b"\n")
}

fn write_answered(
    page: &mut Page,
    alloc: Global,
    lane: u8,
    line: u32,
    answer: &Answer,
) -> Result<(), Memory>
    ensures { OnOk result (page.new ≡ put page.old (entry_text (entries.Answered lane line answer.now))) }
{
    let text = whole_line(alloc, Vec::new(alloc), lane, line, answer)?;
    page.text(b"answered ")?;
    page.text(text.bytes())
}

fn write_flushed(
    page: &mut Page,
    alloc: Global,
    file: &Handle,
    from: u64,
    len: u64,
) -> Result<(), Memory>
    ensures { OnOk result (page.new ≡ put page.old (entry_text (entries.Flushed file.now from len))) }
{
    page.text(b"flushed")?;
    page.next_bytes(alloc, file.bytes())?;
    page.next_number(from)?;
    page.next_number(len)?;
    page.text(b"\n")
}

/// Writes a line of a word, a call and its reply as records under the xid.
fn write_calls(
    page: &mut Page,
    alloc: Global,
    word: &[u8],
    xid: u32,
    call: &Call,
    reply: &Reply,
) -> Result<(), Memory>
    ensures { HasSpellingCall call.now × HasSpellingReply reply.now
        → OnOk result (page.new ≡ put page.old (line_of word.now (call_words xid call.now reply.now))) }
{
    page.text(word)?;
    write_call(page, alloc, xid, call)?;
    write_reply(page, alloc, xid, reply)?;
    page.text(b"\n")
}

/// Writes a call after a space. One that bytes can't spell has no text.
fn write_call(page: &mut Page, alloc: Global, xid: u32, call: &Call) -> Result<(), Memory>
    ensures { HasSpellingCall call.now → OnOk result (page.new ≡ put page.old (codes " " ++ hex_word (call_bytes xid call.now))) }
{
    if is_spellable(call) {
        let record = call_record(alloc, xid, call)?;
        return page.next_bytes(alloc, record.bytes());
    }
    Ok(())
}

/// Writes a reply after a space. One that bytes can't spell has no text.
fn write_reply(page: &mut Page, alloc: Global, xid: u32, reply: &Reply) -> Result<(), Memory>
    ensures { HasSpellingReply reply.now → OnOk result (page.new ≡ put page.old (codes " " ++ hex_word (reply_bytes xid reply.now))) }
{
    if is_spellable_reply(reply) {
        let record = spelled(alloc, xid, reply)?;
        return page.next_bytes(alloc, record.bytes());
    }
    Ok(())
}
