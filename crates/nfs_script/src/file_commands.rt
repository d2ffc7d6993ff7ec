//! Commands on an open file.

ghost use Rattle.std.specs.Prelude.{◌≡◌};
ghost use Rattle.script_text.specs.Lines.{words};
ghost use Rattle.nfs_script.specs.Faults.{Gives};
ghost use Rattle.nfs_script.specs.Commands.{open_of, read_of, write_of, write_at, fill_of, sync_of, close_of, truncate_of};

use crate::fault::LineFault;
use crate::words::{
    bytes, fill_count, first_two, four, mode, named_path, offset, one, one_byte, read_count, slot,
    three, two,
};
use script_text::payload;
use std::alloc::Global;
use world_model::Op;
use xdr_codec::Blob;

/// `open SLOT MODE PATH`
#[tactic(auto, unfolding(crate::specs::Commands::open_of))]
pub(crate) fn open_file(alloc: Global, line: &[u8]) -> Result<Op, LineFault>
    ensures { Gives (λ op. op) result (open_of (words line.now)) }
{
    let (slot_word, mode_word, path_word) = three(line)?;
    let slot = slot(slot_word)?;
    let mode = mode(mode_word)?;
    let path = named_path(alloc, path_word)?;
    Ok(Op::OpenFile { slot, mode, path })
}

/// `read SLOT OFF COUNT`
#[tactic(auto, unfolding(crate::specs::Commands::read_of))]
pub(crate) fn read(line: &[u8]) -> Result<Op, LineFault>
    ensures { Gives (λ op. op) result (read_of (words line.now)) }
{
    let (slot_word, offset_word, count_word) = three(line)?;
    let slot = slot(slot_word)?;
    let offset = offset(offset_word)?;
    let count = read_count(count_word)?;
    Ok(Op::Read {
        slot,
        offset,
        count,
    })
}

/// `write SLOT OFF HEX`
pub(crate) fn write(alloc: Global, line: &[u8]) -> Result<Op, LineFault>
    ensures { Gives (λ op. op) result (write_of (words line.now)) }
{
    let Some((slot_word, offset_word, rest)) = first_two(line) else {
        return write_words(alloc, line);
    };
    // What is hex digits as a whole is one word: its end isn't looked for.
    match payload(alloc, rest)? {
        Some(bytes) => write_at(slot_word, offset_word, bytes),
        None => write_words(alloc, line),
    }
}

/// A write of these bytes.
fn write_at(slot_word: &[u8], offset_word: &[u8], bytes: Blob) -> Result<Op, LineFault>
    ensures { Gives (λ op. op) result (write_at slot_word.now offset_word.now bytes) }
{
    let slot = slot(slot_word)?;
    let offset = offset(offset_word)?;
    Ok(Op::Write {
        slot,
        offset,
        bytes,
    })
}

/// `write SLOT OFF HEX`, of any words.
#[tactic(auto, unfolding(crate::specs::Commands::write_of))]
fn write_words(alloc: Global, line: &[u8]) -> Result<Op, LineFault>
    ensures { Gives (λ op. op) result (write_of (words line.now)) }
{
    let (slot_word, offset_word, bytes_word) = three(line)?;
    let slot = slot(slot_word)?;
    let offset = offset(offset_word)?;
    let bytes = bytes(alloc, bytes_word)?;
    Ok(Op::Write {
        slot,
        offset,
        bytes,
    })
}

/// `fill SLOT OFF COUNT HH`
#[tactic(auto, unfolding(crate::specs::Commands::fill_of))]
pub(crate) fn fill(line: &[u8]) -> Result<Op, LineFault>
    ensures { Gives (λ op. op) result (fill_of (words line.now)) }
{
    let (slot_word, offset_word, count_word, byte_word) = four(line)?;
    let slot = slot(slot_word)?;
    let offset = offset(offset_word)?;
    let count = fill_count(count_word)?;
    let byte = one_byte(byte_word)?;
    Ok(Op::Fill {
        slot,
        offset,
        count,
        byte,
    })
}

/// `sync SLOT`
#[tactic(auto, unfolding(crate::specs::Commands::sync_of))]
pub(crate) fn sync(line: &[u8]) -> Result<Op, LineFault>
    ensures { Gives (λ op. op) result (sync_of (words line.now)) }
{
    let word = one(line)?;
    let slot = slot(word)?;
    Ok(Op::Sync { slot })
}

/// `close SLOT`
#[tactic(auto, unfolding(crate::specs::Commands::close_of))]
pub(crate) fn close(line: &[u8]) -> Result<Op, LineFault>
    ensures { Gives (λ op. op) result (close_of (words line.now)) }
{
    let word = one(line)?;
    let slot = slot(word)?;
    Ok(Op::Close { slot })
}

/// `truncate SLOT SIZE`
#[tactic(auto, unfolding(crate::specs::Commands::truncate_of))]
pub(crate) fn truncate(line: &[u8]) -> Result<Op, LineFault>
    ensures { Gives (λ op. op) result (truncate_of (words line.now)) }
{
    let (slot_word, size_word) = two(line)?;
    let slot = slot(slot_word)?;
    let size = offset(size_word)?;
    Ok(Op::Truncate { slot, size })
}
