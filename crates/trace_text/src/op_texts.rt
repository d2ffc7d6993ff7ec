//! Writes the commands of operations.

ghost use Rattle.std.specs.Prelude.{◌≡◌, ◌++◌, codes, decimal, OnOk};
ghost use Rattle.trace_text.specs.Pages.{put};
ghost use Rattle.trace_text.specs.Texts.{hex_word, mode_word, op_words, path_word, slashed, spread};
ghost use Rattle.world_model.specs.Transcript.{shown};
ghost use Rattle.world_model.specs.declared.op.Op.TheVariants as ops;

use crate::page::Page;
use nfs_types::{Mode, Name};
use std::alloc::Global;
use world_model::{Op, Path};
use xdr_codec::{Blob, Memory};

/// Writes the command of an operation after a space, and its words.
pub(crate) fn write_op(page: &mut Page, alloc: Global, op: &Op) -> Result<(), Memory>
    ensures { OnOk result (page.new ≡ put page.old (spread (op_words op.now))) }
{
    match op {
        Op::OpenFile { slot, mode, path } => write_open(page, alloc, *slot, *mode, path),
        Op::Read {
            slot,
            offset,
            count,
        } => write_read(page, *slot, *offset, *count),
        Op::Write {
            slot,
            offset,
            bytes,
        } => write_write(page, alloc, *slot, *offset, bytes),
        Op::Fill {
            slot,
            offset,
            count,
            byte,
        } => write_fill(page, alloc, *slot, *offset, *count, *byte),
        Op::Put {
            path,
            offset,
            bytes,
        } => write_put(page, alloc, path, *offset, bytes),
        Op::Sync { slot } => numbered(page, b" sync", u64::from(*slot)),
        Op::Close { slot } => numbered(page, b" close", u64::from(*slot)),
        Op::Truncate { slot, size } => write_truncate(page, *slot, *size),
        Op::Stat { path } => named(page, alloc, b" stat", path),
        Op::Access { path, bits } => write_access(page, alloc, path, *bits),
        Op::MakeDir { path } => named(page, alloc, b" mkdir", path),
        Op::RemoveDir { path } => named(page, alloc, b" rmdir", path),
        Op::Remove { path } => named(page, alloc, b" remove", path),
        Op::Rename { from, to } => between(page, alloc, b" rename", from, to),
        Op::Link { from, to } => between(page, alloc, b" link", from, to),
        Op::SymLink { path, target } => write_symlink(page, alloc, path, target),
        Op::ReadLink { path } => named(page, alloc, b" readlink", path),
        Op::List { path } => named(page, alloc, b" list", path),
    }
}

fn write_open(
    page: &mut Page,
    alloc: Global,
    slot: u8,
    mode: Mode,
    path: &Path,
) -> Result<(), Memory>
    ensures { OnOk result (page.new ≡ put page.old (spread (op_words (ops.OpenFile slot mode path.now)))) }
{
    page.text(b" open")?;
    page.next_number(u64::from(slot))?;
    page.text(b" ")?;
    page.text(mode_word(mode))?;
    write_path(page, alloc, path)
}

fn write_read(page: &mut Page, slot: u8, offset: u64, count: u32) -> Result<(), Memory>
    ensures { OnOk result (page.new ≡ put page.old (spread (op_words (ops.Read slot offset count)))) }
{
    page.text(b" read")?;
    page.next_number(u64::from(slot))?;
    page.next_number(offset)?;
    page.next_number(u64::from(count))
}

fn write_write(
    page: &mut Page,
    alloc: Global,
    slot: u8,
    offset: u64,
    bytes: &Blob,
) -> Result<(), Memory>
    ensures { OnOk result (page.new ≡ put page.old (spread (op_words (ops.Write slot offset bytes.now)))) }
{
    page.text(b" write")?;
    page.next_number(u64::from(slot))?;
    page.next_number(offset)?;
    page.next_bytes(alloc, bytes.bytes())
}

fn write_fill(
    page: &mut Page,
    alloc: Global,
    slot: u8,
    offset: u64,
    count: u32,
    byte: u8,
) -> Result<(), Memory>
    ensures { OnOk result (page.new ≡ put page.old (spread (op_words (ops.Fill slot offset count byte)))) }
{
    page.text(b" fill")?;
    page.next_number(u64::from(slot))?;
    page.next_number(offset)?;
    page.next_number(u64::from(count))?;
    page.next_bytes(alloc, &[byte])
}

fn write_put(
    page: &mut Page,
    alloc: Global,
    path: &Path,
    offset: u64,
    bytes: &Blob,
) -> Result<(), Memory>
    ensures { OnOk result (page.new ≡ put page.old (spread (op_words (ops.Put path.now offset bytes.now)))) }
{
    page.text(b" put")?;
    write_path(page, alloc, path)?;
    page.next_number(offset)?;
    page.next_bytes(alloc, bytes.bytes())
}

fn write_truncate(page: &mut Page, slot: u8, size: u64) -> Result<(), Memory>
    ensures { OnOk result (page.new ≡ put page.old (spread (op_words (ops.Truncate slot size)))) }
{
    page.text(b" truncate")?;
    page.next_number(u64::from(slot))?;
    page.next_number(size)
}

fn write_access(page: &mut Page, alloc: Global, path: &Path, bits: u32) -> Result<(), Memory>
    ensures { OnOk result (page.new ≡ put page.old (spread (op_words (ops.Access path.now bits)))) }
{
    page.text(b" access")?;
    write_path(page, alloc, path)?;
    page.next_number(u64::from(bits))
}

fn write_symlink(page: &mut Page, alloc: Global, path: &Path, target: &Blob) -> Result<(), Memory>
    ensures { OnOk result (page.new ≡ put page.old (spread (op_words (ops.SymLink path.now target.now)))) }
{
    page.text(b" symlink")?;
    write_path(page, alloc, path)?;
    page.text(b" ")?;
    page.shown(alloc, target.bytes())
}

/// Writes a command and a number.
fn numbered(page: &mut Page, command: &[u8], number: u64) -> Result<(), Memory>
    ensures { OnOk result (page.new ≡ put page.old (command.now ++ (codes " " ++ decimal number))) }
{
    page.text(command)?;
    page.next_number(number)
}

/// Writes a command and its path.
fn named(page: &mut Page, alloc: Global, command: &[u8], path: &Path) -> Result<(), Memory>
    ensures { OnOk result (page.new ≡ put page.old (command.now ++ (codes " " ++ path_word path.now))) }
{
    page.text(command)?;
    write_path(page, alloc, path)
}

/// Writes a command and two paths.
fn between(
    page: &mut Page,
    alloc: Global,
    command: &[u8],
    from: &Path,
    to: &Path,
) -> Result<(), Memory>
    ensures { OnOk result (page.new ≡ put page.old (command.now ++ (codes " " ++ path_word from.now ++ (codes " " ++ path_word to.now)))) }
{
    page.text(command)?;
    write_path(page, alloc, from)?;
    write_path(page, alloc, to)
}

/// Writes a path after a space.
fn write_path(page: &mut Page, alloc: Global, path: &Path) -> Result<(), Memory>
    ensures { OnOk result (page.new ≡ put page.old (codes " " ++ path_word path.now)) }
{
    if path.names().is_empty() {
        return page.text(b" /");
    }
    page.text(b" ")?;
    write_names(page, alloc, path.names())
}

/// Writes each name after a slash.
fn write_names(page: &mut Page, alloc: Global, names: &[Name]) -> Result<(), Memory>
    ensures { OnOk result (page.new ≡ put page.old (slashed names.now)) }
{
    for name in names {
        write_name(page, alloc, name)?;
    }
    Ok(())
}

fn write_name(page: &mut Page, alloc: Global, name: &Name) -> Result<(), Memory>
    ensures { OnOk result (page.new ≡ put page.old (codes "/" ++ shown name.now)) }
{
    page.text(b"/")?;
    page.shown(alloc, name.bytes())
}

/// The word of a mode.
fn mode_word(mode: Mode) -> &'static [u8]
    ensures { result.now ≡ mode_word mode }
{
    match mode {
        Mode::R => b"r",
        Mode::W => b"w",
        Mode::RW => b"rw",
        Mode::C => b"c",
        Mode::X => b"x",
    }
}
