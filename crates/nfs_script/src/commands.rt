//! The commands of a script.

ghost use Rattle.std.specs.Prelude.{◌≡◌, IfOk};
ghost use Rattle.script_text.specs.Lines.{words};
ghost use Rattle.nfs_script.specs.Faults.{Gives};
ghost use Rattle.nfs_script.specs.Commands.{asked_for, op_of, operation_of, path_op_of};

use crate::fault::{Cause, LineFault};
use crate::file_commands::{close, fill, open_file, read, sync, truncate, write};
use crate::path_commands::{
    access, link, list, make_dir, put, read_link, remove, remove_dir, rename, stat, sym_link,
};
use script_text::next_word;
use std::alloc::Global;
use world_model::Op;
use xdr_codec::Memory;

/// The operation that a command and its words ask for, as they stand in a script behind the lane. None exactly if they
/// ask for none.
pub fn operation(alloc: Global, line: &[u8]) -> Result<Option<Op>, Memory>
    ensures { IfOk result (λ op. op ≡ operation_of (words line.now)) }
{
    match next_word(line) {
        Some((command, rest)) => asked_for(alloc, command, rest),
        None => Ok(None),
    }
}

/// The operation of a command and of the words that the line has left, if they ask for one.
fn asked_for(alloc: Global, command: &[u8], line: &[u8]) -> Result<Option<Op>, Memory>
    ensures { IfOk result (λ op. op ≡ asked_for (op_of command.now (words line.now))) }
{
    match op(alloc, command, line) {
        Ok(op) => Ok(Some(op)),
        Err(LineFault::Refused(_)) => Ok(None),
        Err(LineFault::Memory) => Err(Memory),
    }
}

/// The operation of a command and of the words that the line has left.
pub(crate) fn op(alloc: Global, command: &[u8], line: &[u8]) -> Result<Op, LineFault>
    ensures { Gives (λ op. op) result (op_of command.now (words line.now)) }
{
    if command == b"open".as_slice() {
        return open_file(alloc, line);
    }
    if command == b"read".as_slice() {
        return read(line);
    }
    if command == b"write".as_slice() {
        return write(alloc, line);
    }
    if command == b"fill".as_slice() {
        return fill(line);
    }
    if command == b"sync".as_slice() {
        return sync(line);
    }
    if command == b"close".as_slice() {
        return close(line);
    }
    if command == b"truncate".as_slice() {
        return truncate(line);
    }
    path_op(alloc, command, line)
}

/// The operation of a command on a path.
fn path_op(alloc: Global, command: &[u8], line: &[u8]) -> Result<Op, LineFault>
    ensures { Gives (λ op. op) result (path_op_of command.now (words line.now)) }
{
    if command == b"put".as_slice() {
        return put(alloc, line);
    }
    if command == b"stat".as_slice() {
        return stat(alloc, line);
    }
    if command == b"access".as_slice() {
        return access(alloc, line);
    }
    if command == b"mkdir".as_slice() {
        return make_dir(alloc, line);
    }
    if command == b"rmdir".as_slice() {
        return remove_dir(alloc, line);
    }
    if command == b"remove".as_slice() {
        return remove(alloc, line);
    }
    if command == b"rename".as_slice() {
        return rename(alloc, line);
    }
    if command == b"link".as_slice() {
        return link(alloc, line);
    }
    if command == b"symlink".as_slice() {
        return sym_link(alloc, line);
    }
    if command == b"readlink".as_slice() {
        return read_link(alloc, line);
    }
    if command == b"list".as_slice() {
        return list(alloc, line);
    }
    Err(LineFault::Refused(Cause::Command))
}
