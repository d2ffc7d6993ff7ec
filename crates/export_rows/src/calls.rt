//! Calls by their arguments, and the replies to them.

use crate::digits::{bytes_of, number_of};
use export_fs::Export;
use mount_calls::{is_mount_proc, read_mount_call};
use nfs_dir_calls::{is_dir_proc, read_dir_call};
use nfs_file_calls::{FileCall, is_file_proc, read_file_call};
use std::alloc::Global;
use std::io;
use world_model::{Call, Reply};
use xdr_codec::{CodecFault, Memory};

/// The number of WRITE (RFC 1813, section 3.3.7).
const WRITE: u32 = 7;

/// Executes the call of a procedure, whose number comes before its arguments, and prints the reply.
pub fn call(
    rt: &impl Print,
    alloc: Global,
    export: &mut Export,
    kind: &str,
    rest: &str,
) -> io::Result<()> {
    let (number, digits) = rest.split_once(' ').unwrap_or((rest, ""));
    let Some(args) = bytes_of(alloc, digits) else {
        return println!(rt; "  no hex digits");
    };
    match read(alloc, kind, number_of(number), args.as_slice()) {
        None => println!(rt; "  no procedure"),
        Some(Ok(call)) => execute(rt, export, &call),
        Some(Err(fault)) => println!(rt; "  {fault:?}"),
    }
}

/// Executes a WRITE of these arguments that breaks off: before them stand how many bytes it writes and the status that it
/// fails with.
pub fn partial(rt: &impl Print, alloc: Global, export: &mut Export, rest: &str) -> io::Result<()> {
    let (bytes, rest) = rest.split_once(' ').unwrap_or((rest, ""));
    let (status, digits) = rest.split_once(' ').unwrap_or((rest, ""));
    let Some(args) = bytes_of(alloc, digits) else {
        return println!(rt; "  no hex digits");
    };
    match read_file_call(alloc, WRITE, args.as_slice()) {
        Ok(call) => break_off(rt, export, call, number_of(bytes), number_of(status)),
        Err(fault) => println!(rt; "  {fault:?}"),
    }
}

fn break_off(
    rt: &impl Print,
    export: &mut Export,
    call: FileCall,
    count: u32,
    status: u32,
) -> io::Result<()> {
    let FileCall::Write {
        file,
        offset,
        how,
        bytes,
    } = call
    else {
        return println!(rt; "  no WRITE");
    };
    if status == 0 {
        return println!(rt; "  no status");
    }
    let call = Call::File(FileCall::Write {
        file,
        offset,
        how,
        bytes,
    });
    print_reply(rt, export.execute_partial(&call, count, status))
}

fn execute(rt: &impl Print, export: &mut Export, call: &Call) -> io::Result<()> {
    print_reply(rt, export.execute(call))
}

fn print_reply(rt: &impl Print, reply: Result<Reply, Memory>) -> io::Result<()> {
    match reply {
        Ok(reply) => println!(rt; "  {reply:?}"),
        Err(_) => println!(rt; "  out of memory"),
    }
}

/// The call of the arguments, if there is such a procedure.
fn read(alloc: Global, kind: &str, proc: u32, args: &[u8]) -> Option<Result<Call, CodecFault>> {
    match kind {
        "file" => read_file(alloc, proc, args),
        "dir" => read_dir(alloc, proc, args),
        _ => read_mount(alloc, proc, args),
    }
}

fn read_file(alloc: Global, proc: u32, args: &[u8]) -> Option<Result<Call, CodecFault>> {
    if !is_file_proc(proc) {
        return None;
    }
    match read_file_call(alloc, proc, args) {
        Ok(call) => Some(Ok(Call::File(call))),
        Err(fault) => Some(Err(fault)),
    }
}

fn read_dir(alloc: Global, proc: u32, args: &[u8]) -> Option<Result<Call, CodecFault>> {
    if !is_dir_proc(proc) {
        return None;
    }
    match read_dir_call(alloc, proc, args) {
        Ok(call) => Some(Ok(Call::Dir(call))),
        Err(fault) => Some(Err(fault)),
    }
}

fn read_mount(alloc: Global, proc: u32, args: &[u8]) -> Option<Result<Call, CodecFault>> {
    if !is_mount_proc(proc) {
        return None;
    }
    match read_mount_call(alloc, proc, args) {
        Ok(call) => Some(Ok(Call::Mount(call))),
        Err(fault) => Some(Err(fault)),
    }
}
