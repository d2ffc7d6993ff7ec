//! Calls of MOUNT, and their replies.

use crate::end::end;
use mount_calls::{
    is_mount_proc, read_mount_call, read_mount_reply, write_mount_call, write_mount_reply,
};
use std::alloc::Global;
use std::io;
use xdr_codec::{CodecFault, Writer, XdrFault};

const SHORT: CodecFault = CodecFault::Xdr(XdrFault::Short);

/// Prints the call that arguments hold.
pub fn call(rt: &impl Print, alloc: Global, proc: u32, bytes: &[u8]) -> io::Result<()> {
    if !is_mount_proc(proc) {
        return println!(rt; "no procedure");
    }
    match read_mount_call(alloc, proc, bytes) {
        Ok(call) => {
            print!(rt; "{call:?}")?;
            let mut w = Writer::new(alloc);
            let wrote = write_mount_call(&mut w, &call).is_ok();
            let mut short = true;
            for len in 0..bytes.len() {
                short = short && read_mount_call(alloc, proc, &bytes[..len]).err() == Some(SHORT);
            }
            end(rt, w, wrote, bytes, short)
        }
        Err(fault) => println!(rt; "{fault:?}"),
    }
}

/// Prints the reply that results hold.
pub fn reply(rt: &impl Print, alloc: Global, proc: u32, bytes: &[u8]) -> io::Result<()> {
    if !is_mount_proc(proc) {
        return println!(rt; "no procedure");
    }
    match read_mount_reply(alloc, proc, bytes) {
        Ok(reply) => {
            print!(rt; "{reply:?}")?;
            let mut w = Writer::new(alloc);
            let wrote = write_mount_reply(&mut w, &reply).is_ok();
            let mut short = true;
            for len in 0..bytes.len() {
                short = short && read_mount_reply(alloc, proc, &bytes[..len]).err() == Some(SHORT);
            }
            end(rt, w, wrote, bytes, short)
        }
        Err(fault) => println!(rt; "{fault:?}"),
    }
}
