//! Calls on files, and their replies.

use crate::end::end;
use nfs_file_calls::{
    is_file_proc, kept, read_file_call, read_file_reply, write_file_call, write_file_reply,
};
use std::alloc::Global;
use std::io;
use xdr_codec::{CodecFault, Writer, XdrFault};

/// Prints the call that arguments hold.
pub fn call(rt: &impl Print, alloc: Global, proc: u32, bytes: &[u8]) -> io::Result<()> {
    if !is_file_proc(proc) {
        return println!(rt; "no procedure");
    }
    match read_file_call(alloc, proc, bytes) {
        Ok(call) => {
            print!(rt; "{call:?}")?;
            let mut w = Writer::new(alloc);
            let wrote = write_file_call(&mut w, &call).is_ok();
            let mut short = true;
            for len in 0..bytes.len() {
                let fault = read_file_call(alloc, proc, &bytes[..len]).err();
                short = short && fault == Some(CodecFault::Xdr(XdrFault::Short));
            }
            end(rt, w, wrote, bytes, short)
        }
        Err(fault) => println!(rt; "{fault:?}"),
    }
}

/// Prints the reply that results hold.
pub fn reply(rt: &impl Print, alloc: Global, proc: u32, bytes: &[u8]) -> io::Result<()> {
    if !is_file_proc(proc) {
        return println!(rt; "no procedure");
    }
    match read_file_reply(proc, bytes) {
        Ok(reply) => {
            match kept(alloc, &reply) {
                Ok(own) => print!(rt; "{own:?}")?,
                Err(_) => print!(rt; "out of memory")?,
            }
            let mut w = Writer::new(alloc);
            let wrote = write_file_reply(&mut w, &reply).is_ok();
            let mut short = true;
            for len in 0..bytes.len() {
                let fault = read_file_reply(proc, &bytes[..len]).err();
                short = short && fault == Some(XdrFault::Short);
            }
            end(rt, w, wrote, bytes, short)
        }
        Err(fault) => println!(rt; "{fault:?}"),
    }
}
