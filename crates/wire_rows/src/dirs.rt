//! Calls on directories and names, and their replies.

use crate::end::end;
use nfs_dir_calls::{
    is_dir_proc, kept, read_dir_call, read_dir_reply, write_dir_call, write_dir_reply,
};
use std::alloc::Global;
use std::io;
use xdr_codec::{CodecFault, Writer, XdrFault};

/// Prints the call that arguments hold.
pub fn call(rt: &impl Print, alloc: Global, proc: u32, bytes: &[u8]) -> io::Result<()> {
    if !is_dir_proc(proc) {
        return println!(rt; "no procedure");
    }
    match read_dir_call(alloc, proc, bytes) {
        Ok(call) => {
            print!(rt; "{call:?}")?;
            let mut w = Writer::new(alloc);
            let wrote = write_dir_call(&mut w, &call).is_ok();
            let mut short = true;
            for len in 0..bytes.len() {
                let fault = read_dir_call(alloc, proc, &bytes[..len]).err();
                short = short && fault == Some(CodecFault::Xdr(XdrFault::Short));
            }
            end(rt, w, wrote, bytes, short)
        }
        Err(fault) => println!(rt; "{fault:?}"),
    }
}

/// Prints the reply that results hold.
pub fn reply(rt: &impl Print, alloc: Global, proc: u32, bytes: &[u8]) -> io::Result<()> {
    if !is_dir_proc(proc) {
        return println!(rt; "no procedure");
    }
    match read_dir_reply(proc, bytes) {
        Ok(reply) => {
            match kept(alloc, &reply) {
                Ok(own) => print!(rt; "{own:?}")?,
                Err(_) => print!(rt; "out of memory")?,
            }
            let mut w = Writer::new(alloc);
            let wrote = write_dir_reply(&mut w, &reply).is_ok();
            let mut short = true;
            for len in 0..bytes.len() {
                let fault = read_dir_reply(proc, &bytes[..len]).err();
                short = short && fault == Some(XdrFault::Short);
            }
            end(rt, w, wrote, bytes, short)
        }
        Err(fault) => println!(rt; "{fault:?}"),
    }
}
