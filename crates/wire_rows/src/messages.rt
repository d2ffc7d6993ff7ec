//! Heads of calls, replies and refusals.

use crate::end::end;
use nfs_types::Name;
use rpc_message::{
    CallFault, Cred, Reply, ReplyFault, read_call, read_reply, write_accepted, write_call,
    write_denied, write_refused, xid_of,
};
use std::alloc::Global;
use std::io;
use xdr_codec::{Memory, Writer, XdrFault};

/// Prints a call that is written again as nobody.
pub fn call_of_nobody(rt: &impl Print, alloc: Global, bytes: &[u8]) -> io::Result<()> {
    call(rt, alloc, &Cred::None, bytes)
}

/// Prints a call that is written again as the user 1000 with the group 100 of the machine nfs3.
pub fn call_of_user(rt: &impl Print, alloc: Global, bytes: &[u8]) -> io::Result<()> {
    match Name::make(b"nfs3") {
        Some(machine) => {
            let cred = Cred::Sys {
                machine,
                uid: 1000,
                gid: 100,
            };
            call(rt, alloc, &cred, bytes)
        }
        None => println!(rt; "no name"),
    }
}

/// Prints the xid, the head of a call and its arguments in hex.
fn call(rt: &impl Print, alloc: Global, cred: &Cred, bytes: &[u8]) -> io::Result<()> {
    match read_call(bytes) {
        Ok((head, args)) => {
            print!(rt; "{:?} {head:?} ", xid_of(bytes))?;
            match hex::encode(alloc, args) {
                Ok(digits) => print!(rt; "{digits}")?,
                Err(_) => print!(rt; "out of memory")?,
            }
            let mut w = Writer::new(alloc);
            let wrote = write_call(&mut w, &head, cred).is_ok() && w.raw(args).is_ok();
            let mut short = true;
            for len in 0..bytes.len() {
                let fault = read_call(&bytes[..len]).err();
                short = short && fault == Some(CallFault::Xdr(XdrFault::Short));
            }
            end(rt, w, wrote, bytes, short)
        }
        Err(fault) => println!(rt; "{fault:?}"),
    }
}

/// Writes a reply again.
fn write_reply(w: &mut Writer, reply: &Reply<'_>) -> Result<(), Memory> {
    match *reply {
        Reply::Accepted { xid, results } => {
            write_accepted(w, xid)?;
            w.raw(results)
        }
        Reply::Refused {
            xid,
            stat,
            low,
            high,
        } => write_refusal(w, xid, stat, low, high),
        Reply::Denied {
            xid,
            stat,
            first,
            second,
        } => write_denial(w, xid, stat, first, second),
    }
}

/// Writes a refusal that RFC 5531 has, and else nothing.
fn write_refusal(w: &mut Writer, xid: u32, stat: u32, low: u32, high: u32) -> Result<(), Memory> {
    if stat == 2 {
        return write_refused(w, xid, 2, low, high);
    }
    if stat < 1 || stat > 5 || low != 0 || high != 0 {
        return Ok(());
    }
    write_refused(w, xid, stat, 0, 0)
}

/// Writes a denial that RFC 5531 has, and else nothing.
fn write_denial(
    w: &mut Writer,
    xid: u32,
    stat: u32,
    first: u32,
    second: u32,
) -> Result<(), Memory> {
    if stat == 0 {
        return write_denied(w, xid, 0, first, second);
    }
    if stat != 1 || second != 0 {
        return Ok(());
    }
    write_denied(w, xid, 1, first, 0)
}

/// Prints a reply.
pub fn reply(rt: &impl Print, alloc: Global, bytes: &[u8]) -> io::Result<()> {
    match read_reply(bytes) {
        Ok(reply) => {
            print!(rt; "{reply:?}")?;
            let mut w = Writer::new(alloc);
            let wrote = write_reply(&mut w, &reply).is_ok();
            let mut short = true;
            for len in 0..bytes.len() {
                let fault = read_reply(&bytes[..len]).err();
                short = short && fault == Some(ReplyFault::Xdr(XdrFault::Short));
            }
            end(rt, w, wrote, bytes, short)
        }
        Err(fault) => println!(rt; "{fault:?}"),
    }
}
