//! The records of calls.

ghost use Rattle.std.specs.Prelude.{◌≡◌, ◌↔◌, ◌++◌, IsTrue, IfOk, OnOk};
ghost use Rattle.xdr_codec.specs.Spells.{Wrote};
ghost use Rattle.trace_calls.specs.Sending.{arguments_bytes, call_bytes};
ghost use Rattle.export_fs.specs.Spelling.{HasSpellingCall};
ghost use Rattle.world_model.specs.Messages.{SpellsArguments, SpellsCall, proc_of, program_of};

use crate::spellable::is_spellable;
use export_serve::asked;
use mount_calls::{mount_proc, write_mount_call};
use nfs_dir_calls::{dir_proc, write_dir_call};
use nfs_file_calls::{file_proc, write_file_call};
use nfs_types::{MOUNT_PROGRAM, NFS_PROGRAM, PROGRAM_VERSION};
use rpc_message::{CallHead, Cred, write_call};
use std::alloc::Global;
use world_model::Call;
use xdr_codec::{Blob, Memory, Writer};

/// The record of a call under the xid, with no credential and zeros as padding (RFC 5531, section 9).
pub fn call_record(alloc: Global, xid: u32, call: &Call) -> Result<Blob, Memory>
    requires { HasSpellingCall call.now }
    ensures exact { IfOk result (λ bytes. bytes ≡ call_bytes xid call.now) }
    ensures spelled { IfOk result (λ bytes. SpellsCall xid call.now bytes) }
{
    let mut w = Writer::new(alloc);
    let head = CallHead {
        xid,
        prog: program_of(call),
        vers: PROGRAM_VERSION,
        proc: proc_of(call),
    };
    write_call(&mut w, &head, &Cred::None)?;
    write_arguments(&mut w, call)?;
    Ok(w.finish())
}

fn program_of(call: &Call) -> u32
    ensures { result ≡ program_of call.now }
{
    match call {
        Call::File(_) => NFS_PROGRAM,
        Call::Dir(_) => NFS_PROGRAM,
        Call::Mount(_) => MOUNT_PROGRAM,
    }
}

fn proc_of(call: &Call) -> u32
    ensures { result ≡ proc_of call.now }
{
    match call {
        Call::File(call) => file_proc(call),
        Call::Dir(call) => dir_proc(call),
        Call::Mount(call) => mount_proc(call),
    }
}

fn write_arguments(w: &mut Writer, call: &Call) -> Result<(), Memory>
    requires { HasSpellingCall call.now }
    ensures ok { OnOk result (w.new ≡ w.old ++ arguments_bytes call.now) }
    ensures spelled { OnOk result (SpellsArguments call.now (arguments_bytes call.now)) }
{
    match call {
        Call::File(call) => write_file_call(w, call),
        Call::Dir(call) => write_dir_call(w, call),
        Call::Mount(call) => write_mount_call(w, call),
    }
}

/// Whether two calls are equal, of which the first can be spelled.
pub(crate) fn same_call(alloc: Global, a: &Call, b: &Call) -> Result<bool, Memory>
    requires { HasSpellingCall a.now }
    ensures { IfOk result (λ same. IsTrue same ↔ (a.now ≡ b.now)) }
{
    if !is_spellable(b) {
        return Ok(false);
    }
    let one = call_record(alloc, 0, a)?;
    let other = call_record(alloc, 0, b)?;
    let _asked = asked(alloc, one.bytes())?;
    Ok(one.bytes() == other.bytes())
}
