//! What a record asks for (RFC 5531, section 9).

ghost use Rattle.std.specs.Prelude.{◌≡◌, ℕ, true, false, IfOk};
ghost use Rattle.xdr_codec.specs.Whole.{FindsOwned};
ghost use Rattle.nfs_types.specs.declared.program.TheConstants.{NFS_PROGRAM, MOUNT_PROGRAM};
ghost use Rattle.mount_calls.specs.Calls.{IsMountProc, mount_call_at};
ghost use Rattle.nfs_dir_calls.specs.Calls.{IsDirProc, is_dir_proc, dir_call_at};
ghost use Rattle.nfs_file_calls.specs.Calls.{IsFileProc, file_call_at};
ghost use Rattle.rpc_message.specs.Call.{call_at, xid_at};
ghost use Rattle.world_model.specs.declared.message.Call.{Call};
ghost use Rattle.world_model.specs.Messages.{SpellsCall, SpellsArguments, head_of};
ghost use Rattle.export_fs.specs.Spelling.{HasSpellingCall};
ghost use Rattle.export_serve.specs.declared.request.Asked.TheVariants.{NoCall, Serve};
ghost use Rattle.export_serve.specs.Asking.{asked_at, head_asks, mismatch_of, refused_as, is_program, is_served, arguments_at, mount_read, dir_read, file_read, GivesCallOf, SpellsCallOf, Answers, Understood, IsNoCall, IsSound};

use crate::refusal::{Refusal, refusal_record};
use crate::request::Asked;
use mount_calls::{is_mount_proc, read_mount_call};
use nfs_dir_calls::{is_dir_proc, read_dir_call};
use nfs_file_calls::{is_file_proc, read_file_call};
use nfs_types::{MOUNT_PROGRAM, NFS_PROGRAM, PROGRAM_VERSION};
use rpc_message::{CallFault, CallHead, read_call, xid_of};
use std::alloc::Global;
use world_model::Call;
use xdr_codec::{CodecFault, Memory};

/// What a record asks for. It is no call exactly if `read_call` answers NotCall or Xdr. A call is refused exactly if
/// one of these holds, and for the first that does:
/// - it is of another version of RPC than 2 (RPC_MISMATCH with 2 and 2);
/// - its program isn't served (PROG_UNAVAIL);
/// - it isn't of version 3 (PROG_MISMATCH with 3 and 3);
/// - its procedure isn't served (PROC_UNAVAIL);
/// - its arguments aren't spelled (GARBAGE_ARGS).
pub fn asked(alloc: Global, rec: &[u8]) -> Result<Asked, Memory>
    ensures exact { IfOk result (λ a. a ≡ asked_at rec.now) }
    ensures no_call { IfOk result (λ a. a ≡ NoCall → IsNoCall (call_at rec.now)) }
    ensures sound { IfOk result (IsSound rec.now) }
    ensures served { (xid : ℕ) (call : Call) → SpellsCall xid call rec.now → IfOk result (λ a. a ≡ Serve xid call) }
{
    match read_call(rec) {
        Ok((head, args)) => head_asks(alloc, &head, args),
        Err(fault) => match fault {
            CallFault::Version => mismatch(alloc, rec),
            CallFault::NotCall => Ok(Asked::NoCall),
            CallFault::Xdr(_) => Ok(Asked::NoCall),
        },
    }
}

/// The refusal of a call in another version of RPC.
fn mismatch(alloc: Global, rec: &[u8]) -> Result<Asked, Memory>
    ensures exact { IfOk result (λ a. a ≡ mismatch_of (xid_at rec.now)) }
    ensures sound { IfOk result (IsSound rec.now) }
{
    match xid_of(rec) {
        Some(xid) => refused_as(alloc, xid, Refusal::Rpc),
        None => Ok(Asked::NoCall),
    }
}

/// A call that is refused so.
fn refused_as(alloc: Global, xid: u32, refusal: Refusal) -> Result<Asked, Memory>
    ensures exact { IfOk result (λ a. a ≡ refused_as xid refusal) }
    ensures sound { IfOk result (Answers xid) }
{
    let bytes = refusal_record(alloc, xid, refusal)?;
    Ok(Asked::Refuse { xid, bytes })
}

/// What a call with this head and these arguments asks for.
fn head_asks(alloc: Global, head: &CallHead, args: &[u8]) -> Result<Asked, Memory>
    ensures exact { IfOk result (λ a. a ≡ head_asks head.now args.now) }
    ensures sound { IfOk result (Understood head.now args.now) }
    ensures served { (xid : ℕ) (call : Call) → head.now ≡ head_of xid call → SpellsArguments call args.now → IfOk result (λ a. a ≡ Serve xid call) }
{
    if !is_program(head.prog) {
        return refused_as(alloc, head.xid, Refusal::Program);
    }
    if head.vers != PROGRAM_VERSION {
        return refused_as(alloc, head.xid, Refusal::Version);
    }
    if !is_served(head.prog, head.proc) {
        return refused_as(alloc, head.xid, Refusal::Procedure);
    }
    match call_of(alloc, head.prog, head.proc, args) {
        Ok(call) => Ok(Asked::Serve {
            xid: head.xid,
            call,
        }),
        Err(CodecFault::Xdr(_)) => refused_as(alloc, head.xid, Refusal::Arguments),
        Err(CodecFault::Memory) => Err(Memory),
    }
}

fn is_program(prog: u32) -> bool
    ensures { result ≡ is_program prog }
{
    prog == NFS_PROGRAM || prog == MOUNT_PROGRAM
}

/// Whether the program has that procedure here.
fn is_served(prog: u32, proc: u32) -> bool
    ensures { result ≡ is_served prog proc }
{
    if prog == MOUNT_PROGRAM {
        return is_mount_proc(proc);
    }
    is_dir_proc(proc) || is_file_proc(proc)
}

/// The call of a procedure that the arguments spell.
fn call_of(alloc: Global, prog: u32, proc: u32, args: &[u8]) -> Result<Call, CodecFault>
    requires program { is_program prog ≡ true }
    requires procedure { is_served prog proc ≡ true }
    ensures exact { GivesCallOf result (arguments_at prog proc args.now) }
    ensures spelled { FindsOwned (SpellsCallOf prog proc) args.now result }
    ensures writable { IfOk result HasSpellingCall }
{
    if prog == MOUNT_PROGRAM {
        return mount_call(alloc, proc, args);
    }
    if is_dir_proc(proc) {
        return dir_call(alloc, proc, args);
    }
    file_call(alloc, proc, args)
}

fn mount_call(alloc: Global, proc: u32, args: &[u8]) -> Result<Call, CodecFault>
    requires { IsMountProc proc }
    ensures exact { GivesCallOf result (mount_read (mount_call_at proc args.now)) }
    ensures spelled { FindsOwned (SpellsCallOf MOUNT_PROGRAM proc) args.now result }
    ensures writable { IfOk result HasSpellingCall }
{
    match read_mount_call(alloc, proc, args) {
        Ok(call) => Ok(Call::Mount(call)),
        Err(fault) => Err(fault),
    }
}

fn dir_call(alloc: Global, proc: u32, args: &[u8]) -> Result<Call, CodecFault>
    requires { IsDirProc proc }
    ensures exact { GivesCallOf result (dir_read (dir_call_at proc args.now)) }
    ensures spelled { FindsOwned (SpellsCallOf NFS_PROGRAM proc) args.now result }
    ensures writable { IfOk result HasSpellingCall }
{
    match read_dir_call(alloc, proc, args) {
        Ok(call) => Ok(Call::Dir(call)),
        Err(fault) => Err(fault),
    }
}

fn file_call(alloc: Global, proc: u32, args: &[u8]) -> Result<Call, CodecFault>
    requires known { IsFileProc proc }
    requires other { is_dir_proc proc ≡ false }
    ensures exact { GivesCallOf result (file_read (file_call_at proc args.now)) }
    ensures spelled { FindsOwned (SpellsCallOf NFS_PROGRAM proc) args.now result }
    ensures writable { IfOk result HasSpellingCall }
{
    match read_file_call(alloc, proc, args) {
        Ok(call) => Ok(Call::File(call)),
        Err(fault) => Err(fault),
    }
}
