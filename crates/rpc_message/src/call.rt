//! The heads of calls.

ghost use Rattle.std.specs.Prelude.{◌≡◌, ◌++◌, OnOk, OnErr, List, ℕ};
ghost use Rattle.xdr_codec.specs.Spelling.{BeginsWith};
ghost use Rattle.xdr_codec.specs.Spells.{◌⨾◌, SpellsU32};
ghost use Rattle.xdr_codec.specs.Whole.{Gives};
ghost use Rattle.rpc_message.specs.Call.{xid_at, call_at, head_at, call_head_bytes, opening_bytes, program_bytes, SpellsCallHead, GivesCall, FindsCall};

use crate::cred::{Cred, write_cred, write_none};
use crate::front::{after_auth, word};
use crate::kept_cred::KeptCred;
use xdr_codec::{Memory, Reader, Writer, XdrFault};

/// The message type of a call (RFC 5531, section 9, msg_type).
const CALL: u32 = 0;

/// The version of the RPC protocol.
const RPC_VERSION: u32 = 2;

/// What a call asks for, of which program (RFC 5531, section 9, call_body).
#[derive(Clone, Copy, Debug, PartialEq, Eq)]
pub struct CallHead {
    /// The number under which the reply comes.
    pub xid: u32,
    /// The number of the program.
    pub prog: u32,
    /// The program's version.
    pub vers: u32,
    /// The number of the procedure.
    pub proc: u32,
}

/// Why bytes are no call.
#[derive(Clone, Copy, Debug, PartialEq, Eq)]
pub enum CallFault {
    /// The second word is there and isn't 0, the message type of a call.
    NotCall,
    /// The bytes end early, or the body of a credential or verifier is too long.
    Xdr(XdrFault),
    /// The version of the RPC protocol isn't 2.
    Version,
}

impl From<XdrFault> for CallFault {
    ghost use Rattle.std.specs.Prelude.{◌≡◌};
    ghost use Rattle.rpc_message.specs.declared.call.CallFault.TheVariants.{Xdr};

    ghost from_gives = { λ f e. e ≡ Xdr f };

    fn from(fault: XdrFault) -> CallFault {
        CallFault::Xdr(fault)
    }
}

/// The first word, which is the xid of a call or reply; None exactly if there are fewer than 4 bytes.
pub fn xid_of(rec: &[u8]) -> Option<u32>
    ensures { result ≡ xid_at rec.now }
{
    Reader::new(rec).u32().ok()
}

/// The head of a call and its arguments, which are the rest of the record (RFC 5531, section 9). The credential and
/// the verifier may be any of at most 400 bytes each. NotCall comes exactly if the second word is there and isn't 0.
/// Of Xdr and Version the first in order of spelling comes, and neither comes otherwise.
pub fn read_call<'a>(rec: &'a [u8]) -> Result<(CallHead, &'a [u8]), CallFault>
    ensures exact { GivesCall (λ call. (call.0, call.1.now)) result (call_at rec.entry.now) }
    ensures spelled { FindsCall (λ call. (call.0, call.1.now)) result rec.entry.now }
{
    Reader::new(rec).holds_bytes();
    call_of(rec)
}

#[tactic(auto, unfolding(crate::specs::Call::call_at))]
fn call_of<'a>(rec: &'a [u8]) -> Result<(CallHead, &'a [u8]), CallFault>
    ensures { GivesCall (λ call. (call.0, call.1.now)) result (call_at rec.entry.now) }
{
    let (xid, bytes) = word(rec)?;
    let (kind, bytes) = word(bytes)?;
    if kind != CALL {
        return Err(CallFault::NotCall);
    }
    let (version, bytes) = word(bytes)?;
    if version != RPC_VERSION {
        return Err(CallFault::Version);
    }
    Ok(head_of(xid, bytes)?)
}

#[tactic(auto, unfolding(crate::specs::Call::head_at))]
fn head_of<'a>(xid: u32, bytes: &'a [u8]) -> Result<(CallHead, &'a [u8]), XdrFault>
    ensures { Gives (λ call. (call.0, call.1.now)) result (head_at xid bytes.entry.now) }
{
    let (prog, bytes) = word(bytes)?;
    let (vers, bytes) = word(bytes)?;
    let (proc, bytes) = word(bytes)?;
    let bytes = after_auth(bytes)?;
    let args = after_auth(bytes)?;
    Ok((
        CallHead {
            xid,
            prog,
            vers,
            proc,
        },
        args,
    ))
}

/// Writes a call up to its arguments; the verifier is AUTH_NONE. When out of memory the writer begins with what
/// it held.
#[tactic(auto, using(xdr_codec::proofs::Begins::after_a, xdr_codec::proofs::Begins::after_b, xdr_codec::proofs::Begins::after_c, xdr_codec::proofs::Begins::grown_d), unfolding(crate::specs::Call::call_head_bytes))]
pub fn write_call(w: &mut Writer, head: &CallHead, cred: &Cred) -> Result<(), Memory>
    ensures ok { OnOk result (w.new ≡ w.old ++ call_head_bytes head.now cred.now) }
    ensures err { OnErr result (BeginsWith w.old w.new) }
    ensures spelled { OnOk result ((args : List ℕ) → SpellsCallHead head.now args (call_head_bytes head.now cred.now ++ args)) }
{
    write_opening(w, head.xid)?;
    write_program(w, head.prog, head.vers, head.proc)?;
    write_cred(w, cred)?;
    write_none(w)?;
    Ok(())
}

/// As `write_call`, by a credential whose spelling may be kept.
#[tactic(auto, using(xdr_codec::proofs::Begins::after_a, xdr_codec::proofs::Begins::after_b, xdr_codec::proofs::Begins::grown_c), unfolding(crate::specs::Call::call_head_bytes))]
pub fn write_call_by(w: &mut Writer, head: &CallHead, cred: &KeptCred) -> Result<(), Memory>
    ensures ok { OnOk result (w.new ≡ w.old ++ call_head_bytes head.now cred.now) }
    ensures err { OnErr result (BeginsWith w.old w.new) }
    ensures spelled { OnOk result ((args : List ℕ) → SpellsCallHead head.now args (call_head_bytes head.now cred.now ++ args)) }
{
    write_opening(w, head.xid)?;
    write_program(w, head.prog, head.vers, head.proc)?;
    cred.append(w)?;
    Ok(())
}

#[tactic(auto, using(xdr_codec::proofs::Begins::begins_a, xdr_codec::proofs::Begins::begins_b, xdr_codec::proofs::Begins::grown_c), unfolding(crate::specs::Call::opening_bytes))]
fn write_opening(w: &mut Writer, xid: u32) -> Result<(), Memory>
    ensures ok { OnOk result (w.new ≡ w.old ++ opening_bytes xid) }
    ensures err { OnErr result (BeginsWith w.old w.new) }
    ensures spelled { OnOk result ((SpellsU32 xid ⨾ SpellsU32 0 ⨾ SpellsU32 2) (opening_bytes xid)) }
{
    w.u32(xid)?;
    w.u32(CALL)?;
    w.u32(RPC_VERSION)?;
    Ok(())
}

#[tactic(auto, using(xdr_codec::proofs::Begins::begins_a, xdr_codec::proofs::Begins::begins_b, xdr_codec::proofs::Begins::grown_c), unfolding(crate::specs::Call::program_bytes))]
fn write_program(w: &mut Writer, prog: u32, vers: u32, proc: u32) -> Result<(), Memory>
    ensures ok { OnOk result (w.new ≡ w.old ++ program_bytes prog vers proc) }
    ensures err { OnErr result (BeginsWith w.old w.new) }
    ensures spelled { OnOk result ((SpellsU32 prog ⨾ SpellsU32 vers ⨾ SpellsU32 proc) (program_bytes prog vers proc)) }
{
    w.u32(prog)?;
    w.u32(vers)?;
    w.u32(proc)?;
    Ok(())
}
