//! Credentials and verifiers, as they are written.

ghost use Rattle.std.specs.Prelude.{◌≡◌, ◌++◌, ◌<◌, ◌^◌, length, OnOk, OnErr};
ghost use Rattle.xdr_codec.specs.Spelling.{u32_bytes, opaque_bytes, BeginsWith};
ghost use Rattle.rpc_message.specs.Auth.{SpellsAuth};
ghost use Rattle.rpc_message.specs.Cred.{none_bytes, sys_bytes, cred_bytes};

use nfs_types::Name;
use xdr_codec::{Memory, Writer};

/// The flavor of a credential or verifier with an empty body (RFC 5531, section 10.1).
const AUTH_NONE: u32 = 0;

/// The flavor of a credential with a machine, a user and a group (RFC 5531, appendix A).
const AUTH_SYS: u32 = 1;

/// The bytes of the body of AUTH_SYS that aren't the machine's name: stamp, length of the name, uid, gid, count of
/// groups.
const SYS_WORDS: usize = 20;

/// As whom a call is made (RFC 5531, section 8.2).
#[derive(Clone, Copy, Debug, PartialEq, Eq)]
pub enum Cred {
    /// As nobody: AUTH_NONE.
    None,
    /// As a user of a machine: AUTH_SYS with stamp 0 and no further groups.
    Sys {
        /// The machine that calls.
        machine: Name,
        /// The user.
        uid: u32,
        /// The user's group.
        gid: u32,
    },
}

/// Writes AUTH_NONE. When out of memory the writer begins with what it held.
#[tactic(auto, using(xdr_codec::proofs::Begins::begins_then, std::proofs::Common::append_assoc), unfolding(crate::specs::Cred::none_bytes))]
pub fn write_none(w: &mut Writer) -> Result<(), Memory>
    ensures ok { OnOk result (w.new ≡ w.old ++ none_bytes) }
    ensures err { OnErr result (BeginsWith w.old w.new) }
{
    w.u32(AUTH_NONE)?;
    w.opaque(&[])?;
    Ok(())
}

/// Writes a credential. When out of memory the writer begins with what it held.
#[tactic(auto, using(xdr_codec::proofs::Begins::begins_then, std::proofs::Common::append_assoc), unfolding(crate::specs::Cred::cred_bytes))]
pub fn write_cred(w: &mut Writer, cred: &Cred) -> Result<(), Memory>
    ensures ok { OnOk result (w.new ≡ w.old ++ cred_bytes cred.now) }
    ensures err { OnErr result (BeginsWith w.old w.new) }
    ensures spelled { OnOk result (SpellsAuth (cred_bytes cred.now)) }
{
    match cred {
        Cred::None => write_none(w),
        Cred::Sys { machine, uid, gid } => write_sys(w, machine, *uid, *gid),
    }
}

fn write_sys(w: &mut Writer, machine: &Name, uid: u32, gid: u32) -> Result<(), Memory>
    ensures ok { OnOk result (w.new ≡ w.old ++ (u32_bytes 1 ++ opaque_bytes (sys_bytes machine.now uid gid))) }
    ensures err { OnErr result (BeginsWith w.old w.new) }
    ensures spelled { OnOk result (SpellsAuth (u32_bytes 1 ++ opaque_bytes (sys_bytes machine.now uid gid))) }
{
    let machine = machine.bytes();
    let padding = (4 - machine.len() % 4) % 4;
    w.u32(AUTH_SYS)?;
    w.u32((SYS_WORDS + machine.len() + padding) as u32)?;
    write_sys_body(w, machine, uid, gid)?;
    Ok(())
}

#[tactic(auto, using(xdr_codec::proofs::Begins::begins_a, xdr_codec::proofs::Begins::begins_b, xdr_codec::proofs::Begins::begins_c, xdr_codec::proofs::Begins::begins_d, xdr_codec::proofs::Begins::grown_e), unfolding(crate::specs::Cred::sys_bytes))]
fn write_sys_body(w: &mut Writer, machine: &[u8], uid: u32, gid: u32) -> Result<(), Memory>
    requires { length machine.now < 2 ^ 32 }
    ensures ok { OnOk result (w.new ≡ w.old ++ sys_bytes machine.now uid gid) }
    ensures err { OnErr result (BeginsWith w.old w.new) }
{
    w.u32(0)?;
    w.opaque(machine)?;
    w.u32(uid)?;
    w.u32(gid)?;
    w.u32(0)?;
    Ok(())
}
