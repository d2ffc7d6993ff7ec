//! File handles.

ghost use Rattle.std.specs.Prelude.{◌≡◌, ◌++◌, ℕ, List, Ok, MatchOption, OnOk, OnErr};
ghost use Rattle.xdr_codec.specs.Reading.{Reads};
ghost use Rattle.xdr_codec.specs.Spelling.{BeginsWith};
ghost use Rattle.xdr_codec.specs.Spells.{Finds, Wrote};
ghost use Rattle.nfs_types.specs.Fields.{handle_at, handle_bytes};
ghost use Rattle.nfs_types.specs.Spells.{SpellsHandle};
ghost use Rattle.nfs_types.specs.Names.{IsHandle};

use crate::held::hold;
use std::marker::Model;
use xdr_codec::{Memory, Reader, Writer, XdrFault};

/// A file handle: 0 to 64 bytes that only the server can read (RFC 1813, section 2.5, nfs_fh3).
/// It holds them inside and takes no memory. The bytes of the array past the length are zero.
#[derive(Clone, Copy, Debug)]
pub struct Handle {
    bytes: [u8; 64],
    len: u8,
}

impl Model for Handle {
    ghost use Rattle.std.specs.Prelude.{List, ℕ, length, take};
    ghost use Rattle.nfs_types.specs.Held.{held, Holds, held_len, held_again};

    ghost Value = { List ℕ };

    ghost view = { λ h. take h.len h.bytes };

    ghost invariant = { λ h. Holds 64 h.bytes h.len };

    ghost inverse = { λ v. record { bytes = held 64 v; len = length v } };

    ghost inverse_ok = { λ h k i. record {
      bytes = held_again 64 h.bytes h.len k i;
      len = held_len 64 h.bytes h.len k i;
    } };
}

impl Handle {
    /// The most bytes that a file handle has.
    pub const MAX: usize = 64;

    /// A file handle of these bytes; None exactly if there are more than 64.
    pub fn make(bytes: &[u8]) -> Option<Handle>
        ensures { MatchOption result (¬ IsHandle bytes.now) (λ h. (h ≡ bytes.now) × IsHandle bytes.now) }
    {
        if bytes.len() > Handle::MAX {
            return None;
        }
        Some(Handle::of(bytes))
    }

    fn of(bytes: &[u8]) -> Handle
        requires { IsHandle bytes.now }
        ensures { result ≡ bytes.now }
    {
        Handle {
            bytes: hold(bytes),
            len: bytes.len() as u8,
        }
    }

    /// Its bytes, at most 64.
    pub fn bytes(&self) -> &[u8]
        ensures same { result.now ≡ self.now }
        ensures bound { IsHandle self.now }
    {
        &self.bytes[..self.len as usize]
    }
}

/// Reads a file handle. TooLong if its length is above 64, Short if bytes are missing.
pub fn read_handle(r: &mut Reader<'_>) -> Result<Handle, XdrFault>
    ensures exact { Reads (λ x. x) r.old result r.new (handle_at r.old) }
    ensures spelled { Finds (λ x. x) SpellsHandle r.old result r.new }
{
    r.holds_bytes();
    handle_of(r)
}

#[tactic(auto, unfolding(crate::specs::Fields::handle_at))]
fn handle_of(r: &mut Reader<'_>) -> Result<Handle, XdrFault>
    ensures { Reads (λ x. x) r.old result r.new (handle_at r.old) }
{
    let mut at = r.again();
    let bytes = at.opaque(64)?;
    *r = at;
    Ok(Handle::of(bytes))
}

/// Writes a file handle. When out of memory the writer begins with what it held.
pub fn write_handle(w: &mut Writer, v: &Handle) -> Result<(), Memory>
    ensures ok { OnOk result (w.new ≡ w.old ++ handle_bytes v.now) }
    ensures err { OnErr result (BeginsWith w.old w.new) }
    ensures spelled { OnOk result (Wrote (SpellsHandle v.now) w.old w.new) }
{
    spells_handle(v);
    handle_into(w, v)
}

/// What is written of it is a spelling of it, and is read back as it is. A fact for proofs: it does nothing.
pub fn handle_read_back(v: &Handle)
    ensures spelled { SpellsHandle v.now (handle_bytes v.now) }
    ensures again { (rest : List ℕ) → handle_at (handle_bytes v.now ++ rest) ≡ Ok (v.now, rest) }
{
    spells_handle(v);
}

#[tactic(auto, using(crate::proofs::Written::handle_written))]
fn spells_handle(v: &Handle)
    ensures { SpellsHandle v.now (handle_bytes v.now) }
{
    let _bytes = v.bytes();
}

#[tactic(auto, using(xdr_codec::proofs::Begins::begins_then, std::proofs::Common::append_assoc), unfolding(crate::specs::Fields::handle_bytes))]
fn handle_into(w: &mut Writer, v: &Handle) -> Result<(), Memory>
    ensures ok { OnOk result (w.new ≡ w.old ++ handle_bytes v.now) }
    ensures err { OnErr result (BeginsWith w.old w.new) }
{
    w.opaque(v.bytes())?;
    Ok(())
}
