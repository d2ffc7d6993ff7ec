//! Verifiers.

ghost use Rattle.std.specs.Prelude.{◌≡◌, ◌++◌, ℕ, List, Ok, OnOk, OnErr};
ghost use Rattle.xdr_codec.specs.Reading.{Reads};
ghost use Rattle.xdr_codec.specs.Spelling.{BeginsWith};
ghost use Rattle.xdr_codec.specs.Spells.{Finds, Wrote};
ghost use Rattle.nfs_types.specs.Fields.{verf_at, verf_bytes};
ghost use Rattle.nfs_types.specs.Spells.{SpellsVerf};

use crate::held::hold;
use xdr_codec::{Memory, Reader, Writer, XdrFault};

/// A verifier: 8 bytes that the server or the client made up (RFC 1813, section 2.5, cookieverf3, createverf3
/// and writeverf3).
#[derive(Clone, Copy, Debug, PartialEq, Eq)]
pub struct Verf(pub [u8; 8]);

/// Reads a verifier. Short if fewer than 8 bytes remain.
pub fn read_verf(r: &mut Reader<'_>) -> Result<Verf, XdrFault>
    ensures exact { Reads (λ x. x) r.old result r.new (verf_at r.old) }
    ensures spelled { Finds (λ x. x) SpellsVerf r.old result r.new }
{
    r.holds_bytes();
    verf_of(r)
}

#[tactic(auto, unfolding(crate::specs::Fields::verf_at))]
fn verf_of(r: &mut Reader<'_>) -> Result<Verf, XdrFault>
    ensures { Reads (λ x. x) r.old result r.new (verf_at r.old) }
{
    let mut at = r.again();
    let bytes = at.fixed(8)?;
    *r = at;
    Ok(Verf(hold(bytes)))
}

/// Writes a verifier. When out of memory the writer begins with what it held.
pub fn write_verf(w: &mut Writer, v: &Verf) -> Result<(), Memory>
    ensures ok { OnOk result (w.new ≡ w.old ++ verf_bytes v.now) }
    ensures err { OnErr result (BeginsWith w.old w.new) }
    ensures spelled { OnOk result (Wrote (SpellsVerf v.now) w.old w.new) }
{
    spells_verf(v);
    verf_into(w, v)
}

/// What is written of it is a spelling of it, and is read back as it is. A fact for proofs: it does nothing.
pub fn verf_read_back(v: &Verf)
    ensures spelled { SpellsVerf v.now (verf_bytes v.now) }
    ensures again { (rest : List ℕ) → verf_at (verf_bytes v.now ++ rest) ≡ Ok (v.now, rest) }
{
    spells_verf(v);
}

#[tactic(auto, using(crate::proofs::Written::verf_written))]
fn spells_verf(v: &Verf)
    ensures { SpellsVerf v.now (verf_bytes v.now) }
{
    let _len = v.0.len();
}

#[tactic(auto, using(xdr_codec::proofs::Begins::begins_then, std::proofs::Common::append_assoc), unfolding(crate::specs::Fields::verf_bytes))]
fn verf_into(w: &mut Writer, v: &Verf) -> Result<(), Memory>
    ensures ok { OnOk result (w.new ≡ w.old ++ verf_bytes v.now) }
    ensures err { OnErr result (BeginsWith w.old w.new) }
{
    w.fixed(&v.0)?;
    Ok(())
}
