//! Times of a server.

ghost use Rattle.std.specs.Prelude.{◌≡◌, ◌++◌, ℕ, List, Ok, OnOk, OnErr};
ghost use Rattle.xdr_codec.specs.Reading.{Reads};
ghost use Rattle.xdr_codec.specs.Spelling.{BeginsWith};
ghost use Rattle.xdr_codec.specs.Spells.{Finds, Wrote};
ghost use Rattle.nfs_types.specs.Fields.{time_at, time_bytes};
ghost use Rattle.nfs_types.specs.Spells.{SpellsTime};

use xdr_codec::{Memory, Reader, Writer, XdrFault, fits_u32};

/// A time since the start of 1970 (RFC 1813, section 2.5, nfstime3).
#[derive(Clone, Copy, Debug, PartialEq, Eq)]
pub struct Time {
    /// Whole seconds.
    pub seconds: u32,
    /// Nanoseconds after them. Any value is kept as it is.
    pub nanos: u32,
}

/// Reads a time. Short if fewer than 8 bytes remain.
pub fn read_time(r: &mut Reader<'_>) -> Result<Time, XdrFault>
    ensures exact { Reads (λ x. x) r.old result r.new (time_at r.old) }
    ensures spelled { Finds (λ x. x) SpellsTime r.old result r.new }
{
    r.holds_bytes();
    time_of(r)
}

#[tactic(auto, unfolding(crate::specs::Fields::time_at))]
fn time_of(r: &mut Reader<'_>) -> Result<Time, XdrFault>
    ensures { Reads (λ x. x) r.old result r.new (time_at r.old) }
{
    let mut at = r.again();
    let seconds = at.u32()?;
    let nanos = at.u32()?;
    *r = at;
    Ok(Time { seconds, nanos })
}

/// Writes a time. When out of memory the writer begins with what it held.
pub fn write_time(w: &mut Writer, v: &Time) -> Result<(), Memory>
    ensures ok { OnOk result (w.new ≡ w.old ++ time_bytes v.now) }
    ensures err { OnErr result (BeginsWith w.old w.new) }
    ensures spelled { OnOk result (Wrote (SpellsTime v.now) w.old w.new) }
{
    spells_time(v);
    time_into(w, v)
}

/// What is written of it is a spelling of it, and is read back as it is. A fact for proofs: it does nothing.
pub fn time_read_back(v: &Time)
    ensures spelled { SpellsTime v.now (time_bytes v.now) }
    ensures again { (rest : List ℕ) → time_at (time_bytes v.now ++ rest) ≡ Ok (v.now, rest) }
{
    spells_time(v);
}

pub(crate) fn spells_time(v: &Time)
    ensures { SpellsTime v.now (time_bytes v.now) }
{
    fits_u32(v.seconds);
    fits_u32(v.nanos);
}

#[tactic(auto, using(xdr_codec::proofs::Begins::begins_then, std::proofs::Common::append_assoc), unfolding(crate::specs::Fields::time_bytes))]
fn time_into(w: &mut Writer, v: &Time) -> Result<(), Memory>
    ensures ok { OnOk result (w.new ≡ w.old ++ time_bytes v.now) }
    ensures err { OnErr result (BeginsWith w.old w.new) }
{
    w.u32(v.seconds)?;
    w.u32(v.nanos)?;
    Ok(())
}
