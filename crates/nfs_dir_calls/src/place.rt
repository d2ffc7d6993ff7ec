//! A name in a directory.

ghost use Rattle.std.specs.Prelude.{◌≡◌, ◌++◌, OnOk, OnErr};
ghost use Rattle.xdr_codec.specs.Reading.{Reads};
ghost use Rattle.xdr_codec.specs.Spelling.{BeginsWith};
ghost use Rattle.xdr_codec.specs.Spells.{Wrote};
ghost use Rattle.nfs_dir_calls.specs.Places.{place_at, place_bytes, SpellsPlace};

use nfs_types::{Handle, Name, read_handle, read_name, write_handle, write_name};
use xdr_codec::{Memory, Reader, Writer, XdrFault};

/// A name in a directory (RFC 1813, section 2.5, diropargs3).
#[derive(Clone, Copy, Debug)]
pub struct Place {
    /// The directory's file handle.
    pub dir: Handle,
    /// The name in it.
    pub name: Name,
}

/// Reads a place.
#[tactic(auto, unfolding(crate::specs::Places::place_at))]
pub fn read_place(r: &mut Reader<'_>) -> Result<Place, XdrFault>
    ensures { Reads (λ x. x) r.old result r.new (place_at r.old) }
{
    let mut at = r.again();
    let dir = read_handle(&mut at)?;
    let name = read_name(&mut at)?;
    *r = at;
    Ok(Place { dir, name })
}

/// Appends a place.
#[tactic(auto, using(xdr_codec::proofs::Begins::begins_then, std::proofs::Common::append_assoc), unfolding(crate::specs::Places::place_bytes))]
pub fn write_place(w: &mut Writer, dir: &Handle, name: &Name) -> Result<(), Memory>
    ensures ok { OnOk result (w.new ≡ w.old ++ place_bytes dir.now name.now) }
    ensures err { OnErr result (BeginsWith w.old w.new) }
    ensures spelled { OnOk result (Wrote (SpellsPlace dir.now name.now) w.old w.new) }
{
    write_handle(w, dir)?;
    write_name(w, name)?;
    Ok(())
}
