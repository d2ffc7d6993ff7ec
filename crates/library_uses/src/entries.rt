//! An entry in XDR (RFC 4506), by `xdr_codec`: a number and a name.

ghost use Rattle.std.specs.Prelude.{◌≡◌, ◌++◌, ◌<◌, ◌^◌, length, OnOk, OnErr};
ghost use Rattle.xdr_codec.specs.Reading.{Reads};
ghost use Rattle.xdr_codec.specs.Spelling.{BeginsWith};
ghost use Rattle.library_uses.specs.Entries.{entry_at, entry_bytes};

use xdr_codec::{Memory, Reader, Writer, XdrFault};

/// The most bytes of a name that is read.
const MAX_NAME: u32 = 255;

/// Appends a number and a name. When out of memory the writer begins with what it held.
#[tactic(auto, using(xdr_codec::proofs::Begins::begins_then, std::proofs::Common::append_assoc), unfolding(crate::specs::Entries::entry_bytes))]
pub fn write_entry(w: &mut Writer, id: u64, name: &[u8]) -> Result<(), Memory>
    requires { length name.now < 2 ^ 32 }
    ensures ok { OnOk result (w.new ≡ w.old ++ entry_bytes id name.now) }
    ensures err { OnErr result (BeginsWith w.old w.new) }
{
    w.u64(id)?;
    w.opaque(name)?;
    Ok(())
}

/// Reads a number and a name, which stays a slice of the record. After a fault the reader stands where it was.
#[tactic(auto, unfolding(crate::specs::Entries::entry_at))]
pub fn read_entry<'a>(r: &mut Reader<'a>) -> Result<(u64, &'a [u8]), XdrFault>
    ensures { Reads (λ e. (e.0, e.1.now)) r.old result r.new (entry_at r.old) }
{
    let mut at = r.again();
    let id = at.u64()?;
    let name = at.opaque(MAX_NAME)?;
    *r = at;
    Ok((id, name))
}
