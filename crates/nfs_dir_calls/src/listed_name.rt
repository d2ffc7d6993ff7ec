//! Names in a listing, which lie in the record that they were read from.

ghost use Rattle.std.specs.Prelude.{◌≡◌, ◌++◌, OnOk, OnErr};
ghost use Rattle.xdr_codec.specs.Reading.{Reads};
ghost use Rattle.xdr_codec.specs.Spelling.{BeginsWith};
ghost use Rattle.xdr_codec.specs.Spells.{Wrote};
ghost use Rattle.nfs_types.specs.Names.{IsName, is_no_name};
ghost use Rattle.nfs_types.specs.Fields.{name_at, name_bytes};
ghost use Rattle.nfs_types.specs.Spells.{SpellsName};

use nfs_types::Name;
use xdr_codec::{Memory, Reader, Writer, XdrFault};

/// Reads a name and copies nothing.
#[tactic(auto, unfolding(nfs_types::specs::Fields::name_at))]
pub fn read_listed_name<'a>(r: &mut Reader<'a>) -> Result<&'a [u8], XdrFault>
    ensures { Reads (λ x. x.now) r.old result r.new (name_at r.old) }
{
    let mut at = r.again();
    let name = at.opaque(Name::MAX as u32)?;
    if is_no_name(name) {
        return Err(XdrFault::BadValue);
    }
    *r = at;
    Ok(name)
}

/// Appends a name.
#[tactic(auto, using(xdr_codec::proofs::Begins::begins_same), unfolding(nfs_types::specs::Fields::name_bytes))]
pub fn write_listed_name(w: &mut Writer, name: &[u8]) -> Result<(), Memory>
    requires { IsName name.now }
    ensures ok { OnOk result (w.new ≡ w.old ++ name_bytes name.now) }
    ensures err { OnErr result (BeginsWith w.old w.new) }
    ensures spelled { OnOk result (Wrote (SpellsName name.now) w.old w.new) }
{
    w.opaque(name)?;
    Ok(())
}

/// Whether they are empty, or have a `/` or a zero byte.
fn is_no_name(bytes: &[u8]) -> bool
    ensures { result ≡ is_no_name bytes.now }
{
    bytes.is_empty() || bytes.contains(&b'/') || bytes.contains(&0)
}
