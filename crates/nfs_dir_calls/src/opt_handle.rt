//! A file handle or none.

ghost use Rattle.std.specs.Prelude.{◌≡◌, ◌++◌, OnOk, OnErr};
ghost use Rattle.xdr_codec.specs.Reading.{Reads};
ghost use Rattle.xdr_codec.specs.Spelling.{BeginsWith};
ghost use Rattle.xdr_codec.specs.Spells.{Wrote};
ghost use Rattle.nfs_dir_calls.specs.OptHandles.{opt_handle_at, opt_handle_bytes, SpellsOptHandle};

use nfs_types::{Handle, read_handle, write_handle};
use xdr_codec::{Memory, Reader, Writer, XdrFault};

/// Reads a file handle or none.
#[tactic(auto, unfolding(crate::specs::OptHandles::opt_handle_at))]
pub fn read_opt_handle(r: &mut Reader<'_>) -> Result<Option<Handle>, XdrFault>
    ensures { Reads (λ x. x) r.old result r.new (opt_handle_at r.old) }
{
    let mut at = r.again();
    let handle = if at.flag()? {
        Some(read_handle(&mut at)?)
    } else {
        None
    };
    *r = at;
    Ok(handle)
}

/// Appends a file handle or none.
#[tactic(auto, using(xdr_codec::proofs::Begins::begins_then, std::proofs::Common::append_assoc), unfolding(crate::specs::OptHandles::opt_handle_bytes))]
pub fn write_opt_handle(w: &mut Writer, v: &Option<Handle>) -> Result<(), Memory>
    ensures ok { OnOk result (w.new ≡ w.old ++ opt_handle_bytes v.now) }
    ensures err { OnErr result (BeginsWith w.old w.new) }
    ensures spelled { OnOk result (Wrote (SpellsOptHandle v.now) w.old w.new) }
{
    if let Some(handle) = v {
        w.flag(true)?;
        write_handle(w, handle)?;
    } else {
        w.flag(false)?;
    }
    Ok(())
}
