//! Results at a status other than 0.

ghost use Rattle.std.specs.Prelude.{◌≡◌, ◌++◌, OnOk, OnErr};
ghost use Rattle.xdr_codec.specs.Spelling.{BeginsWith};
ghost use Rattle.xdr_codec.specs.Spells.{Wrote};
ghost use Rattle.xdr_codec.specs.Arms.{SpellsStatus};
ghost use Rattle.nfs_types.specs.Spells.{SpellsOptAttr, SpellsWcc};
ghost use Rattle.nfs_dir_calls.specs.Failures.{IsFailure, attr_failure_bytes, wcc_failure_bytes};

use nfs_types::{Attr, Status, Wcc, write_opt_attr, write_wcc};
use xdr_codec::{Memory, Writer};

/// Appends a status and optional attributes.
#[tactic(auto, using(xdr_codec::proofs::Begins::begins_then, std::proofs::Common::append_assoc), unfolding(crate::specs::Failures::attr_failure_bytes))]
pub fn write_attr_failure(w: &mut Writer, status: Status, attr: &Option<Attr>) -> Result<(), Memory>
    requires { IsFailure status }
    ensures ok { OnOk result (w.new ≡ w.old ++ attr_failure_bytes status attr.now) }
    ensures err { OnErr result (BeginsWith w.old w.new) }
    ensures spelled { OnOk result (Wrote (SpellsStatus SpellsOptAttr status.0 attr.now) w.old w.new) }
{
    w.u32(status.0)?;
    write_opt_attr(w, attr)?;
    Ok(())
}

/// Appends a status, and a directory before and after.
#[tactic(auto, using(xdr_codec::proofs::Begins::begins_then, std::proofs::Common::append_assoc), unfolding(crate::specs::Failures::wcc_failure_bytes))]
pub fn write_wcc_failure(w: &mut Writer, status: Status, wcc: &Wcc) -> Result<(), Memory>
    requires { IsFailure status }
    ensures ok { OnOk result (w.new ≡ w.old ++ wcc_failure_bytes status wcc.now) }
    ensures err { OnErr result (BeginsWith w.old w.new) }
    ensures spelled { OnOk result (Wrote (SpellsStatus SpellsWcc status.0 wcc.now) w.old w.new) }
{
    w.u32(status.0)?;
    write_wcc(w, wcc)?;
    Ok(())
}
