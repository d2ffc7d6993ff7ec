//! Names of files and directories.

ghost use Rattle.std.specs.Prelude.{◌≡◌, ◌++◌, ℕ, List, Ok, MatchOption, OnOk, OnErr};
ghost use Rattle.xdr_codec.specs.Reading.{Reads};
ghost use Rattle.xdr_codec.specs.Spelling.{BeginsWith};
ghost use Rattle.xdr_codec.specs.Spells.{Finds, Wrote};
ghost use Rattle.nfs_types.specs.Fields.{name_at, name_bytes};
ghost use Rattle.nfs_types.specs.Spells.{SpellsName};
ghost use Rattle.nfs_types.specs.Names.{IsName, is_no_name};

use crate::held::hold;
use std::marker::Model;
use xdr_codec::{Memory, Reader, Writer, XdrFault};

/// A name of a file or directory (RFC 1813, section 2.5, filename3): 1 to 255 bytes without `/` and without
/// a zero byte. It holds them inside and takes no memory. The bytes of the array past the length are zero.
#[derive(Clone, Copy, Debug)]
pub struct Name {
    bytes: [u8; 255],
    len: u8,
}

impl Model for Name {
    ghost use Rattle.std.specs.Prelude.{List, ℕ, length, take};
    ghost use Rattle.nfs_types.specs.Held.{held, Holds, held_len, held_again};
    ghost use Rattle.nfs_types.specs.Names.{IsName};

    ghost Value = { List ℕ };

    ghost view = { λ n. take n.len n.bytes };

    ghost invariant = { λ n. Holds 255 n.bytes n.len × IsName (take n.len n.bytes) };

    ghost inverse = { λ v. record { bytes = held 255 v; len = length v } };

    ghost inverse_ok = { λ n k i. record {
      bytes = held_again 255 n.bytes n.len k.0 i;
      len = held_len 255 n.bytes n.len k.0 i;
    } };
}

impl Name {
    /// The most bytes that a name has.
    pub const MAX: usize = 255;

    /// A name of these bytes; None exactly if they break the rule.
    #[tactic(auto, using(crate::proofs::Names::none_of_test))]
    pub fn make(bytes: &[u8]) -> Option<Name>
        ensures { MatchOption result (¬ IsName bytes.now) (λ n. (n ≡ bytes.now) × IsName bytes.now) }
    {
        if bytes.len() > Name::MAX {
            return None;
        }
        if is_no_name(bytes) {
            return None;
        }
        Some(Name::of(bytes))
    }

    fn of(bytes: &[u8]) -> Name
        requires { IsName bytes.now }
        ensures { result ≡ bytes.now }
    {
        Name {
            bytes: hold(bytes),
            len: bytes.len() as u8,
        }
    }

    /// Its bytes.
    pub fn bytes(&self) -> &[u8]
        ensures same { result.now ≡ self.now }
        ensures rule { IsName self.now }
    {
        &self.bytes[..self.len as usize]
    }
}

/// Whether they are empty, or have a `/` or a zero byte.
fn is_no_name(bytes: &[u8]) -> bool
    ensures { result ≡ is_no_name bytes.now }
{
    bytes.is_empty() || bytes.contains(&b'/') || bytes.contains(&0)
}

/// Reads a name. The errors:
/// - TooLong: its length is above 255.
/// - Short: bytes are missing.
/// - BadValue: else it is empty, or has a `/` or a zero byte.
pub fn read_name(r: &mut Reader<'_>) -> Result<Name, XdrFault>
    ensures exact { Reads (λ x. x) r.old result r.new (name_at r.old) }
    ensures spelled { Finds (λ x. x) SpellsName r.old result r.new }
{
    r.holds_bytes();
    name_of(r)
}

#[tactic(auto, unfolding(crate::specs::Fields::name_at))]
fn name_of(r: &mut Reader<'_>) -> Result<Name, XdrFault>
    ensures { Reads (λ x. x) r.old result r.new (name_at r.old) }
{
    let mut at = r.again();
    let bytes = at.opaque(255)?;
    if is_no_name(bytes) {
        return Err(XdrFault::BadValue);
    }
    *r = at;
    Ok(Name::of(bytes))
}

/// Writes a name. When out of memory the writer begins with what it held.
pub fn write_name(w: &mut Writer, v: &Name) -> Result<(), Memory>
    ensures ok { OnOk result (w.new ≡ w.old ++ name_bytes v.now) }
    ensures err { OnErr result (BeginsWith w.old w.new) }
    ensures spelled { OnOk result (Wrote (SpellsName v.now) w.old w.new) }
{
    spells_name(v);
    name_into(w, v)
}

/// What is written of it is a spelling of it, and is read back as it is. A fact for proofs: it does nothing.
pub fn name_read_back(v: &Name)
    ensures spelled { SpellsName v.now (name_bytes v.now) }
    ensures again { (rest : List ℕ) → name_at (name_bytes v.now ++ rest) ≡ Ok (v.now, rest) }
{
    spells_name(v);
}

#[tactic(auto, using(crate::proofs::Written::name_written))]
fn spells_name(v: &Name)
    ensures { SpellsName v.now (name_bytes v.now) }
{
    let _bytes = v.bytes();
}

#[tactic(auto, using(xdr_codec::proofs::Begins::begins_then, std::proofs::Common::append_assoc), unfolding(crate::specs::Fields::name_bytes))]
fn name_into(w: &mut Writer, v: &Name) -> Result<(), Memory>
    ensures ok { OnOk result (w.new ≡ w.old ++ name_bytes v.now) }
    ensures err { OnErr result (BeginsWith w.old w.new) }
{
    w.opaque(v.bytes())?;
    Ok(())
}
