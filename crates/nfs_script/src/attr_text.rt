//! Writes what is shown of an object's attributes.

ghost use Rattle.std.specs.Prelude.{◌≡◌, ◌++◌, codes, decimal, OnOk, OnErr};
ghost use Rattle.xdr_codec.specs.Spelling.{BeginsWith};
ghost use Rattle.world_model.specs.Transcript.{attr_text, mode_text, octal_digit};

use crate::answer_line::write_number;
use nfs_types::Attr;
use xdr_codec::{Memory, Writer};

/// Appends an object's attributes after a space.
#[tactic(auto, using(xdr_codec::proofs::Begins::after_a, std::proofs::Common::append_assoc))]
pub(crate) fn write_attrs(out: &mut Writer, attr: &Attr) -> Result<(), Memory>
    ensures ok { OnOk result (out.new ≡ out.old ++ (codes " " ++ attr_text attr.now)) }
    ensures err { OnErr result (BeginsWith out.old out.new) }
{
    out.raw(b" ")?;
    write_attr(out, attr)?;
    Ok(())
}

/// Appends an object's kind, mode, count of names, owner, group, length, number, and the second when its bytes last
/// changed, parted by single spaces.
#[tactic(auto, using(xdr_codec::proofs::Begins::begins_a, xdr_codec::proofs::Begins::begins_b, xdr_codec::proofs::Begins::after_c, xdr_codec::proofs::Begins::after_d, xdr_codec::proofs::Begins::after_e, crate::proofs::Afterwards::after_f, crate::proofs::Afterwards::after_g, crate::proofs::Afterwards::after_h, std::proofs::Common::append_assoc), unfolding(world_model::specs::Transcript::attr_text))]
fn write_attr(out: &mut Writer, attr: &Attr) -> Result<(), Memory>
    ensures ok { OnOk result (out.new ≡ out.old ++ attr_text attr.now) }
    ensures err { OnErr result (BeginsWith out.old out.new) }
{
    write_number(out, u64::from(attr.kind))?;
    out.raw(b" ")?;
    write_mode(out, attr.mode)?;
    write_next(out, u64::from(attr.nlink))?;
    write_next(out, u64::from(attr.uid))?;
    write_next(out, u64::from(attr.gid))?;
    write_next(out, attr.size)?;
    write_next(out, attr.fileid)?;
    write_next(out, u64::from(attr.mtime.seconds))?;
    Ok(())
}

/// Appends a number after a space.
#[tactic(auto, using(xdr_codec::proofs::Begins::begins_then, std::proofs::Common::append_assoc))]
pub(crate) fn write_next(out: &mut Writer, number: u64) -> Result<(), Memory>
    ensures ok { OnOk result (out.new ≡ out.old ++ (codes " " ++ decimal number)) }
    ensures err { OnErr result (BeginsWith out.old out.new) }
{
    out.raw(b" ")?;
    write_number(out, number)?;
    Ok(())
}

/// Appends the lower 12 bits of a mode as four octal digits.
#[tactic(auto, unfolding(world_model::specs::Transcript::mode_text))]
fn write_mode(out: &mut Writer, mode: u32) -> Result<(), Memory>
    ensures ok { OnOk result (out.new ≡ out.old ++ mode_text mode) }
    ensures err { OnErr result (out.new ≡ out.old) }
{
    out.raw(&[
        octal_digit(mode / 512),
        octal_digit(mode / 64),
        octal_digit(mode / 8),
        octal_digit(mode),
    ])
}

/// The byte of a number's last octal digit.
fn octal_digit(number: u32) -> u8
    ensures { result ≡ octal_digit number }
{
    b'0' + (number % 8) as u8
}
