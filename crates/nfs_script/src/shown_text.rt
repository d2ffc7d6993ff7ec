//! Writes names and texts, where `%` and two hex digits stand for what isn't shown as it is.

ghost use Rattle.std.specs.Prelude.{◌≡◌, ◌++◌, codes, OnOk, OnErr};
ghost use Rattle.xdr_codec.specs.Spelling.{BeginsWith};
ghost use Rattle.world_model.specs.Transcript.{is_shown, shown_byte, shown, spaced, names_text};

use crate::hex_text::write_pair;
use nfs_types::Name;
use xdr_codec::{Memory, Writer};

/// Appends each name after a space.
#[tactic(auto, using(xdr_codec::proofs::Begins::begins_then, xdr_codec::proofs::Begins::begins_more, crate::proofs::Shown::names_start))]
pub(crate) fn write_names(out: &mut Writer, names: &[Name]) -> Result<(), Memory>
    ensures ok { OnOk result (out.new ≡ out.old ++ names_text names.now) }
    ensures err { OnErr result (BeginsWith out.old out.new) }
{
    for name in names {
        write_name(out, name)?;
    }
    Ok(())
}

fn write_name(out: &mut Writer, name: &Name) -> Result<(), Memory>
    ensures ok { OnOk result (out.new ≡ out.old ++ (codes " " ++ shown name.now)) }
    ensures err { OnErr result (BeginsWith out.old out.new) }
{
    write_word(out, name.bytes())
}

/// Appends a text after a space, and nothing if it is empty.
#[tactic(auto, using(crate::proofs::Shown::spaced_shown, crate::proofs::Shown::shown_none))]
pub(crate) fn write_text(out: &mut Writer, text: &[u8]) -> Result<(), Memory>
    ensures ok { OnOk result (out.new ≡ out.old ++ spaced (shown text.now)) }
    ensures err { OnErr result (BeginsWith out.old out.new) }
{
    if text.is_empty() {
        return Ok(());
    }
    write_word(out, text)
}

/// Appends a name or text after a space.
#[tactic(auto, using(xdr_codec::proofs::Begins::begins_then, std::proofs::Common::append_assoc))]
fn write_word(out: &mut Writer, bytes: &[u8]) -> Result<(), Memory>
    ensures ok { OnOk result (out.new ≡ out.old ++ (codes " " ++ shown bytes.now)) }
    ensures err { OnErr result (BeginsWith out.old out.new) }
{
    out.raw(b" ")?;
    write_shown(out, bytes)?;
    Ok(())
}

/// Appends bytes as they are shown.
#[tactic(auto, using(xdr_codec::proofs::Begins::begins_then, xdr_codec::proofs::Begins::begins_more, crate::proofs::Shown::shown_start))]
fn write_shown(out: &mut Writer, bytes: &[u8]) -> Result<(), Memory>
    ensures ok { OnOk result (out.new ≡ out.old ++ shown bytes.now) }
    ensures err { OnErr result (BeginsWith out.old out.new) }
{
    for byte in bytes {
        write_byte(out, *byte)?;
    }
    Ok(())
}

#[tactic(auto, using(xdr_codec::proofs::Begins::begins_then, std::proofs::Common::append_assoc))]
fn write_byte(out: &mut Writer, byte: u8) -> Result<(), Memory>
    ensures ok { OnOk result (out.new ≡ out.old ++ shown_byte byte) }
    ensures err { OnErr result (BeginsWith out.old out.new) }
{
    if is_shown(byte) {
        return out.raw(&[byte]);
    }
    out.raw(b"%")?;
    write_pair(out, byte)?;
    Ok(())
}

/// Whether a byte is shown as it is.
fn is_shown(byte: u8) -> bool
    ensures { result ≡ is_shown byte }
{
    33 <= byte && byte <= 126 && byte != b'%'
}
