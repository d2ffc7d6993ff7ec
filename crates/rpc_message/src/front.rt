//! Reads what stands at the front of bytes, and shows the bytes after it.

ghost use Rattle.xdr_codec.specs.Reading.{u32_at};
ghost use Rattle.xdr_codec.specs.Whole.{Gives};
ghost use Rattle.rpc_message.specs.Auth.{auth_at, after_body_at};

use xdr_codec::{Reader, XdrFault};

/// The most bytes in the body of a credential or verifier.
const AUTH_MAX: u32 = 400;

/// A word, and the bytes after it.
pub fn word<'a>(bytes: &'a [u8]) -> Result<(u32, &'a [u8]), XdrFault>
    ensures { Gives (λ x. (x.0, x.1.now)) result (u32_at bytes.entry.now) }
{
    let value = Reader::new(bytes).u32()?;
    Ok((value, &bytes[4..]))
}

/// The bytes after a credential or verifier, which is not used.
#[tactic(auto, unfolding(crate::specs::Auth::auth_at))]
pub fn after_auth<'a>(bytes: &'a [u8]) -> Result<&'a [u8], XdrFault>
    ensures { Gives (λ rest. (tt, rest.now)) result (auth_at bytes.entry.now) }
{
    let (_flavor, bytes) = word(bytes)?;
    after_body(bytes)
}

fn after_body<'a>(bytes: &'a [u8]) -> Result<&'a [u8], XdrFault>
    ensures { Gives (λ rest. (tt, rest.now)) result (after_body_at bytes.entry.now) }
{
    let body = Reader::new(bytes).opaque(AUTH_MAX)?;
    let padding = (4 - body.len() % 4) % 4;
    let (_, rest) = bytes.split_at(4 + body.len() + padding);
    Ok(rest)
}
