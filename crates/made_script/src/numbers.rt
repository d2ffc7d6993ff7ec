//! Numbers as text.

ghost use Rattle.std.specs.Prelude.{◌≡◌, ◌++◌, ◌<◌, [], ◌∷◌, decimal, slice_index, OnOk, OnErr};
ghost use Rattle.hex.specs.Hex.{encode_lower, lower_digits};

use itoa::Buffer;
use xdr_codec::{Memory, Writer};

/// Appends the decimal digits of a number. When out of memory the writer is as it was.
pub(crate) fn write_number(out: &mut Writer, number: u64) -> Result<(), Memory>
    ensures ok { OnOk result (out.new ≡ out.old ++ decimal number) }
    ensures err { OnErr result (out.new ≡ out.old) }
{
    let mut buffer = Buffer::new();
    out.raw(buffer.format(number).as_bytes())
}

/// Appends the two lower-case hex digits of a byte.
#[tactic(auto, using(crate::proofs::Digits::of_byte))]
pub(crate) fn write_byte(out: &mut Writer, byte: u8) -> Result<(), Memory>
    ensures { OnOk result (out.new ≡ out.old ++ encode_lower (byte ∷ [])) }
{
    out.raw(&[digit(byte / 16), digit(byte % 16)])
}

/// The lower-case hex digit of a number.
#[tactic(auto, using(crate::proofs::Digits::numeral, crate::proofs::Digits::letter))]
fn digit(value: u8) -> u8
    requires { value < 16 }
    ensures { result ≡ slice_index lower_digits value }
{
    if value < 10 {
        b'0' + value
    } else {
        b'a' - 10 + value
    }
}
