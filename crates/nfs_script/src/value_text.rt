//! Writes what follows `ok`.

ghost use Rattle.std.specs.Prelude.{◌≡◌, ◌++◌, OnOk, OnErr};
ghost use Rattle.xdr_codec.specs.Spelling.{BeginsWith};
ghost use Rattle.world_model.specs.Transcript.{value_text};

use crate::attr_text::{write_attrs, write_next};
use crate::hex_text::write_bytes;
use crate::shown_text::{write_names, write_text};
use world_model::Value;
use xdr_codec::{Memory, Writer};

/// Appends a value after a space, and nothing if it is empty.
pub(crate) fn write_value(out: &mut Writer, value: &Value) -> Result<(), Memory>
    ensures ok { OnOk result (out.new ≡ out.old ++ value_text value.now) }
    ensures err { OnErr result (BeginsWith out.old out.new) }
{
    match value {
        Value::Nothing => Ok(()),
        Value::Bytes(bytes) => write_bytes(out, bytes.bytes()),
        Value::Text(text) => write_text(out, text.bytes()),
        Value::Attrs(attr) => write_attrs(out, attr),
        Value::Bits(bits) => write_next(out, u64::from(*bits)),
        Value::Names(list) => write_names(out, list.names()),
    }
}
