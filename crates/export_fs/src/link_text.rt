//! The texts of symbolic links.

ghost use Rattle.std.specs.Prelude.{◌≡◌, ◌≤◌, length, IfOk};

use std::alloc::Global;
use std::marker::Model;
use xdr_codec::Memory;

/// The most bytes of the text of a symbolic link.
pub(crate) const MOST_TEXT: usize = 1024;

/// The text of a symbolic link, at most 1,024 bytes: what a READLINK can answer (RFC 1813, section 3.3.5).
#[derive(Drop)]
pub(crate) struct LinkText {
    text: Vec<u8>,
}

impl Model for LinkText {
    ghost use Rattle.std.specs.Prelude.{List, ℕ, length, ◌≤◌};

    ghost Value = { List ℕ };

    ghost view = { λ t. t.text.items };

    ghost invariant = { λ t. length t.text.items ≤ 1024 };
}

impl LinkText {
    /// A copy of the bytes.
    pub(crate) fn copy(alloc: Global, bytes: &[u8]) -> Result<LinkText, Memory>
        requires { length bytes.now ≤ 1024 }
        ensures { IfOk result (λ t. t ≡ bytes.now) }
    {
        let mut text = Vec::new(alloc);
        text.extend_from_slice(bytes)?;
        Ok(LinkText { text })
    }

    /// The bytes.
    pub(crate) fn bytes(&self) -> &[u8]
        ensures same { result.now ≡ self.now }
        ensures fits { length self.now ≤ 1024 }
    {
        self.text.as_slice()
    }
}
