//! A text while it is written, up to the most bytes that it may have.

ghost use Rattle.std.specs.Prelude.{◌≡◌, ◌++◌, ◌∷◌, [], Some, codes, decimal, OnOk};
ghost use Rattle.hex.specs.Hex.{encode_lower};
ghost use Rattle.world_model.specs.Transcript.{is_shown, shown, shown_byte};
ghost use Rattle.trace_text.specs.Pages.{is_none, put};
ghost use Rattle.trace_text.specs.Texts.{hex_word, line_of};

use itoa::Buffer;
use std::alloc::Global;
use std::marker::Model;
use xdr_codec::{Blob, Memory, Writer};

/// The most bytes of a text.
const MOST_BYTES: usize = 1_048_576;

/// A text while it is written. Once it has more than 1,048,576 bytes nothing more is kept.
#[derive(Drop)]
pub(crate) struct Page {
    out: Writer,
    length: usize,
}

impl Model for Page {
    ghost use Rattle.std.specs.Prelude.{List, ℕ, Option};
    ghost use Rattle.trace_text.specs.Pages.{IsCounted, kept};

    ghost Value = { Option (List ℕ) };

    ghost view = { λ p. kept p.length p.out };

    ghost invariant = { λ p. IsCounted p.length p.out };
}

impl Page {
    /// An empty text.
    pub(crate) fn new(alloc: Global) -> Page
        ensures { result ≡ Some [] }
    {
        Page {
            out: Writer::new(alloc),
            length: 0,
        }
    }

    /// Whether it has more bytes than a text may have.
    pub(crate) fn is_full(&self) -> bool
        ensures { result ≡ is_none self.now }
    {
        self.length > MOST_BYTES
    }

    /// The text, if it isn't too long.
    pub(crate) fn finish(self) -> Option<Blob>
        ensures { result ≡ self }
    {
        if self.length > MOST_BYTES {
            return None;
        }
        Some(self.out.finish())
    }

    /// Appends these bytes.
    pub(crate) fn text(&mut self, bytes: &[u8]) -> Result<(), Memory>
        ensures { OnOk result (self.new ≡ put self.old bytes.now) }
    {
        let length = self.length.saturating_add(bytes.len());
        if length <= MOST_BYTES {
            self.out.raw(bytes)?;
        }
        self.length = length;
        Ok(())
    }

    /// Appends a number after a space.
    #[tactic(auto, using(crate::proofs::Paging::put_put))]
    pub(crate) fn next_number(&mut self, number: u64) -> Result<(), Memory>
        ensures { OnOk result (self.new ≡ put self.old (codes " " ++ decimal number)) }
    {
        let mut buffer = Buffer::new();
        self.text(b" ")?;
        self.text(buffer.format(number).as_bytes())
    }

    /// Appends the lower-case hex digits of bytes after a space, and `-` for none.
    pub(crate) fn next_bytes(&mut self, alloc: Global, bytes: &[u8]) -> Result<(), Memory>
        ensures { OnOk result (self.new ≡ put self.old (codes " " ++ hex_word bytes.now)) }
    {
        if bytes.is_empty() {
            return self.text(b" -");
        }
        self.text(b" ")?;
        self.digits(alloc, bytes)
    }

    /// Appends the lower-case hex digits of bytes.
    fn digits(&mut self, alloc: Global, bytes: &[u8]) -> Result<(), Memory>
        ensures { OnOk result (self.new ≡ put self.old (encode_lower bytes.now)) }
    {
        let digits = hex::encode(alloc, bytes)?;
        self.text(digits.as_bytes())
    }

    /// Appends a name or text as answers show it: bytes 33 to 126 other than `%` as they are, each other one as `%` and its
    /// two hex digits.
    pub(crate) fn shown(&mut self, alloc: Global, bytes: &[u8]) -> Result<(), Memory>
        ensures { OnOk result (self.new ≡ put self.old (shown bytes.now)) }
    {
        for byte in bytes {
            self.shown_byte(alloc, *byte)?;
        }
        Ok(())
    }

    fn shown_byte(&mut self, alloc: Global, byte: u8) -> Result<(), Memory>
        ensures { OnOk result (self.new ≡ put self.old (shown_byte byte)) }
    {
        if is_shown(byte) {
            return self.text(&[byte]);
        }
        self.text(b"%")?;
        self.digits(alloc, &[byte])
    }

    /// Appends a line of a word and a number.
    pub(crate) fn number_line(&mut self, word: &[u8], number: u64) -> Result<(), Memory>
        ensures { OnOk result (self.new ≡ put self.old (line_of word.now (decimal number ∷ []))) }
    {
        self.text(word)?;
        self.next_number(number)?;
        self.text(b"\n")
    }

    /// Appends a line of a word and bytes.
    pub(crate) fn bytes_line(
        &mut self,
        alloc: Global,
        word: &[u8],
        bytes: &[u8],
    ) -> Result<(), Memory>
        ensures { OnOk result (self.new ≡ put self.old (line_of word.now (hex_word bytes.now ∷ []))) }
    {
        self.text(word)?;
        self.next_bytes(alloc, bytes)?;
        self.text(b"\n")
    }
}

/// Whether a byte is shown as it is.
fn is_shown(byte: u8) -> bool
    ensures { result ≡ is_shown byte }
{
    33 <= byte && byte <= 126 && byte != b'%'
}
