//! The bytes of a page.

ghost use Rattle.std.specs.Prelude.{◌≡◌, ◌≤◌, ◌+◌, ◌/◌, [], length, nat_lt, if◌then◌else◌};
ghost use Rattle.std.specs.Int.{div_ceil};
ghost use Rattle.std.specs.Option.{option_map_or};
ghost use Rattle.page_cache.specs.Bytes.{resized, over, start_of, put_page, cut_page};

use std::marker::Model;

/// At most 4,096 bytes, in memory of their own that is taken once.
#[derive(Drop)]
pub(crate) struct Page {
    bytes: [u8; 4096],
    len: usize,
}

impl Model for Page {
    ghost use Rattle.std.specs.Prelude.{◌≡◌, ◌≤◌, List, ℕ, length, take};

    ghost Value = { List ℕ };

    ghost view = { λ p. take p.len p.bytes };

    ghost invariant = { λ p. (p.len ≤ 4096) × (length p.bytes ≡ 4096) };
}

impl Page {
    /// The most bytes.
    pub(crate) const SIZE: usize = 4096;

    /// No bytes.
    pub(crate) fn empty() -> Page
        ensures { result ≡ [] }
    {
        Page {
            bytes: [0; Page::SIZE],
            len: 0,
        }
    }

    /// Its bytes.
    pub(crate) fn bytes(&self) -> &[u8]
        ensures same { result.now ≡ self.now }
        ensures bound { length self.now ≤ 4096 }
    {
        &self.bytes[..self.len]
    }

    /// These bytes in place of its own.
    pub(crate) fn put(&mut self, bytes: &[u8])
        requires { length bytes.now ≤ 4096 }
        ensures { self.new ≡ bytes.now }
    {
        self.bytes[..bytes.len()].copy_from_slice(bytes);
        self.len = bytes.len();
    }

    /// Cuts it to a length, or fills it with zeros up to it.
    fn resize(&mut self, len: usize)
        requires { len ≤ 4096 }
        ensures { self.new ≡ resized len self.old }
    {
        if self.len < len {
            self.bytes[self.len..len].fill(0);
        }
        self.len = len;
    }

    /// Fills it with zeros up to a length.
    fn fill_up(&mut self, len: usize)
        requires { len ≤ 4096 }
        ensures { self.new ≡ (if nat_lt (length self.old) len then resized len self.old else self.old) }
    {
        if self.len < len {
            self.resize(len);
        }
    }

    /// Puts bytes over its own, from a place in it or at its end on.
    fn lay(&mut self, at: usize, bytes: &[u8])
        requires inside { at ≤ length self.old }
        requires fits { at + length bytes.now ≤ 4096 }
        ensures { self.new ≡ over at bytes.now self.old }
    {
        let end = at + bytes.len();
        self.bytes[at..end].copy_from_slice(bytes);
        self.len = self.len.max(end);
    }

    /// Puts bytes over its own, from a place on. A gap before them is filled with zeros.
    fn put_over(&mut self, at: usize, bytes: &[u8])
        requires { at + length bytes.now ≤ 4096 }
        ensures { self.new ≡ over at bytes.now self.old }
    {
        self.fill_up(at);
        self.lay(at, bytes);
    }

    /// The number of the page that holds the byte at an offset of the file.
    pub(crate) fn holding(offset: u64) -> u64
        ensures { result ≡ offset / 4096 }
    {
        offset / Page::SIZE as u64
    }

    /// The number of the first page that begins past these bytes at an offset of the file.
    pub(crate) fn after(offset: u64, bytes: &[u8]) -> u64
        ensures { result ≡ div_ceil (offset + length bytes.now) 4096 }
    {
        (u128::from(offset) + bytes.len() as u128).div_ceil(Page::SIZE as u128) as u64
    }

    /// Where the page of this number begins in the file.
    fn start(index: u64) -> u128
        ensures { result ≡ start_of index }
    {
        u128::from(index) * Page::SIZE as u128
    }

    /// The same if it is a page of the file at all, and has this number.
    pub(crate) fn write_at(&mut self, index: Option<u64>, offset: u64, bytes: &[u8])
        ensures { self.new ≡ option_map_or (λ i. put_page i offset bytes.now self.old) index self.old }
    {
        match index {
            Some(index) => self.write(index, offset, bytes),
            None => (),
        }
    }

    /// Changes it as a WRITE of these bytes at this offset changes the file's page of this number.
    fn write(&mut self, index: u64, offset: u64, bytes: &[u8])
        ensures { self.new ≡ put_page index offset bytes.now self.old }
    {
        let (start, from) = (Page::start(index), u128::from(offset));
        if bytes.is_empty() || from + bytes.len() as u128 <= start {
            return;
        }
        let at = from.saturating_sub(start).min(Page::SIZE as u128) as usize;
        let skipped = start.saturating_sub(from) as usize;
        let count = (Page::SIZE - at).min(bytes.len() - skipped);
        self.put_over(at, &bytes[skipped..skipped + count]);
    }

    /// The same if it is a page of the file at all, and has this number.
    pub(crate) fn cut_at(&mut self, index: Option<u64>, size: u64)
        ensures { self.new ≡ option_map_or (λ i. cut_page i size self.old) index self.old }
    {
        match index {
            Some(index) => self.cut(index, size),
            None => (),
        }
    }

    /// Changes it as a new size of the file changes the file's page of this number.
    fn cut(&mut self, index: u64, size: u64)
        ensures { self.new ≡ cut_page index size self.old }
    {
        let len = u128::from(size).saturating_sub(Page::start(index));
        self.resize(len.min(Page::SIZE as u128) as usize);
    }
}
