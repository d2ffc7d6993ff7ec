//! A page as it stands in the body of a slot.

ghost use Rattle.std.specs.Prelude.{◌≡◌, ◌≤◌, ◌<◌, ◌^◌, ◌%◌, ◌++◌, ℕ, List, Some, Ok, length, option_map, replicate, IfOk, OnOk, true, ◌↔◌};
ghost use Rattle.xdr_codec.specs.Reading.{Reads};
ghost use Rattle.page_store.specs.Labels.{IsLabel};
ghost use Rattle.page_store.specs.Store.{IsOf};
ghost use Rattle.page_store.specs.Pages.{page_of, page_at, body_bytes, field_at, field_bytes, stored_page, shows_page};

use nfs_types::{Handle, KeptPage, Stamp, Time, read_stamp, stamp_read_back, write_stamp};
use std::alloc::Global;
use std::marker::Model;
use xdr_codec::{Blob, Memory, Reader, Writer, XdrFault, fits_u64};

/// The most bytes of a page.
pub(crate) const PAGE: usize = 4096;

/// The stamp of a label.
pub(crate) const NO_STAMP: Stamp = Stamp {
    size: 0,
    mtime: NO_TIME,
    ctime: NO_TIME,
};

/// The times in it.
const NO_TIME: Time = Time {
    seconds: 0,
    nanos: 0,
};

/// The bytes behind the last field, which are zeros.
const LEFT: usize = 20;

/// A page of a file with bytes of its own.
#[derive(Drop)]
pub(crate) struct Stored {
    file: Handle,
    stamp: Stamp,
    index: u64,
    bytes: Vec<u8>,
}

impl Model for Stored {
    ghost use Rattle.page_store.specs.Pages.{StoredPage};

    ghost Value = { StoredPage };

    ghost view = { λ s. record { file = s.file; stamp = s.stamp; index = s.index; bytes = s.bytes.items } };
}

impl Stored {
    /// A copy of a page.
    pub(crate) fn copy(
        alloc: Global,
        file: &Handle,
        stamp: &Stamp,
        index: u64,
        bytes: &[u8],
    ) -> Result<Stored, Memory>
        ensures { IfOk result (λ s. s ≡ stored_page file.now stamp.now index bytes.now) }
    {
        Ok(Stored {
            file: *file,
            stamp: *stamp,
            index,
            bytes: bytes.to_vec(alloc)?,
        })
    }

    /// The page.
    pub(crate) fn page(&self) -> KeptPage<'_>
        ensures { shows_page result ≡ self.now }
    {
        KeptPage {
            file: self.file,
            stamp: self.stamp,
            index: self.index,
            bytes: self.bytes.as_slice(),
        }
    }

    /// Its bytes.
    pub(crate) fn bytes(&self) -> &[u8]
        ensures { result.now ≡ self.now.bytes }
    {
        self.bytes.as_slice()
    }

    /// Whether it is the page of this file, stamp and number.
    pub(crate) fn is(&self, file: &Handle, stamp: &Stamp, index: u64) -> bool
        ensures { (result ≡ true) ↔ IsOf file.now stamp.now index (Some self.now) }
    {
        self.index == index && self.stamp == *stamp && self.file == *file
    }

    /// Its file.
    pub(crate) fn file(&self) -> Handle
        ensures { result ≡ self.now.file }
    {
        self.file
    }

    /// Whether it is the label of a store of so many slots.
    pub(crate) fn is_label(&self, slots: u32) -> bool
        ensures { (result ≡ true) ↔ IsLabel slots self.now }
    {
        self.index == slots as u64 && self.stamp == NO_STAMP
    }
}

/// The body that a slot has for a page of at most 4,096 bytes.
pub(crate) fn body_of(
    alloc: Global,
    file: &Handle,
    stamp: &Stamp,
    index: u64,
    bytes: &[u8],
) -> Result<Blob, Memory>
    requires { length bytes.now ≤ 4096 }
    ensures body { IfOk result (λ b. b ≡ body_bytes (stored_page file.now stamp.now index bytes.now)) }
    ensures long { length (body_bytes (stored_page file.now stamp.now index bytes.now)) ≡ 4220 }
    ensures again { page_of (body_bytes (stored_page file.now stamp.now index bytes.now)) ≡ Some (stored_page file.now stamp.now index bytes.now) }
{
    body_read_back(file, stamp, index, bytes);
    let mut writer = Writer::new(alloc);
    write_body_into(&mut writer, file, stamp, index, bytes)?;
    Ok(writer.finish())
}

/// A body has its length, and is read back as it is. A fact for proofs: it does nothing.
#[tactic(auto, using(crate::proofs::Bodies::body_long, crate::proofs::Bodies::body_again))]
fn body_read_back(file: &Handle, stamp: &Stamp, index: u64, bytes: &[u8])
    requires { length bytes.now ≤ 4096 }
    ensures long { length (body_bytes (stored_page file.now stamp.now index bytes.now)) ≡ 4220 }
    ensures again { page_of (body_bytes (stored_page file.now stamp.now index bytes.now)) ≡ Some (stored_page file.now stamp.now index bytes.now) }
{
    let _file = file.bytes();
    stamp_read_back(stamp);
    fits_u64(index);
}

/// Writes the fields of a body.
#[tactic(auto, using(std::proofs::Common::append_assoc), unfolding(crate::specs::Pages::body_bytes))]
fn write_body_into(
    w: &mut Writer,
    file: &Handle,
    stamp: &Stamp,
    index: u64,
    bytes: &[u8],
) -> Result<(), Memory>
    requires { length bytes.now ≤ 4096 }
    ensures { OnOk result (w.new ≡ w.old ++ body_bytes (stored_page file.now stamp.now index bytes.now)) }
{
    write_field(w, Handle::MAX, file.bytes())?;
    write_stamp(w, stamp)?;
    w.u64(index)?;
    write_field(w, PAGE, bytes)?;
    w.raw(&[0; LEFT])?;
    Ok(())
}

/// Writes a length and bytes in a room of that many, with zeros behind them.
#[tactic(auto, using(std::proofs::Common::append_assoc), unfolding(crate::specs::Pages::field_bytes))]
fn write_field(w: &mut Writer, room: usize, bytes: &[u8]) -> Result<(), Memory>
    requires fits { length bytes.now ≤ room }
    requires room { room ≤ 4096 }
    ensures { OnOk result (w.new ≡ w.old ++ field_bytes room bytes.now) }
{
    w.u32(bytes.len() as u32)?;
    w.raw(bytes)?;
    zeros_into(w, room - bytes.len())?;
    Ok(())
}

/// Writes so many zeros.
fn zeros_into(w: &mut Writer, count: usize) -> Result<(), Memory>
    requires { count ≤ 4096 }
    ensures { OnOk result (w.new ≡ w.old ++ replicate count 0) }
{
    let zeros = [0; PAGE];
    w.raw(&zeros[..count])
}

/// Reads a page from the front of a body; None if it breaks a rule.
pub(crate) fn read_page(body: &[u8]) -> Option<KeptPage<'_>>
    ensures { option_map shows_page result ≡ page_of body.now }
{
    let mut reader = Reader::new(body);
    match page_from(&mut reader) {
        Ok(page) => Some(page),
        Err(_) => None,
    }
}

/// Reads the fields of a body.
#[tactic(auto, unfolding(crate::specs::Pages::page_at))]
fn page_from<'a>(r: &mut Reader<'a>) -> Result<KeptPage<'a>, XdrFault>
    ensures { Reads shows_page r.old result r.new (page_at r.old) }
{
    let mut at = r.again();
    let file = read_handle_field(&mut at)?;
    let stamp = read_stamp(&mut at)?;
    let index = at.u64()?;
    let bytes = read_field(&mut at, PAGE)?;
    *r = at;
    Ok(KeptPage {
        file,
        stamp,
        index,
        bytes,
    })
}

/// Reads a file handle in its room.
fn read_handle_field(r: &mut Reader<'_>) -> Result<Handle, XdrFault>
    ensures { Reads (λ x. x) r.old result r.new (field_at 64 r.old) }
{
    let mut at = r.again();
    let bytes = read_field(&mut at, Handle::MAX)?;
    let Some(file) = Handle::make(bytes) else {
        return Err(XdrFault::TooLong);
    };
    *r = at;
    Ok(file)
}

/// Reads a length and bytes in a room of that many.
#[tactic(auto, unfolding(crate::specs::Pages::field_at))]
fn read_field<'a>(r: &mut Reader<'a>, room: usize) -> Result<&'a [u8], XdrFault>
    ensures exact { Reads (λ x. x.now) r.old result r.new (field_at room r.old) }
    ensures bound { IfOk result (λ x. length x.now ≤ room) }
{
    let mut at = r.again();
    let len = at.u32()? as usize;
    let all = at.fixed(room)?;
    if len > room {
        return Err(XdrFault::TooLong);
    }
    *r = at;
    Ok(&all[..len])
}
