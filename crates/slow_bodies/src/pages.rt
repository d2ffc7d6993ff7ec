//! Kept pages in a list, the one that was used last in front.

ghost use Rattle.std.specs.Prelude.{◌≡◌, ◌<◌, length, IfSome};

use nfs_types::{Handle, Stamp, Wcc};
use page_cache::Keep;
use std::alloc::{AllocError, Global};

/// The bytes of a page.
const PAGE: u64 = 4096;

/// What is known of a file.
#[derive(Drop)]
struct Known {
    file: Handle,
    stamp: Option<Stamp>,
    mark: u64,
}

/// A page that is kept.
#[derive(Drop)]
struct Kept {
    file: Handle,
    index: u64,
    bytes: Vec<u8>,
}

/// What `PageCache` keeps, by the rules of its calls. Each call answers as that of the same name.
#[derive(Drop)]
pub struct SlowPages {
    alloc: Global,
    room: usize,
    files: Vec<Known>,
    pages: Vec<Kept>,
}

impl SlowPages {
    /// Knows no file, and has room for so many pages.
    pub fn with_room(alloc: Global, room: usize) -> SlowPages {
        SlowPages {
            alloc,
            room,
            files: Vec::new(alloc),
            pages: Vec::new(alloc),
        }
    }

    fn known(&self, file: &Handle) -> Option<usize>
        ensures { IfSome result (λ at. at < length self.now.files.items) }
    {
        self.files.iter().position(|known| known.file == *file)
    }

    fn place(&self, file: &Handle, index: u64) -> Option<usize>
        ensures { IfSome result (λ at. at < length self.now.pages.items) }
    {
        self.pages
            .iter()
            .position(|page| page.index == index && page.file == *file)
    }

    fn drop_pages(&mut self, file: &Handle)
        ensures { self.new.files ≡ self.old.files }
    {
        self.pages.retain(|page| page.file != *file);
    }

    /// A file was opened.
    pub fn opened(&mut self, file: &Handle, stamp: &Stamp, mark: u64) -> Result<(), AllocError> {
        match self.known(file) {
            None => {
                self.files.push(Known {
                    file: *file,
                    stamp: Some(*stamp),
                    mark,
                })?;
            }
            Some(at) => {
                if self.files[at].stamp != Some(*stamp) {
                    self.drop_pages(file);
                }
                self.files[at].stamp = Some(*stamp);
                self.files[at].mark = self.files[at].mark.max(mark);
            }
        }
        Ok(())
    }

    /// The stamp under which a file's pages are kept.
    pub fn stamp(&self, file: &Handle) -> Option<Stamp> {
        self.files[self.known(file)?].stamp
    }

    /// Calls up to this moment are too old to tell of the file.
    pub fn mark(&self, file: &Handle) -> Option<u64> {
        Some(self.files[self.known(file)?].mark)
    }

    /// Shows a page, and moves it to the front.
    pub fn page(&mut self, file: &Handle, index: u64) -> Result<Option<&[u8]>, AllocError> {
        match self.place(file, index) {
            None => Ok(None),
            Some(at) => {
                let page = self.pages.remove(at);
                self.pages.insert(0, page)?;
                Ok(Some(self.pages[0].bytes.as_slice()))
            }
        }
    }

    /// Offers a page.
    pub fn keep(
        &mut self,
        file: &Handle,
        stamp: &Stamp,
        index: u64,
        bytes: &[u8],
        sent: u64,
    ) -> Result<Keep, AllocError> {
        let at = match self.known(file) {
            Some(at) => at,
            None => return Ok(Keep::Stale),
        };
        if sent <= self.files[at].mark {
            return Ok(Keep::Stale);
        }
        match self.files[at].stamp {
            Some(known) => {
                if known != *stamp {
                    return Ok(Keep::Differs);
                }
            }
            None => self.files[at].stamp = Some(*stamp),
        }
        self.put(file, index, bytes)?;
        Ok(Keep::Kept)
    }

    fn put(&mut self, file: &Handle, index: u64, bytes: &[u8]) -> Result<(), AllocError> {
        self.pages
            .retain(|page| page.index != index || page.file != *file);
        let page = Kept {
            file: *file,
            index,
            bytes: bytes.to_vec(self.alloc)?,
        };
        self.pages.insert(0, page)?;
        self.pages.truncate(self.room);
        Ok(())
    }

    /// A reply showed the state of a file.
    pub fn saw(&mut self, file: &Handle, stamp: &Stamp, sent: u64) {
        let at = match self.known(file) {
            Some(at) => at,
            None => return,
        };
        if sent > self.files[at].mark && self.files[at].stamp != Some(*stamp) {
            self.drop_pages(file);
            self.files[at].stamp = Some(*stamp);
        }
    }

    /// The client's own WRITE.
    pub fn wrote(
        &mut self,
        file: &Handle,
        wcc: &Wcc,
        offset: u64,
        bytes: &[u8],
        moment: u64,
    ) -> Result<(), AllocError> {
        if self.goes_on(file, wcc, moment) {
            for page in self.pages.iter_mut() {
                if page.file == *file {
                    page.bytes = written(self.alloc, page, offset, bytes)?;
                }
            }
        }
        Ok(())
    }

    /// The client's own SETATTR of a size.
    pub fn cut(
        &mut self,
        file: &Handle,
        wcc: &Wcc,
        size: u64,
        moment: u64,
    ) -> Result<(), AllocError> {
        if self.goes_on(file, wcc, moment) {
            for page in self.pages.iter_mut() {
                if page.file == *file {
                    page.bytes = sized(self.alloc, page, size)?;
                }
            }
        }
        Ok(())
    }

    /// Whether the pages of a file follow the client's own change; else they are dropped.
    fn goes_on(&mut self, file: &Handle, wcc: &Wcc, moment: u64) -> bool {
        let at = match self.known(file) {
            Some(at) => at,
            None => return false,
        };
        self.files[at].mark = moment;
        let began_here = wcc.before.is_some() && wcc.before == self.files[at].stamp;
        match wcc.after {
            Some(attr) => {
                if began_here {
                    self.files[at].stamp = Some(attr.stamp());
                    return true;
                }
            }
            None => {}
        }
        self.files[at].stamp = None;
        self.drop_pages(file);
        false
    }
}

/// How long a page is in a file of a size.
fn length_in(index: u64, size: u64) -> u64 {
    let start = index.saturating_mul(PAGE);
    size.saturating_sub(start).min(PAGE)
}

/// The bytes of a page after a WRITE of the file, byte for byte.
fn written(alloc: Global, page: &Kept, offset: u64, bytes: &[u8]) -> Result<Vec<u8>, AllocError> {
    let end = offset.saturating_add(bytes.len() as u64);
    let mut length = page.bytes.len() as u64;
    if !bytes.is_empty() {
        length = length.max(length_in(page.index, end));
    }
    let start = page.index.saturating_mul(PAGE);
    let mut made = Vec::new(alloc);
    for place in 0..length {
        let of_file = start.saturating_add(place);
        let new = if of_file >= offset {
            bytes.get((of_file - offset) as usize)
        } else {
            None
        };
        let old = page.bytes.get(place as usize);
        made.push(*new.or(old).unwrap_or(&0))?;
    }
    Ok(made)
}

/// The bytes of a page after the file got a size, byte for byte.
fn sized(alloc: Global, page: &Kept, size: u64) -> Result<Vec<u8>, AllocError> {
    let mut made = Vec::new(alloc);
    for place in 0..length_in(page.index, size) {
        made.push(*page.bytes.get(place as usize).unwrap_or(&0))?;
    }
    Ok(made)
}
