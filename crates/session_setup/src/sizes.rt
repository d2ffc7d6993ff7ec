//! The sizes of a session's READs and WRITEs.

ghost use Rattle.std.specs.Prelude.{◌≡◌, ◌≤◌};
ghost use Rattle.world_model.specs.Mounts.{lesser_size};
ghost use Rattle.world_model.specs.ReadSize.{whole_pages};
ghost use Rattle.session_setup.specs.Replies.{SizedBy};
ghost use Rattle.session_setup.specs.Phases.{AreSizes};

use session_words::Settings;
use world_model::Fault;

/// The bytes of a page.
const PAGE: u32 = 4096;

/// The greatest READ and WRITE that a server names.
#[derive(Clone, Copy, Debug)]
pub(crate) struct Greatest {
    /// The greatest READ.
    pub rtmax: u32,
    /// The greatest WRITE.
    pub wtmax: u32,
}

/// The sizes of a session.
#[derive(Clone, Copy, Debug)]
pub(crate) struct Sizes {
    /// The most bytes of a READ.
    pub rsize: u32,
    /// The most bytes of a WRITE.
    pub wsize: u32,
}

/// The sizes of a session by what the server names. One that refuses to say is taken as one that names 0.
pub(crate) fn sizes_by(rsize: u32, wsize: u32, named: Result<Greatest, Fault>) -> Sizes
    requires read { 1 ≤ rsize }
    requires most_read { rsize ≤ 65536 }
    requires write { 1 ≤ wsize }
    requires most_write { wsize ≤ 65536 }
    ensures is { SizedBy rsize wsize named result }
    ensures fits { AreSizes result.rsize result.wsize }
{
    let greatest = match named {
        Ok(greatest) => greatest,
        Err(_) => Greatest { rtmax: 0, wtmax: 0 },
    };
    Sizes {
        rsize: in_pages(lesser(rsize, greatest.rtmax)),
        wsize: lesser(wsize, greatest.wtmax),
    }
}

/// The lesser of the size that is wanted and the server's greatest; if that is 0, of the size and a page.
fn lesser(wanted: u32, greatest: u32) -> u32
    ensures { result ≡ lesser_size wanted greatest }
{
    if greatest == 0 {
        wanted.min(PAGE)
    } else {
        wanted.min(greatest)
    }
}

/// A size above that of a page, in whole pages.
fn in_pages(size: u32) -> u32
    ensures { result ≡ whole_pages size }
{
    if size > PAGE {
        size / PAGE * PAGE
    } else {
        size
    }
}
