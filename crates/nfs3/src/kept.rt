//! Sessions whose pages are kept in a file.

ghost use Rattle.std.specs.Prelude.{◌≤◌};

use crate::ending::Ending;
use crate::page_file::{LEAST, page_count, unformatted};
use kept_runs::run_labelled;
use net_edge::{StandardInput, StandardOutput, SystemClock, TcpWire};
use page_store::{Disk, FileDisk, PageStore};
use rpc_record::StreamLink;
use session_commands::SessionEnding;
use session_words::{Export, WordsFault, read_words};
use std::alloc::Global;
use std::fs::File;
use xdr_codec::{Blob, Memory, Writer};

/// The most bytes of a label.
const LABEL: usize = 4096;

/// The bytes of a slot, and of the label behind the slots.
const SLOT: u64 = 4224;

/// Runs the words with the server at the host of that name or address, over TCP. The session begins with the pages of the file, and
/// leaves its own there. A file that was used for another host or export is refused, and so is one that isn't for 1,024 pages.
pub fn run(rt: &HostRuntime, path: &str, host: &str, words: &[String]) -> Ending {
    run_over(rt, path, LEAST, host, words)
}

/// The same with a file for as many pages as a word says.
pub fn run_sized(
    rt: &HostRuntime,
    path: &str,
    pages: &str,
    host: &str,
    words: &[String],
) -> Ending {
    match page_count(pages) {
        Some(pages) => run_over(rt, path, pages, host, words),
        None => Ending::Session(SessionEnding::Usage),
    }
}

/// The same with a file for so many pages, from 1,024 to 65,536.
fn run_over(rt: &HostRuntime, path: &str, pages: u32, host: &str, words: &[String]) -> Ending
    requires least { 1024 ≤ pages }
    requires most { pages ≤ 65536 }
{
    let alloc = rt.alloc();
    let label = match label_of(alloc, host, words) {
        Ok(label) => label,
        Err(ending) => return Ending::Session(ending),
    };
    let label = label.bytes();
    if label.len() > LABEL {
        return Ending::Session(SessionEnding::Usage);
    }
    let mut store = match store_in(rt, path, pages, label) {
        Ok(store) => store,
        Err(ending) => return ending,
    };
    let mut source = StandardInput::new(rt.stdin());
    let mut link = StreamLink::new(alloc, TcpWire::new(rt, host));
    let mut clock = SystemClock::new(rt);
    let mut sink = StandardOutput::new(rt.stdout());
    let status = run_labelled(
        alloc,
        words,
        label,
        &mut source,
        &mut link,
        &mut clock,
        &mut sink,
        &mut store,
    );
    Ending::Session(SessionEnding::Ran(status))
}

/// What a file is for: the host and what the words export.
fn label_of(alloc: Global, host: &str, words: &[String]) -> Result<Blob, SessionEnding> {
    let settings = match read_words(alloc, words) {
        Ok(settings) => settings,
        Err(WordsFault::Refused) => return Err(SessionEnding::Usage),
        Err(WordsFault::Memory) => return Err(SessionEnding::Memory),
    };
    match spelled(alloc, host, &settings.export) {
        Ok(label) => Ok(label),
        Err(_) => Err(SessionEnding::Memory),
    }
}

/// The host, a space, and the export as words name it.
fn spelled(alloc: Global, host: &str, export: &Export) -> Result<Blob, Memory> {
    let mut out = Writer::new(alloc);
    out.raw(host.as_bytes())?;
    match export {
        Export::Path(path) => {
            out.raw(b" ")?;
            out.raw(path.bytes())?;
        }
        Export::Root(root) => {
            let Ok(digits) = hex::encode(alloc, root.bytes()) else {
                return Err(Memory);
            };
            out.raw(b" --root ")?;
            out.raw(digits.as_bytes())?;
        }
    }
    Ok(out.finish())
}

/// The store in a file for so many pages, if its label is this, or it has none and no page.
fn store_in(
    rt: &HostRuntime,
    path: &str,
    pages: u32,
    label: &[u8],
) -> Result<PageStore<FileDisk<File>>, Ending>
    requires least { 1024 ≤ pages }
    requires most { pages ≤ 65536 }
{
    let Ok(mut disk) = FileDisk::open(rt, path) else {
        return Err(Ending::Store);
    };
    if has_more(&mut disk, pages) {
        return Err(Ending::Store);
    }
    let store = match PageStore::open_sized(rt.alloc(), disk, pages) {
        Ok(store) => store,
        Err(refused) => return Err(unformatted(refused.fault)),
    };
    if !is_for(&store, label) {
        return Err(Ending::Store);
    }
    Ok(store)
}

/// Whether a file is for more pages than so many, or can't be read. In a file for so many there is no slot behind the label.
fn has_more(disk: &mut FileDisk<File>, pages: u32) -> bool
    requires { pages ≤ 65536 }
{
    let mut last = [0];
    match disk.read(SLOT * (pages as u64 + 2) - 1, &mut last) {
        Ok(count) => count > 0,
        Err(_) => true,
    }
}

/// Whether a store has this label, or none and no page.
fn is_for(store: &PageStore<FileDisk<File>>, label: &[u8]) -> bool {
    match store.words() {
        Some(words) => words == label,
        None => store.is_empty(),
    }
}
