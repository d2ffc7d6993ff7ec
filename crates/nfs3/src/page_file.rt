//! The file of kept pages.

ghost use Rattle.std.specs.Prelude.{◌≡◌, ◌≤◌, IfSome};
ghost use Rattle.script_text.specs.Numbers.{number_of};
ghost use Rattle.nfs3.specs.Endings.{unformatted_as};

use crate::ending::Ending;
use page_store::{FileDisk, PageStore, StoreFault};
use script_text::number;
use session_commands::SessionEnding;

/// How many pages a file has room for if no number is given, and the least.
pub(crate) const LEAST: u32 = 1024;

/// The most.
const MOST: u32 = 65_536;

/// Makes the file that the words name, or empties it, with room for so many pages as a word behind `--pages` says, 1,024 without it.
/// Only its owner may read it.
pub fn make(rt: &HostRuntime, words: &[String]) -> Ending {
    match words {
        [path] => format(rt, path.as_str(), LEAST),
        [path, name, pages] if name.as_str() == "--pages" => match page_count(pages.as_str()) {
            Some(pages) => format(rt, path.as_str(), pages),
            None => Ending::Session(SessionEnding::Usage),
        },
        _ => Ending::Session(SessionEnding::Usage),
    }
}

/// The number of pages of a word. None exactly if it isn't a number from 1,024 to 65,536 in decimal digits.
pub(crate) fn page_count(word: &str) -> Option<u32>
    ensures value { result ≡ number_of 1024 65536 word.now }
    ensures within { IfSome result (λ n. (1024 ≤ n) × (n ≤ 65536)) }
{
    number(word.as_bytes(), LEAST, MOST)
}

/// Makes a file with room for so many pages, from 1,024 to 65,536.
fn format(rt: &HostRuntime, path: &str, pages: u32) -> Ending
    requires least { 1024 ≤ pages }
    requires most { pages ≤ 65536 }
{
    let Ok(mut disk) = FileDisk::make(rt, path) else {
        return Ending::Store;
    };
    match PageStore::format_sized(rt.alloc(), &mut disk, pages) {
        Ok(()) => Ending::Made,
        Err(fault) => unformatted(fault),
    }
}

/// How the program ends if a store failed.
pub(crate) fn unformatted(fault: StoreFault) -> Ending
    ensures { result ≡ unformatted_as fault }
{
    match fault {
        StoreFault::Fault => Ending::Store,
        StoreFault::Memory => Ending::Session(SessionEnding::Memory),
    }
}
