//! What lines describe: a tree or a target, the path on the server, and the server.

use copy_targets::{FileSize, MemTarget, Refusal, Why};
use fetch_scripts::Skips;
use file_trees::{Cut, Given, Item, MemTree, Node, Piece};
use script_text::{contents, path, target};
use std::alloc::Global;
use std::mem;
use world_model::Path;
use xdr_codec::Memory;

/// A copy and what it meets.
#[derive(Drop)]
pub struct Case {
    /// The words of the command line.
    pub words: Vec<String>,
    /// The text of the schedule.
    pub schedule: Vec<u8>,
    /// The script that is run before.
    pub before: Vec<u8>,
    /// What the tree gives.
    pub tree: Vec<Given>,
    /// The path on the server.
    pub place: Path,
    /// What the target refuses.
    pub refusals: Vec<Refusal>,
    /// Which files stand at the target.
    pub sizes: Vec<FileSize>,
    /// Which files are passed over.
    pub skips: Skips,
    /// The script that looks at the server afterwards.
    pub script: Vec<u8>,
}

impl Case {
    /// Hands over the tree, and keeps an empty one.
    pub fn take_tree(&mut self, alloc: Global) -> MemTree {
        MemTree::new(alloc, mem::replace(&mut self.tree, Vec::new(alloc)))
    }

    /// Hands over the path on the server, and keeps that of the root.
    pub fn take_place(&mut self, alloc: Global) -> Path {
        mem::replace(&mut self.place, Path::of(Vec::new(alloc)))
    }

    /// Hands over the target, and keeps one without files that refuses nothing.
    pub fn take_target(&mut self, alloc: Global) -> MemTarget {
        let refusals = mem::replace(&mut self.refusals, Vec::new(alloc));
        let sizes = mem::replace(&mut self.sizes, Vec::new(alloc));
        MemTarget::new(alloc, refusals, sizes)
    }
}

/// Nothing is described yet.
pub fn empty(alloc: Global) -> Case {
    Case {
        words: Vec::new(alloc),
        schedule: Vec::new(alloc),
        before: Vec::new(alloc),
        tree: Vec::new(alloc),
        place: Path::of(Vec::new(alloc)),
        refusals: Vec::new(alloc),
        sizes: Vec::new(alloc),
        skips: Skips::Nothing,
        script: Vec::new(alloc),
    }
}

/// Takes what a line adds to the description: whether it is well formed.
pub fn takes(alloc: Global, case: &mut Case, word: &str, rest: &str) -> Result<bool, Memory> {
    match word {
        "words" => takes_words(alloc, case, rest),
        "schedule" => adds_line(&mut case.schedule, rest),
        ">" => adds_line(&mut case.script, rest),
        "<" => adds_line(&mut case.before, rest),
        "to" | "from" => stands_at(alloc, case, rest),
        "refuse" => refuses(case, rest),
        "has" => has_file(alloc, case, rest),
        "sizes" => {
            case.skips = Skips::Sizes;
            Ok(true)
        }
        _ => gives(alloc, case, word, rest),
    }
}

/// The words are those of a line from now on.
fn takes_words(alloc: Global, case: &mut Case, line: &str) -> Result<bool, Memory> {
    case.words = words_of(alloc, line)?;
    Ok(true)
}

/// The words of a line, parted by single spaces.
fn words_of(alloc: Global, line: &str) -> Result<Vec<String>, Memory> {
    let mut words = Vec::new(alloc);
    for word in line.split(' ') {
        words.push(String::from_str(alloc, word)?)?;
    }
    Ok(words)
}

/// Adds a line to a text. Each line is well formed.
fn adds_line(text: &mut Vec<u8>, line: &str) -> Result<bool, Memory> {
    text.extend_from_slice(line.as_bytes())?;
    text.push(b'\n')?;
    Ok(true)
}

/// The number that digits spell; 0 if it is none.
fn number_of(text: &str) -> u32 {
    text.parse::<u32>().unwrap_or(0)
}

fn stands_at(alloc: Global, case: &mut Case, text: &str) -> Result<bool, Memory> {
    let Some(place) = path(alloc, text.as_bytes())? else {
        return Ok(false);
    };
    case.place = place;
    Ok(true)
}

/// The target refuses a call: `refuse N WHY`.
fn refuses(case: &mut Case, text: &str) -> Result<bool, Memory> {
    let (call, why) = text.split_once(' ').unwrap_or((text, ""));
    let Some(why) = why_of(why) else {
        return Ok(false);
    };
    let call = u64::from(number_of(call));
    case.refusals.push(Refusal { call, why })?;
    Ok(true)
}

fn why_of(word: &str) -> Option<Why> {
    match word {
        "refused" => Some(Why::Refused(0)),
        "unnamed" => Some(Why::Unnamed),
        "missing" => Some(Why::Missing),
        "kind" => Some(Why::Kind),
        "other" => Some(Why::Other),
        _ => None,
    }
}

/// A file stands at the target: `has PATH SIZE`.
fn has_file(alloc: Global, case: &mut Case, text: &str) -> Result<bool, Memory> {
    let (shown, size) = text.split_once(' ').unwrap_or((text, ""));
    let Some(path) = path(alloc, shown.as_bytes())? else {
        return Ok(false);
    };
    let size = u64::from(number_of(size));
    case.sizes.push(FileSize { path, size })?;
    Ok(true)
}

/// Takes what the tree gives next: a piece of a file, or what stands at a path.
fn gives(alloc: Global, case: &mut Case, word: &str, rest: &str) -> Result<bool, Memory> {
    match word {
        "bytes" => gives_bytes(alloc, case, rest),
        "end" => gives_piece(case, Piece::End),
        "changed" => gives_piece(case, Piece::Cut(Cut::Changed)),
        "cut" => gives_piece(case, Piece::Cut(Cut::Unread(number_of(rest)))),
        _ => gives_item(alloc, case, word, rest),
    }
}

/// The tree gives bytes of a file next: `bytes HEX`.
fn gives_bytes(alloc: Global, case: &mut Case, hex: &str) -> Result<bool, Memory> {
    match contents(alloc, hex.as_bytes())? {
        Some(bytes) => gives_piece(case, Piece::Bytes(bytes)),
        None => Ok(false),
    }
}

/// The tree gives a piece of a file next.
fn gives_piece(case: &mut Case, piece: Piece) -> Result<bool, Memory> {
    case.tree.push(Given::Piece(piece))?;
    Ok(true)
}

/// What stands at a path: `folder PATH`, `file PATH`, `link PATH TARGET`, `other PATH` or `unread PATH N`.
fn gives_item(alloc: Global, case: &mut Case, word: &str, rest: &str) -> Result<bool, Memory> {
    let (shown, more) = rest.split_once(' ').unwrap_or((rest, ""));
    let Some(path) = path(alloc, shown.as_bytes())? else {
        return Ok(false);
    };
    let Some(node) = node_of(alloc, word, more)? else {
        return Ok(false);
    };
    case.tree.push(Given::Item(Item { path, node }))?;
    Ok(true)
}

fn node_of(alloc: Global, word: &str, more: &str) -> Result<Option<Node>, Memory> {
    match word {
        "folder" => Ok(Some(Node::Folder)),
        "file" => Ok(Some(Node::File)),
        "other" => Ok(Some(Node::Other)),
        "unread" => Ok(Some(Node::Unread(number_of(more)))),
        "link" => link_to(alloc, more),
        _ => Ok(None),
    }
}

fn link_to(alloc: Global, text: &str) -> Result<Option<Node>, Memory> {
    match target(alloc, text.as_bytes())? {
        Some(target) => Ok(Some(Node::Link(target))),
        None => Ok(None),
    }
}
