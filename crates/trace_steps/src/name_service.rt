//! Calls on names that read or make, and their replies (RFC 1813, sections 3.3.3 to 3.3.15).

ghost use Rattle.std.specs.Prelude.{◌≡◌, ◌<◌, length};
ghost use Rattle.world_model.specs.NameService.{kind_of};
ghost use Rattle.trace_steps.specs.TurnTests.{turns};
ghost use Rattle.trace_steps.specs.NameTests.{had_name, looks_up, is_text, reads_link, are_new, new_file_of, is_made_file, is_made_dir, is_made, made_kind, begins, enters_at, makes_row, makes_at, makes_among, lists_with, makes, is_met, meets_it, meets_one, meets, shows_handle, is_shown, shows_one, shows, may_meet, creates, makes_other, links_row, links_at, links_among, links, refuses_link};

use crate::file_service::refuses;
use crate::lists::{has_entry, is_bare, is_without, lacks, list_there};
use crate::moments::{after, before, only};
use crate::ranges::are_so_many_zeros;
use crate::turning::{is_sized, reads, showed_attr, showed_wcc, shows_attr, shows_wcc, stays};
use nfs_dir_calls::{DirCall, Making, Node};
use nfs_types::{Attr, Handle, Name, Status, Wcc};
use trace_data::{Contents, DirEntry, Trace};
use trace_rules::{is_other, same_contents};

/// Whether a directory that is there has the name for the object, before the entry.
#[tactic(auto, unfolding(crate::specs::NameTests::had_name))]
pub(crate) fn had_name(
    trace: &Trace,
    entry: usize,
    dir: &Handle,
    name: &Name,
    handle: &Handle,
) -> bool
    ensures { result ≡ had_name trace.now entry dir.now name.now handle.now }
{
    match list_there(before(trace, entry, dir)) {
        Some(entries) => has_entry(name, handle, entries),
        None => false,
    }
}

/// Whether a name is looked up.
#[tactic(auto, unfolding(crate::specs::NameTests::looks_up))]
pub(crate) fn looks_up(
    trace: &Trace,
    entry: usize,
    dir: &Handle,
    name: &Name,
    found: &Handle,
    attr: &Option<Attr>,
    of_dir: &Option<Attr>,
) -> bool
    ensures { result ≡ looks_up trace.now entry dir.now name.now found.now attr.now of_dir.now }
{
    had_name(trace, entry, dir, name, found)
        && reads(trace, entry, dir)
        && reads(trace, entry, found)
        && only(trace, entry, dir, found, found)
        && shows_attr(trace, entry, found, attr)
        && shows_attr(trace, entry, dir, of_dir)
}

/// Whether a link of this text is read.
#[tactic(auto, unfolding(crate::specs::NameTests::reads_link))]
pub(crate) fn reads_link(
    trace: &Trace,
    entry: usize,
    link: &Handle,
    attr: &Option<Attr>,
    text: &[u8],
) -> bool
    ensures { result ≡ reads_link trace.now entry link.now attr.now text.now }
{
    gives_text(trace, entry, link, text)
        && only(trace, entry, link, link, link)
        && shows_attr(trace, entry, link, attr)
}

#[tactic(auto, unfolding(crate::specs::TurnTests::turns))]
fn gives_text(trace: &Trace, entry: usize, link: &Handle, text: &[u8]) -> bool
    ensures { result ≡ turns (is_text text.now) trace.now entry link.now }
{
    let Some(old) = before(trace, entry, link) else {
        return false;
    };
    match after(trace, entry, link) {
        Some(new) => stays(old, new) && is_text(text, &old.contents, &new.contents),
        None => false,
    }
}

fn is_text(text: &[u8], old: &Contents, new: &Contents) -> bool
    ensures { result ≡ is_text text.now old.now new.now }
{
    is_other(text, old) && same_contents(old, new)
}

// ---- an object that comes to be

/// Whether these are the bytes of a new file: zeros up to the size that is set, or none.
#[tactic(auto, unfolding(crate::specs::NameTests::are_new))]
fn are_new(size: Option<u64>, bytes: &[u8]) -> bool
    ensures { result ≡ are_new size bytes.now }
{
    match size {
        Some(size) => are_so_many_zeros(size, bytes),
        None => are_so_many_zeros(0, bytes),
    }
}

/// Whether it is a new file of the size that is set, or an empty one.
fn new_file_of(size: Option<u64>, contents: &Contents) -> bool
    ensures { result ≡ new_file_of size contents.now }
{
    match contents {
        Contents::File { now, stable } => {
            are_new(size, now.bytes()) && are_new(size, stable.bytes())
        }
        _ => false,
    }
}

fn is_made_file(making: &Making, contents: &Contents) -> bool
    ensures { result ≡ is_made_file making.now contents.now }
{
    match making {
        Making::Unchecked(set) => new_file_of(set.size, contents),
        Making::Guarded(set) => new_file_of(set.size, contents),
        Making::Exclusive(_) => new_file_of(None, contents),
    }
}

fn is_made_dir(contents: &Contents) -> bool
    ensures { result ≡ is_made_dir contents.now }
{
    match contents {
        Contents::Directory { entries } => is_bare(entries.as_slice()),
        _ => false,
    }
}

/// Whether an object holds what a call makes.
fn is_made(call: &DirCall, contents: &Contents) -> bool
    ensures { result ≡ is_made call.now contents.now }
{
    match call {
        DirCall::Create { making, .. } => is_made_file(making, contents),
        DirCall::MkDir { .. } => is_made_dir(contents),
        DirCall::SymLink { target, .. } => is_other(target.bytes(), contents),
        DirCall::MkNod { .. } => is_other(&[], contents),
        _ => false,
    }
}

fn kind_of(node: &Node) -> u32
    ensures { result ≡ kind_of node.now }
{
    match node {
        Node::Device { kind, .. } => *kind,
        Node::Pipe { kind, .. } => *kind,
        Node::Plain { kind } => *kind,
    }
}

/// The kind of the object that a call makes.
fn made_kind(call: &DirCall) -> u32
    ensures { result ≡ made_kind call.now }
{
    match call {
        DirCall::Create { .. } => 1,
        DirCall::MkDir { .. } => 2,
        DirCall::SymLink { .. } => 5,
        DirCall::MkNod { node, .. } => kind_of(node),
        _ => 0,
    }
}

/// Whether the object never was, and is there then as the call makes it.
#[tactic(auto, unfolding(crate::specs::NameTests::begins))]
fn begins(trace: &Trace, entry: usize, call: &DirCall, handle: &Handle) -> bool
    ensures { result ≡ begins trace.now entry call.now handle.now }
{
    if before(trace, entry, handle).is_some() {
        return false;
    }
    match after(trace, entry, handle) {
        Some(new) => {
            !new.gone && new.attr.kind == made_kind(call) && is_made(call, &new.contents)
        }
        None => false,
    }
}

/// Whether the new list without the entry at a place, which has the name, is the old one, which lacks it.
#[tactic(auto, unfolding(crate::specs::NameTests::enters_at))]
fn enters_at(name: &Name, old: &[DirEntry], new: &[DirEntry], place: usize, row: &DirEntry) -> bool
    requires { place < length new.now }
    ensures { result ≡ enters_at name.now old.now new.now place row.now }
{
    row.name == *name && is_without(place, new, old) && lacks(name, old)
}

#[tactic(auto, unfolding(crate::specs::NameTests::makes_row))]
fn makes_row(
    trace: &Trace,
    entry: usize,
    call: &DirCall,
    dir: &Handle,
    name: &Name,
    old: &[DirEntry],
    new: &[DirEntry],
    place: usize,
    row: &DirEntry,
) -> bool
    requires { place < length new.now }
    ensures { result ≡ makes_row trace.now entry call.now dir.now name.now old.now new.now place row.now }
{
    enters_at(name, old, new, place, row)
        && begins(trace, entry, call, &row.object)
        && only(trace, entry, dir, &row.object, &row.object)
}

#[tactic(auto, unfolding(crate::specs::NameTests::makes_at))]
fn makes_at(
    trace: &Trace,
    entry: usize,
    call: &DirCall,
    dir: &Handle,
    name: &Name,
    old: &[DirEntry],
    new: &[DirEntry],
    place: usize,
) -> bool
    requires { place < length new.now }
    ensures { result ≡ makes_at trace.now entry call.now dir.now name.now old.now new.now place }
{
    makes_row(trace, entry, call, dir, name, old, new, place, &new[place])
}

/// Whether the name entered the list at some place, with the object that the call makes.
#[tactic(auto, using(trace_rules::proofs::Below::any_below_steps), unfolding(crate::specs::NameTests::makes_among))]
fn makes_among(
    trace: &Trace,
    entry: usize,
    call: &DirCall,
    dir: &Handle,
    name: &Name,
    old: &[DirEntry],
    new: &[DirEntry],
) -> bool
    ensures { result ≡ makes_among trace.now entry call.now dir.now name.now old.now new.now }
{
    let mut place = 0;
    while place < new.len() {
        if makes_at(trace, entry, call, dir, name, old, new, place) {
            return true;
        }
        place += 1;
    }
    false
}

fn makes_in(
    trace: &Trace,
    entry: usize,
    call: &DirCall,
    dir: &Handle,
    name: &Name,
    old: &Contents,
    new: &Contents,
) -> bool
    ensures { result ≡ lists_with (λ before after. makes_among trace.now entry call.now dir.now name.now before after) old.now new.now }
{
    match old {
        Contents::Directory { entries: before } => match new {
            Contents::Directory { entries: after } => makes_among(
                trace,
                entry,
                call,
                dir,
                name,
                before.as_slice(),
                after.as_slice(),
            ),
            _ => false,
        },
        _ => false,
    }
}

/// Whether the call makes an object with this name.
#[tactic(auto, unfolding(crate::specs::TurnTests::turns, crate::specs::NameTests::makes))]
fn makes(trace: &Trace, entry: usize, call: &DirCall, dir: &Handle, name: &Name) -> bool
    ensures { result ≡ makes trace.now entry call.now dir.now name.now }
{
    let Some(old) = before(trace, entry, dir) else {
        return false;
    };
    match after(trace, entry, dir) {
        Some(new) => {
            stays(old, new) && makes_in(trace, entry, call, dir, name, &old.contents, &new.contents)
        }
        None => false,
    }
}

// ---- a file that is there

fn is_met(size: Option<u64>, old: &Contents, new: &Contents) -> bool
    ensures { result ≡ is_met size old.now new.now }
{
    match old {
        Contents::File { .. } => is_sized(size, old, new),
        _ => false,
    }
}

#[tactic(auto, unfolding(crate::specs::TurnTests::turns))]
fn meets_file(trace: &Trace, entry: usize, handle: &Handle, size: Option<u64>) -> bool
    ensures { result ≡ turns (is_met size) trace.now entry handle.now }
{
    let Some(old) = before(trace, entry, handle) else {
        return false;
    };
    match after(trace, entry, handle) {
        Some(new) => stays(old, new) && is_met(size, &old.contents, &new.contents),
        None => false,
    }
}

#[tactic(auto, unfolding(crate::specs::NameTests::meets_it))]
fn meets_it(
    trace: &Trace,
    entry: usize,
    dir: &Handle,
    name: &Name,
    size: Option<u64>,
    row: &DirEntry,
) -> bool
    ensures { result ≡ meets_it trace.now entry dir.now name.now size row.now }
{
    row.name == *name
        && meets_file(trace, entry, &row.object, size)
        && only(trace, entry, dir, &row.object, &row.object)
}

#[tactic(auto, unfolding(crate::specs::NameTests::meets_one))]
fn meets_one(
    trace: &Trace,
    entry: usize,
    dir: &Handle,
    name: &Name,
    size: Option<u64>,
    rows: &[DirEntry],
) -> bool
    ensures { result ≡ meets_one trace.now entry dir.now name.now size rows.now }
{
    for row in rows {
        if meets_it(trace, entry, dir, name, size, row) {
            return true;
        }
    }
    false
}

/// Whether a file that has the name already is given what is to be set.
#[tactic(auto, unfolding(crate::specs::NameTests::meets))]
fn meets(trace: &Trace, entry: usize, dir: &Handle, name: &Name, size: Option<u64>) -> bool
    ensures { result ≡ meets trace.now entry dir.now name.now size }
{
    match list_there(before(trace, entry, dir)) {
        Some(rows) => { meets_one(trace, entry, dir, name, size, rows) && reads(trace, entry, dir) }
        None => false,
    }
}

// ---- what a reply shows of the object that has the name then

pub(crate) fn shows_handle(found: &Option<Handle>, handle: &Handle) -> bool
    ensures { result ≡ shows_handle found.now handle.now }
{
    match found {
        Some(found) => *found == *handle,
        None => true,
    }
}

#[tactic(auto, unfolding(crate::specs::NameTests::is_shown))]
fn is_shown(
    trace: &Trace,
    entry: usize,
    name: &Name,
    found: &Option<Handle>,
    attr: &Option<Attr>,
    row: &DirEntry,
) -> bool
    ensures { result ≡ is_shown trace.now entry name.now found.now attr.now row.now }
{
    row.name == *name
        && shows_handle(found, &row.object)
        && shows_attr(trace, entry, &row.object, attr)
}

#[tactic(auto, unfolding(crate::specs::NameTests::shows_one))]
fn shows_one(
    trace: &Trace,
    entry: usize,
    name: &Name,
    found: &Option<Handle>,
    attr: &Option<Attr>,
    rows: &[DirEntry],
) -> bool
    ensures { result ≡ shows_one trace.now entry name.now found.now attr.now rows.now }
{
    for row in rows {
        if is_shown(trace, entry, name, found, attr, row) {
            return true;
        }
    }
    false
}

/// Whether a handle and attributes, if a reply has them, are those of an object that has the name then.
#[tactic(auto, unfolding(crate::specs::NameTests::shows))]
fn shows(
    trace: &Trace,
    entry: usize,
    dir: &Handle,
    name: &Name,
    found: &Option<Handle>,
    attr: &Option<Attr>,
) -> bool
    ensures { result ≡ shows trace.now entry dir.now name.now found.now attr.now }
{
    match list_there(after(trace, entry, dir)) {
        Some(rows) => shows_one(trace, entry, name, found, attr, rows),
        None => false,
    }
}

// ---- calls that make

fn may_meet(trace: &Trace, entry: usize, dir: &Handle, name: &Name, making: &Making) -> bool
    ensures { result ≡ may_meet trace.now entry dir.now name.now making.now }
{
    match making {
        Making::Unchecked(set) => meets(trace, entry, dir, name, set.size),
        Making::Guarded(_) => false,
        Making::Exclusive(_) => meets(trace, entry, dir, name, None),
    }
}

/// Whether a CREATE makes a file, or meets one.
#[tactic(auto, unfolding(crate::specs::NameTests::creates))]
pub(crate) fn creates(
    trace: &Trace,
    entry: usize,
    call: &DirCall,
    dir: &Handle,
    name: &Name,
    making: &Making,
    found: &Option<Handle>,
    attr: &Option<Attr>,
    wcc: &Wcc,
) -> bool
    ensures { result ≡ creates trace.now entry call.now dir.now name.now making.now found.now attr.now wcc.now }
{
    (makes(trace, entry, call, dir, name) || may_meet(trace, entry, dir, name, making))
        && shows(trace, entry, dir, name, found, attr)
        && shows_wcc(trace, entry, dir, wcc)
}

/// Whether a MKDIR, SYMLINK or MKNOD makes an object.
#[tactic(auto, unfolding(crate::specs::NameTests::makes_other))]
pub(crate) fn makes_other(
    trace: &Trace,
    entry: usize,
    call: &DirCall,
    dir: &Handle,
    name: &Name,
    found: &Option<Handle>,
    attr: &Option<Attr>,
    wcc: &Wcc,
) -> bool
    ensures { result ≡ makes_other trace.now entry call.now dir.now name.now found.now attr.now wcc.now }
{
    makes(trace, entry, call, dir, name)
        && shows(trace, entry, dir, name, found, attr)
        && shows_wcc(trace, entry, dir, wcc)
}

// ---- one more name

#[tactic(auto, unfolding(crate::specs::NameTests::links_row))]
fn links_row(
    file: &Handle,
    name: &Name,
    old: &[DirEntry],
    new: &[DirEntry],
    place: usize,
    row: &DirEntry,
) -> bool
    requires { place < length new.now }
    ensures { result ≡ links_row file.now name.now old.now new.now place row.now }
{
    enters_at(name, old, new, place, row) && row.object == *file
}

#[tactic(auto, unfolding(crate::specs::NameTests::links_at))]
fn links_at(file: &Handle, name: &Name, old: &[DirEntry], new: &[DirEntry], place: usize) -> bool
    requires { place < length new.now }
    ensures { result ≡ links_at file.now name.now old.now new.now place }
{
    links_row(file, name, old, new, place, &new[place])
}

/// Whether the name entered the list at some place, for this object.
#[tactic(auto, using(trace_rules::proofs::Below::any_below_steps), unfolding(crate::specs::NameTests::links_among))]
fn links_among(file: &Handle, name: &Name, old: &[DirEntry], new: &[DirEntry]) -> bool
    ensures { result ≡ links_among file.now name.now old.now new.now }
{
    let mut place = 0;
    while place < new.len() {
        if links_at(file, name, old, new, place) {
            return true;
        }
        place += 1;
    }
    false
}

fn links_in(file: &Handle, name: &Name, old: &Contents, new: &Contents) -> bool
    ensures { result ≡ lists_with (λ before after. links_among file.now name.now before after) old.now new.now }
{
    match old {
        Contents::Directory { entries: before } => match new {
            Contents::Directory { entries: after } => {
                links_among(file, name, before.as_slice(), after.as_slice())
            }
            _ => false,
        },
        _ => false,
    }
}

#[tactic(auto, unfolding(crate::specs::TurnTests::turns))]
fn adds_name(trace: &Trace, entry: usize, file: &Handle, dir: &Handle, name: &Name) -> bool
    ensures { result ≡ turns (lists_with (λ before after. links_among file.now name.now before after)) trace.now entry dir.now }
{
    let Some(old) = before(trace, entry, dir) else {
        return false;
    };
    match after(trace, entry, dir) {
        Some(new) => stays(old, new) && links_in(file, name, &old.contents, &new.contents),
        None => false,
    }
}

/// Whether an object gets one more name.
#[tactic(auto, unfolding(crate::specs::NameTests::links))]
pub(crate) fn links(
    trace: &Trace,
    entry: usize,
    file: &Handle,
    dir: &Handle,
    name: &Name,
    attr: &Option<Attr>,
    wcc: &Wcc,
) -> bool
    ensures { result ≡ links trace.now entry file.now dir.now name.now attr.now wcc.now }
{
    adds_name(trace, entry, file, dir, name)
        && reads(trace, entry, file)
        && only(trace, entry, dir, file, file)
        && shows_attr(trace, entry, file, attr)
        && shows_wcc(trace, entry, dir, wcc)
}

/// Whether a LINK is refused.
#[tactic(auto, unfolding(crate::specs::NameTests::refuses_link))]
pub(crate) fn refuses_link(
    trace: &Trace,
    entry: usize,
    status: &Status,
    dir: &Handle,
    wcc: &Wcc,
    file: &Handle,
    attr: &Option<Attr>,
) -> bool
    ensures { result ≡ refuses_link trace.now entry status.now dir.now wcc.now file.now attr.now }
{
    refuses(trace, entry, status)
        && showed_wcc(trace, entry, dir, wcc)
        && showed_attr(trace, entry, file, attr)
}
