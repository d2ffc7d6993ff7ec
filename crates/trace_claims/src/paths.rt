//! To which objects a path leads.

ghost use Rattle.std.specs.Prelude.{◌≡◌, ◌<◌, ◌++◌, ◌∷◌, [], List, IfOk, length};
ghost use Rattle.std.specs.Str.{bytes_eq};
ghost use Rattle.world_model.specs.Mounts.{Origin};
ghost use Rattle.world_model.specs.declared.entry.Entry as model;
ghost use Rattle.trace_claims.specs.Hearing.{HasHeard};
ghost use Rattle.trace_claims.specs.Judging.{IsOrigin};
ghost use Rattle.trace_claims.specs.Mounting.{path_of, path_in, path_asked, FindsPath, FindsMount, IsMounted};
ghost use Rattle.trace_claims.specs.Operations.{LeadsAll};
ghost use Rattle.trace_claims.specs.Paths.{mounts_path, mnt_path, root_in, root_of, root_by, looks_up, looked_dir, object_in, object_of, is_led};
ghost use Rattle.trace_claims.specs.Paths.{AddsLead, AddsObjects, AddsFound, AddsObjectOf, AddsObject, AddsRoot, NextUpTo, RootsUpTo};

use crate::operations::Lead;
use crate::records::Heard;
use export_serve::{Asked, asked};
use mount_calls::{MountCall, MountReply};
use nfs_dir_calls::{DirCall, DirKept};
use nfs_types::{Handle, Name};
use std::alloc::Global;
use trace_data::Trace;
use world_model::{Call, Entry, Reply};
use xdr_codec::{Blob, Memory};

/// The path of the first MNT that was sent; an empty one if none was.
pub(crate) fn first_mount(alloc: Global, entries: &[Entry]) -> Result<Blob, Memory>
    ensures { IfOk result (IsMounted entries.now) }
{
    let mut at = 0;
    while at < entries.len() {
        match mount_at(alloc, entries, at)? {
            Some(path) => return Ok(path),
            None => at += 1,
        }
    }
    Ok(Blob::of(Vec::new(alloc)))
}

/// The path of the MNT that was sent at a place.
fn mount_at(alloc: Global, entries: &[Entry], place: usize) -> Result<Option<Blob>, Memory>
    requires { place < length entries.now }
    ensures { IfOk result (FindsMount entries.now place) }
{
    match &entries[place] {
        Entry::Sent { bytes } => path_asked(alloc, bytes.bytes()),
        _ => Ok(None),
    }
}

/// The path of the MNT that a record is.
fn path_asked(alloc: Global, bytes: &[u8]) -> Result<Option<Blob>, Memory>
    ensures { IfOk result (FindsPath bytes.now) }
{
    let asked = asked(alloc, bytes)?;
    Ok(mount_in(asked))
}

fn mount_in(asked: Asked) -> Option<Blob>
    ensures { result ≡ path_asked asked }
{
    match asked {
        Asked::Serve { call, .. } => mounts(call),
        _ => None,
    }
}

fn mounts(call: Call) -> Option<Blob>
    ensures { result ≡ path_in call }
{
    match call {
        Call::Mount(call) => mounts_of(call),
        _ => None,
    }
}

fn mounts_of(call: MountCall) -> Option<Blob>
    ensures { result ≡ path_of call }
{
    match call {
        MountCall::Mnt { path } => Some(path),
        _ => None,
    }
}

/// The roots: the one that is given, or those that replies to MNT of the path gave.
pub(crate) fn roots(
    alloc: Global,
    trace: &Trace,
    path: &[u8],
    heard: &[Heard],
) -> Result<Vec<Lead>, Memory>
    ensures { (origin : Origin) → IsOrigin trace.now origin → IsMounted trace.now.entries.items path.now
        → HasHeard trace.now.entries.items (length trace.now.entries.items) heard.now
        → IfOk result (λ all. LeadsAll origin trace.now.entries.items [] all.items) }
{
    match trace.root {
        Some(root) => given_root(alloc, root),
        None => mounted_roots(alloc, path, heard),
    }
}

fn given_root(alloc: Global, root: Handle) -> Result<Vec<Lead>, Memory>
    ensures { IfOk result (λ roots. roots.items ≡ record { file = root; since = 0 } ∷ []) }
{
    let mut roots = Vec::new(alloc);
    roots.push(Lead {
        file: root,
        since: 0,
    })?;
    Ok(roots)
}

fn mounted_roots(alloc: Global, path: &[u8], heard: &[Heard]) -> Result<Vec<Lead>, Memory>
    ensures { IfOk result (λ roots. RootsUpTo path.now heard.now (length heard.now) roots.items) }
{
    let mut roots = Vec::new(alloc);
    let mut at = 0;
    while at < heard.len() {
        add_root(&mut roots, &heard[at], path)?;
        at += 1;
    }
    Ok(roots)
}

/// Adds the root that a reply gave, if it is one to MNT of the path.
fn add_root(roots: &mut Vec<Lead>, heard: &Heard, path: &[u8]) -> Result<(), Memory>
    ensures { IfOk result (λ done. AddsRoot (root_by heard.now path.now) heard.now.after roots.old.items roots.new.items) }
{
    match root_by(heard, path) {
        Some(root) => add(roots, root, heard.after),
        None => Ok(()),
    }
}

/// The root that a reply to MNT of the path gave.
fn root_by(heard: &Heard, path: &[u8]) -> Option<Handle>
    ensures { result ≡ root_by heard.now path.now }
{
    if mounts_path(&heard.call, path) {
        root_in(&heard.reply)
    } else {
        None
    }
}

/// Whether a call is MNT of the path.
fn mounts_path(call: &Call, path: &[u8]) -> bool
    ensures { result ≡ mounts_path call.now path.now }
{
    match call {
        Call::Mount(call) => mnt_path(call, path),
        _ => false,
    }
}

fn mnt_path(call: &MountCall, path: &[u8]) -> bool
    ensures { result ≡ mnt_path call.now path.now }
{
    match call {
        MountCall::Mnt { path: its } => its.bytes() == path,
        _ => false,
    }
}

/// The root that a reply to MNT gave.
fn root_in(reply: &Reply) -> Option<Handle>
    ensures { result ≡ root_in reply.now }
{
    match reply {
        Reply::Mount(reply) => root_of(reply),
        _ => None,
    }
}

fn root_of(reply: &MountReply) -> Option<Handle>
    ensures { result ≡ root_of reply.now }
{
    match reply {
        MountReply::MntOk { root, .. } => Some(*root),
        _ => None,
    }
}

/// Adds an object from a moment on, unless it is listed from an earlier one.
fn add(list: &mut Vec<Lead>, object: Handle, since: usize) -> Result<(), Memory>
    ensures { IfOk result (λ done. AddsLead object since list.old.items list.new.items) }
{
    if !is_led(list.as_slice(), &object, since) {
        list.push(Lead {
            file: object,
            since,
        })?;
    }
    Ok(())
}

/// Whether an object is listed from a moment on, or from an earlier one.
fn is_led(list: &[Lead], object: &Handle, since: usize) -> bool
    ensures { result ≡ is_led list.now object.now since }
{
    list.iter()
        .any(|lead| lead.file == *object && lead.since <= since)
}

/// The objects to which the names lead from the roots.
pub(crate) fn led_to(
    alloc: Global,
    roots: &[Lead],
    heard: &[Heard],
    names: &[Name],
) -> Result<Vec<Lead>, Memory>
    ensures { (origin : Origin) (h : List model.Entry) → HasHeard h (length h) heard.now → LeadsAll origin h [] roots.now
        → IfOk result (λ list. LeadsAll origin h names.now list.items) }
{
    let mut list = copied(alloc, roots)?;
    let mut at = 0;
    while at < names.len() {
        let later = next(alloc, list.as_slice(), heard, &names[at])?;
        list = later;
        at += 1;
    }
    Ok(list)
}

fn copied(alloc: Global, list: &[Lead]) -> Result<Vec<Lead>, Memory>
    ensures { IfOk result (λ all. all.items ≡ list.now) }
{
    let mut all = Vec::new(alloc);
    let mut at = 0;
    while at < list.len() {
        add_lead(&mut all, list[at])?;
        at += 1;
    }
    Ok(all)
}

fn add_lead(all: &mut Vec<Lead>, lead: Lead) -> Result<(), Memory>
    ensures { IfOk result (λ done. all.new.items ≡ all.old.items ++ lead ∷ []) }
{
    all.push(lead)?;
    Ok(())
}

/// The objects to which one name more leads.
fn next(alloc: Global, list: &[Lead], heard: &[Heard], name: &Name) -> Result<Vec<Lead>, Memory>
    ensures { IfOk result (λ later. NextUpTo list.now name.now heard.now (length heard.now) later.items) }
{
    let mut later = Vec::new(alloc);
    let mut at = 0;
    while at < heard.len() {
        add_found(&mut later, list, name, &heard[at])?;
        at += 1;
    }
    Ok(later)
}

/// Adds what a reply to LOOKUP of the name found.
fn add_found(later: &mut Vec<Lead>, list: &[Lead], name: &Name, heard: &Heard) -> Result<(), Memory>
    ensures { IfOk result (λ done. AddsFound list.now name.now heard.now later.old.items later.new.items) }
{
    match looks_up(&heard.call, name) {
        Some(dir) => add_object_of(later, list, &dir, object_in(&heard.reply), heard.after),
        None => Ok(()),
    }
}

fn add_object_of(
    later: &mut Vec<Lead>,
    list: &[Lead],
    dir: &Handle,
    object: Option<Handle>,
    since: usize,
) -> Result<(), Memory>
    ensures { IfOk result (λ done. AddsObjectOf list.now dir.now object since later.old.items later.new.items) }
{
    match object {
        Some(object) => add_objects(later, list, dir, object, since),
        None => Ok(()),
    }
}

/// Adds an object that was found in a directory, for each time that the directory is listed.
fn add_objects(
    later: &mut Vec<Lead>,
    list: &[Lead],
    dir: &Handle,
    object: Handle,
    since: usize,
) -> Result<(), Memory>
    ensures { IfOk result (λ done. AddsObjects list.now dir.now object since (length list.now) later.old.items later.new.items) }
{
    let mut at = 0;
    while at < list.len() {
        add_object(later, &list[at], dir, object, since)?;
        at += 1;
    }
    Ok(())
}

fn add_object(
    later: &mut Vec<Lead>,
    lead: &Lead,
    dir: &Handle,
    object: Handle,
    since: usize,
) -> Result<(), Memory>
    ensures { IfOk result (λ done. AddsObject lead.now dir.now object since later.old.items later.new.items) }
{
    if is_at(lead, dir) {
        add(later, object, lead.since.max(since))
    } else {
        Ok(())
    }
}

/// Whether it leads to a directory.
fn is_at(lead: &Lead, dir: &Handle) -> bool
    ensures { result ≡ bytes_eq lead.now.file dir.now }
{
    lead.file == *dir
}

/// The directory of a LOOKUP of the name.
fn looks_up(call: &Call, name: &Name) -> Option<Handle>
    ensures { result ≡ looks_up call.now name.now }
{
    match call {
        Call::Dir(call) => looked_dir(call, name),
        _ => None,
    }
}

fn looked_dir(call: &DirCall, name: &Name) -> Option<Handle>
    ensures { result ≡ looked_dir call.now name.now }
{
    match call {
        DirCall::Lookup { dir, name: its } => { if *its == *name { Some(*dir) } else { None } }
        _ => None,
    }
}

/// The object that a reply to LOOKUP found.
fn object_in(reply: &Reply) -> Option<Handle>
    ensures { result ≡ object_in reply.now }
{
    match reply {
        Reply::Dir(reply) => object_of(reply),
        _ => None,
    }
}

fn object_of(reply: &DirKept) -> Option<Handle>
    ensures { result ≡ object_of reply.now }
{
    match reply {
        DirKept::Lookup { found, .. } => Some(*found),
        _ => None,
    }
}
