//! Which machine an operation begins as.

ghost use Rattle.std.specs.Prelude.{◌≡◌, IfOk};
ghost use Rattle.op_machines.specs.Begun.{IsAsked, IsNamed, front_of, last_of, open_of, put_of, on_way, path_of, write_of, change_of, remove_of, rename_of, link_of, sym_link_of, machine_of};
ghost use Rattle.op_machines.specs.Fits.{Fits};

use crate::file_machine::FileMachine;
use crate::machine::Machine;
use crate::name_machine::NameMachine;
use crate::opener::Opener;
use crate::path_machine::PathMachine;
use file_ops::{CloseFile, OpenFile, PutFile, ReadFile, SyncFile, Text, TruncateFile, WriteFile};
use name_ops::{
    Access, DirChange, DirDeed, Link, ListDir, ReadLink, RemoveFile, Rename, Stat, SymLink, Walk,
};
use nfs_types::{Handle, Mode, Name};
use std::alloc::Global;
use world_model::{Op, Path};
use xdr_codec::{Blob, Memory};

/// The export as it is mounted: what operations have to know of it.
#[derive(Clone, Copy, Debug)]
pub struct Mounted {
    /// The directory at which paths begin.
    pub root: Handle,
    /// The greatest READ.
    pub rsize: u32,
    /// Whether a read asks for the attributes of its file first.
    pub noac: bool,
    /// Whether an open of a file whose state is known doesn't ask for its attributes.
    pub nocto: bool,
}

/// A path, apart.
#[derive(Drop)]
struct Place {
    /// The path of the directory.
    dir: Path,
    /// The last name.
    name: Name,
}

impl Machine {
    /// The machine of an operation, which hasn't made a step yet. It copies the names that it needs, and shares the bytes. There may be no
    /// memory for them.
    pub fn new(alloc: Global, mounted: &Mounted, lane: u8, op: &Op) -> Result<Machine, Memory>
        requires { IsAsked op.now }
        ensures of { IfOk result (λ machine. machine ≡ machine_of mounted.now lane op.now) }
        ensures fits { IfOk result Fits }
    {
        machine_of(alloc, mounted, lane, op)
    }
}

// Longer than other functions, but a split would only hide the table.
/// The machine of an operation, one arm each.
fn machine_of(alloc: Global, mounted: &Mounted, lane: u8, op: &Op) -> Result<Machine, Memory>
    requires { IsAsked op.now }
    ensures { IfOk result (λ machine. machine ≡ machine_of mounted.now lane op.now) }
{
    let root = &mounted.root;
    match op {
        Op::OpenFile { slot, mode, path } => {
            open_machine(alloc, mounted, lane, *slot, *mode, path)
        }
        Op::Read {
            slot,
            offset,
            count,
        } => Ok(Machine::File(FileMachine::Read(ReadFile::new(
            lane,
            *slot,
            *offset,
            *count,
            mounted.rsize,
            mounted.noac,
        )))),
        Op::Write {
            slot,
            offset,
            bytes,
        } => {
            let text = Text::Given(bytes.again(alloc)?);
            Ok(write_machine(lane, *slot, *offset, text))
        }
        Op::Fill {
            slot,
            offset,
            count,
            byte,
        } => {
            let text = Text::Fill {
                count: *count,
                byte: *byte,
            };
            Ok(write_machine(lane, *slot, *offset, text))
        }
        Op::Put {
            path,
            offset,
            bytes,
        } => put_machine(alloc, mounted, lane, path, *offset, bytes),
        Op::Sync { slot } => Ok(Machine::File(FileMachine::Sync(SyncFile::new(lane, *slot)))),
        Op::Close { slot } => Ok(Machine::File(FileMachine::Close(CloseFile::new(lane, *slot)))),
        Op::Truncate { slot, size } => Ok(Machine::File(FileMachine::Truncate(TruncateFile::new(
            lane, *slot, *size,
        )))),
        Op::Stat { path } => Ok(Machine::Name(NameMachine::Stat(Stat::new(
            root,
            path.copy(alloc)?,
        )))),
        Op::Access { path, bits } => Ok(Machine::Name(NameMachine::Access(Access::new(
            root,
            path.copy(alloc)?,
            *bits,
        )))),
        Op::MakeDir { path } => change_machine(alloc, root, path, DirDeed::Make),
        Op::RemoveDir { path } => change_machine(alloc, root, path, DirDeed::Remove),
        Op::Remove { path } => remove_machine(alloc, root, path),
        Op::Rename { from, to } => rename_machine(alloc, root, from, to),
        Op::Link { from, to } => link_machine(alloc, root, from, to),
        Op::SymLink { path, target } => sym_link_machine(alloc, root, path, target),
        Op::ReadLink { path } => Ok(Machine::Name(NameMachine::ReadLink(ReadLink::new(
            root,
            path.copy(alloc)?,
        )))),
        Op::List { path } => Ok(Machine::Name(NameMachine::List(ListDir::new(
            alloc,
            root,
            path.copy(alloc)?,
        )))),
    }
}

/// The path of the directory of its last name, and that name.
fn place_of(alloc: Global, path: &Path) -> Result<Place, Memory>
    requires { IsNamed path.now }
    ensures { IfOk result (λ place. place ≡ record { dir = front_of path.now; name = last_of path.now }) }
{
    match path.names().split_last() {
        Some((name, front)) => named(alloc, front, name),
        None => unreachable!(),
    }
}

/// A name and the names before it.
fn named(alloc: Global, front: &[Name], name: &Name) -> Result<Place, Memory>
    ensures { IfOk result (λ place. place ≡ record { dir = front.now; name = name.now }) }
{
    Ok(Place {
        dir: Path::of(front.to_vec(alloc)?),
        name: *name,
    })
}

/// An open or a put: a walk leads to the directory first.
fn path_machine(root: &Handle, dir: Path, opener: Opener) -> Machine
    ensures { result ≡ on_way root.now dir opener }
{
    Machine::Path(PathMachine {
        walk: Walk::new(root, dir),
        opener,
        arrived: false,
    })
}

/// An open.
fn open_machine(
    alloc: Global,
    mounted: &Mounted,
    lane: u8,
    slot: u8,
    mode: Mode,
    path: &Path,
) -> Result<Machine, Memory>
    requires { IsNamed path.now }
    ensures { IfOk result (λ machine. machine ≡ path_of mounted.now path.now (open_of mounted.now lane slot mode (last_of path.now))) }
{
    let place = place_of(alloc, path)?;
    let root = &mounted.root;
    let open = OpenFile::new(lane, slot, mode, mounted.nocto, root, &place.name);
    Ok(path_machine(root, place.dir, Opener::Open(open)))
}

/// A put.
fn put_machine(
    alloc: Global,
    mounted: &Mounted,
    lane: u8,
    path: &Path,
    offset: u64,
    bytes: &Blob,
) -> Result<Machine, Memory>
    requires { IsNamed path.now }
    ensures { IfOk result (λ machine. machine ≡ path_of mounted.now path.now (put_of mounted.now lane (last_of path.now) offset bytes.now)) }
{
    let place = place_of(alloc, path)?;
    let root = &mounted.root;
    let own = bytes.again(alloc)?;
    let put = PutFile::new(lane, mounted.nocto, root, &place.name, offset, own);
    Ok(path_machine(root, place.dir, Opener::Put(put)))
}

/// A write or a fill.
fn write_machine(lane: u8, slot: u8, offset: u64, text: Text) -> Machine
    ensures { result ≡ write_of lane slot offset text }
{
    Machine::File(FileMachine::Write(WriteFile::new(lane, slot, offset, text)))
}

/// A directory that is made or removed.
fn change_machine(
    alloc: Global,
    root: &Handle,
    path: &Path,
    deed: DirDeed,
) -> Result<Machine, Memory>
    requires { IsNamed path.now }
    ensures { IfOk result (λ machine. machine ≡ change_of root.now path.now deed) }
{
    let place = place_of(alloc, path)?;
    let change = DirChange::new(root, place.dir, &place.name, deed);
    Ok(Machine::Name(NameMachine::Change(change)))
}

/// A name of a file that is removed.
fn remove_machine(alloc: Global, root: &Handle, path: &Path) -> Result<Machine, Memory>
    requires { IsNamed path.now }
    ensures { IfOk result (λ machine. machine ≡ remove_of root.now path.now) }
{
    let place = place_of(alloc, path)?;
    let removal = RemoveFile::new(root, place.dir, &place.name);
    Ok(Machine::Name(NameMachine::Remove(removal)))
}

/// Another name in place of one.
fn rename_machine(alloc: Global, root: &Handle, from: &Path, to: &Path) -> Result<Machine, Memory>
    requires from { IsNamed from.now }
    requires to { IsNamed to.now }
    ensures { IfOk result (λ machine. machine ≡ rename_of root.now from.now to.now) }
{
    let from = place_of(alloc, from)?;
    let to = place_of(alloc, to)?;
    let rename = Rename::new(root, from.dir, &from.name, to.dir, &to.name);
    Ok(Machine::Name(NameMachine::Rename(rename)))
}

/// A further name.
fn link_machine(alloc: Global, root: &Handle, file: &Path, to: &Path) -> Result<Machine, Memory>
    requires { IsNamed to.now }
    ensures { IfOk result (λ machine. machine ≡ link_of root.now file.now to.now) }
{
    let place = place_of(alloc, to)?;
    let file = file.copy(alloc)?;
    let link = Link::new(root, file, place.dir, &place.name);
    Ok(Machine::Name(NameMachine::Link(link)))
}

/// A symbolic link that is made.
fn sym_link_machine(
    alloc: Global,
    root: &Handle,
    path: &Path,
    target: &Blob,
) -> Result<Machine, Memory>
    requires { IsNamed path.now }
    ensures { IfOk result (λ machine. machine ≡ sym_link_of root.now path.now target.now) }
{
    let place = place_of(alloc, path)?;
    let target = target.again(alloc)?;
    let link = SymLink::new(root, place.dir, &place.name, target);
    Ok(Machine::Name(NameMachine::SymLink(link)))
}
