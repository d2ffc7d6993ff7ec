//! The set-up of a session.

ghost use Rattle.std.specs.Prelude.{◌≡◌, ◌≤◌, ◌+◌, ◌-◌, ◌^◌, [], length, IfOk};
ghost use Rattle.world_model.specs.Entries.{ours};
ghost use Rattle.world_model.specs.Told.{Relates};
ghost use Rattle.link_dials.specs.Dials.{Reaches};
ghost use Rattle.session_setup.specs.Along.{Along};
ghost use Rattle.session_setup.specs.Outcomes.{IsOptions, FitsSession, SetsUp};
ghost use Rattle.session_setup.specs.Phases.{KeepsTerms, AreSizes, Mounts, Informs, Finishes, fault_after, tally_after};

use crate::connect::connect;
use crate::exchange::exchange;
use crate::reply::{hear_mount, hear_sizes};
use crate::request::{ask_mount, ask_sizes};
use crate::sizes::{Sizes, sizes_by};
use crate::stop::Stop;
use nfs_types::Handle;
use outside::Link;
use rpc_retry::Calls;
use session_words::{Export, Settings};
use std::alloc::Global;
use world_model::{Fault, Tally};
use xdr_codec::Blob;

/// What a session goes by, once it is set up.
#[derive(Clone, Copy, Debug)]
pub struct SetUp {
    /// The file handle of the export's root.
    pub root: Handle,
    /// The most bytes of a READ: whole pages, if it is more than one.
    pub rsize: u32,
    /// The most bytes of a WRITE.
    pub wsize: u32,
    /// The xid of the next call.
    pub next_xid: u32,
    /// How many calls are left.
    pub left: u32,
    /// The calls of NFS that were made.
    pub tally: Tally,
}

/// Why a session isn't set up.
#[derive(Clone, Copy, Debug, PartialEq, Eq)]
pub enum SetUpFault {
    /// The mount is refused.
    Refused(Fault),
    /// The session is lost, after these calls of NFS.
    Lost(Tally),
    /// Out of memory.
    Memory,
}

/// Sets up a session whose calls have xids from this one on. It connects to the port of MOUNT and mounts the export, unless its root is
/// given. Then it connects to the port of NFS and asks for the server's sizes. A call that isn't answered is sent again under its xid,
/// after a failure of the link over a new connection. The session is lost after
/// - four attempts of a call;
/// - four failed connects in a row;
/// - 65,536 records in a row that answer no call.
pub fn set_up<L: Link>(
    alloc: Global,
    settings: &Settings,
    first_xid: u32,
    link: &mut L,
) -> Result<SetUp, SetUpFault>
    requires options { IsOptions settings.now }
    requires first { 1 ≤ first_xid }
    requires last { first_xid + settings.now.calls ≤ 2 ^ 32 - 1 }
    ensures goes { Along (L.told link.old) (L.told link.new) (λ h k. ours h ≡ [] → SetsUp settings.now first_xid result k) }
    ensures fits { IfOk result (FitsSession settings.now first_xid) }
    ensures stays { (first : L) → L.stays first link.old → L.stays first link.new }
    ensures honest { L.honest link.old → L.honest link.new }
{
    let mut calls = Calls::new(alloc, first_xid, settings.calls, settings.cred);
    match &settings.export {
        Export::Path(path) => match mount(alloc, settings.mount_port, path, link, &mut calls) {
            Ok(root) => finish(alloc, settings, root, link, &mut calls),
            Err(fault) => Err(fault),
        },
        Export::Root(root) => finish(alloc, settings, *root, link, &mut calls),
    }
}

/// Mounts the path, and gives its root.
fn mount<L: Link>(
    alloc: Global,
    port: u16,
    path: &Blob,
    link: &mut L,
    calls: &mut Calls<()>,
) -> Result<Handle, SetUpFault>
    requires mountable { length path.now ≤ 1024 }
    ensures goes { Along (L.told link.old) (L.told link.new) (Mounts path.now calls.old calls.new result) }
    ensures reaches { Relates (L.told link.old) (L.told link.new) (Reaches port result) }
    ensures keeps { KeepsTerms calls.old calls.new }
    ensures stays { (first : L) → L.stays first link.old → L.stays first link.new }
    ensures honest { L.honest link.old → L.honest link.new }
{
    match connect(port, link) {
        Ok(()) => {}
        Err(stop) => return Err(fault_after(stop, 0)),
    }
    let Ok(()) = ask_mount(alloc, path, calls) else {
        return Err(SetUpFault::Memory);
    };
    match exchange(alloc, port, link, calls) {
        Ok(record) => hear_mount(alloc, record.bytes()),
        Err(stop) => Err(fault_after(stop, 0)),
    }
}

/// Asks for the server's sizes, once the root is known.
fn finish<L: Link>(
    alloc: Global,
    settings: &Settings,
    root: Handle,
    link: &mut L,
    calls: &mut Calls<()>,
) -> Result<SetUp, SetUpFault>
    requires options { IsOptions settings.now }
    requires made { calls.old.made ≤ 1 }
    requires limit { calls.old.limit ≡ settings.now.calls }
    requires last { calls.old.first_xid + settings.now.calls ≤ 2 ^ 32 - 1 }
    ensures goes { Along (L.told link.old) (L.told link.new) (Finishes root settings.now calls.old calls.new result) }
    ensures reaches { Relates (L.told link.old) (L.told link.new) (Reaches settings.now.nfs_port result) }
    ensures keeps { KeepsTerms calls.old calls.new }
    ensures fits { IfOk result (FitsSession settings.now calls.old.first_xid) }
    ensures stays { (first : L) → L.stays first link.old → L.stays first link.new }
    ensures honest { L.honest link.old → L.honest link.new }
{
    match inform(alloc, settings, root, link, calls) {
        Ok(sizes) => Ok(SetUp {
            root,
            rsize: sizes.rsize,
            wsize: sizes.wsize,
            next_xid: calls.next_xid(),
            left: settings.calls - calls.made(),
            tally: tally_after(1),
        }),
        Err(why) => Err(why),
    }
}

/// Asks for the server's sizes, and gives those of the session.
fn inform<L: Link>(
    alloc: Global,
    settings: &Settings,
    root: Handle,
    link: &mut L,
    calls: &mut Calls<()>,
) -> Result<Sizes, SetUpFault>
    requires options { IsOptions settings.now }
    ensures goes { Along (L.told link.old) (L.told link.new) (Informs root settings.now.rsize settings.now.wsize calls.old calls.new result) }
    ensures reaches { Relates (L.told link.old) (L.told link.new) (Reaches settings.now.nfs_port result) }
    ensures keeps { KeepsTerms calls.old calls.new }
    ensures fits { IfOk result (λ sizes. AreSizes sizes.rsize sizes.wsize) }
    ensures stays { (first : L) → L.stays first link.old → L.stays first link.new }
    ensures honest { L.honest link.old → L.honest link.new }
{
    match connect(settings.nfs_port, link) {
        Ok(()) => {}
        Err(stop) => return Err(fault_after(stop, 0)),
    }
    let Ok(()) = ask_sizes(alloc, root, calls) else {
        return Err(SetUpFault::Memory);
    };
    match exchange(alloc, settings.nfs_port, link, calls) {
        Ok(record) => Ok(sizes_by(settings.rsize, settings.wsize, hear_sizes(record.bytes()))),
        Err(stop) => Err(fault_after(stop, 1)),
    }
}

/// Why the session isn't set up, after so many calls of FSINFO.
fn fault_after(stop: Stop, calls: u32) -> SetUpFault
    ensures { result ≡ fault_after stop calls }
{
    match stop {
        Stop::Lost => SetUpFault::Lost(tally_after(calls)),
        Stop::Memory => SetUpFault::Memory,
    }
}

/// The calls of NFS that were made, if so many of FSINFO were.
fn tally_after(calls: u32) -> Tally
    ensures { result ≡ tally_after calls }
{
    Tally {
        calls,
        getattr: 0,
        lookup: 0,
        read: 0,
        write: 0,
        commit: 0,
    }
}
