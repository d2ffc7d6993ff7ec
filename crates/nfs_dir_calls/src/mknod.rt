//! MKNOD: makes a device, a socket or a pipe (RFC 1813, section 3.3.11).

ghost use Rattle.std.specs.Prelude.{◌≡◌, ◌++◌, OnOk, OnErr};
ghost use Rattle.xdr_codec.specs.Reading.{Reads};
ghost use Rattle.xdr_codec.specs.Spelling.{BeginsWith};
ghost use Rattle.xdr_codec.specs.Spells.{◌⨾◌, Wrote};
ghost use Rattle.xdr_codec.specs.Whole.{Gives};
ghost use Rattle.nfs_dir_calls.specs.Places.{place_bytes, SpellsPlace};
ghost use Rattle.nfs_dir_calls.specs.Nodes.{device_of, pipe_of, node_at, node_bytes, IsNode, SpellsNode};
ghost use Rattle.nfs_dir_calls.specs.Kept.{kept_of};
ghost use Rattle.nfs_dir_calls.specs.MkNod.{mknod_call_at, mknod_at};

use crate::call::DirCall;
use crate::new_object::{NewObject, read_new_object};
use crate::place::{read_place, write_place};
use crate::reply::DirReply;
use nfs_types::{Handle, Name, SetAttr, read_set_attr, write_set_attr};
use xdr_codec::{Memory, Reader, Writer, XdrFault};

/// What MKNOD makes (RFC 1813, section 3.3.11, mknoddata3), by its kind, ftype3.
#[derive(Clone, Copy, Debug, PartialEq, Eq)]
pub enum Node {
    /// A block device, kind 3, or a character device, kind 4.
    Device {
        kind: u32,
        set: SetAttr,
        major: u32,
        minor: u32,
    },
    /// A socket, kind 6, or a named pipe, kind 7.
    Pipe {
        kind: u32,
        set: SetAttr,
    },
    /// Any other kind, which a server refuses.
    Plain {
        kind: u32,
    },
}

#[tactic(auto, unfolding(crate::specs::Nodes::device_of))]
fn read_device(r: &mut Reader<'_>, kind: u32) -> Result<Node, XdrFault>
    ensures { Reads (λ x. x) r.old result r.new (device_of kind r.old) }
{
    let mut at = r.again();
    let set = read_set_attr(&mut at)?;
    let major = at.u32()?;
    let minor = at.u32()?;
    *r = at;
    Ok(Node::Device {
        kind,
        set,
        major,
        minor,
    })
}

#[tactic(auto, unfolding(crate::specs::Nodes::pipe_of))]
fn read_pipe(r: &mut Reader<'_>, kind: u32) -> Result<Node, XdrFault>
    ensures { Reads (λ x. x) r.old result r.new (pipe_of kind r.old) }
{
    let set = read_set_attr(r)?;
    Ok(Node::Pipe { kind, set })
}

/// Reads what is to be made.
#[tactic(auto, unfolding(crate::specs::Nodes::node_at))]
fn read_node(r: &mut Reader<'_>) -> Result<Node, XdrFault>
    ensures { Reads (λ x. x) r.old result r.new (node_at r.old) }
{
    let mut at = r.again();
    let kind = at.u32()?;
    let node = if kind == 3 || kind == 4 {
        read_device(&mut at, kind)?
    } else if kind == 6 || kind == 7 {
        read_pipe(&mut at, kind)?
    } else {
        Node::Plain { kind }
    };
    *r = at;
    Ok(node)
}

/// Appends what is to be made.
#[tactic(auto, using(xdr_codec::proofs::Begins::after_a, xdr_codec::proofs::Begins::begins_b, xdr_codec::proofs::Begins::begins_c, xdr_codec::proofs::Begins::grown_d, std::proofs::Common::append_assoc), unfolding(crate::specs::Nodes::node_bytes))]
fn write_node(w: &mut Writer, node: &Node) -> Result<(), Memory>
    requires { IsNode node.now }
    ensures ok { OnOk result (w.new ≡ w.old ++ node_bytes node.now) }
    ensures err { OnErr result (BeginsWith w.old w.new) }
    ensures spelled { OnOk result (Wrote (SpellsNode node.now) w.old w.new) }
{
    match node {
        Node::Device {
            kind,
            set,
            major,
            minor,
        } => {
            w.u32(*kind)?;
            write_set_attr(w, set)?;
            w.u32(*major)?;
            w.u32(*minor)?;
        }
        Node::Pipe { kind, set } => {
            w.u32(*kind)?;
            write_set_attr(w, set)?;
        }
        Node::Plain { kind } => w.u32(*kind)?,
    }
    Ok(())
}

/// Reads the arguments.
#[tactic(auto, unfolding(crate::specs::MkNod::mknod_call_at))]
pub fn read_call(args: &[u8]) -> Result<DirCall, XdrFault>
    ensures { result ≡ mknod_call_at args.now }
{
    let mut r = Reader::new(args);
    let place = read_place(&mut r)?;
    let node = read_node(&mut r)?;
    r.end()?;
    Ok(DirCall::MkNod {
        dir: place.dir,
        name: place.name,
        node,
    })
}

/// Appends the arguments.
#[tactic(auto, using(xdr_codec::proofs::Begins::begins_then, std::proofs::Common::append_assoc))]
pub fn write_call(w: &mut Writer, dir: &Handle, name: &Name, node: &Node) -> Result<(), Memory>
    requires { IsNode node.now }
    ensures ok { OnOk result (w.new ≡ w.old ++ (place_bytes dir.now name.now ++ node_bytes node.now)) }
    ensures err { OnErr result (BeginsWith w.old w.new) }
    ensures spelled { OnOk result (Wrote (SpellsPlace dir.now name.now ⨾ SpellsNode node.now) w.old w.new) }
{
    write_place(w, dir, name)?;
    write_node(w, node)?;
    Ok(())
}

/// Reads the results.
#[tactic(auto, unfolding(crate::specs::MkNod::mknod_at))]
pub fn read_reply<'a>(results: &'a [u8]) -> Result<DirReply<'a>, XdrFault>
    ensures { Gives kept_of result (mknod_at results.entry.now) }
{
    Ok(match read_new_object(results)? {
        NewObject::Done { found, attr, wcc } => DirReply::MkNod { found, attr, wcc },
        NewObject::Failed { status, wcc } => DirReply::MkNodFail { status, wcc },
    })
}
