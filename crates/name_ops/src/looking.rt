//! What a reply to LOOKUP tells.

ghost use Rattle.std.specs.Prelude.{◌≡◌};
ghost use Rattle.client_shelf.specs.Coming.{reply_of};
ghost use Rattle.client_shelf.specs.Busy.{fails_busy, goes_again, repeats_after};
ghost use Rattle.name_ops.specs.Looking.{look_up, found_by, LookedAttrs, LookedNames};

use attr_cache::AttrCache;
use client_shelf::busy::{again, is_busy};
use client_shelf::learning::{learn, learn_name};
use client_shelf::{Came, Shelf, Turn};
use name_cache::NameCache;
use nfs_dir_calls::{DirCall, DirReply};
use nfs_types::{Handle, Name};
use world_model::{Call, Fault};

/// The call that looks for a name in a directory.
pub(crate) fn look_up(dir: Handle, name: Name) -> Call
    ensures { result ≡ look_up dir name }
{
    Call::Dir(DirCall::Lookup { dir, name })
}

/// The object that LOOKUP found.
pub(crate) fn found_by(came: &Came<'_>) -> Result<Handle, Fault>
    ensures { result ≡ found_by (reply_of came.now) }
{
    match came {
        Came::Dir(reply) => match reply {
            DirReply::Lookup { found, .. } => Ok(*found),
            DirReply::LookupFail { status, .. } => Err(Fault::Nfs(status.0)),
            _ => Err(Fault::Bad(2)),
        },
        Came::File(_) => Err(Fault::Bad(2)),
        Came::Refused(fault) => Err(*fault),
    }
}

/// Whether it was refused because the server is busy.
fn look_busy(told: &Result<Handle, Fault>) -> bool
    ensures { result ≡ fails_busy told.now }
{
    match told {
        Ok(_) => false,
        Err(fault) => is_busy(fault),
    }
}

/// What is learnt of LOOKUP: the attributes of what was found and of the directory, and the name.
fn note_look_up(
    dir: &Handle,
    name: &Name,
    came: &Came<'_>,
    now: u64,
    attrs: &mut AttrCache,
    names: &mut NameCache,
)
    ensures attrs { LookedAttrs dir.now now (reply_of came.now) attrs.old attrs.new }
    ensures names { LookedNames dir.now name.now (reply_of came.now) names.old names.new }
{
    match came {
        Came::Dir(reply) => match reply {
            DirReply::Lookup {
                found,
                attr,
                dir: dir_attr,
            } => {
                learn(attrs, found, attr, now);
                learn(attrs, dir, dir_attr, now);
                learn_name(names, dir, name, dir_attr, found);
            }
            DirReply::LookupFail { dir: dir_attr, .. } => learn(attrs, dir, dir_attr, now),
            _ => {}
        },
        Came::File(_) => {}
        Came::Refused(_) => {}
    }
}

/// Learns of the reply to the LOOKUP of a name. Whether the call, which the step with the turn `sent` made, is made again.
pub(crate) fn hear(
    dir: &Handle,
    name: &Name,
    told: &Result<Handle, Fault>,
    sent: Turn,
    came: &Came<'_>,
    turn: Turn,
    shelf: &mut Shelf,
) -> bool
    ensures told { result ≡ goes_again (fails_busy told.now) sent turn shelf.old.repeats }
    ensures attrs { LookedAttrs dir.now sent.now (reply_of came.now) shelf.old.attrs shelf.new.attrs }
    ensures names { LookedNames dir.now name.now (reply_of came.now) shelf.old.names shelf.new.names }
    ensures frame { shelf.new ≡ record shelf.old { attrs = shelf.new.attrs; names = shelf.new.names; repeats = repeats_after (fails_busy told.now) sent turn shelf.old.repeats } }
{
    note_look_up(
        dir,
        name,
        came,
        sent.now,
        &mut shelf.attrs,
        &mut shelf.names,
    );
    again(look_busy(told), sent, turn, &mut shelf.repeats)
}
