//! What is learnt of the replies to LOOKUP, CREATE and GETATTR.

ghost use Rattle.std.specs.Prelude.{◌≡◌};
ghost use Rattle.client_shelf.specs.Coming.{reply_of};
ghost use Rattle.file_ops.specs.Opening.{LookedAttrs, LookedNames, MadeFile, CreatedAttrs, MadeAttrs, GotAttrs};
ghost use Rattle.client_shelf.specs.Unmade.{came_unmade, names_after};

use attr_cache::AttrCache;
use client_shelf::Came;
use client_shelf::learning::{learn, learn_name, renew};
use client_shelf::unmade::came_unmade;
use name_cache::NameCache;
use nfs_dir_calls::DirReply;
use nfs_types::{Attr, Handle, Name};
use world_model::Fault;

/// Of LOOKUP: the attributes of what was found and of the directory, and the name.
pub(crate) fn note_look_up(
    dir: &Handle,
    name: &Name,
    came: &Came<'_>,
    now: u64,
    attrs: &mut AttrCache,
    names: &mut NameCache,
)
    ensures attrs { LookedAttrs dir.now now (reply_of came.now) attrs.old attrs.new }
    ensures names { LookedNames dir.now name.now (reply_of came.now) names.old names.new }
{
    match came {
        Came::Dir(reply) => match reply {
            DirReply::Lookup {
                found,
                attr,
                dir: dir_attr,
            } => {
                learn(attrs, found, attr, now);
                learn(attrs, dir, dir_attr, now);
                learn_name(names, dir, name, dir_attr, found);
            }
            DirReply::LookupFail { dir: dir_attr, .. } => learn(attrs, dir, dir_attr, now),
            _ => {}
        },
        Came::File(_) => {}
        Came::Refused(_) => {}
    }
}

/// Of CREATE: the attributes of the file whose handle it gave, and those of the directory, whose names are dropped. All stays
/// if the call couldn't be made.
pub(crate) fn note_create(
    dir: &Handle,
    came: &Came<'_>,
    now: u64,
    attrs: &mut AttrCache,
    names: &mut NameCache,
)
    ensures attrs { MadeAttrs dir.now now (reply_of came.now) attrs.old attrs.new }
    ensures names { names.new ≡ names_after (came_unmade (reply_of came.now)) dir.now names.old }
{
    if came_unmade(came) {
        return;
    }
    names.drop_dir(dir);
    note_created(dir, came, now, attrs);
}

/// The attributes that its reply gives.
fn note_created(dir: &Handle, came: &Came<'_>, now: u64, attrs: &mut AttrCache)
    ensures { CreatedAttrs dir.now now (reply_of came.now) attrs.old attrs.new }
{
    match came {
        Came::Dir(reply) => match reply {
            DirReply::Create { found, attr, wcc } => {
                note_made(dir, found, attr, &wcc.after, now, attrs);
            }
            DirReply::CreateFail { wcc, .. } => renew(attrs, dir, &wcc.after, now),
            _ => attrs.forget(dir),
        },
        Came::File(_) => attrs.forget(dir),
        Came::Refused(_) => attrs.forget(dir),
    }
}

/// The attributes of a file that was made, and those of its directory.
fn note_made(
    dir: &Handle,
    found: &Option<Handle>,
    attr: &Option<Attr>,
    after: &Option<Attr>,
    now: u64,
    attrs: &mut AttrCache,
)
    ensures { MadeFile dir.now found.now attr.now after.now now attrs.old attrs.new }
{
    match found {
        Some(found) => {
            learn(attrs, found, attr, now);
            renew(attrs, dir, after, now);
        }
        None => renew(attrs, dir, after, now),
    }
}

/// Of GETATTR: the attributes.
pub(crate) fn note_attr(file: &Handle, reply: Result<Attr, Fault>, now: u64, attrs: &mut AttrCache)
    ensures { GotAttrs file.now now reply attrs.old attrs.new }
{
    if let Ok(attr) = reply {
        learn(attrs, file, &Some(attr), now);
    }
}
