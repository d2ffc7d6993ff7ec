//! RENAME, and what follows its reply.

ghost use Rattle.std.specs.Prelude.{◌≡◌, None};
ghost use Rattle.client_shelf.specs.Coming.{reply_of};
ghost use Rattle.client_shelf.specs.Unmade.{names_after};
ghost use Rattle.client_shelf.specs.Busy.{goes_again, repeats_after};
ghost use Rattle.name_ops.specs.Changing.{answer_of, told_busy};
ghost use Rattle.name_ops.specs.Moving.{move_call, unmoved, moved_told, given_to, to_of, RenewsBoth, RenewsMoved};

use attr_cache::AttrCache;
use client_shelf::busy::{again, is_busy};
use client_shelf::learning::renew;
use client_shelf::unmade::is_unmade;
use client_shelf::{Came, Shelf, Turn};
use name_cache::NameCache;
use nfs_dir_calls::{DirCall, DirReply};
use nfs_types::{Attr, Handle, Name};
use world_model::{Answer, Call, Fault, Value};

/// What a reply to RENAME tells.
#[derive(Clone, Copy, Debug)]
pub struct Moved {
    /// The attributes of the directory that had the name, if the reply gives them.
    pub from: Option<Attr>,
    /// Those of the directory that has the new name.
    pub to: Option<Attr>,
    /// Why nothing was renamed, if nothing was.
    pub refusal: Option<Fault>,
    /// Whether the call couldn't be made, so that what is kept of both directories stays.
    pub unmade: bool,
}

impl Moved {
    /// No reply of this call came, or it couldn't be made.
    fn refused(fault: Fault) -> Moved
        ensures { result ≡ unmoved fault }
    {
        Moved {
            from: None,
            to: None,
            refusal: Some(fault),
            unmade: is_unmade(&fault),
        }
    }

    /// The answer of the operation.
    pub(crate) fn answer(&self) -> Answer
        ensures { result ≡ answer_of self.now.refusal }
    {
        match self.refusal {
            None => Answer::Done(Value::Nothing),
            Some(fault) => Answer::Refused(fault),
        }
    }

    /// Whether it was refused because the server is busy.
    fn is_busy(&self) -> bool
        ensures { result ≡ told_busy self.now.refusal }
    {
        match self.refusal {
            None => false,
            Some(fault) => is_busy(&fault),
        }
    }
}

/// The call.
pub(crate) fn move_call(from_dir: Handle, from: Name, to_dir: Handle, to: Name) -> Call
    ensures { result ≡ move_call from_dir from to_dir to }
{
    Call::Dir(DirCall::Rename {
        from_dir,
        from,
        to_dir,
        to,
    })
}

/// What the reply tells.
pub(crate) fn moved_told(came: &Came<'_>) -> Moved
    ensures { result ≡ moved_told (reply_of came.now) }
{
    match came {
        Came::Dir(reply) => match reply {
            DirReply::Rename { from, to } => Moved {
                from: from.after,
                to: to.after,
                refusal: None,
                unmade: false,
            },
            DirReply::RenameFail { status, from, to } => Moved {
                from: from.after,
                to: to.after,
                refusal: Some(Fault::Nfs(status.0)),
                unmade: false,
            },
            _ => Moved::refused(Fault::Bad(2)),
        },
        Came::File(_) => Moved::refused(Fault::Bad(2)),
        Came::Refused(fault) => Moved::refused(*fault),
    }
}

/// What the reply tells is noted. Whether the call, which the step with the turn `sent` made, is made again.
pub(crate) fn move_names(
    from: &Handle,
    to: &Handle,
    told: &Moved,
    sent: Turn,
    turn: Turn,
    shelf: &mut Shelf,
) -> bool
    ensures told { result ≡ goes_again (told_busy told.now.refusal) sent turn shelf.old.repeats }
    ensures attrs { RenewsMoved told.now.unmade from.now to.now told.now sent.now shelf.old.attrs shelf.new.attrs }
    ensures frame { shelf.new ≡ record shelf.old { attrs = shelf.new.attrs; names = names_after told.now.unmade to.now (names_after told.now.unmade from.now shelf.old.names); repeats = repeats_after (told_busy told.now.refusal) sent turn shelf.old.repeats } }
{
    note_move(from, to, told, sent.now, &mut shelf.attrs, &mut shelf.names);
    again(told.is_busy(), sent, turn, &mut shelf.repeats)
}

/// The names of both directories are dropped, and their attributes learnt or forgotten. All stays if the call couldn't be
/// made.
fn note_move(
    from: &Handle,
    to: &Handle,
    told: &Moved,
    now: u64,
    attrs: &mut AttrCache,
    names: &mut NameCache,
)
    ensures attrs { RenewsMoved told.now.unmade from.now to.now told.now now attrs.old attrs.new }
    ensures names { names.new ≡ names_after told.now.unmade to.now (names_after told.now.unmade from.now names.old) }
{
    if told.unmade {
        return;
    }
    names.drop_dir(from);
    names.drop_dir(to);
    renew_both(from, &told.from, to, &to_of(from, to, told), now, attrs);
}

/// The attributes that the reply gives of the directory with the new name. Within one directory either side gives them.
fn to_of(from: &Handle, to: &Handle, told: &Moved) -> Option<Attr>
    ensures { result ≡ to_of from.now to.now told.now }
{
    match told.to {
        Some(attr) => Some(attr),
        None => from_of(*from == *to, told),
    }
}

/// Those of the side of the old name, within one directory.
fn from_of(same: bool, told: &Moved) -> Option<Attr>
    ensures { result ≡ given_to same told.now.from None }
{
    if same { told.from } else { None }
}

/// The attributes of one directory, and then those of the other.
fn renew_both(
    from: &Handle,
    from_attr: &Option<Attr>,
    to: &Handle,
    to_attr: &Option<Attr>,
    now: u64,
    attrs: &mut AttrCache,
)
    ensures { RenewsBoth from.now from_attr.now to.now to_attr.now now attrs.old attrs.new }
{
    renew(attrs, from, from_attr, now);
    renew(attrs, to, to_attr, now);
}
