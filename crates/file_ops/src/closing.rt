//! What a close does after its sync.

ghost use Rattle.std.specs.Prelude.{◌≡◌, ◌≤◌};
ghost use Rattle.client_shelf.specs.Coming.{reply_of};
ghost use Rattle.client_shelf.specs.Unmade.{came_unmade, names_after, RenewsUnless};
ghost use Rattle.nfs_dir_calls.specs.Kept.{kept_of};
ghost use Rattle.write_back.specs.Files.{all_pending};
ghost use Rattle.file_ops.specs.Quiet.{is_quiet};
ghost use Rattle.file_ops.specs.Closings.{TellsPlace, remove_of, removed_by, removed_of, busy_by, remove_busy, GivesIf, GivesUp, GivesUpBy, closed_answer, refusal_of};

use crate::quiet::is_quiet;
use attr_cache::AttrCache;
use client_shelf::Came;
use client_shelf::busy::JUKEBOX;
use client_shelf::learning::renew;
use client_shelf::unmade::came_unmade;
use name_cache::NameCache;
use nfs_dir_calls::{DirCall, DirReply};
use nfs_types::{Attr, Handle, Name};
use open_files::OpenFiles;
use silly_rename::Silly;
use world_model::{Answer, Call, Fault, Value};
use write_back::WriteBack;

/// The removal of a file at its last close.
#[derive(Clone, Copy, Debug)]
pub struct Removal {
    /// The file.
    pub file: Handle,
    /// The directory of the name that it has.
    pub dir: Handle,
    /// That name.
    pub name: Name,
    /// Why its pending bytes weren't made stable, if they weren't.
    pub refusal: Option<Fault>,
}

/// The place of a file that is to be removed, if it isn't open any more.
pub(crate) fn last_place(
    file: &Handle,
    opens: &OpenFiles,
    silly: &mut Silly,
) -> Option<(Handle, Name)>
    ensures { TellsPlace file.now opens.now silly.old result silly.new }
{
    if opens.is_open(file) {
        return None;
    }
    silly.on_last_close(file)
}

/// The call that removes it.
pub(crate) fn remove_of(removal: &Removal) -> Call
    ensures { result ≡ remove_of removal.now }
{
    Call::Dir(DirCall::Remove {
        dir: removal.dir,
        name: removal.name,
    })
}

/// After a REMOVE the names of its directory are dropped, and its attributes are new or forgotten. All stays if the call
/// couldn't be made.
pub(crate) fn note_removal(
    dir: &Handle,
    came: &Came<'_>,
    now: u64,
    attrs: &mut AttrCache,
    names: &mut NameCache,
)
    ensures attrs { RenewsUnless (came_unmade (reply_of came.now)) dir.now (removed_of (reply_of came.now)) now attrs.old attrs.new }
    ensures names { names.new ≡ names_after (came_unmade (reply_of came.now)) dir.now names.old }
{
    if came_unmade(came) {
        return;
    }
    names.drop_dir(dir);
    renew(attrs, dir, &removed_of(came), now);
}

/// The attributes of the directory after a REMOVE, if the reply gives them.
pub(crate) fn removed_of(came: &Came<'_>) -> Option<Attr>
    ensures { result ≡ removed_of (reply_of came.now) }
{
    match came {
        Came::Dir(reply) => removed_by(reply),
        Came::File(_) => None,
        Came::Refused(_) => None,
    }
}

fn removed_by(reply: &DirReply<'_>) -> Option<Attr>
    ensures { result ≡ removed_by (kept_of reply.now) }
{
    match reply {
        DirReply::Remove { wcc } => wcc.after,
        DirReply::RemoveFail { wcc, .. } => wcc.after,
        _ => None,
    }
}

/// Whether a REMOVE was refused because the server is busy.
pub(crate) fn remove_busy(came: &Came<'_>) -> bool
    ensures { result ≡ remove_busy (reply_of came.now) }
{
    match came {
        Came::Dir(reply) => busy_by(reply),
        Came::File(_) => false,
        Came::Refused(_) => false,
    }
}

fn busy_by(reply: &DirReply<'_>) -> bool
    ensures { result ≡ busy_by (kept_of reply.now) }
{
    match reply {
        DirReply::RemoveFail { status, .. } => status.0 == JUKEBOX,
        _ => false,
    }
}

/// After a refusal the bytes of a file that isn't open any more are given up.
pub(crate) fn give_up_by(
    refusal: Option<Fault>,
    file: &Handle,
    opens: &OpenFiles,
    back: &mut WriteBack,
)
    ensures { GivesUpBy refusal file.now opens.now back.old back.new }
{
    if refusal.is_some() {
        give_up(file, opens, back);
    }
}

fn give_up(file: &Handle, opens: &OpenFiles, back: &mut WriteBack)
    ensures { GivesUp file.now opens.now back.old back.new }
{
    if !opens.is_open(file) {
        give_up_quiet(file, back);
    }
}

fn give_up_quiet(file: &Handle, back: &mut WriteBack)
    ensures back { GivesIf (is_quiet file.now back.old) file.now back.old back.new }
    ensures total { all_pending back.new ≤ all_pending back.old }
{
    if is_quiet(back, file) {
        back.give_up(file);
    }
}

/// The answer of a close.
pub(crate) fn closed_answer(refusal: Option<Fault>) -> Answer
    ensures { result ≡ closed_answer refusal }
{
    match refusal {
        None => Answer::Done(Value::Nothing),
        Some(fault) => Answer::Refused(fault),
    }
}

pub(crate) fn refusal_of(ended: Result<(), Fault>) -> Option<Fault>
    ensures { result ≡ refusal_of ended }
{
    match ended {
        Ok(()) => None,
        Err(fault) => Some(fault),
    }
}
