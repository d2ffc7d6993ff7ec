//! A name of a file is removed. A file that this client has open gets a name of its own instead, until its last close.

ghost use Rattle.std.specs.Prelude.{◌≡◌, length, false, None};
ghost use Rattle.client_shelf.specs.Coming.{reply_of};
ghost use Rattle.silly_rename.specs.Plans.{plan_of};
ghost use Rattle.name_ops.specs.Changing.{Changes};
ghost use Rattle.name_ops.specs.declared.remove_file.Deed.TheVariants.{Remove};
ghost use Rattle.name_ops.specs.RemoveFile.{call_of, removed_told, asked_next, asked_after, first_deed, Begins, Follows, WalksOn, Goes, Resumes, next_number, deed_of, counter_of, Finds, FollowsLook, TakesLook, is_missing, missed_next, missed_after, FollowsSeek, TakesSeek, Keeps, EndsMove, TakesMove, TakesDeed, TakesIf, TakesWalk, Takes};

use crate::changing::go_again;
use crate::looking::{found_by, hear, look_up};
use crate::moving::{move_call, move_names, moved_told};
use crate::told::Told;
use crate::walk::{Walk, WalkStep};
use client_shelf::{Came, Shelf, Step, Turn};
use nfs_dir_calls::{DirCall, DirReply};
use nfs_types::{Handle, Name};
use open_files::OpenFiles;
use silly_rename::{Plan, Silly, plan};
use world_model::{Answer, Call, Fault, Path, Value};
use xdr_codec::Memory;

/// What is asked for once the directory was found.
#[derive(Clone, Copy, Debug)]
pub enum Deed {
    /// LOOKUP of the name.
    Look,
    /// LOOKUP of a `.nfs` name, which the open file is to get if nothing has it.
    Seek(Handle, Name),
    /// RENAME of the open file to that name.
    Move(Handle, Name),
    /// REMOVE of the name.
    Remove,
}

/// Removes a name of a file.
#[derive(Debug, Drop)]
pub struct RemoveFile {
    /// Finds the directory.
    pub walk: Walk,
    /// The name in it.
    pub name: Name,
    /// What it asks for next, or waits for, once the directory was found.
    pub deed: Option<Deed>,
    /// Whether it asked for that.
    pub asked: bool,
}

impl RemoveFile {
    /// It is to remove a name from the directory to which the path leads.
    pub fn new(root: &Handle, path: Path, name: &Name) -> RemoveFile
        ensures { result ≡ record { walk = record { path = path; spot = record { dir = root.now; left = length path }; asked = false }; name = name.now; deed = None; asked = false } }
    {
        RemoveFile {
            walk: Walk::new(root, path),
            name: *name,
            deed: None,
            asked: false,
        }
    }

    /// The first step.
    pub fn start(&mut self, turn: Turn, shelf: &mut Shelf) -> Step
        ensures { Resumes self.old.asked self.old turn shelf.old result self.new shelf.new }
    {
        self.resume(turn, shelf)
    }

    /// A step that no reply made possible.
    pub fn resume(&mut self, turn: Turn, shelf: &mut Shelf) -> Step
        ensures { Resumes self.old.asked self.old turn shelf.old result self.new shelf.new }
    {
        if self.asked {
            return Step::Wait;
        }
        self.go(turn, shelf)
    }

    /// The step at what came of its call, which the step with the turn `sent` made.
    pub fn took(&mut self, sent: Turn, came: &Came<'_>, turn: Turn, shelf: &mut Shelf) -> Step
        ensures { Takes self.old.deed self.old sent turn (reply_of came.now) shelf.old result self.new shelf.new }
    {
        let deed = self.deed;
        match deed {
            Some(deed) => self.take_asked(deed, sent, came, turn, shelf),
            None => self.take_walk(sent, came, turn, shelf),
        }
    }

    /// It goes on: to the directory, or with what it asks for there.
    fn go(&mut self, turn: Turn, shelf: &mut Shelf) -> Step
        ensures { Goes self.old.deed self.old turn shelf.old result self.new shelf.new }
    {
        let deed = self.deed;
        match deed {
            Some(deed) => self.ask(deed, turn.room),
            None => self.walk_on(turn, shelf),
        }
    }

    /// Its walk goes on.
    fn walk_on(&mut self, turn: Turn, shelf: &mut Shelf) -> Step
        ensures { WalksOn self.old turn shelf.old result self.new shelf.new }
    {
        let step = self.walk.go(turn, shelf);
        self.follow(step, turn.room, &shelf.opens)
    }

    /// Its walk takes what came of its call.
    fn take_walk(&mut self, sent: Turn, came: &Came<'_>, turn: Turn, shelf: &mut Shelf) -> Step
        ensures { TakesWalk self.old sent turn (reply_of came.now) shelf.old result self.new shelf.new }
    {
        let step = self.walk.took(sent, came, turn, shelf);
        self.follow(step, turn.room, &shelf.opens)
    }

    /// It does as its walk does, until that has come to its end. Then it looks up the name if any file is open.
    fn follow(&mut self, step: WalkStep, room: bool, opens: &OpenFiles) -> Step
        ensures { Follows step room self.old opens.now result self.new }
    {
        match step {
            WalkStep::Send(call) => Step::Send(call),
            WalkStep::Wait => Step::Wait,
            WalkStep::At(_) => self.begin(room, opens),
            WalkStep::Refused(fault) => Step::Done(Answer::Refused(fault)),
        }
    }

    /// The first call in the directory.
    fn begin(&mut self, room: bool, opens: &OpenFiles) -> Step
        ensures { Begins room self.old opens.now result self.new }
    {
        let any = opens.any();
        self.ask(first_deed(any), room)
    }

    /// Asks for a call, as soon as there is room.
    fn ask(&mut self, deed: Deed, room: bool) -> Step
        ensures next { result ≡ asked_next self.old deed room }
        ensures machine { self.new ≡ asked_after self.old deed room }
    {
        self.deed = Some(deed);
        self.asked = room;
        self.next_call(&deed, room)
    }

    /// The call of a deed, if there is room.
    fn next_call(&self, deed: &Deed, room: bool) -> Step
        ensures { result ≡ asked_next self.now deed.now room }
    {
        if room {
            Step::Send(self.call(deed))
        } else {
            Step::Wait
        }
    }

    /// The call of a deed.
    fn call(&self, deed: &Deed) -> Call
        ensures { result ≡ call_of self.now deed.now }
    {
        let dir = self.walk.spot.dir;
        match deed {
            Deed::Look => look_up(dir, self.name),
            Deed::Seek(_, to) => look_up(dir, *to),
            Deed::Move(_, to) => move_call(dir, self.name, dir, *to),
            Deed::Remove => Call::Dir(DirCall::Remove {
                dir,
                name: self.name,
            }),
        }
    }

    /// A reply means nothing if it asked for none.
    fn take_asked(
        &mut self,
        deed: Deed,
        sent: Turn,
        came: &Came<'_>,
        turn: Turn,
        shelf: &mut Shelf,
    ) -> Step
        ensures { TakesIf self.old.asked deed self.old sent turn (reply_of came.now) shelf.old result self.new shelf.new }
    {
        if !self.asked {
            return Step::Wait;
        }
        self.take(deed, sent, came, turn, shelf)
    }

    /// Takes the reply to a deed's call.
    fn take(
        &mut self,
        deed: Deed,
        sent: Turn,
        came: &Came<'_>,
        turn: Turn,
        shelf: &mut Shelf,
    ) -> Step
        ensures { TakesDeed deed self.old sent turn (reply_of came.now) shelf.old result self.new shelf.new }
    {
        match deed {
            Deed::Look => self.take_look(sent, came, turn, shelf),
            Deed::Seek(file, to) => self.take_seek(file, to, sent, came, turn, shelf),
            Deed::Move(file, to) => self.take_move(file, to, sent, came, turn, shelf),
            Deed::Remove => self.take_removal(sent, came, turn, shelf),
        }
    }

    /// Takes the reply to the LOOKUP of the name.
    fn take_look(&mut self, sent: Turn, came: &Came<'_>, turn: Turn, shelf: &mut Shelf) -> Step
        ensures { TakesLook self.old sent turn (reply_of came.now) shelf.old result self.new shelf.new }
    {
        let dir = self.walk.spot.dir;
        let name = self.name;
        let told = found_by(came);
        let busy = hear(&dir, &name, &told, sent, came, turn, shelf);
        self.follow_look(busy, told, turn.room, shelf)
    }

    /// Goes to where it leads.
    fn follow_look(
        &mut self,
        busy: bool,
        told: Result<Handle, Fault>,
        room: bool,
        shelf: &mut Shelf,
    ) -> Step
        ensures { FollowsLook busy told self.old room shelf.old result self.new shelf.new }
    {
        if busy {
            return Step::Send(self.call(&Deed::Look));
        }
        match told {
            Ok(file) => self.find(file, room, shelf),
            Err(fault) => Step::Done(Answer::Refused(fault)),
        }
    }

    /// The file was found: one that is open gets a `.nfs` name.
    fn find(&mut self, file: Handle, room: bool, shelf: &mut Shelf) -> Step
        ensures { Finds file self.old room shelf.old result self.new shelf.new }
    {
        let is_open = shelf.opens.is_open(&file);
        let deed = choose(file, is_open, &mut shelf.counter);
        self.ask(deed, room)
    }

    /// Takes the reply to the LOOKUP of a `.nfs` name.
    fn take_seek(
        &mut self,
        file: Handle,
        to: Name,
        sent: Turn,
        came: &Came<'_>,
        turn: Turn,
        shelf: &mut Shelf,
    ) -> Step
        ensures { TakesSeek file to self.old sent turn (reply_of came.now) shelf.old result self.new shelf.new }
    {
        let dir = self.walk.spot.dir;
        let told = found_by(came);
        let busy = hear(&dir, &to, &told, sent, came, turn, shelf);
        self.follow_seek(busy, file, to, told, turn.room, shelf)
    }

    /// Goes to where it leads: a name that nothing has is taken, and after one that something has the next one is sought.
    fn follow_seek(
        &mut self,
        busy: bool,
        file: Handle,
        to: Name,
        told: Result<Handle, Fault>,
        room: bool,
        shelf: &mut Shelf,
    ) -> Step
        ensures { FollowsSeek busy told file to self.old room shelf.old result self.new shelf.new }
    {
        if busy {
            return Step::Send(self.call(&Deed::Seek(file, to)));
        }
        match told {
            Ok(_) => {
                let deed = choose(file, true, &mut shelf.counter);
                self.ask(deed, room)
            }
            Err(fault) => self.miss(fault, file, to, room),
        }
    }

    /// Nothing was found: the name is taken if nothing has it.
    fn miss(&mut self, fault: Fault, file: Handle, to: Name, room: bool) -> Step
        ensures next { result ≡ missed_next (is_missing fault) fault file to self.old room }
        ensures machine { self.new ≡ missed_after (is_missing fault) file to self.old room }
    {
        if is_missing(fault) {
            self.ask(Deed::Move(file, to), room)
        } else {
            Step::Done(Answer::Refused(fault))
        }
    }

    /// Takes the reply to the RENAME.
    fn take_move(
        &self,
        file: Handle,
        to: Name,
        sent: Turn,
        came: &Came<'_>,
        turn: Turn,
        shelf: &mut Shelf,
    ) -> Step
        ensures { TakesMove file to self.now sent turn (reply_of came.now) shelf.old result shelf.new }
    {
        let dir = self.walk.spot.dir;
        let told = moved_told(came);
        let busy = move_names(&dir, &dir, &told, sent, turn, shelf);
        self.end_move(busy, told.refusal, file, to, &mut shelf.silly)
    }

    /// The same call again, or the answer. What was renamed is to be removed at the file's last close.
    fn end_move(
        &self,
        busy: bool,
        refusal: Option<Fault>,
        file: Handle,
        to: Name,
        silly: &mut Silly,
    ) -> Step
        ensures { EndsMove busy refusal file to self.now silly.old result silly.new }
    {
        if busy {
            return Step::Send(self.call(&Deed::Move(file, to)));
        }
        match refusal {
            None => keep_place(file, self.walk.spot.dir, to, silly),
            Some(fault) => Step::Done(Answer::Refused(fault)),
        }
    }

    /// Takes the reply to the REMOVE.
    fn take_removal(&self, sent: Turn, came: &Came<'_>, turn: Turn, shelf: &mut Shelf) -> Step
        ensures { Changes self.now.walk.spot.dir (call_of self.now Remove) (removed_told (reply_of came.now)) sent turn shelf.old result shelf.new }
    {
        let dir = self.walk.spot.dir;
        let told = removed_told(came);
        let call = self.call(&Deed::Remove);
        go_again(call, &dir, &told, sent, turn, shelf)
    }
}

/// The first call: without an open file there is nothing to look up.
fn first_deed(any: bool) -> Deed
    ensures { result ≡ first_deed any }
{
    if any { Deed::Look } else { Deed::Remove }
}

/// What follows for a file: REMOVE, or the LOOKUP of the next `.nfs` name, whose number is used up.
fn choose(file: Handle, is_open: bool, counter: &mut u32) -> Deed
    ensures deed { result ≡ deed_of file (plan_of is_open counter.old) }
    ensures counter { counter.new ≡ counter_of (plan_of is_open counter.old) counter.old }
{
    match plan(is_open, *counter) {
        Plan::Direct => Deed::Remove,
        Plan::Rename { to } => {
            *counter = next_number(*counter);
            Deed::Seek(file, to)
        }
    }
}

/// 0 follows the last number.
fn next_number(number: u32) -> u32
    ensures { result ≡ next_number number }
{
    if number == u32::MAX { 0 } else { number + 1 }
}

/// Whether nothing has that name (RFC 1813, section 2.6, NFS3ERR_NOENT).
fn is_missing(fault: Fault) -> bool
    ensures { result ≡ is_missing fault }
{
    match fault {
        Fault::Nfs(status) => status == 2,
        _ => false,
    }
}

/// Keeps where the file is to be removed at its last close.
fn keep_place(file: Handle, dir: Handle, to: Name, silly: &mut Silly) -> Step
    ensures { Keeps file dir to silly.old result silly.new }
{
    match silly.put(&file, &dir, &to) {
        Ok(()) => Step::Done(Answer::Done(Value::Nothing)),
        Err(Memory) => Step::Done(Answer::Refused(Fault::Memory)),
    }
}

/// What the reply to REMOVE tells.
fn removed_told(came: &Came<'_>) -> Told
    ensures { result ≡ removed_told (reply_of came.now) }
{
    match came {
        Came::Dir(reply) => match reply {
            DirReply::Remove { wcc } => Told::done(wcc),
            DirReply::RemoveFail { status, wcc } => Told::failed(*status, wcc),
            _ => Told::refused(Fault::Bad(2)),
        },
        Came::File(_) => Told::refused(Fault::Bad(2)),
        Came::Refused(fault) => Told::refused(*fault),
    }
}
