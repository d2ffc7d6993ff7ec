//! A path is walked from the root, name by name.

ghost use Rattle.std.specs.Prelude.{◌≡◌, length, false};
ghost use Rattle.client_shelf.specs.Coming.{reply_of};
ghost use Rattle.name_ops.specs.Walking.{reached, name_at, passed_name, passed_one, passed, walked, next_name, asks, asked_after, on_next, on_after, on_names, go_next, go_after, go_names, waiting_name, followed_next, followed_walk, followed_shelf, Looks, Takes};

use crate::looking::{found_by, hear, look_up};
use attr_cache::AttrCache;
use client_shelf::{Came, Shelf, Turn};
use name_cache::NameCache;
use nfs_types::{Handle, Name};
use world_model::{Call, Fault, Path};

/// How far a walk has come.
#[derive(Clone, Copy, Debug, PartialEq, Eq)]
pub struct Spot {
    /// The directory, or at the end of the path the object, that it has come to.
    pub dir: Handle,
    /// How many names of the path are left.
    pub left: usize,
}

/// What a step of a walk comes to.
#[derive(Debug, Drop)]
pub enum WalkStep {
    /// It asks for this call.
    Send(Call),
    /// It waits for a reply or for room.
    Wait,
    /// The path leads to this object.
    At(Handle),
    /// It was refused.
    Refused(Fault),
}

/// Finds the object to which a path leads.
#[derive(Debug, Drop)]
pub struct Walk {
    /// The names along the path.
    pub path: Path,
    /// How far it has come.
    pub spot: Spot,
    /// Whether it waits for the reply to the LOOKUP of the next name.
    pub asked: bool,
}

impl Walk {
    /// A walk that stands at the root.
    pub fn new(root: &Handle, path: Path) -> Walk
        ensures { result ≡ record { path = path; spot = record { dir = root.now; left = length path }; asked = false } }
    {
        let left = path.names().len();
        Walk {
            path,
            spot: Spot { dir: *root, left },
            asked: false,
        }
    }

    /// A step that no reply made possible, the first one among them. A walk that has come to its end stays there.
    pub fn go(&mut self, turn: Turn, shelf: &mut Shelf) -> WalkStep
        ensures next { result ≡ go_next self.old turn shelf.old }
        ensures machine { self.new ≡ go_after self.old turn shelf.old }
        ensures shelf { shelf.new ≡ record shelf.old { names = go_names self.old turn shelf.old } }
    {
        if self.asked {
            return WalkStep::Wait;
        }
        self.walk_on(turn, &shelf.attrs, &mut shelf.names)
    }

    /// The step at what came of its call, which the step with the turn `sent` made. A call that is refused because the
    /// server is busy is made again.
    pub fn took(&mut self, sent: Turn, came: &Came<'_>, turn: Turn, shelf: &mut Shelf) -> WalkStep
        ensures { Takes (waiting_name self.old) self.old sent turn (reply_of came.now) shelf.old result self.new shelf.new }
    {
        match self.waiting_name() {
            Some(name) => self.take(&name, sent, came, turn, shelf),
            None => WalkStep::Wait,
        }
    }

    /// Takes the reply to the LOOKUP of its next name.
    fn take(
        &mut self,
        name: &Name,
        sent: Turn,
        came: &Came<'_>,
        turn: Turn,
        shelf: &mut Shelf,
    ) -> WalkStep
        ensures { Looks self.old name.now sent turn (reply_of came.now) shelf.old result self.new shelf.new }
    {
        let told = found_by(came);
        let dir = self.spot.dir;
        let busy = hear(&dir, name, &told, sent, came, turn, shelf);
        self.follow(busy, name, told, turn, shelf)
    }

    /// Goes to where the reply leads.
    fn follow(
        &mut self,
        busy: bool,
        name: &Name,
        told: Result<Handle, Fault>,
        turn: Turn,
        shelf: &mut Shelf,
    ) -> WalkStep
        ensures next { result ≡ followed_next busy self.old name.now told turn shelf.old }
        ensures machine { self.new ≡ followed_walk busy self.old told turn shelf.old }
        ensures shelf { shelf.new ≡ followed_shelf busy self.old told turn shelf.old }
    {
        if busy {
            return WalkStep::Send(look_up(self.spot.dir, *name));
        }
        match told {
            Ok(found) => {
                self.spot = self.spot.reached(found);
                self.asked = false;
                self.walk_on(turn, &shelf.attrs, &mut shelf.names)
            }
            Err(fault) => WalkStep::Refused(fault),
        }
    }

    /// Goes on through kept names, and asks for the first one that isn't kept.
    fn walk_on(&mut self, turn: Turn, attrs: &AttrCache, names: &mut NameCache) -> WalkStep
        ensures next { result ≡ on_next self.old turn attrs.now names.old }
        ensures machine { self.new ≡ on_after self.old turn attrs.now names.old }
        ensures names { names.new ≡ on_names self.old turn attrs.now names.old }
    {
        self.spot = pass_kept(self.spot, self.path.names(), turn.now, attrs, names);
        self.ask(turn.room)
    }

    /// Asks for the next name, if one is left and there is room for the call.
    fn ask(&mut self, room: bool) -> WalkStep
        ensures next { result ≡ asks (next_name self.old) room self.old }
        ensures machine { self.new ≡ asked_after (next_name self.old) room self.old }
    {
        let Some(name) = name_at(self.path.names(), self.spot.left) else {
            return WalkStep::At(self.spot.dir);
        };
        if !room {
            return WalkStep::Wait;
        }
        self.asked = true;
        WalkStep::Send(look_up(self.spot.dir, name))
    }

    /// The name whose LOOKUP has no reply yet.
    fn waiting_name(&self) -> Option<Name>
        ensures { result ≡ waiting_name self.now }
    {
        if self.asked {
            name_at(self.path.names(), self.spot.left)
        } else {
            None
        }
    }
}

impl Spot {
    /// The place that one more name leads to.
    fn reached(&self, found: Handle) -> Spot
        ensures { result ≡ reached found self.now }
    {
        Spot {
            dir: found,
            left: self.left.saturating_sub(1),
        }
    }
}

/// The first one of the names that are left.
fn name_at(path: &[Name], left: usize) -> Option<Name>
    ensures { result ≡ name_at path.now left }
{
    path.get(path.len().saturating_sub(left)).copied()
}

/// Goes through kept names, as far as it can.
fn pass_kept(spot: Spot, path: &[Name], now: u64, attrs: &AttrCache, names: &mut NameCache) -> Spot
    ensures { record { spot = result; names = names.new } ≡ passed spot.left path.now now attrs.now (record { spot = spot; names = names.old }) }
{
    let mut spot = spot;
    let most = spot.left;
    for _ in 0..most {
        spot = pass_next(spot, path, now, attrs, names);
    }
    spot
}

/// Goes through the next name, if one is left and it is kept.
fn pass_next(spot: Spot, path: &[Name], now: u64, attrs: &AttrCache, names: &mut NameCache) -> Spot
    ensures { record { spot = result; names = names.new } ≡ passed_one path.now now attrs.now (record { spot = spot; names = names.old }) }
{
    match name_at(path, spot.left) {
        Some(name) => pass_name(spot, &name, now, attrs, names),
        None => spot,
    }
}

/// Goes through a name, if it was learnt while its directory had the attributes that are believed now.
fn pass_name(spot: Spot, name: &Name, now: u64, attrs: &AttrCache, names: &mut NameCache) -> Spot
    ensures { record { spot = result; names = names.new } ≡ passed_name name.now now attrs.now (record { spot = spot; names = names.old }) }
{
    let Some(attr) = attrs.look(&spot.dir, now) else {
        return spot;
    };
    match names.look(&spot.dir, name, &attr.stamp()) {
        Some(found) => spot.reached(found),
        None => spot,
    }
}
