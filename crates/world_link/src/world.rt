//! The simulated world as a link.

ghost use Rattle.std.specs.Prelude.{◌≡◌, ◌≤◌, ◌<◌, ◌++◌, ◌∷◌, [], Some, IfOk, OnOk, OnErr};
ghost use Rattle.std.specs.VecDeque.{deque_len};
ghost use Rattle.outside.specs.Causes.{HasCause, HasCauseReceived, Rose};
ghost use Rattle.world_link.specs.Going.{GoesOn};
ghost use Rattle.world_link.specs.Honest.{IsHonestWorld};
ghost use Rattle.world_link.specs.Steps as steps;
ghost use Rattle.world_link.specs.Turning as turning;
ghost use Rattle.world_link.specs.Starting.{begun};
ghost use Rattle.world_link.specs.Shown.{shown};
ghost use Rattle.export_serve.specs.Asking.{asked_at};
ghost use Rattle.world_model.specs.declared.entry.Entry.TheVariants.{Dialed, Failed};
ghost use Rattle.world_link.specs.Ends.{ends_of, world_ends};
ghost use Rattle.world_link.specs.Routes.{KeepsAllEnds};
ghost use Rattle.world_link.specs.Routing as routing;
ghost use Rattle.world_link.specs.View.{seen, served};

use crate::directive::RequestId;
use crate::fate::Fate;
use crate::kept::Kept;
use crate::plan::Plan;
use crate::routed::Told;
use crate::server::Server;
use crate::tally::{NONE_YET, RequestCounts};
use crate::turning::{fate_of, manner_of};
use crate::waiting::{Queued, Waiting};
use export_fs::Export;
use export_serve::{Asked, asked};
use nfs_dir_calls::dir_proc;
use nfs_file_calls::file_proc;
use outside::{Link, LinkFault, Received};
use std::alloc::Global;
use std::collections::{BTreeMap, VecDeque};
use world_model::{Call, Entry, Mark};
use xdr_codec::{Blob, Memory, Record};

/// The number of the last dial that a schedule can name.
const LAST_DIAL: u32 = 4_294_967_295;

/// The end of the client of a link with one end.
const ONLY: u8 = 0;

/// A link to a simulated server that does what a schedule says, and tells its history. A transmission waits for its turn,
/// which it has when the client waits and no reply is ready. A dial fails exactly if the schedule says so, and a
/// transmission never. Waiting is silent exactly if no reply is ready and no sending is without its turn.
#[derive(Drop)]
pub struct World {
    alloc: Global,
    plan: Plan,
    /// The export as it was before the first entry: the server at each moment is worked out from it.
    pub(crate) start: Export,
    pub(crate) server: Server,
    /// The records that were sent and had no turn yet, the oldest first.
    pub(crate) waiting: VecDeque<Queued>,
    /// The last transmissions that were made, and the last ones that had their turns.
    sendings: RequestCounts,
    turns: RequestCounts,
    dials: u32,
    faults: u64,
}

impl World {
    /// A world in which nothing happened yet. The two exports are equal.
    pub(crate) fn of(alloc: Global, plan: Plan, start: Export, export: Export) -> World
        requires { export ≡ start }
        ensures begins { seen result ≡ begun (shown plan) start }
        ensures ends { world_ends result ≡ routing.no_ends }
    {
        World {
            alloc,
            plan,
            start,
            server: Server {
                alloc,
                export,
                told: Vec::new(alloc),
                partials: Vec::new(alloc),
                sent: BTreeMap::new(alloc),
                ready: VecDeque::new(alloc),
                held: Vec::new(alloc),
            },
            waiting: VecDeque::new(alloc),
            sendings: NONE_YET,
            turns: NONE_YET,
            dials: 0,
            faults: 0,
        }
    }

    /// The export as it is now.
    pub fn into_export(self) -> Export
        ensures { result ≡ (seen self).server.export }
    {
        let server = self.server;
        server.export
    }

    /// Puts a record from that end after those that wait, and tells that it was sent. When out of memory nothing is changed.
    fn take(&mut self, end: u8, rec: &[u8]) -> Result<(), Memory>
        ensures ok { OnOk result (seen self.new ≡ turning.after_send (seen self.old) rec.now) }
        ensures err { OnErr result (seen self.new ≡ seen self.old) }
        ensures ends { OnOk result (world_ends self.new ≡
            routing.after_send (world_ends self.old) (turning.name_of (seen self.old).counts (asked_at rec.now)) (record { end = end; bytes = rec.now })) }
        ensures same_ends { OnErr result (world_ends self.new ≡ world_ends self.old) }
    {
        let name = name_of(&self.sendings, &asked(self.alloc, rec)?);
        let waiting = Waiting {
            name,
            bytes: Blob::copy(self.alloc, rec)?,
        };
        let bytes = Blob::copy(self.alloc, rec)?;
        self.waiting.reserve(1)?;
        self.server.take(end, name, bytes)?;
        self.waiting.push_back_reserved(Queued { end, waiting });
        self.sendings.count_if(name);
        Ok(())
    }

    /// Gives the oldest sending its turn, if there is one. When out of memory the turn may be done in part.
    pub(crate) fn turn(&mut self) -> Result<(), Memory>
        ensures ok { OnOk result (steps.TurnsFirst (seen self.old) (seen self.new) (seen self.old).waiting) }
        ensures goes { GoesOn (seen self.old) (seen self.new) }
        ensures stays { IsHonestWorld (seen self.old) → IsHonestWorld (seen self.new) }
        ensures ends { KeepsAllEnds (world_ends self.old) (world_ends self.new) }
        ensures less { OnOk result (0 < deque_len self.old.waiting → deque_len self.new.waiting < deque_len self.old.waiting) }
    {
        let Some(queued) = self.waiting.front() else {
            return Ok(());
        };
        let end = queued.end;
        let next = &queued.waiting;
        let nothing = Fate::new(self.alloc);
        let fate = fate_of(&self.plan, next.name, &nothing);
        let manner = manner_of(&self.plan, fate);
        self.server
            .turn(fate, &manner, &self.turns, end, next.bytes.bytes())?;
        let name = next.name;
        let _ = self.waiting.pop_front();
        self.turns.count_if(name);
        self.server.release(&self.turns)
    }

    /// Gives transmissions their turns until a reply is ready or no sending is left.
    fn turn_all(&mut self) -> Result<(), Memory>
        ensures ok { OnOk result (seen self.new ≡ turning.after_turns (seen self.old)) }
        ensures goes { GoesOn (seen self.old) (seen self.new) }
        ensures stays { IsHonestWorld (seen self.old) → IsHonestWorld (seen self.new) }
        ensures done { OnOk result ((seen self.new).server.ready ≡ [] → (seen self.new).waiting ≡ []) }
    {
        while self.server.ready.is_empty() && !self.waiting.is_empty() {
            self.turn()?;
        }
        Ok(())
    }

    /// Hands out the first reply that is ready, and tells it; if none is, it is silent, and tells that at this end.
    fn hand_out(&mut self, end: u8, rec: &mut Vec<u8>) -> Received
        ensures hands { turning.Hands (seen self.old) (seen self.new) rec.new.items result }
        ensures cause { HasCauseReceived (seen self.old).faults (seen self.new).faults result }
        ensures memory { steps.LeftByMemory (seen self.old) (seen self.new) result }
    {
        if self.server.ready.is_empty() {
            return self.be_silent(end);
        }
        self.hand_out_at(0, rec)
    }

    /// Hands out the reply at that place of those that are ready, and tells it.
    pub(crate) fn hand_out_at(&mut self, place: usize, rec: &mut Vec<u8>) -> Received
        requires { place < deque_len self.old.server.ready }
        ensures hands { steps.HandsAt (seen self.old) (seen self.new) place rec.new.items result }
        ensures cause { HasCauseReceived (seen self.old).faults (seen self.new).faults result }
        ensures ends { routing.HandsAt (world_ends self.old) (world_ends self.new) place rec.new.items result }
    {
        let reply = &self.server.ready[place];
        let end = reply.end;
        let Ok(bytes) = give(self.alloc, &reply.bytes, rec) else {
            return Received::Memory;
        };
        if tell(&mut self.server.told, end, Entry::Delivered { bytes }).is_err() {
            return Received::Memory;
        }
        let _ = self.server.ready.remove(place);
        Received::Whole
    }

    /// Tells at that end that no record came, and counts it.
    pub(crate) fn be_silent(&mut self, end: u8) -> Received
        ensures silent { steps.Silences (seen self.old) (seen self.new) result }
        ensures cause { HasCauseReceived (seen self.old).faults (seen self.new).faults result }
        ensures memory { steps.LeftByMemory (seen self.old) (seen self.new) result }
        ensures ends { routing.Silences (world_ends self.old) (world_ends self.new) end result }
    {
        if tell(&mut self.server.told, end, Entry::Failed).is_err() {
            return Received::Memory;
        }
        self.faults = self.faults.saturating_add(1);
        Received::Silent
    }

    /// Whether the next dial fails.
    fn fails_next(&self) -> bool
        ensures { result ≡ turning.fails_next (seen self.now) }
    {
        if self.dials == LAST_DIAL {
            false
        } else {
            self.plan.fails_dial(self.dials + 1)
        }
    }

    /// Makes a connection of that end, unless the schedule says that this dial fails.
    pub(crate) fn dial_port(&mut self, end: u8, port: u16) -> Result<(), LinkFault>
        ensures cause { HasCause self.old.faults self.new.faults result }
        ensures exact { steps.Dials (seen self.old) (seen self.new) port result }
        ensures ends { routing.Dials (world_ends self.old) (world_ends self.new) end port result }
    {
        if self.fails_next() {
            return match self.fail_to_connect(end, port) {
                Ok(()) => Err(LinkFault::Failed),
                Err(_) => Err(LinkFault::Memory),
            };
        }
        match self.connect(end, port) {
            Ok(()) => Ok(()),
            Err(_) => Err(LinkFault::Memory),
        }
    }

    /// Sends a record from that end.
    pub(crate) fn send_record(&mut self, end: u8, rec: &[u8]) -> Result<(), LinkFault>
        ensures cause { HasCause self.old.faults self.new.faults result }
        ensures exact { steps.Sends (seen self.old) (seen self.new) rec.now result }
        ensures ends { routing.Sends (world_ends self.old) (world_ends self.new)
            (turning.name_of (seen self.old).counts (asked_at rec.now)) (record { end = end; bytes = rec.now }) result }
    {
        if self.take(end, rec).is_err() {
            return Err(LinkFault::Memory);
        }
        Ok(())
    }

    /// Notes a mark of that end.
    pub(crate) fn note_mark(&mut self, end: u8, mark: Mark) -> Result<(), Memory>
        ensures cause { self.old.faults ≤ self.new.faults }
        ensures exact { steps.Notes (seen self.old) (seen self.new) mark result }
        ensures ends { routing.Notes (world_ends self.old) (world_ends self.new) end mark result }
    {
        let entry = match mark {
            Mark::Began { lane, line, op } => Entry::Began { lane, line, op },
            Mark::Answered { lane, line, answer } => Entry::Answered { lane, line, answer },
            Mark::Clock { ms } => Entry::Clock { ms },
        };
        tell(&mut self.server.told, end, entry)
    }

    /// Tells a dial that succeeds. When out of memory nothing is changed.
    fn connect(&mut self, end: u8, port: u16) -> Result<(), Memory>
        ensures ok { OnOk result (seen self.new ≡ turning.after_dial (seen self.old) port) }
        ensures err { OnErr result (seen self.new ≡ seen self.old) }
        ensures ends { OnOk result (world_ends self.new ≡ routing.after (world_ends self.old) end (Dialed port)) }
        ensures same_ends { OnErr result (world_ends self.new ≡ world_ends self.old) }
    {
        tell(&mut self.server.told, end, Entry::Dialed { port })?;
        self.dials = self.dials.saturating_add(1);
        Ok(())
    }

    /// Tells a dial that fails, and counts it. When out of memory nothing is changed.
    fn fail_to_connect(&mut self, end: u8, port: u16) -> Result<(), Memory>
        ensures ok { OnOk result (seen self.new ≡ turning.after_failed_dial (seen self.old) port) }
        ensures rose { OnOk result (Rose self.old.faults self.new.faults) }
        ensures later { self.old.faults ≤ self.new.faults }
        ensures err { OnErr result (seen self.new ≡ seen self.old) }
        ensures ends { OnOk result (world_ends self.new ≡ routing.after (routing.after (world_ends self.old) end (Dialed port)) end Failed) }
        ensures same_ends { OnErr result (world_ends self.new ≡ world_ends self.old) }
    {
        // The entries are made once there is room, so that a failure has none to drop.
        self.server.told.reserve(2)?;
        let dialed = Told {
            end,
            entry: Entry::Dialed { port },
        };
        let failed = Told {
            end,
            entry: Entry::Failed,
        };
        self.server.told.push(dialed).unwrap();
        self.server.told.push(failed).unwrap();
        self.dials = self.dials.saturating_add(1);
        self.faults = self.faults.saturating_add(1);
        Ok(())
    }
}

impl Server {
    /// A record was sent. When out of memory nothing is changed.
    fn take(&mut self, end: u8, name: Option<RequestId>, rec: Blob) -> Result<(), Memory>
        ensures ok { OnOk result (served self.new ≡ turning.taken (served self.old) name rec) }
        ensures err { OnErr result (served self.new ≡ served self.old) }
        ensures ends { OnOk result (ends_of self.new ≡ routing.taken (ends_of self.old) name (record { end = end; bytes = rec })) }
        ensures same_ends { OnErr result (ends_of self.new ≡ ends_of self.old) }
    {
        self.told.reserve(1)?;
        self.keep_if(end, name, rec.bytes())?;
        let entry = Entry::Sent { bytes: rec };
        self.told.push(Told { end, entry }).unwrap();
        Ok(())
    }

    /// The record has the name, if it has one. When out of memory nothing is changed.
    fn keep_if(&mut self, end: u8, name: Option<RequestId>, rec: &[u8]) -> Result<(), Memory>
        ensures ok { OnOk result (served self.new ≡ record (served self.old) { sent = turning.noted_as (served self.old).sent name rec.now }) }
        ensures room { self.new.told ≡ self.old.told }
        ensures err { OnErr result (served self.new ≡ served self.old) }
        ensures ends { OnOk result (ends_of self.new ≡
            record (ends_of self.old) { sent = routing.noted_as (ends_of self.old).sent name (record { end = end; bytes = rec.now }) }) }
        ensures same_ends { OnErr result (ends_of self.new ≡ ends_of self.old) }
    {
        match name {
            Some(name) => self.keep(end, name, rec),
            None => Ok(()),
        }
    }

    /// The record has the name. When out of memory nothing is changed.
    fn keep(&mut self, end: u8, name: RequestId, rec: &[u8]) -> Result<(), Memory>
        ensures ok { OnOk result (served self.new ≡ record (served self.old) { sent = turning.noted_as (served self.old).sent (Some name) rec.now }) }
        ensures room { self.new.told ≡ self.old.told }
        ensures err { OnErr result (served self.new ≡ served self.old) }
        ensures ends { OnOk result (ends_of self.new ≡
            record (ends_of self.old) { sent = routing.noted_as (ends_of self.old).sent (Some name) (record { end = end; bytes = rec.now }) }) }
        ensures same_ends { OnErr result (ends_of self.new ≡ ends_of self.old) }
    {
        let kept = Kept::copy(self.alloc, end, rec)?;
        self.sent.insert(name, kept)?;
        Ok(())
    }
}

/// Which sending a record is that asks for this.
fn name_of(sendings: &RequestCounts, asked: &Asked) -> Option<RequestId>
    ensures { result ≡ turning.name_of sendings.now.counts asked.now }
{
    match asked {
        Asked::Serve { xid: _xid, call } => match call {
            Call::File(call) => sendings.next(file_proc(call)),
            Call::Dir(call) => sendings.next(dir_proc(call)),
            Call::Mount(_) => None,
        },
        Asked::Refuse { .. } => None,
        Asked::NoCall => None,
    }
}

/// A copy of the bytes of a record, which take the place of what rec held.
fn give(alloc: Global, bytes: &Blob, rec: &mut Vec<u8>) -> Result<Blob, Memory>
    ensures { IfOk result (λ told. (told ≡ bytes.now) × (rec.new.items ≡ bytes.now)) }
{
    let told = Blob::copy(alloc, bytes.bytes())?;
    rec.clear();
    rec.extend_from_slice(bytes.bytes())?;
    Ok(told)
}

/// Adds an entry of that end to those that are told. When out of memory nothing is changed.
fn tell(told: &mut Vec<Told>, end: u8, entry: Entry) -> Result<(), Memory>
    ensures ok { OnOk result (told.new.items ≡ told.old.items ++ record { end = end; entry = entry } ∷ []) }
    ensures err { OnErr result (told.new.items ≡ told.old.items) }
{
    told.push(Told { end, entry })?;
    Ok(())
}

impl Link for World {
    ghost use Rattle.std.specs.Prelude.{◌≡◌, ◌≤◌, Some};
    ghost use Rattle.outside.specs.Causes.{HasCause, HasCauseReceived};
    ghost use Rattle.outside.specs.Link.{NotesOnly, dialed_as, sent_as, received_as, noted_as};
    ghost use Rattle.world_model.specs.Told.{Tells};
    ghost use Rattle.world_link.specs.declared.world.World.{World};
    ghost use Rattle.world_link.specs.Honest.{IsHonestWorld};
    ghost use Rattle.world_link.specs.Replay.{told};
    ghost use Rattle.world_link.specs.Steps as steps;
    ghost use Rattle.world_link.specs.View.{seen};

    ghost told = { λ w. Some (told (seen w)) };

    ghost faults = { λ w. w.faults };

    ghost honest = { λ w. IsHonestWorld (seen w) };

    ghost stays = { λ x y. (told (seen y)).at 0 ≡ (told (seen x)).at 0 };

    ghost lawful = { λ w h. h.server.lawful };

    fn dial(&mut self, port: u16) -> Result<(), LinkFault>
        ensures told { Tells (Some (told (seen self.old))) (Some (told (seen self.new))) (dialed_as port result) }
        ensures stays { (first : World) → (told (seen self.old)).at 0 ≡ (told (seen first)).at 0 → (told (seen self.new)).at 0 ≡ (told (seen first)).at 0 }
        ensures honest { IsHonestWorld (seen self.old) → IsHonestWorld (seen self.new) }
        ensures cause { HasCause self.old.faults self.new.faults result }
        ensures exact { steps.Dials (seen self.old) (seen self.new) port result }
    {
        self.dial_port(ONLY, port)
    }

    fn send(&mut self, rec: &Record) -> Result<(), LinkFault>
        ensures told { Tells (Some (told (seen self.old))) (Some (told (seen self.new))) (sent_as rec.now result) }
        ensures stays { (first : World) → (told (seen self.old)).at 0 ≡ (told (seen first)).at 0 → (told (seen self.new)).at 0 ≡ (told (seen first)).at 0 }
        ensures honest { IsHonestWorld (seen self.old) → IsHonestWorld (seen self.new) }
        ensures cause { HasCause self.old.faults self.new.faults result }
        ensures exact { steps.Sends (seen self.old) (seen self.new) rec.now result }
    {
        self.send_record(ONLY, rec.bytes())
    }

    fn receive(&mut self, _wait_ms: u32, rec: &mut Vec<u8>) -> Received
        requires { 15000 ≤ _wait_ms }
        ensures told { Tells (Some (told (seen self.old))) (Some (told (seen self.new))) (received_as rec.new.items result) }
        ensures stays { (first : World) → (told (seen self.old)).at 0 ≡ (told (seen first)).at 0 → (told (seen self.new)).at 0 ≡ (told (seen first)).at 0 }
        ensures honest { IsHonestWorld (seen self.old) → IsHonestWorld (seen self.new) }
        ensures cause { HasCauseReceived self.old.faults self.new.faults result }
        ensures exact { steps.Receives (seen self.old) (seen self.new) rec.new.items result }
    {
        if self.turn_all().is_err() {
            return Received::Memory;
        }
        self.hand_out(ONLY, rec)
    }

    fn tells(&self) -> bool {
        true
    }

    fn note(&mut self, mark: Mark) -> Result<(), Memory>
        ensures told { NotesOnly (Some (told (seen self.old))) (Some (told (seen self.new))) (noted_as mark result) }
        ensures stays { (first : World) → (told (seen self.old)).at 0 ≡ (told (seen first)).at 0 → (told (seen self.new)).at 0 ≡ (told (seen first)).at 0 }
        ensures honest { IsHonestWorld (seen self.old) → IsHonestWorld (seen self.new) }
        ensures cause { self.old.faults ≤ self.new.faults }
        ensures exact { steps.Notes (seen self.old) (seen self.new) mark result }
    {
        self.note_mark(ONLY, mark)
    }
}
