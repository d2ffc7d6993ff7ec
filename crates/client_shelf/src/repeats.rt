//! Which calls are made again because the server was busy.

ghost use Rattle.std.specs.Prelude.{◌≡◌, [], ◌∷◌, ◌++◌, ◌<◌, length, position, IfOk};
ghost use Rattle.client_shelf.specs.Repeats.{is_call, repeat_of, times_of, ended, may_repeat, answered};

use limits::CALLS_IN_FLIGHT;
use std::alloc::Global;
use std::marker::Model;
use xdr_codec::Memory;

/// How often a call is made again.
const MOST_TIMES: u8 = 3;

/// A call that is made again.
#[derive(Clone, Copy, Debug, PartialEq, Eq)]
pub struct Repeat {
    /// The xid that it has now.
    pub xid: u32,
    /// How often it was made before, under other xids.
    pub times: u8,
}

/// Which calls are made again because the server was busy (RFC 1813, NFS3ERR_JUKEBOX), and how often each was made before.
/// The memory of all places is taken at once.
#[derive(Drop)]
pub struct Repeats {
    calls: Vec<Repeat>,
}

impl Model for Repeats {
    ghost use Rattle.std.specs.Prelude.{List};
    ghost use Rattle.client_shelf.specs.declared.repeats.Repeat.{Repeat};

    ghost Value = { List Repeat };

    ghost view = { λ r. r.calls.items };

    ghost use Rattle.std.specs.Prelude.{◌≤◌};
    ghost use Rattle.std.specs.Vec.{vec_capacity};

    ghost invariant = { λ r. 32 ≤ vec_capacity r.calls };
}

impl Repeats {
    /// No call is made again.
    pub fn new(alloc: Global) -> Result<Repeats, Memory>
        ensures { IfOk result (λ r. r ≡ []) }
    {
        Ok(Repeats {
            calls: Vec::with_capacity(alloc, CALLS_IN_FLIGHT)?,
        })
    }

    /// The call under an xid was answered. If it is to be made again under another xid, and was made again fewer than three
    /// times, it is counted once more; else it is forgotten. Whether it is made again.
    pub fn answered(&mut self, xid: u32, to: u32, again: bool) -> bool
        ensures told { result ≡ may_repeat again xid self.old }
        ensures after { self.new ≡ answered (may_repeat again xid self.old) xid to self.old }
    {
        let times = self.times(xid);
        self.end(xid);
        if !again || times >= MOST_TIMES || self.calls.len() >= CALLS_IN_FLIGHT {
            return false;
        }
        self.add(Repeat {
            xid: to,
            times: times + 1,
        });
        true
    }

    /// The last place.
    fn add(&mut self, repeat: Repeat)
        requires { length self.old < 32 }
        ensures { self.new ≡ self.old ++ repeat ∷ [] }
    {
        let Ok(()) = self.calls.push(repeat) else {
            unreachable!();
        };
    }

    /// The call under an xid waits no more.
    fn end(&mut self, xid: u32)
        ensures { self.new ≡ ended xid self.old }
    {
        if let Some(at) = self.position(xid) {
            self.calls.remove(at);
        }
    }

    /// How often the call under an xid was made before.
    fn times(&self, xid: u32) -> u8
        ensures { result ≡ times_of xid self.now }
    {
        match self.repeat_of(xid) {
            Some(repeat) => repeat.times,
            None => 0,
        }
    }

    fn repeat_of(&self, xid: u32) -> Option<Repeat>
        ensures { result ≡ repeat_of xid self.now }
    {
        let at = self.position(xid)?;
        self.calls.as_slice().get(at).copied()
    }

    fn position(&self, xid: u32) -> Option<usize>
        ensures { result ≡ position (is_call xid) self.now }
    {
        self.calls
            .as_slice()
            .iter()
            .position(|repeat| repeat.xid == xid)
    }
}
