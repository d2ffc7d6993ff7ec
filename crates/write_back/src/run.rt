//! Bytes that segments, pieces and calls share.

ghost use Rattle.std.specs.Prelude.{◌≡◌, ◌++◌, ◌^◌, ◌<◌, ◌≤◌, [], length, drop, IfOk, OnOk};
ghost use Rattle.std.specs.Vec.{vec_capacity};
ghost use Rattle.write_back.specs.Runs.{bytes_of};

use std::alloc::Global;
use std::marker::Model;
use xdr_codec::{Blob, Memory};

/// These bytes from a place on. They are shared if they can be, and are at least half of the memory that is kept for them: so
/// few bytes don't keep much of it. Else they are copied, and can be shared then.
pub fn rest_of(alloc: Global, bytes: &Blob, from: usize) -> Result<Blob, Memory>
    requires { from ≤ length bytes.now }
    ensures { IfOk result (λ b. b ≡ drop from bytes.now) }
{
    let len = bytes.len() - from;
    if len < bytes.footprint() / 2 {
        return copy_of(alloc, &bytes.bytes()[from..]);
    }
    match bytes.part(alloc, from, len) {
        Some(part) => Ok(part),
        None => copy_of(alloc, &bytes.bytes()[from..]),
    }
}

/// A copy of these bytes, which can be shared.
fn copy_of(alloc: Global, bytes: &[u8]) -> Result<Blob, Memory>
    ensures { IfOk result (λ b. b ≡ bytes.now) }
{
    let mut own = Vec::new(alloc);
    own.extend_from_slice(bytes)?;
    Ok(Blob::shared(alloc, own)?)
}

/// The bytes of runs, one after the other. Those of a single run aren't copied.
#[derive(Drop)]
pub struct Runs {
    one: Option<Blob>,
    joined: Vec<u8>,
}

impl Model for Runs {
    ghost use Rattle.std.specs.Prelude.{List, ℕ};
    ghost use Rattle.std.specs.Vec.{vec_capacity};
    ghost use Rattle.write_back.specs.Runs.{bytes_of};

    ghost Value = { List ℕ };

    ghost view = { λ r. bytes_of r.one r.joined.items };
}

impl Runs {
    /// No bytes.
    pub fn new(alloc: Global) -> Runs
        ensures { result ≡ [] }
    {
        Runs {
            one: None,
            joined: Vec::new(alloc),
        }
    }

    /// The bytes.
    pub fn bytes(&self) -> &[u8]
        ensures { result.now ≡ self.now }
    {
        match &self.one {
            Some(run) => run.bytes(),
            None => self.joined.as_slice(),
        }
    }

    /// How many there are.
    pub fn len(&self) -> usize
        ensures len { result ≡ length self.now }
        ensures small { result < 2 ^ 63 }
    {
        match &self.one {
            Some(run) => run.len(),
            None => self.joined.len(),
        }
    }

    /// The bytes as a blob. Those of a single run aren't copied if its bytes can be shared, else they are into room that
    /// was taken for them.
    pub fn blob(&self, alloc: Global, room: Vec<u8>) -> Blob
        requires empty { room.items ≡ [] }
        requires fits { length self.now ≤ vec_capacity room }
        ensures { result ≡ self.now }
    {
        let Some(run) = &self.one else {
            return copied(self.bytes(), room);
        };
        match run.again(alloc) {
            Ok(blob) => blob,
            Err(_memory) => copied(run.bytes(), room),
        }
    }

    /// One more run. After an error they aren't to be used.
    pub fn add(&mut self, run: Blob) -> Result<(), Memory>
        ensures { OnOk result (self.new ≡ self.old ++ run) }
    {
        if self.len() == 0 {
            self.one = Some(run);
            return Ok(());
        }
        join(&self.one, &mut self.joined)?;
        self.one = None;
        self.joined.extend_from_slice(run.bytes())?;
        Ok(())
    }
}

/// Copies the bytes of the single run, if there is one.
fn join(one: &Option<Blob>, joined: &mut Vec<u8>) -> Result<(), Memory>
    ensures { OnOk result (joined.new.items ≡ bytes_of one.now joined.old.items) }
{
    let Some(run) = one else {
        return Ok(());
    };
    joined.clear();
    joined.extend_from_slice(run.bytes())?;
    Ok(())
}

/// These bytes, in room that was taken for them.
fn copied(bytes: &[u8], room: Vec<u8>) -> Blob
    requires empty { room.items ≡ [] }
    requires fits { length bytes.now ≤ vec_capacity room }
    ensures { result ≡ bytes.now }
{
    let mut copy = room;
    let Ok(()) = copy.extend_from_slice(bytes) else {
        unreachable!();
    };
    Blob::of(copy)
}
