//! Lists of authentication flavors.

ghost use Rattle.std.specs.Prelude.{◌≡◌, ◌++◌, ◌<◌, ◌≤◌, ◌^◌, length, OnOk, OnErr};
ghost use Rattle.xdr_codec.specs.Spelling.{BeginsWith};
ghost use Rattle.xdr_codec.specs.Spells.{SpellsU32};
ghost use Rattle.mount_calls.specs.Lists.{ReadsOwned, SpellsMany};
ghost use Rattle.mount_calls.specs.Flavors.{flavors_at, flavors_bytes, words_at, words_bytes, SpellsFlavors};

use crate::keep::keep;
use std::alloc::Global;
use std::marker::Model;
use xdr_codec::{CodecFault, Memory, Reader, Writer, XdrFault};

/// The most flavors that are read from one list.
const MAX: u32 = 64;

/// A list of authentication flavors (RFC 5531, section 8.2).
#[derive(Debug, Drop)]
pub struct Flavors {
    list: Vec<u32>,
}

impl Model for Flavors {
    ghost use Rattle.std.specs.Prelude.{List, ℕ};

    ghost Value = { List ℕ };

    ghost view = { λ f. f.list.items };
}

impl Flavors {
    /// Holds these flavors, and takes no memory.
    pub fn of(list: Vec<u32>) -> Flavors
        ensures { result ≡ list.items }
    {
        Flavors { list }
    }

    /// The flavors.
    pub fn list(&self) -> &[u32]
        ensures { result.now ≡ self.now }
    {
        self.list.as_slice()
    }
}

/// Reads a list with its count. TooLong exactly if the count is there and above 64.
#[tactic(auto, unfolding(crate::specs::Flavors::flavors_at))]
pub fn read_flavors(alloc: Global, r: &mut Reader<'_>) -> Result<Flavors, CodecFault>
    ensures { ReadsOwned result r.new (flavors_at r.old) }
{
    let count = r.u32()?;
    if count > MAX {
        return Err(CodecFault::Xdr(XdrFault::TooLong));
    }
    read_words(alloc, r, count)
}

/// Reads so many words.
fn read_words(alloc: Global, r: &mut Reader<'_>, count: u32) -> Result<Flavors, CodecFault>
    ensures { ReadsOwned result r.new (words_at count r.old) }
{
    let mut list = Vec::new(alloc);
    'words: while list.len() < count as usize {
        keep(&mut list, r.u32()?)?;
    }
    Ok(Flavors { list })
}

/// Writes a list with its count. When out of memory the writer begins with what it held.
#[tactic(auto, using(xdr_codec::proofs::Begins::begins_then, std::proofs::Common::append_assoc), unfolding(crate::specs::Flavors::flavors_bytes))]
pub fn write_flavors(w: &mut Writer, flavors: &Flavors) -> Result<(), Memory>
    requires { length flavors.now ≤ 64 }
    ensures ok { OnOk result (w.new ≡ w.old ++ flavors_bytes flavors.now) }
    ensures err { OnErr result (BeginsWith w.old w.new) }
    ensures spelled { OnOk result (SpellsFlavors flavors.now (flavors_bytes flavors.now)) }
{
    let list = flavors.list();
    w.u32(list.len() as u32)?;
    write_words(w, list)?;
    Ok(())
}

#[tactic(auto, using(xdr_codec::proofs::Begins::begins_then, std::proofs::Common::append_assoc), unfolding(crate::specs::Flavors::words_bytes))]
fn write_words(w: &mut Writer, list: &[u32]) -> Result<(), Memory>
    ensures ok { OnOk result (w.new ≡ w.old ++ words_bytes list.now) }
    ensures err { OnErr result (BeginsWith w.old w.new) }
    ensures spelled { OnOk result (SpellsMany SpellsU32 list.now (words_bytes list.now)) }
{
    for word in list {
        w.u32(*word)?;
    }
    Ok(())
}
