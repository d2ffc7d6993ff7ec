//! The words of a session.

ghost use Rattle.std.specs.Prelude.{◌≡◌, IfOk, MatchOption, map};
ghost use Rattle.std.specs.String.{string_bytes};
ghost use Rattle.trace_words.specs.Given.{AreRefused, Give, longest_of, root_of, words_of};

use attr_cache::Lives;
use nfs_types::Handle;
use session_words::{Export, Settings, WordsFault, read_words};
use std::alloc::Global;
use xdr_codec::Memory;

/// What a trace says of the client beside its entries.
#[derive(Clone, Copy, Debug, PartialEq, Eq)]
pub struct TraceWords {
    /// The root's file handle, if `--root` gives it.
    pub root: Option<Handle>,
    /// The greatest lifetime of cached attributes, in milliseconds.
    pub lives: u64,
    /// Whether `--noac` is given.
    pub noac: bool,
    /// Whether `--nocto` has an effect: it is given without `--noac`.
    pub nocto: bool,
}

/// What the words of a session, of which the first is the program's name, say of the client. None exactly if they
/// aren't of the form, and then a session of theirs ends with status 2. Memory means out of memory.
pub fn trace_words(alloc: Global, words: &[String]) -> Result<Option<TraceWords>, Memory>
    ensures { IfOk result (λ found. MatchOption found (AreRefused (map string_bytes words.now)) (Give (map string_bytes words.now))) }
{
    match read_words(alloc, words) {
        Ok(settings) => Ok(Some(words_of(&settings))),
        Err(WordsFault::Refused) => Ok(None),
        Err(WordsFault::Memory) => Err(Memory),
    }
}

/// What settings say of the client.
fn words_of(settings: &Settings) -> TraceWords
    ensures { result ≡ words_of settings.now }
{
    TraceWords {
        root: root_of(&settings.export),
        lives: longest_of(settings.lives),
        noac: settings.noac,
        nocto: settings.nocto,
    }
}

/// The root that is given.
fn root_of(export: &Export) -> Option<Handle>
    ensures { result ≡ root_of export.now }
{
    match export {
        Export::Root(root) => Some(*root),
        Export::Path(_) => None,
    }
}

/// The greatest lifetime.
fn longest_of(lives: Lives) -> u64
    ensures { result ≡ longest_of lives }
{
    let file = lives.reg_min.max(lives.reg_max);
    let directory = lives.dir_min.max(lives.dir_max);
    file.max(directory)
}
