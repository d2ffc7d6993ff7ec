//! The words, read.

ghost use Rattle.std.specs.Prelude.{◌≡◌, map, codes, Err, IfOk, string_bytes};
ghost use Rattle.session_words.specs.Words.{FindsOne, given_in, rows_in, IsCommand, IsExport, GivesSettings};
ghost use Rattle.session_words.specs.declared.settings.Settings.{Settings as Setting};

use crate::command::match_words;
use crate::modes::{lives, nocto};
use crate::rows::{calls, cred, export, flag, port, size, xid};
use crate::settings::{Export, Settings, WordsFault};
use clap::ArgMatches;
use std::alloc::Global;

/// The settings that the words of a command line ask for, of which the first is the program's name. Refused exactly
/// if the words aren't of the form, unless memory runs out; if they are, no other settings are theirs.
pub fn read_words(alloc: Global, words: &[String]) -> Result<Settings, WordsFault>
    ensures found { IfOk result (IsCommand (map string_bytes words.now)) }
    ensures refused { result ≡ Err WordsFault.Refused → (s : Setting) → ¬ IsCommand (map string_bytes words.now) s }
    ensures only { (s : Setting) → IsCommand (map string_bytes words.now) s → IfOk result (λ given. given ≡ s) }
{
    match match_words(alloc, words) {
        Ok(matches) => settings_in(alloc, &matches),
        Err(fault) => Err(fault),
    }
}

/// The settings that the matches give. Refused exactly if they give none, unless memory runs out.
fn settings_in(alloc: Global, matches: &ArgMatches<'_>) -> Result<Settings, WordsFault>
    ensures found { IfOk result (GivesSettings (rows_in matches.now)) }
    ensures refused { result ≡ Err WordsFault.Refused → (s : Setting) → ¬ GivesSettings (rows_in matches.now) s }
{
    match export(alloc, matches) {
        Ok(export) => match settings_of(matches, export) {
            Some(settings) => Ok(settings),
            None => Err(WordsFault::Refused),
        },
        Err(fault) => Err(fault),
    }
}

/// The settings that the matches give, of what the client works on. None exactly if they give none.
fn settings_of(matches: &ArgMatches<'_>, export: Export) -> Option<Settings>
    requires { IsExport (given_in matches.now (codes "export")) (given_in matches.now (codes "root")) export }
    ensures { FindsOne (GivesSettings (rows_in matches.now)) result }
{
    let mount_port = port(matches, "mount-port", 20_048)?;
    let nfs_port = port(matches, "nfs-port", 2_049)?;
    let cred = cred(matches)?;
    let rsize = size(matches, "rsize")?;
    let wsize = size(matches, "wsize")?;
    let calls = calls(matches)?;
    let xid = xid(matches)?;
    let noac = flag(matches, "noac");
    let lives = lives(matches, noac)?;
    Some(Settings {
        export,
        mount_port,
        nfs_port,
        cred,
        rsize,
        wsize,
        calls,
        xid,
        lives,
        noac,
        nocto: nocto(matches, noac),
        count: flag(matches, "count"),
    })
}
