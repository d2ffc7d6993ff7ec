//! The command line as `clap` reads it.

ghost use Rattle.std.specs.Prelude.{◌≡◌, ◌≢◌, [], codes, map, IfOk, Err, Some, false, string_bytes};
ghost use Rattle.clap.specs.Words.{app_of, rule_of, with_rule, fault_of, matches_of, found_of, rows_of};
ghost use Rattle.session_words.specs.Command.{option_rule, flag_rule, client_app};

use crate::settings::WordsFault;
use clap::error::ErrorKind;
use clap::{Arg, ArgAction, ArgMatches, Command};
use std::alloc::{AllocError, Global};

/// The matches of the words. Refused exactly if `clap` faults them, unless memory runs out.
pub(crate) fn match_words<'a>(
    alloc: Global,
    words: &'a [String],
) -> Result<ArgMatches<'a>, WordsFault>
    ensures taken { IfOk result (λ m. fault_of client_app (map string_bytes words.entry.now) ≡ []) }
    ensures rows { IfOk result (λ m. rows_of (found_of m) ≡ matches_of client_app (map string_bytes words.entry.now)) }
    ensures refused { result ≡ Err WordsFault.Refused → fault_of client_app (map string_bytes words.entry.now) ≢ [] }
{
    let Ok(command) = client_command(alloc) else {
        return Err(WordsFault::Memory);
    };
    match command.try_get_matches_from(words) {
        Ok(matches) => Ok(matches),
        Err(error) => match error.kind() {
            ErrorKind::OutOfMemory => Err(WordsFault::Memory),
            _ => Err(WordsFault::Refused),
        },
    }
}

fn client_command<'a>(alloc: Global) -> Result<Command<'a>, AllocError>
    ensures { IfOk result (λ c. app_of c ≡ client_app) }
{
    let command = Command::new(alloc, "nfs3");
    let command = command.arg(Arg::new(alloc, "export"))?;
    let command = with_option(alloc, command, "root")?;
    let command = with_option(alloc, command, "mount-port")?;
    let command = with_option(alloc, command, "nfs-port")?;
    let command = with_option(alloc, command, "auth")?;
    let command = with_option(alloc, command, "uid")?;
    let command = with_option(alloc, command, "gid")?;
    let command = with_option(alloc, command, "rsize")?;
    let command = with_option(alloc, command, "wsize")?;
    let command = with_option(alloc, command, "calls")?;
    let command = with_option(alloc, command, "xid")?;
    let command = with_option(alloc, command, "actimeo")?;
    let command = with_flag(alloc, command, "noac")?;
    let command = with_flag(alloc, command, "nocto")?;
    with_flag(alloc, command, "count")
}

fn with_option<'a>(
    alloc: Global,
    command: Command<'a>,
    name: &'a str,
) -> Result<Command<'a>, AllocError>
    ensures { IfOk result (λ c. app_of c ≡ with_rule (app_of command.entry) (option_rule name.entry.now)) }
{
    let option = option(alloc, name);
    command.arg(option)
}

fn with_flag<'a>(
    alloc: Global,
    command: Command<'a>,
    name: &'a str,
) -> Result<Command<'a>, AllocError>
    ensures { IfOk result (λ c. app_of c ≡ with_rule (app_of command.entry) (flag_rule name.entry.now)) }
{
    let flag = flag(alloc, name);
    command.arg(flag)
}

fn option<'a>(alloc: Global, name: &'a str) -> Arg<'a>
    ensures rule { rule_of result ≡ option_rule name.entry.now }
    ensures local { result.global ≡ false }
{
    Arg::new(alloc, name).long(name)
}

fn flag<'a>(alloc: Global, name: &'a str) -> Arg<'a>
    ensures rule { rule_of result ≡ flag_rule name.entry.now }
    ensures local { result.global ≡ false }
{
    option(alloc, name).action(ArgAction::SetTrue)
}
