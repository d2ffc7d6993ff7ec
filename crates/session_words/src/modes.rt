//! How long the words let attributes be believed, and what goes by them.

ghost use Rattle.std.specs.Prelude.{◌≡◌, codes, None, Some};
ghost use Rattle.attr_cache.specs.Attrs.{usual_lives};
ghost use Rattle.session_words.specs.Words.{FindsOne, given_in, lives_of, IsLives, IsNocto};

use crate::number::number_in;
use crate::rows::{flag, given};
use attr_cache::Lives;
use clap::ArgMatches;

/// The most seconds of `--actimeo`.
const MAX_SECONDS: u32 = 3_600;

/// For how long attributes are believed. None exactly if the words give another text, or any beside `noac`.
pub(crate) fn lives(matches: &ArgMatches<'_>, noac: bool) -> Option<Lives>
    ensures { FindsOne (IsLives noac (given_in matches.now (codes "actimeo"))) result }
{
    match given(matches, "actimeo") {
        None => Some(lives_without(noac)),
        Some(digits) => lives_by(digits, noac),
    }
}

/// For how long attributes are believed if the words give no time.
fn lives_without(noac: bool) -> Lives
    ensures { IsLives noac None result }
{
    if noac { lives_of(0) } else { usual_lives() }
}

/// For how long attributes are believed if the words give this text. None exactly if it isn't of the form, or
/// stands beside `noac`.
fn lives_by(digits: &str, noac: bool) -> Option<Lives>
    ensures { FindsOne (IsLives noac (Some digits.now)) result }
{
    if noac {
        return None;
    }
    let seconds = number_in(digits, 0, MAX_SECONDS)?;
    Some(lives_of(seconds))
}

/// 3 to 60 seconds, and 30 to 60 seconds for directories.
fn usual_lives() -> Lives
    ensures { result ≡ usual_lives }
{
    Lives {
        reg_min: 3_000,
        reg_max: 60_000,
        dir_min: 30_000,
        dir_max: 60_000,
    }
}

/// So many seconds each.
fn lives_of(seconds: u32) -> Lives
    ensures { result ≡ lives_of seconds }
{
    let lifetime = u64::from(seconds) * 1_000;
    Lives {
        reg_min: lifetime,
        reg_max: lifetime,
        dir_min: lifetime,
        dir_max: lifetime,
    }
}

/// Whether an open may go by attributes that are kept. Beside `noac` the word has no effect.
pub(crate) fn nocto(matches: &ArgMatches<'_>, noac: bool) -> bool
    ensures { IsNocto noac (given_in matches.now (codes "nocto")) result }
{
    if noac {
        return false;
    }
    flag(matches, "nocto")
}
