//! What a line of a script asks for.

ghost use Rattle.std.specs.Prelude.{◌≡◌};
ghost use Rattle.script_text.specs.Lines.{words};
ghost use Rattle.nfs_script.specs.Faults.{Gives};
ghost use Rattle.nfs_script.specs.Script.{asked_of, line_of};

use crate::commands::op;
use crate::fault::{Cause, LineFault};
use crate::script::ScriptLine;
use crate::words::{first, lane};
use script_text::is_skipped;
use std::alloc::Global;

/// What the line of that number asks for. None exactly if the line is skipped.
pub(crate) fn asked(
    alloc: Global,
    number: u32,
    line: &[u8],
) -> Result<Option<ScriptLine>, LineFault>
    ensures { Gives (λ asked. asked) result (line_of number line.now) }
{
    if is_skipped(line) {
        return Ok(None);
    }
    let asked = asked_in_words(alloc, number, line)?;
    Ok(Some(asked))
}

/// What the words of a line ask for.
#[tactic(auto, unfolding(crate::specs::Script::asked_of))]
fn asked_in_words(alloc: Global, number: u32, line: &[u8]) -> Result<ScriptLine, LineFault>
    ensures { Gives (λ asked. asked) result (asked_of number (words line.now)) }
{
    let (lane_word, rest) = first(Cause::Lane, line)?;
    let lane = lane(lane_word)?;
    let (command, rest) = first(Cause::Command, rest)?;
    let op = op(alloc, command, rest)?;
    Ok(ScriptLine {
        lane,
        line: number,
        op,
    })
}
