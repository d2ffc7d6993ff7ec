//! What follows the reply to a call that shows something of an object.

ghost use Rattle.std.specs.Prelude.{◌≡◌};
ghost use Rattle.client_shelf.specs.Busy.{fails_busy};
ghost use Rattle.name_ops.specs.Showing.{Shows, shown_answer};

use client_shelf::busy::{again, is_busy};
use client_shelf::learning::learn;
use client_shelf::{Shelf, Step, Turn};
use nfs_types::{Attr, Handle};
use world_model::{Answer, Call, Fault, Value};

/// The object's attributes are learnt, if the reply gives them. The call is made again if the server is busy; else
/// what was shown is the answer.
pub(crate) fn show(
    object: &Handle,
    attr: &Option<Attr>,
    told: Result<Value, Fault>,
    call: Call,
    sent: Turn,
    turn: Turn,
    shelf: &mut Shelf,
) -> Step
    ensures { Shows object.now attr.now told call sent turn shelf.old result shelf.new }
{
    learn(&mut shelf.attrs, object, attr, sent.now);
    if again(value_busy(&told), sent, turn, &mut shelf.repeats) {
        return Step::Send(call);
    }
    Step::Done(shown_answer(told))
}

/// Whether it was refused because the server is busy.
fn value_busy(told: &Result<Value, Fault>) -> bool
    ensures { result ≡ fails_busy told.now }
{
    match told {
        Ok(_) => false,
        Err(fault) => is_busy(fault),
    }
}

/// The answer of the operation.
fn shown_answer(told: Result<Value, Fault>) -> Answer
    ensures { result ≡ shown_answer told }
{
    match told {
        Ok(value) => Answer::Done(value),
        Err(fault) => Answer::Refused(fault),
    }
}
