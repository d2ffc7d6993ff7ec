//! The operation of a lane.

use crate::bench::{Bench, Running, Setting, Stepped};
use crate::operations::{mounted, operation};
use crate::replies::{body, came};
use crate::shown::{show_answer, show_call};
use crate::words::{first_word, numbers};
use client_shelf::{Step, Turn};
use std::alloc::Global;
use std::{io, mem};

/// How many calls of an operation are known by their numbers.
const MOST_CALLS: usize = 80;

/// The operation of a lane, and the turns of its calls.
#[derive(Drop)]
pub(crate) struct Lane {
    running: Option<Running>,
    sent: [Turn; MOST_CALLS],
    made: usize,
}

impl Lane {
    /// No operation is under way.
    pub(crate) fn new() -> Lane {
        let turn = Turn {
            xid: 0,
            moment: 1,
            now: 0,
            room: true,
        };
        Lane {
            running: None,
            sent: [turn; MOST_CALLS],
            made: 0,
        }
    }

    /// No operation is under way any more.
    pub(crate) fn rest(&mut self) {
        self.hold(None);
    }

    /// From now on this operation is under way, if one is. It made no call yet.
    fn hold(&mut self, running: Option<Running>) {
        // Dropped by a call, since the prover takes a drop in place apart, field by field.
        drop(mem::replace(&mut self.running, running));
        self.made = 0;
    }

    /// Keeps the turn of a call. Its number within the operation.
    fn note(&mut self, turn: Turn) -> usize {
        if self.made < MOST_CALLS {
            self.sent[self.made] = turn;
            self.made += 1;
        }
        self.made
    }

    /// The turn of a call; 0 stands for the last one.
    fn sent(&self, number: u64) -> Turn {
        let number = if number == 0 {
            self.made
        } else {
            number as usize
        };
        if 1 <= number && number <= MOST_CALLS {
            self.sent[number - 1]
        } else {
            self.sent[0]
        }
    }

    /// Prints what a step came to.
    fn show(&mut self, rt: &impl Print, step: Option<Stepped>) -> io::Result<()> {
        let Some(Stepped { turn, next }) = step else {
            return println!(rt; "  too many steps");
        };
        match next {
            Step::Send(call) => {
                let number = self.note(turn);
                show_call(rt, number, &call)
            }
            Step::Wait => println!(rt; "  waits"),
            Step::Done(answer) => show_answer(rt, &answer),
        }
    }
}

/// Makes the step of a lane's line.
pub(crate) fn run(
    rt: &impl Print,
    alloc: Global,
    number: u8,
    lane: &mut Lane,
    bench: &mut Bench,
    setting: &Setting,
    line: &str,
) -> io::Result<()> {
    let (word, words) = first_word(line);
    match word {
        "go" => go_on(rt, alloc, lane, bench, setting),
        "to" => {
            let (call, line) = first_word(words);
            take(rt, alloc, numbers(call)[0], lane, bench, setting, line)
        }
        _ => match operation(alloc, word, words) {
            Some(op) => {
                let mounted = mounted(setting.rsize, words);
                let running = Running::new(alloc, &mounted, number, &op);
                drop(op);
                begin(rt, alloc, running, lane, bench, setting)
            }
            None => take(rt, alloc, 0, lane, bench, setting, line),
        },
    }
}

/// An operation begins, if a script can ask for it.
fn begin(
    rt: &impl Print,
    alloc: Global,
    running: Option<Running>,
    lane: &mut Lane,
    bench: &mut Bench,
    setting: &Setting,
) -> io::Result<()> {
    let Some(mut running) = running else {
        return println!(rt; "  can't be asked for");
    };
    let step = bench.start(alloc, &mut running, setting);
    lane.hold(Some(running));
    lane.show(rt, step)
}

/// The lane's operation makes a step without a reply.
fn go_on(
    rt: &impl Print,
    alloc: Global,
    lane: &mut Lane,
    bench: &mut Bench,
    setting: &Setting,
) -> io::Result<()> {
    let Some(running) = &mut lane.running else {
        return println!(rt; "  nothing is under way");
    };
    let step = bench.resume(alloc, running, setting);
    lane.show(rt, step)
}

/// The lane's operation takes the reply in a line.
fn take(
    rt: &impl Print,
    alloc: Global,
    call: u64,
    lane: &mut Lane,
    bench: &mut Bench,
    setting: &Setting,
    line: &str,
) -> io::Result<()> {
    let (word, words) = first_word(line);
    let Ok(body) = body(alloc, word, words) else {
        return println!(rt; "  memory");
    };
    let came = came(word, words, body.bytes());
    let sent = lane.sent(call);
    let Some(running) = &mut lane.running else {
        return println!(rt; "  nothing is under way");
    };
    let step = bench.took(alloc, running, sent, &came, setting);
    lane.show(rt, step)
}
