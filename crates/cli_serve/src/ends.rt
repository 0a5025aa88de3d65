//! The two ends of a worker: the queue from which its messages come, and the output to which its answers go.
ghost use Rattle.std.specs.Prelude.{◌≡◌};

use crate::backlog::Backlog;
use cli_output::{Output, Pen, Sheet};
use cli_talk::{Closed, Message, Messages, Replies, Talk};
use crossbeam_channel::Receiver;
use std::io::Write;
use std::sync::{Mutex, Wait};

/// The queue of a session, at its worker. A line is in the backlog until the worker takes the next one.
pub(crate) struct Inbox<'a, L: Talk + Drop, R: Wait> {
    rt: &'a R,
    messages: Receiver<Message<L>>,
    backlog: &'a Backlog,
    taken: Option<usize>,
    has_ended: bool,
}

impl<'a, L: Talk + Drop, R: Wait> Inbox<'a, L, R> {
    /// Returns the inbox for the messages of a queue, which are in this backlog.
    pub(crate) fn new(
        rt: &'a R,
        messages: Receiver<Message<L>>,
        backlog: &'a Backlog,
    ) -> Inbox<'a, L, R> {
        Inbox {
            rt,
            messages,
            backlog,
            taken: None,
            has_ended: false,
        }
    }
}

// A worker that drops its inbox before the end of its messages has stopped, and all others stop too.
impl<L: Talk + Drop, R: Wait> Drop for Inbox<'_, L, R> {
    fn drop(self) {
        let Self {
            rt,
            messages: _,
            backlog,
            taken: _,
            has_ended,
        } = self;
        if !has_ended {
            backlog.stop(rt);
        }
    }
}

impl<L: Talk + Drop, R: Wait> Messages<L> for Inbox<'_, L, R> {
    fn next(&mut self) -> Option<Message<L>> {
        if let Some(bytes) = self.taken {
            self.backlog.remove(self.rt, bytes);
            self.taken = None;
        }
        let Ok(message) = self.messages.recv(self.rt) else {
            self.has_ended = true;
            return None;
        };
        if self.backlog.has_stopped(self.rt) {
            return None;
        }
        self.taken = Some(message.line().bytes());
        Some(message)
    }
}

/// The output on which others print too, a line at a time, with this author's pen. The texts of the pen are what was given.
#[derive(Drop)]
pub(crate) struct Printer<'a, J: Sheet, R: Wait, O: Write + Drop> {
    rt: &'a R,
    out: &'a Mutex<Output<J, O>>,
    pen: Pen<J>,
}

impl<'a, J: Sheet, R: Wait, O: Write + Drop> Printer<'a, J, R, O> {
    /// Returns the printer with this pen.
    pub(crate) fn new(rt: &'a R, out: &'a Mutex<Output<J, O>>, pen: Pen<J>) -> Printer<'a, J, R, O>
        ensures { result.pen ≡ pen }
    {
        Printer { rt, out, pen }
    }
}

impl<J: Sheet, R: Wait, O: Write + Drop> Replies for Printer<'_, J, R, O> {
    ghost use Rattle.std.specs.Prelude.{Some};

    ghost given = { λ p. Some p.pen.texts };

    fn reply(&mut self, line: &str) -> Result<(), Closed> {
        match self.out.lock(self.rt).print(&mut self.pen, line) {
            Ok(()) => Ok(()),
            Err(_) => Err(Closed),
        }
    }
}

/// The end of a worker or of the router, which returns its pen.
pub(crate) trait Prints<J: Sheet>: Replies {
    ghost use Rattle.std.specs.Prelude.{◌≡◌, Some};

    /// Returns the pen, with which exactly what was given was printed.
    fn into_pen(self) -> Pen<J>
        ensures { Self.given self ≡ Some result.texts };
}

impl<J: Sheet, R: Wait, O: Write + Drop> Prints<J> for Printer<'_, J, R, O> {
    fn into_pen(self) -> Pen<J> {
        let Printer { rt: _, out: _, pen } = self;
        pen
    }
}
