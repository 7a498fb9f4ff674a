// Who is asked, and where.
ghost use Rattle.std.specs.Prelude.{◌≡◌, IfSome};
ghost use Rattle.md_streams.specs.Terminal.{answer_unasked, are_put};

use md_streams::{Input, Output, Questions};
use md_words::{Overwritten, Request};
use std::fs::{File, OpenOptions};
use std::io::IsTerminal;

/// The person at a terminal, if there is one.
#[derive(Drop)]
pub struct Person {
    questions: Questions,
    is_err_shown: bool,
    // The terminal that controls the program, where standard input or standard error is none.
    other: Option<File>,
}

impl Person {
    /// Who is asked of the command of words that were parsed. No terminal is opened where none is asked in any case.
    pub fn of_parsed<E>(rt: &HostRuntime, parsed: &Result<Request<'_>, E>) -> Person {
        let is_err_shown = rt.stderr().is_terminal();
        let is_answered = rt.stdin().is_terminal();
        let (is_run, may_ask) = match parsed {
            Ok(request) => (
                request.run,
                request.command.may_part()
                    || !matches!(request.command.overwrites(), Overwritten::Nothing),
            ),
            Err(_) => (false, false),
        };
        let other = if is_run || !may_ask || is_err_shown && is_answered {
            None
        } else {
            controlling_terminal(rt)
        };
        Person {
            questions: Questions::of(is_err_shown, is_answered, other.is_some(), is_run),
            is_err_shown,
            other,
        }
    }

    /// Whether standard error is a terminal.
    pub fn is_err_shown(&self) -> bool
        ensures { result ≡ self.now.is_err_shown }
    {
        self.is_err_shown
    }

    /// Whether it is to be asked: lines are shown, or nobody can be asked.
    pub(crate) fn is_there(&self) -> bool
        ensures { result ≡ are_put self.now.questions }
    {
        self.questions.are_put()
    }

    /// Shows the lines, and asks, as far as it is to be. No contract says what a terminal gives; but where nobody is asked,
    /// the answer is the one that stands for that.
    pub(crate) fn goes_on(&self, rt: &HostRuntime, lines: &[u8]) -> bool
        ensures { IfSome (answer_unasked self.now.questions) (λ answer. result ≡ answer) }
    {
        match &self.other {
            Some(terminal) => {
                let mut out = Output::new(terminal);
                let mut input = Input::new(terminal);
                self.questions.go_on(lines, &mut out, &mut input)
            }
            None => {
                let mut err = Output::new(rt.stderr());
                let mut input = Input::new(rt.stdin());
                self.questions.go_on(lines, &mut err, &mut input)
            }
        }
    }
}

// The terminal that controls the program, if one does. A file that stands under this name is none.
fn controlling_terminal(rt: &HostRuntime) -> Option<File> {
    let terminal = OpenOptions::new()
        .read(true)
        .write(true)
        .open(rt, "/dev/tty")
        .ok()?;
    if terminal.is_terminal() {
        Some(terminal)
    } else {
        None
    }
}
