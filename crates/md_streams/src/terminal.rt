// What a terminal is shown and asked.
ghost use Rattle.std.specs.Prelude.{◌≡◌, ◌++◌, IfSome};
ghost use Rattle.md_streams.specs.Putting.{PutsTold};
ghost use Rattle.md_streams.specs.Sink.{PutsOrFails};
ghost use Rattle.md_streams.specs.Answer.{is_agreed};
ghost use Rattle.md_streams.specs.Terminal.{Asks, EndsAnswer, IsAsked, answer_unasked, are_put, question_text, questions_of};

use crate::answer::{Answer, read_answer};
use crate::sink::{Sink, SinkFault};
use crate::source::Source;

const QUESTION: &[u8] = b"mdcli: go on? (yes or no) ";

/// What is done before a command overwrites what perhaps should stay.
#[derive(Clone, Copy)]
pub enum Questions {
    /// Nothing is shown, and the command goes on: `--run` says so, and there is no terminal.
    Silent,
    /// It is shown on standard error, and the command goes on: `--run` says so.
    Shown,
    /// It is shown, and asked: on standard error, or on another terminal.
    Asked,
    /// It is shown on standard error, and the command does not go on: there is no terminal to answer on.
    Unanswered,
    /// Nothing is shown, and the command does not go on: there is no terminal.
    Refused,
}

impl Questions {
    /// What is done where standard error is a terminal or not, where standard input is one or not, where there is another
    /// one to ask on or not, and where it was said that nothing is to be asked, or not.
    pub fn of(is_shown: bool, is_answered: bool, has_other: bool, is_run: bool) -> Questions
        ensures { result ≡ questions_of is_shown is_answered has_other is_run }
    {
        if is_run {
            return if is_shown {
                Questions::Shown
            } else {
                Questions::Silent
            };
        }
        if has_other || is_shown && is_answered {
            Questions::Asked
        } else if is_shown {
            Questions::Unanswered
        } else {
            Questions::Refused
        }
    }

    /// Whether the lines matter: they are shown, or the command does not go on.
    pub fn are_put(self) -> bool
        ensures { result ≡ are_put self }
    {
        match self {
            Questions::Silent => false,
            Questions::Shown | Questions::Asked | Questions::Unanswered | Questions::Refused =>
                true,
        }
    }

    /// Shows the lines, and asks, as far as it is to be. Whether to go on: where it is asked, only a yes says so. To a question
    /// that can't be shown the answer is no, and nothing is read.
    pub fn go_on<E: Sink, R: Source>(self, lines: &[u8], err: &mut E, input: &mut R) -> bool
        ensures asked { IsAsked E.Sink R.Source lines.now self
            err.old err.new input.old input.new result }
        ensures unasked { IfSome (answer_unasked self) (λ answer. result ≡ answer) }
    {
        match self {
            Questions::Silent => true,
            Questions::Shown => {
                show(err, lines);
                true
            }
            Questions::Asked => ask(lines, err, input),
            Questions::Unanswered => {
                show(err, lines);
                false
            }
            Questions::Refused => false,
        }
    }
}

// Shows the lines, and asks. Answers whether to go on.
fn ask<E: Sink, R: Source>(lines: &[u8], err: &mut E, input: &mut R) -> bool
    ensures { Asks E.Sink R.Source lines.now err.old err.new input.old input.new result }
{
    match put_question(err, lines) {
        Ok(()) => {
            let answer = read_answer(input);
            end_answer(err, answer)
        }
        // Nobody saw what would be agreed to.
        Err(_) => false,
    }
}

// Shows the lines. If they can't be shown, nothing else changes.
fn show<E: Sink>(err: &mut E, lines: &[u8])
    ensures { PutsTold E.Sink err.old err.new lines.now }
{
    let _ = err.put(lines);
}

// The lines, and whether to go on.
fn put_question<E: Sink>(err: &mut E, lines: &[u8]) -> Result<(), SinkFault>
    ensures { PutsOrFails E.contents E.failed err.old err.new (lines.now ++ question_text) result }
{
    err.put(lines)?;
    err.put(QUESTION)?;
    Ok(())
}

// Whether an answer agrees. If no line feed ended the answer, one is shown, so that the next text begins on a line of its own.
fn end_answer<E: Sink>(err: &mut E, answer: Answer) -> bool
    ensures agreed { result ≡ is_agreed answer }
    ensures ends { EndsAnswer E.Sink err.old err.new answer }
{
    match answer {
        Answer::Yes => true,
        Answer::No => false,
        Answer::Cut => {
            show(err, b"\n");
            false
        }
    }
}
