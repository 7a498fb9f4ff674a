// One command.
ghost use Rattle.std.specs.Prelude.{◌≡◌, IfOk, None, false, is_err, option_map, true};
ghost use Rattle.clap.specs.Words.{FailsBy};
ghost use Rattle.md_words.specs.Parsing.{asked, bitmap_word, image_words, words_fault};
ghost use Rattle.md_words.specs.Asks.{ask_of, options_of, scan_form, tells_by_status};
ghost use Rattle.md_streams.specs.Putting.{PutsTold};
ghost use Rattle.md_messages.specs.Telling.{TellsNoticed, TellsRefusal, perhaps_listed_lines, refused_text, texts};
ghost use Rattle.md_streams.specs.Messages.{has_advice};
ghost use Rattle.md_cli.specs.Running.{Obeys, MakesArray, RunsRefused, RunsScan, RunsTaken, differs, status_of};
ghost use Rattle.md_cli.specs.Streams.{told_of};

use crate::create::{create_images, params_of};
use crate::growing::grow_array;
use crate::open::with_array;
use crate::refusing::show_if_refused;
use crate::scanning::{ScanOptions, scan};
use crate::session::Session;
use clap::Error;
use md_examine_commands::examine_images;
use md_images::Images;
use md_messages::{
    Notices, advise, put_fault_line, put_gap_lines, put_perhaps_listed, put_refused, put_told,
};
use md_nbd::ClientWatch;
use md_refusals::CommandFault;
use md_streams::{Asker, Audience, Gaps, Messages, ReadWatch, Sink, Source};
use md_words::{ArrayCommand, Command, CreateOptions, Request};
use std::alloc::Global;
use std::io::Write;
use std::sync::Wait;
use std::thread::Threads;

// The status of a command that is done, of one that was to say that members differ, where they do, and of one that is refused.
pub(crate) const DONE: u8 = 0;

const DIFFERS: u8 = 3;

pub(crate) const REFUSED: u8 = 1;

/// Does what the words ask for, of which `parsed` is the parse; the first is the program's name. The status is 0 where it
/// is done, 1 where it is refused and 2 where the words are not taken, or ask for help. A check that was to say so by its
/// status has 3 where members differ.
///
/// Out of memory in the parse is status 2 too, and no other cause is one where the words are taken. That a parse of such words
/// fails only then is tested, since no clause can tell whether memory was there.
///
/// The session's input is read by `write` and `serve` alone. A refusal's line goes to `err`, as `mdcli: BadImage 0`, then for which
/// sectors zeros were put out and which members list more sectors as bad, and with advice further lines; so does the parser's text. Of a
/// command that is done it is told what was noticed (`Noticed.antt` in the specs of `md_messages`), in lines whose text and order are in
/// `Telling.antt` beside it. Where one can't be written, nothing else changes. Of a refused one it is told last, where there is advice, of
/// whose words no clause speaks. The fault's line is `refusal_line` (`FaultText/Commands.antt` there).
///
/// Where a command is refused whose report was to be a JSON object, the output gets a line for it: an object that says why
/// (`specs/Refusing.antt`). Only where there is no memory for that, it does not.
///
/// The session's random bytes are used by `create` alone, where its words name no UUID.
///
/// By `scan` the images are looked at one after another, and `err` gets a line for each that shows no member: what it shows is
/// `ScansImages` (`specs/Scanning.antt`).
///
/// The session's watch is told of a rebuild, by `rebuild` and `re-add`, of a check, whose workers its `rt` starts, and of each
/// request that `serve` answers with an error. The asker is asked before a command overwrites what perhaps should stay; where the answer
/// is not yes the command is refused.
pub fn run<
    'a,
    I: Images,
    T: Threads + Wait + Sync,
    R: Source + Drop,
    S: Sink + Drop,
    W: ReadWatch + ClientWatch + Sync,
    A: Asker + Drop,
    E: Write + Sink,
>(
    session: &mut Session<'_, T, R, S, W, A>,
    words: &'a [&'a str],
    parsed: Result<Request<'a>, Error>,
    images: &mut I,
    err: &mut E,
    messages: Messages,
) -> u8
    requires asks { IfOk parsed (λ r. ask_of r.command ≡ asked (texts words.now)) }
    requires images { IfOk parsed (λ r. texts r.images.items ≡ image_words (texts words.now)) }
    requires bitmap { IfOk parsed (λ r. option_map (λ s. s.now) r.bitmap ≡ bitmap_word (texts words.now)) }
    requires fails { FailsBy (words_fault (texts words.now)) parsed }
    ensures refused { RunsRefused I.Images I.Dev.Device R.Source S.Sink A.Asker E.Sink messages
        (texts words.entry.now) (is_err parsed.entry)
        images.old images.new session.old session.new err.old err.new result }
    ensures taken { RunsTaken I.Images I.Dev.Device R.Source S.Sink A.Asker E.Sink messages
        (texts words.entry.now) (is_err parsed.entry)
        images.old images.new session.old session.new err.old err.new result }
    ensures scans { RunsScan I.Images I.Dev.Device R.Source S.Sink A.Asker E.Sink messages
        (texts words.entry.now) (is_err parsed.entry)
        images.old images.new session.old session.new err.old err.new result }
    ensures flushed { result ≡ 0 → S.is_flushed session.new.out }
    ensures flushed_differing { result ≡ 3 → S.is_flushed session.new.out }
{
    let request = match parsed {
        Ok(request) => request,
        Err(error) => {
            let _ = write!(err, "{error}");
            return 2;
        }
    };
    let (command, bitmap) = (request.command, request.bitmap);
    let names = request.images.as_slice();
    let mut notices = Notices::none();
    let audience = Audience {
        messages,
        was_shown: session.asker.is_told_first(),
    };
    let outcome = match command {
        Command::Image(command) => {
            examine_images(session.alloc, command, images, names, &mut session.out)
        }
        Command::Scan { json } => {
            let how = ScanOptions {
                json,
                is_named: true,
                messages,
            };
            return scan(session.alloc, how, images, names, &mut session.out, err);
        }
        Command::Create(options) => create_array(session, options, images, names, &mut notices),
        Command::Grow { bitmap, chunk } => {
            grow_array(session, bitmap, chunk, images, names, &mut notices)
        }
        Command::Array(command) => {
            with_array(session, command, bitmap, images, names, &mut notices)
        }
    };
    show_if_refused(session.alloc, &outcome, command, names, &mut session.out);
    let gaps = &session.gaps;
    tell_outcome(&outcome, command, names, &notices, gaps, audience, err);
    outcome_status(&outcome, command, session.mismatched)
}

// Makes an array. No image is touched before the options are accepted.
fn create_array<I: Images, T, R: Source + Drop, S: Sink + Drop, W, A: Asker + Drop>(
    session: &mut Session<'_, T, R, S, W, A>,
    options: CreateOptions<'_>,
    images: &mut I,
    names: &[&str],
    notices: &mut Notices,
) -> Result<(), CommandFault>
    ensures gives { MakesArray I.Images I.Dev.Device S.Sink A.Asker session.old.random_bytes
        (options_of options.entry) (texts names.now)
        images.old images.new (told_of session.old notices.old) (told_of session.new notices.new) result }
    ensures flushed { IfOk result (λ _. S.is_flushed session.new.out) }
{
    match params_of(&options, session.random_bytes, names.len()) {
        Ok(params) => {
            let command = Command::Create(options);
            create_images(session, command, &params, images, names, notices)
        }
        Err(fault) => Err(CommandFault::Options(fault)),
    }
}

// Of a command that is done, what was noticed is said on `err`; of a refused one its fault, and more where advice is asked for.
fn tell_outcome<E: Write + Sink>(
    outcome: &Result<(), CommandFault>,
    command: Command<'_>,
    names: &[&str],
    notices: &Notices,
    gaps: &Option<Gaps>,
    audience: Audience,
    err: &mut E,
)
    ensures { TellsNoticed E.Sink audience (ask_of command.entry) (texts names.now) gaps.now
        err.old err.new outcome.now notices.now }
{
    match outcome {
        Ok(()) => {
            let _ = put_told(err, notices, command, names, audience);
        }
        Err(fault) => tell_refusal(fault, command, names, notices, gaps, audience, err),
    }
}

// The status of a command that was done or refused.
fn outcome_status(
    outcome: &Result<(), CommandFault>,
    command: Command<'_>,
    mismatched: Option<u32>,
) -> u8
    ensures { result ≡ status_of (tells_by_status (ask_of command.entry)) mismatched outcome.now }
{
    if outcome.is_err() {
        REFUSED
    } else if command.tells_by_status() && differs(mismatched) {
        DIFFERS
    } else {
        DONE
    }
}

// Whether members were found to differ in some chunk.
fn differs(mismatched: Option<u32>) -> bool
    ensures { result ≡ differs mismatched }
{
    match mismatched {
        Some(count) => count > 0,
        None => false,
    }
}

// A refusal is said on `err`, which sectors were put out otherwise, and which members list more; and no more where no advice is asked
// for. Else so is what was noticed.
fn tell_refusal<E: Write + Sink>(
    fault: &CommandFault,
    command: Command<'_>,
    names: &[&str],
    notices: &Notices,
    gaps: &Option<Gaps>,
    audience: Audience,
    err: &mut E,
)
    ensures { TellsRefusal E.Sink audience (ask_of command.entry) (texts names.now) gaps.now
        err.old err.new fault.now notices.now }
{
    let _ = put_fault_line(err, fault);
    let _ = put_gap_lines(err, command, gaps);
    tell_more(fault, command, names, notices, audience, err);
}

// Where advice is asked for, what to do is said on `err`, and then what was noticed; else which members list more.
fn tell_more<E: Write + Sink>(
    fault: &CommandFault,
    command: Command<'_>,
    names: &[&str],
    notices: &Notices,
    audience: Audience,
    err: &mut E,
)
    ensures plain { has_advice audience.messages ≡ false → PutsTold E.Sink err.old err.new
        (perhaps_listed_lines (ask_of command.entry) (texts names.now) notices.now) }
    ensures last { has_advice audience.messages ≡ true → (mid : E)
        × PutsTold E.Sink mid err.new
        (refused_text audience (ask_of command.entry) (texts names.now) notices.now fault.now) }
{
    if !audience.messages.has_advice() {
        let _ = put_perhaps_listed(err, notices, command, names);
        return;
    }
    advise(fault, names, command, err);
    let _ = put_refused(err, notices, command, names, audience, fault);
}
