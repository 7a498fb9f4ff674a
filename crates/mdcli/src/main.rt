//! The program: commands over images in files.
//!
//! Start with `main`. It has the words parsed (`md_words`), lays the maps of `--map` over the files, makes the files of `--output` and
//! `--map-out` or goes on with them, all by `md_outputs`, and leaves the rest to `run` of `md_cli`. Where `scan` is given no image, it
//! goes over all block devices (`all_devices.rt`). What comes before `run` is refused by `refused_maps.rt` and `refused_reads.rt`.
//!
//! ```
//! mdcli detail --readonly --map sda.img=sda.map sda.img sdb.img
//! ```
#![tactic(auto)]

mod all_devices;
mod refused_maps;
mod refused_reads;

use crate::all_devices::scan_all;
use crate::refused_maps::{tell_fault, tell_refusal};
use crate::refused_reads::if_resumed;
use clap::Error;
use md_badblocks::BadSet;
use md_cli::{Session, run, stand_in_of};
use md_files::{Cleared, CodedJson, Line, MapText};
use md_outputs::{
    Ending, FileImages, Masked, Names, Opened, Outputs, Person, Progress, Prompt,
    are_streams_taken, bytes_if_needed, bytes_left_if_taken, given_words, goes_on_over,
    identity_of, is_output_ended, masked_images, opened_of, output_of, rebuilt_from, resumed_of,
    scan_of_all, tell_unlisted,
};
use md_read_commands::StandIn;
use md_refusals::CommandFault;
use md_streams::{Buffered, Gaps, Input, Messages, Sink};
use md_words::{LongTask, Request, parse};
use std::alloc::{AllocError, Global};
use std::fs::File;
use std::io::{self, IsTerminal, Stderr, Stdin, Write};
use std::process::ExitCode;
use std::rt::Files;

// The status of words that are not taken, and that of a command that is refused.
const WORDS_NOT_TAKEN: u8 = 2;

const REFUSED: u8 = 1;

fn main(rt: HostRuntime) -> ExitCode {
    let _standard_streams = filled_streams(&rt);
    let Some(args) = arguments_if_taken(&rt) else {
        return ExitCode::from(WORDS_NOT_TAKEN);
    };
    let Ok(words) = word_list(rt.alloc(), &args) else {
        let _ = eprintln!(rt; "mdcli: NoMemory");
        return ExitCode::from(WORDS_NOT_TAKEN);
    };
    let words = words.as_slice();
    let parsed = parse(rt.alloc(), words);
    let person = Person::of_parsed(&rt, &parsed);
    let is_terminal = person.is_err_shown();
    let messages = messages_of(&parsed, is_terminal);
    let task = task_of(&parsed, is_terminal);
    let progress = Progress::new(&rt, task, messages, is_verbose(&parsed));
    let setting = Setting {
        rt: &rt,
        messages,
        progress: &progress,
    };
    let mut prompt = Prompt::new(&rt, &progress, person);
    let mut err = standard_error(&setting, &parsed);
    // Output that goes elsewhere leaves the line of progress as it is.
    let standard = Cleared::new(io::writer(&rt), &progress, rt.stdout().is_terminal());
    let Some(
        Masked {
            mut images,
            texts,
            lacking,
            ..
        },
    ) = masked_of(&setting, &parsed, &mut prompt, &mut err)
    else {
        return ExitCode::from(REFUSED);
    };
    let begun = Begun::of_parsed(
        &setting, &parsed, &texts, &lacking, standard, prompt, &mut err,
    );
    let Some(
        Begun {
            mut session,
            ending,
        },
    ) = begun
    else {
        return ExitCode::from(REFUSED);
    };
    let rebuilt = rebuilt_from(rt.alloc(), &parsed);
    let status = match scan_of_all(&parsed) {
        Some(json) => scan_devices(&setting, json, &mut session.out, &mut err),
        None => run(&mut session, words, parsed, &mut images, &mut err, messages),
    };
    if let Some(names) = rebuilt
        && progress.has_read()
    {
        tell_unlisted(rt.alloc(), &names, &lacking, &mut images, &mut err);
    }
    let is_done = is_ended(&setting, session, ending, &mut err);
    ExitCode::from(if is_done { status } else { REFUSED })
}

// The words, or none where they are not taken: says why.
fn arguments_if_taken(rt: &HostRuntime) -> Option<Vec<String>> {
    match given_words(rt) {
        Ok(args) => Some(args),
        Err(fault) => {
            let _ = eprintln!(rt; "mdcli: {fault}");
            None
        }
    }
}

// What the commands are shown and told by.
#[derive(Drop)]
struct Setting<'a> {
    rt: &'a HostRuntime,
    messages: Messages,
    progress: &'a Progress<'a>,
}

// Where refusals are told, beside the line of progress.
fn standard_error<'a, F>(
    setting: &Setting<'a>,
    parsed: &Result<Request<'_>, F>,
) -> Cleared<'a, Stderr, Progress<'a>> {
    let mut err = Cleared::new(setting.rt.stderr(), setting.progress, true);
    if parsed.is_err() {
        // The parser's text has the words as they are.
        err.code_text();
    }
    err
}

// What `run` is given of the system, where a command puts out to such a sink unless it is asked for a file.
type FileSession<'a, S> = Session<
    'a,
    HostRuntime,
    Input<Stdin>,
    CodedJson<Buffered<Outputs<'a, S>>>,
    Progress<'a>,
    Prompt<'a>,
>;

// What a command is run with: where it puts out, and how its files are ended.
#[derive(Drop)]
struct Begun<'a, 'b, S: Sink + Drop> {
    session: FileSession<'b, S>,
    ending: Ending<'a>,
}

impl<'a, 'b, S: Sink + Drop> Begun<'a, 'b, S> {
    // Opens or makes the files of a read of images under these maps, each of which lacks these sectors. Says on `err` why it
    // can't.
    fn of_parsed<E: Write + Sink>(
        setting: &Setting<'b>,
        parsed: &Result<Request<'a>, Error>,
        texts: &[MapText],
        lacking: &'b [BadSet],
        standard: S,
        prompt: Prompt<'b>,
        err: &mut E,
    ) -> Option<Begun<'a, 'b, S>> {
        let (rt, messages) = (setting.rt, setting.messages);
        let opened = opened_for(setting, parsed, texts, standard, err)?;
        let ending = Ending::begin(rt, parsed, messages, err);
        let Some(ending) = ending else {
            let (output, names) = (output_of(parsed), Names::of_parsed(parsed));
            let _ = is_output_ended(opened.outputs, output, names, messages, err);
            return None;
        };
        let session = session_over(setting, parsed, lacking, opened, prompt);
        Some(Begun { session, ending })
    }
}

// Says how far a command came, and ends its files. Says on `err` why it can't.
fn is_ended<S: Sink + Drop, E: Write + Sink>(
    setting: &Setting<'_>,
    session: FileSession<'_, S>,
    ending: Ending<'_>,
    err: &mut E,
) -> bool {
    let (rt, progress) = (setting.rt, setting.progress);
    progress.clear();
    tell_standing(progress.sectors_standing(), err);
    let (outputs, of_all) = put_out_by(session);
    let count = progress.sectors_to_read();
    ending.is_done(rt, outputs, count, of_all, setting.messages, err)
}

// Lays the maps over the images, if the streams are taken, and it is agreed to maps that are perhaps other copies'. Says on `err` why it
// can't.
fn masked_of<'a, F, E: Write + Sink>(
    setting: &Setting<'a>,
    parsed: &Result<Request<'_>, F>,
    prompt: &mut Prompt<'_>,
    err: &mut E,
) -> Option<Masked<'a>> {
    let (rt, progress) = (setting.rt, setting.progress);
    let files = FileImages::new(rt, progress, is_run(parsed));
    let Ok(request) = parsed else {
        return Some(Masked::without_maps(rt.alloc(), files));
    };
    if !are_streams_taken(rt, request, setting.messages, err) {
        return None;
    }
    let masked = masked_images(rt, request, files, err);
    let standard = Cleared::new(io::writer(rt), progress, rt.stdout().is_terminal());
    let mut out = CodedJson::new(standard, request.command.is_json());
    let messages = setting.messages;
    match masked {
        Ok(masked) => {
            if goes_on_over(prompt, request.command, &masked.stray, err) {
                return Some(masked);
            }
            let fault = CommandFault::Declined;
            tell_fault(rt.alloc(), &fault, request, messages, &mut out, err);
        }
        Err(fault) => tell_refusal(rt.alloc(), fault, request, messages, &mut out, err),
    }
    None
}

// Opens or makes the file of a read, if one is asked for, or says on `err` why it can't; these are the maps.
fn opened_for<'b, F, S: Sink + Drop, E: Write + Sink>(
    setting: &Setting<'b>,
    parsed: &Result<Request<'_>, F>,
    maps: &[MapText],
    standard: S,
    err: &mut E,
) -> Option<Opened<'b, S>> {
    let (rt, messages) = (setting.rt, setting.messages);
    let identity = identity_of(rt, parsed, maps);
    let identity = if_resumed(identity, parsed, messages, err)?;
    let lacking = setting.progress.lacking();
    let resumed = resumed_of(rt, Names::of_parsed(parsed), identity, lacking);
    let resumed = if_resumed(resumed, parsed, messages, err)?;
    opened_of(rt, parsed, resumed, standard, messages, err)
}

// What the command is given. Its progress counts from behind the sectors that stand.
fn session_over<'b, S: Sink + Drop, F>(
    setting: &Setting<'b>,
    parsed: &Result<Request<'_>, F>,
    lacking: &'b [BadSet],
    opened: Opened<'b, S>,
    prompt: Prompt<'b>,
) -> FileSession<'b, S> {
    let (rt, progress) = (setting.rt, setting.progress);
    let Opened {
        outputs,
        stands,
        earlier,
    } = opened;
    progress.begin_behind(stands);
    let told = bytes_left_if_taken(rt, parsed);
    Session {
        rt,
        alloc: rt.alloc(),
        input: Input::of_length(rt.stdin(), told),
        out: CodedJson::new(Buffered::new(rt.alloc(), outputs), is_json(parsed)),
        watch: progress,
        asker: prompt,
        random_bytes: bytes_if_needed(rt, parsed),
        gaps: earlier,
        is_all_out: false,
        stands,
        stand_in: stand_in_if_asked(parsed),
        mismatched: None,
        lacking,
    }
}

// Where a command put out, and, where that was all, which sectors were not given.
fn put_out_by<S: Sink + Drop>(session: FileSession<'_, S>) -> (Outputs<'_, S>, Option<Gaps>) {
    let Session {
        out,
        gaps,
        is_all_out,
        ..
    } = session;
    let of_all = if is_all_out { gaps } else { None };
    (out.into_inner().into_inner(), of_all)
}

// The image that counts as a device of the array, where the words ask for that.
fn stand_in_if_asked<E>(parsed: &Result<Request<'_>, E>) -> Option<StandIn> {
    match parsed {
        Ok(request) => stand_in_of(request),
        Err(_) => None,
    }
}

// Shows of which arrays all block devices are members.
fn scan_devices<S: Sink, E: Write + Sink>(
    setting: &Setting<'_>,
    json: bool,
    out: &mut S,
    err: &mut E,
) -> u8 {
    let mut devices = FileImages::new(setting.rt, setting.progress, false);
    scan_all(setting.rt, json, setting.messages, &mut devices, out, err)
}

// How much is said of a refusal.
fn messages_of<E>(parsed: &Result<Request<'_>, E>, is_terminal: bool) -> Messages {
    match parsed {
        Ok(request) if request.verbose => Messages::WithAdvice,
        Ok(_) | Err(_) if is_terminal => Messages::WithAdvice,
        Ok(_) | Err(_) => Messages::Plain,
    }
}

// Whether more is to be told.
fn is_verbose<E>(parsed: &Result<Request<'_>, E>) -> bool {
    match parsed {
        Ok(request) => request.verbose,
        Err(_) => false,
    }
}

// Whether nobody is to be asked.
fn is_run<E>(parsed: &Result<Request<'_>, E>) -> bool {
    match parsed {
        Ok(request) => request.run,
        Err(_) => false,
    }
}

// What a terminal is shown the progress of.
fn task_of<E>(parsed: &Result<Request<'_>, E>, is_terminal: bool) -> Option<LongTask> {
    match parsed {
        Ok(request) if is_terminal => request.command.long_task(),
        Ok(_) | Err(_) => None,
    }
}

// Of an input that was not written to its end it is said how many sectors stand, where some do.
fn tell_standing<E: Write>(sectors: u64, err: &mut E) {
    let _ = match sectors {
        0 => Ok(()),
        1 => writeln!(err, "mdcli: the first sector of the input is written"),
        _ => writeln!(
            err,
            "mdcli: the first {sectors} sectors of the input are written"
        ),
    };
}

// Whether the report is a JSON object.
fn is_json<E>(parsed: &Result<Request<'_>, E>) -> bool {
    match parsed {
        Ok(request) => request.command.is_json(),
        Err(_) => false,
    }
}

fn word_list(alloc: Global, args: &[String]) -> Result<Vec<&str>, AllocError> {
    args.iter().map(|word| word.as_str()).collect(alloc)
}

// A standard stream that the caller closed leaves its number to the next file that is opened, and a
// report would go into an image. While these are held no image gets such a number, and writes to a
// closed stream fail.
fn filled_streams<R: Files>(rt: &R) -> [io::Result<R::File>; 3] {
    std::array::from_fn(|_| File::open(rt, "/dev/null"))
}
