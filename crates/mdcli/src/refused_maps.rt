// Why the maps that words name are refused.
use md_cli::show_why;
use md_files::{MapRefusal, MapsFault, map_advice};
use md_messages::advise;
use md_refusals::CommandFault;
use md_report::refusal_json;
use md_streams::{Messages, Output, Sink, put_name};
use md_words::Request;
use std::alloc::Global;
use std::io::Write;

// What a refusal's line begins with.
const PROGRAM: &str = "mdcli: ";

/// Says why the maps are refused, as `run` says why a command is: on `err`, and on `out` where the report was to be a JSON object.
pub fn tell_refusal<S: Sink, E: Write + Sink>(
    alloc: Global,
    fault: MapsFault,
    request: &Request<'_>,
    messages: Messages,
    out: &mut S,
    err: &mut E,
) {
    match fault {
        MapsFault::BadMap(place, refusal) => {
            tell_bad_map(alloc, place, &refusal, request, messages, out, err);
        }
        MapsFault::BadImage(image, refusal) => {
            let fault = CommandFault::BadImage(image, refusal);
            tell_fault(alloc, &fault, request, messages, out, err);
        }
        MapsFault::NoMemory => {
            let fault = CommandFault::NoMemory;
            tell_fault(alloc, &fault, request, messages, out, err);
        }
    }
}

/// Says why a command is refused, as `tell_refusal` does.
pub fn tell_fault<S: Sink, E: Write>(
    alloc: Global,
    fault: &CommandFault,
    request: &Request<'_>,
    messages: Messages,
    out: &mut S,
    err: &mut E,
) {
    let (command, names) = (request.command, request.images.as_slice());
    let _ = writeln!(err, "mdcli: {fault}");
    if messages != Messages::Plain {
        advise(fault, names, command, err);
    }
    show_why(alloc, fault, command, names, out);
}

fn tell_bad_map<S: Sink, E: Write>(
    alloc: Global,
    place: usize,
    refusal: &MapRefusal,
    request: &Request<'_>,
    messages: Messages,
    out: &mut S,
    err: &mut E,
) {
    let word = request.maps.get(place).copied();
    let _ = writeln!(err, "mdcli: BadMap {place} {refusal}");
    if messages != Messages::Plain && put_advice(word, refusal, err).is_some() {
        let _ = writeln!(err);
    }
    if request.command.is_json() {
        let _ = show_bad_map(alloc, place, word, refusal, out);
    }
}

// What to do about a map that is refused. None where a write fails.
fn put_advice<E: Write>(word: Option<&str>, refusal: &MapRefusal, out: &mut E) -> Option<()> {
    if let Some(word) = word {
        put_name(&mut Output::new(&mut *out), word).ok()?;
        write!(out, ": ").ok()?;
    }
    let what_to_do = map_advice(refusal);
    match refusal {
        MapRefusal::Unread(error) => write!(out, "{error}; {what_to_do}").ok(),
        _ => write!(out, "{what_to_do}").ok(),
    }
}

// None where there is no memory, or the output fails.
fn show_bad_map<S: Sink>(
    alloc: Global,
    place: usize,
    word: Option<&str>,
    refusal: &MapRefusal,
    out: &mut S,
) -> Option<()> {
    let mut fault = Vec::new(alloc);
    write!(fault, "BadMap {place} {refusal}").ok()?;
    let mut line = Vec::from_slice(alloc, PROGRAM.as_bytes()).ok()?;
    line.extend_from_slice(&fault).ok()?;
    let mut advice = Vec::new(alloc);
    put_advice(word, refusal, &mut advice)?;
    refusal_json(out, &fault, &line, Some(&advice)).ok()?;
    out.flush().ok()
}
