// The file that a read makes of what it puts out.
use crate::made::NewFile;
use md_files::{Destination, OutputFileFault, Sparse, output_file_advice};
use md_streams::{Messages, Sink, put_name};
use md_words::Request;
use std::io::Write;

/// The new file that words which were parsed ask for, if they do.
pub fn output_of<'a, E>(parsed: &Result<Request<'a>, E>) -> Option<&'a str> {
    match parsed {
        Ok(request) if !request.resume => request.output,
        Ok(_) | Err(_) => None,
    }
}

/// Where a command puts out: to this sink, or to a new file where one is asked for, which is made before anything is read.
/// Says on `err` why it can't be.
pub fn destination_of<'a, S: Sink + Drop, E: Write + Sink>(
    rt: &'a HostRuntime,
    path: Option<&str>,
    standard: S,
    messages: Messages,
    err: &mut E,
) -> Option<Destination<S, Sparse<NewFile<'a, HostRuntime>>>> {
    let Some(path) = path else {
        return Some(Destination::Standard(standard));
    };
    match NewFile::make(rt, path) {
        Ok(file) => Some(Destination::File(Sparse::new(file))),
        Err(fault) => {
            tell_output(fault, path, messages, err);
            None
        }
    }
}

/// Ends the file that was asked for, if one was. Says on `err` why it can't, or why it was not written any more.
pub fn end_file<'a, S: Drop, E: Write + Sink>(
    destination: Destination<S, Sparse<NewFile<'a, HostRuntime>>>,
    path: Option<&str>,
    messages: Messages,
    err: &mut E,
) -> bool {
    let Some(path) = path else {
        return true;
    };
    let Destination::File(file) = destination else {
        return true;
    };
    match file.into_inner().end(path) {
        Ok(()) => true,
        Err(fault) => {
            tell_output(fault, path, messages, err);
            false
        }
    }
}

/// Says why there is no file, or not all of it, as `run` says why a command is refused.
pub fn tell_output<E: Write + Sink>(
    fault: OutputFileFault,
    path: &str,
    messages: Messages,
    err: &mut E,
) {
    let what_to_do = output_file_advice(&fault);
    tell_with_advice(fault, what_to_do, path, messages, err);
}

/// Says why this file is not whole, and what to do about it.
pub fn tell_with_advice<E: Write + Sink>(
    fault: OutputFileFault,
    what_to_do: &str,
    path: &str,
    messages: Messages,
    err: &mut E,
) {
    let _ = writeln!(err, "mdcli: {fault}");
    if !messages.has_advice() {
        return;
    }
    let _ = put_name(err, path);
    let _ = match fault {
        OutputFileFault::Cut(error) | OutputFileFault::Unwritten(error) => {
            writeln!(err, ": {error}; {what_to_do}")
        }
        OutputFileFault::Exists => writeln!(err, ": {what_to_do}"),
    };
}
