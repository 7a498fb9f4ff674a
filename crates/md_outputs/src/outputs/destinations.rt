// Where a command puts out, and how that ends.
use crate::made::NewFile;
use crate::map::{Kept, ResumeFault, resume_advice};
use crate::outputs::map_out::{BegunMap, MapOut, begun_map, make_map, tell_map_with_advice};
use crate::outputs::output_file::{destination_of, end_file, output_of, tell_with_advice};
use crate::resuming::{KeepFault, Names, Resumed, ResumedFile, WholePuts};
use md_files::{Destination, MapOutFault, Sparse};
use md_streams::{Gaps, Messages, Sink, put_name};
use md_words::Request;
use std::io::Write;

// What its map counts stands, whatever the file has behind that.
const GO_ON: &str =
    "see why it can't be written (free space, the disk), and run the same command again: it goes on where the map says";

const MORE_MEMORY: &str =
    "let it use more memory, and run the same command again: it goes on where the map says";

/// Standard output or a new file, or the file of a read that may go on.
pub type Outputs<'a, S> = Destination<
    Destination<S, Sparse<NewFile<'a, HostRuntime>>>,
    WholePuts<Sparse<ResumedFile<'a, HostRuntime>>>,
>;

/// Where a command puts out, how many sectors stand there, and which of these were not given.
#[derive(Drop)]
pub struct Opened<'a, S: Drop> {
    pub outputs: Outputs<'a, S>,
    pub stands: u64,
    pub earlier: Option<Gaps>,
}

/// Opens what the words that were parsed put out into: the files of a read that may go on, a new one, or this sink. Says on `err` why
/// it can't.
pub fn opened_of<'a, F, S: Sink + Drop, E: Write + Sink>(
    rt: &'a HostRuntime,
    parsed: &Result<Request<'_>, F>,
    resumed: Option<Resumed<'a, HostRuntime>>,
    standard: S,
    messages: Messages,
    err: &mut E,
) -> Option<Opened<'a, S>> {
    let made = destination_of(rt, output_of(parsed), standard, messages, err)?;
    Some(match resumed {
        Some(Resumed { file, stands, gaps }) => Opened {
            outputs: Destination::File(WholePuts::new(Sparse::new(file))),
            stands,
            earlier: Some(gaps),
        },
        None => Opened {
            outputs: Destination::Standard(made),
            stands: 0,
            earlier: None,
        },
    })
}

/// The names of what is ended once the command is done, and the map that is written then.
#[derive(Drop)]
pub struct Ending<'a> {
    output: Option<&'a str>,
    resumed: Option<Names<'a>>,
    map: BegunMap<'a>,
}

impl<'a> Ending<'a> {
    /// Makes the file of the map that the words ask for, if it is written at the end. Says on `err` why it can't.
    pub fn begin<F, E: Write + Sink>(
        rt: &HostRuntime,
        parsed: &Result<Request<'a>, F>,
        messages: Messages,
        err: &mut E,
    ) -> Option<Ending<'a>> {
        let map = begun_map(rt, MapOut::of_parsed(parsed), messages, err)?;
        Some(Ending {
            output: output_of(parsed),
            resumed: Names::of_parsed(parsed),
            map,
        })
    }

    /// Ends the files, where some are asked for; the map is of so many sectors, of which these were not given, where all were put
    /// out. Says on `err` why it can't, or why they were not written any more.
    pub fn is_done<S: Drop, E: Write + Sink>(
        self,
        rt: &HostRuntime,
        outputs: Outputs<'_, S>,
        count: u64,
        of_all: Option<Gaps>,
        messages: Messages,
        err: &mut E,
    ) -> bool {
        let Ending {
            output,
            resumed,
            map,
        } = self;
        let is_ended = is_output_ended(outputs, output, resumed, messages, err);
        make_map(rt, map, count, of_all, messages, err) && is_ended
    }
}

/// Ends the file that was asked for, if one was, and the map of a read that may go on. Says on `err` why it can't.
pub fn is_output_ended<S: Drop, E: Write + Sink>(
    outputs: Outputs<'_, S>,
    output: Option<&str>,
    names: Option<Names<'_>>,
    messages: Messages,
    err: &mut E,
) -> bool {
    match (outputs, names) {
        (Destination::Standard(made), _) => end_file(made, output, messages, err),
        (Destination::File(kept), Some(names)) => {
            is_resumed_ended(kept.into_inner().into_inner(), names, messages, err)
        }
        (Destination::File(_), None) => true,
    }
}

fn is_resumed_ended<E: Write + Sink>(
    kept: ResumedFile<'_, HostRuntime>,
    names: Names<'_>,
    messages: Messages,
    err: &mut E,
) -> bool {
    match kept.end(names.output) {
        Ok(()) => true,
        Err(KeepFault::Output(fault)) => {
            tell_with_advice(fault, GO_ON, names.output, messages, err);
            false
        }
        Err(KeepFault::Map(fault)) => {
            tell_map_with_advice(fault, GO_ON, names.map, messages, err);
            false
        }
        Err(KeepFault::NoMemory) => {
            tell_map_with_advice(MapOutFault::NoMemory, MORE_MEMORY, names.map, messages, err);
            false
        }
    }
}

/// Says why a read does not go on with these files, in the way in which `run` says why a command is refused.
pub fn tell_resume_fault<E: Write + Sink>(
    fault: ResumeFault,
    names: Names<'_>,
    messages: Messages,
    err: &mut E,
) {
    let _ = writeln!(err, "mdcli: {fault}");
    if !messages.has_advice() {
        return;
    }
    let path = match fault.which_file() {
        Kept::Output => names.output,
        Kept::Map => names.map,
    };
    let _ = put_name(err, path);
    let what_to_do = resume_advice(&fault);
    let _ = match fault {
        ResumeFault::Unopened(_, error) => writeln!(err, ": {error}; {what_to_do}"),
        _ => writeln!(err, ": {what_to_do}"),
    };
}
