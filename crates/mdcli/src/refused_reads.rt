// Why a read does not go on.
use md_images::ImageRefusal;
use md_messages::advise;
use md_outputs::{Names, ResumeRefusal, tell_map_out, tell_output, tell_resume_fault};
use md_refusals::CommandFault;
use md_streams::{Messages, Sink};
use md_words::Request;
use std::io::Write;

/// What a read goes on with, unless it is refused: says on `err` why, as `run` says why a command is.
pub fn if_resumed<T, F, E: Write + Sink>(
    found: Result<T, ResumeRefusal>,
    parsed: &Result<Request<'_>, F>,
    messages: Messages,
    err: &mut E,
) -> Option<T> {
    match found {
        Ok(found) => Some(found),
        Err(refusal) => {
            if let (Ok(request), Some(names)) = (parsed, Names::of_parsed(parsed)) {
                tell_resume(refusal, request, names, messages, err);
            }
            None
        }
    }
}

fn tell_resume<E: Write + Sink>(
    refusal: ResumeRefusal,
    request: &Request<'_>,
    names: Names<'_>,
    messages: Messages,
    err: &mut E,
) {
    match refusal {
        ResumeRefusal::Image(place, fault) => {
            let fault = CommandFault::BadImage(place, ImageRefusal::Unopened(fault));
            let _ = writeln!(err, "mdcli: {fault}");
            if messages.has_advice() {
                advise(&fault, &request.images, request.command, err);
            }
        }
        ResumeRefusal::Output(fault) => tell_output(fault, names.output, messages, err),
        ResumeRefusal::Map(fault) => tell_map_out(fault, names.map, messages, err),
        ResumeRefusal::Resume(fault) => tell_resume_fault(fault, names, messages, err),
    }
}
