// Standard streams for which a command is refused.
use md_files::Backing;
use md_streams::{Messages, Sink, put_name};
use md_words::{ArrayCommand, Command, Request};
use std::io::Write;
use std::{env, fs};
use thiserror::Error;

/// Why a command is refused with these streams.
#[derive(Clone, Copy, Debug, Drop, Error)]
pub enum StreamFault {
    /// Standard output is the image with this index, counted from 0. The command would write over it.
    #[error("OutputIsImage {0}")]
    OutputIsImage(usize),
    /// A socket was handed over, and a client may wait there. The server would not use it.
    #[error("SocketActivation")]
    SocketActivation,
}

/// What to do about it.
fn stream_advice(fault: StreamFault) -> &'static str {
    match fault {
        StreamFault::OutputIsImage(_) =>
            "standard output is this image, or lies on it: put out into a file that is no image, or into a pipe",
        StreamFault::SocketActivation =>
            "`serve` speaks on standard input and output alone: of libnbd use `connect_command`, and for a socket `systemd-socket-activate -l SOCKET -a --inetd mdcli serve ..`",
    }
}

/// Whether a command may run with the streams that the program was started with. If not, `err` says why.
pub fn are_streams_taken<E: Write + Sink>(
    rt: &HostRuntime,
    request: &Request<'_>,
    messages: Messages,
    err: &mut E,
) -> bool {
    let Some(fault) = stream_fault(rt, request) else {
        return true;
    };
    let _ = writeln!(err, "mdcli: {fault}");
    if messages.has_advice() {
        if let StreamFault::OutputIsImage(place) = fault
            && let Some(name) = name_at(request, place)
        {
            let _ = put_name(err, name);
            let _ = write!(err, ": ");
        }
        let _ = writeln!(err, "{}", stream_advice(fault));
    }
    false
}

fn stream_fault(rt: &HostRuntime, request: &Request<'_>) -> Option<StreamFault> {
    if is_server(request.command) && is_socket_handed_over(rt) {
        return Some(StreamFault::SocketActivation);
    }
    image_put_out_to(rt, request).map(StreamFault::OutputIsImage)
}

fn is_server(command: Command<'_>) -> bool {
    matches!(command, Command::Array(ArrayCommand::Serve { .. }))
}

// Whether sockets were handed over to this process itself (sd_listen_fds(3)).
fn is_socket_handed_over(rt: &HostRuntime) -> bool {
    let (Ok(process), Ok(own)) = (env::var(rt, "LISTEN_PID"), fs::read_link(rt, "/proc/self"))
    else {
        return false;
    };
    env::var(rt, "LISTEN_FDS").is_ok() && own.as_str() == process.as_str()
}

// The image that is standard output, as far as /proc shows.
fn image_put_out_to(rt: &HostRuntime, request: &Request<'_>) -> Option<usize> {
    let output = Backing::of_path(rt, "/proc/self/fd/1").ok()?;
    for place in 0..request.images.len().saturating_add(1) {
        if let Some(name) = name_at(request, place)
            && let Ok(image) = Backing::of_path(rt, name)
            && image.overlaps(output)
        {
            return Some(place);
        }
    }
    None
}

// The name of a listed image, or of the one that joins.
fn name_at<'a>(request: &Request<'a>, place: usize) -> Option<&'a str> {
    match request.images.get(place) {
        Some(name) => Some(*name),
        None => request.command.device(),
    }
}
