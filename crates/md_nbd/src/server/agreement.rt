// A client and the server agree on the export.
ghost use Rattle.std.specs.Prelude.{◌≡◌, ◌≤◌, MatchResult, length};
ghost use Rattle.md_nbd.specs.Server.OptionsAnswered.{BreaksHaggling, FailsToAnswer, Haggles, PutsAnswer};

use crate::export::Export;
use crate::haggling::{Next, answer_option};
use crate::server::option_taken::take_option;
use crate::server::putting::put;
use crate::server::session_fault::SessionFault;
use md_streams::{Sink, SinkFault, Source};
use std::alloc::Global;

/// Why no more options are answered.
#[derive(Clone, Copy, Debug, PartialEq, Eq)]
pub enum Haggled {
    /// The client has the export: requests come.
    Agreed,
    /// By the last option the client or the server goes.
    Closed,
    /// The source ended between two options.
    Ended,
    /// The source ended within an option.
    Cut,
    /// What came is no option.
    NoOption,
    /// An option is longer than any that the server takes.
    TooLong,
    /// 2^64 - 1 options were answered.
    Exhausted,
}

// Answers an option, and says what comes next.
fn put_answer<O: Sink>(
    alloc: Global,
    export: &Export,
    no_zeroes: bool,
    option: u32,
    body: &[u8],
    out: &mut O,
) -> Result<Next, SessionFault>
    ensures { MatchResult result
        (PutsAnswer O.Sink export.now no_zeroes option body.now out.old out.new)
        (FailsToAnswer O.Sink out.old out.new) }
{
    let mut reply = Vec::new(alloc);
    let Ok(next) = answer_option(&mut reply, export, no_zeroes, option, body) else {
        return Err(SessionFault::NoMemory);
    };
    match put(out, reply.as_slice()) {
        Ok(()) => Ok(next),
        Err(SinkFault) => Err(SessionFault::Sink),
    }
}

/// Takes options and answers them, one after another, until the client has the export or one of both goes, and says which. Their
/// bodies stand in `buf`; an answer takes memory while it is put out.
///
/// `no_zeroes` is the client's wish that EXPORT_NAME be answered without 124 zeros (`md_nbd::no_zeroes_of`).
pub fn haggle<I: Source, O: Sink>(
    alloc: Global,
    export: &Export,
    no_zeroes: bool,
    buf: &mut [u8],
    input: &mut I,
    out: &mut O,
) -> Result<Haggled, SessionFault>
    requires { 65536 ≤ length buf.old }
    ensures { MatchResult result
        (Haggles I.Source O.Sink export.now no_zeroes input.old input.new out.old out.new)
        (BreaksHaggling I.Source O.Sink export.now no_zeroes input.old input.new out.old out.new) }
{
    for answered in 0..u64::MAX {
        let Ok(taken) = take_option(input, buf) else {
            return Err(SessionFault::Source);
        };
        let (option, size) = match taken {
            Ok(head) => head,
            Err(haggled) => return Ok(haggled),
        };
        match put_answer(alloc, export, no_zeroes, option, &buf[..size], out)? {
            Next::Haggling => {}
            Next::Transmission => return Ok(Haggled::Agreed),
            Next::Closed => return Ok(Haggled::Closed),
        }
    }
    Ok(Haggled::Exhausted)
}
