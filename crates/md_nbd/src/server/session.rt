// A whole session with a client: the greeting, the client's flags, its options, and its requests.
ghost use Rattle.std.specs.Prelude.{◌≡◌, ◌*◌, ◌≤◌, MatchResult, length};
ghost use Rattle.md_nbd.specs.Export.{sector_bytes};
ghost use Rattle.md_nbd.specs.Server.Sessions.{BreaksSession, BreaksToldSession, EndsSession, EndsToldSession, FailsToGreet, GreetsOrEnds, is_orderly};

use crate::handshake_head::{greeting, no_zeroes_of};
use crate::number_fields::u32_of;
use crate::server::agreement::{Haggled, haggle};
use crate::server::client_watch::ClientWatch;
use crate::server::putting::put;
use crate::server::service::Service;
use crate::server::session_fault::SessionFault;
use crate::server::store::Store;
use crate::server::transmission::{Gone, answer_requests};
use md_streams::{Sink, Source, fill_front};
use std::alloc::Global;

/// How a session ended.
#[derive(Clone, Copy, Debug, PartialEq, Eq)]
pub enum SessionEnd {
    /// The source ended before the client's flags were there.
    NoFlags,
    /// The client has flags that the server does not know.
    UnknownFlags,
    /// Options were answered, and the client did not get the export.
    Unagreed(Haggled),
    /// Requests were answered.
    Gone(Gone),
}

impl SessionEnd {
    /// Whether the client went as the protocol has it, between two of its messages.
    pub fn is_orderly(self) -> bool
        ensures { result ≡ is_orderly self }
    {
        match self {
            SessionEnd::Unagreed(Haggled::Closed | Haggled::Ended)
            | SessionEnd::Gone(Gone::Disconnected | Gone::Ended) => true,
            _ => false,
        }
    }
}

// Greets the client and takes its flags: whether it wants no zeros after the answer to EXPORT_NAME, or why the session ends.
fn greet<I: Source, O: Sink>(
    input: &mut I,
    out: &mut O,
) -> Result<Result<bool, SessionEnd>, SessionFault>
    ensures { MatchResult result
        (GreetsOrEnds I.Source O.Sink input.old input.new out.old out.new)
        (FailsToGreet I.Source O.Sink input.old input.new out.old out.new) }
{
    if put(out, &greeting()).is_err() {
        return Err(SessionFault::Sink);
    }
    let mut bytes = [0; 4];
    let Ok(taken) = fill_front(input, &mut bytes) else {
        return Err(SessionFault::Source);
    };
    if taken < 4 {
        return Ok(Err(SessionEnd::NoFlags));
    }
    let (flags, _) = u32_of(&bytes);
    match no_zeroes_of(flags) {
        Some(no_zeroes) => Ok(Ok(no_zeroes)),
        None => Ok(Err(SessionEnd::UnknownFlags)),
    }
}

/// Serves one client, from the greeting on until it goes, and says how the session ended. What is read and written stands in
/// `buf`, which gets room for it, and so do the options; an answer to an option takes memory while it is put out. The watch is told of
/// each request that is answered with an error, and why.
pub fn serve_client<M, S: Store<M>, W: ClientWatch, I: Source, O: Sink>(
    alloc: Global,
    service: &Service<'_, W>,
    store: &mut S,
    lent: &mut M,
    buf: &mut Vec<u8>,
    input: &mut I,
    out: &mut O,
) -> Result<SessionEnd, SessionFault>
    requires room { 65536 ≤ length buf.old.items }
    requires size { service.now.export.now.size ≤ sector_bytes * S.sectors (store.old, lent.old) }
    requires sound { S.is_sound (store.old, lent.old) }
    ensures serves { MatchResult result
        (EndsSession S.Store I.Source O.Sink service.now.export.now (store.old, lent.old) (store.new, lent.new)
        input.old input.new out.old out.new)
        (BreaksSession S.Store I.Source O.Sink service.now.export.now (store.old, lent.old) (store.new, lent.new)
        input.old input.new out.old out.new) }
    ensures told { MatchResult result
        (EndsToldSession S.Store I.Source O.Sink service.now.export.now (store.old, lent.old) (store.new, lent.new)
        input.old input.new out.old out.new (W.has_refused service.now.watch.now))
        (BreaksToldSession S.Store I.Source O.Sink service.now.export.now (store.old, lent.old) (store.new, lent.new)
        input.old input.new out.old out.new (W.has_refused service.now.watch.now)) }
    ensures sound { S.is_sound (store.new, lent.new) }
    ensures size { S.sectors (store.new, lent.new) ≡ S.sectors (store.old, lent.old) }
{
    let no_zeroes = match greet(input, out)? {
        Ok(no_zeroes) => no_zeroes,
        Err(end) => return Ok(end),
    };
    match haggle(alloc, service.export, no_zeroes, buf, input, out)? {
        Haggled::Agreed => {}
        why => return Ok(SessionEnd::Unagreed(why)),
    }
    let gone = answer_requests(alloc, service, store, lent, buf, input, out)?;
    Ok(SessionEnd::Gone(gone))
}
