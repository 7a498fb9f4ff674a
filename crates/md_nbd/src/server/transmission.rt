// Requests are taken and answered until the client goes.
ghost use Rattle.std.specs.Prelude.{◌≡◌, ◌*◌, ◌≤◌, MatchResult, length, take};
ghost use Rattle.md_nbd.specs.Export.{most_bytes, sector_bytes};
ghost use Rattle.md_nbd.specs.NbdRequests.{payload_of};
ghost use Rattle.md_nbd.specs.NbdTasks.{task_of};
ghost use Rattle.md_nbd.specs.Server.Exchanges.{IsWhyOf};
ghost use Rattle.md_nbd.specs.Server.Told.{AnswersOrGoes, FailsToTell, RestsIfSilent};
ghost use Rattle.md_nbd.specs.Server.Transmission.{BreaksOffTold, TransmitsTold};

use crate::request::Request;
use crate::server::client_watch::ClientWatch;
use crate::server::refusal::task_fault;
use crate::server::request_taken::take_request;
use crate::server::service::Service;
use crate::server::session_fault::SessionFault;
use crate::server::store::Store;
use crate::server::tasks_done::{SectorWrite, do_flush, do_read, do_refuse, do_write};
use crate::task::{Task, task_of};
use md_streams::{Sink, SinkFault, Source};
use std::alloc::Global;

/// Why no more requests are answered.
#[derive(Clone, Copy, Debug, PartialEq, Eq)]
pub enum Gone {
    /// The client said that it goes.
    Disconnected,
    /// The source ended between two requests.
    Ended,
    /// The source ended within a request.
    Cut,
    /// What came is no request.
    NoRequest,
    /// More is to be written than the server keeps room for.
    TooLong,
    /// 2^64 - 1 requests were answered.
    Exhausted,
}

// Lets the store rest, where the client was silent for long. Nobody is told what comes of it: a later answer says whether the store
// does anything still.
fn rest_if_silent<M, S: Store<M>, W: ClientWatch>(store: &mut S, lent: &mut M, watch: &W)
    requires sound { S.is_sound (store.old, lent.old) }
    ensures rests { RestsIfSilent S.Store (W.says_rested watch.now) (store.old, lent.old) (store.new, lent.new) }
    ensures sound { S.is_sound (store.new, lent.new) }
    ensures size { S.sectors (store.new, lent.new) ≡ S.sectors (store.old, lent.old) }
{
    if watch.has_rested() {
        match store.rest(lent) {
            Ok(()) => {}
            Err(_) => {}
        }
    }
}

// Does what a request asks for, and answers: false where it asks the server to go.
fn answer<M, S: Store<M>, W: ClientWatch, O: Sink>(
    service: &Service<'_, W>,
    store: &mut S,
    lent: &mut M,
    request: &Request,
    buf: &mut [u8],
    out: &mut O,
) -> Result<bool, SinkFault>
    requires room { request.now.length ≤ most_bytes → request.now.length ≤ length buf.old }
    requires payload { payload_of request.now ≤ length buf.old }
    requires size { service.now.export.now.size ≤ sector_bytes * S.sectors (store.old, lent.old) }
    requires sound { S.is_sound (store.old, lent.old) }
    ensures answers { MatchResult result
        (AnswersOrGoes S.Store O.Sink (W.has_refused service.now.watch.now) service.now.export.now request.now
        (take (payload_of request.now) buf.old) (store.old, lent.old) (store.new, lent.new) out.old out.new)
        (λ _. FailsToTell S.Store O.Sink (W.has_refused service.now.watch.now)
        (task_of service.now.export.now request.now) request.now (take (payload_of request.now) buf.old)
        (IsWhyOf S.Store service.now.export.now request.now (task_of service.now.export.now request.now)
        (take (payload_of request.now) buf.old) (store.old, lent.old) (store.new, lent.new))
        (store.old, lent.old) (store.new, lent.new) out.new) }
    ensures sound { S.is_sound (store.new, lent.new) }
    ensures size { S.sectors (store.new, lent.new) ≡ S.sectors (store.old, lent.old) }
{
    match task_of(service.export, request) {
        Task::Read(sector, sectors) => {
            let room = &mut buf[..512 * sectors as usize];
            do_read(store, lent, service.watch, out, request, sector, room)?;
        }
        Task::Write(sector, sectors, through) => {
            let asked = SectorWrite {
                sector,
                bytes: &buf[..512 * sectors as usize],
                through,
            };
            do_write(store, lent, service.watch, out, request, &asked)?;
        }
        Task::Flush => do_flush(store, lent, service.watch, out, request)?,
        Task::Refuse(error) => {
            let fault = task_fault(service.export, request);
            do_refuse(store, lent, service.watch, out, request, fault, error)?;
        }
        Task::Disconnect => return Ok(false),
    }
    Ok(true)
}

/// Takes requests and answers them, one after another, until the client goes, and says why no more come. What is read and written
/// stands in `buf`, which gets room for that, 32 MiB at most: the server takes no other memory.
///
/// The watch is told of each request that is answered with an error, before the answer. Where it says that the client was silent for
/// long before a request, the store rests first.
///
/// The export may be smaller than the store, and none of its requests goes past it. Where a stream fails no reply is made up for what was not told.
pub fn answer_requests<M, S: Store<M>, W: ClientWatch, I: Source, O: Sink>(
    alloc: Global,
    service: &Service<'_, W>,
    store: &mut S,
    lent: &mut M,
    buf: &mut Vec<u8>,
    input: &mut I,
    out: &mut O,
) -> Result<Gone, SessionFault>
    requires size { service.now.export.now.size ≤ sector_bytes * S.sectors (store.old, lent.old) }
    requires sound { S.is_sound (store.old, lent.old) }
    ensures answers { MatchResult result
        (TransmitsTold S.Store I.Source O.Sink service.now.export.now (W.has_refused service.now.watch.now)
        (store.old, lent.old) (store.new, lent.new) input.old input.new out.old out.new)
        (BreaksOffTold S.Store I.Source O.Sink service.now.export.now (W.has_refused service.now.watch.now)
        (store.old, lent.old) (store.new, lent.new) input.old input.new out.old out.new) }
    ensures sound { S.is_sound (store.new, lent.new) }
    ensures size { S.sectors (store.new, lent.new) ≡ S.sectors (store.old, lent.old) }
{
    for answered in 0..u64::MAX {
        let request = match take_request(alloc, input, buf)? {
            Ok(request) => request,
            Err(gone) => return Ok(gone),
        };
        rest_if_silent(store, lent, service.watch);
        match answer(service, store, lent, &request, buf, out) {
            Ok(true) => {}
            Ok(false) => return Ok(Gone::Disconnected),
            Err(SinkFault) => return Err(SessionFault::Sink),
        }
    }
    Ok(Gone::Exhausted)
}
