// What one request asks for is done, and answered.
ghost use Rattle.std.specs.Prelude.{◌≡◌, ◌+◌, ◌/◌, ◌%◌, ◌<◌, ◌≤◌, ◌++◌, MatchResult, [], length, true};
ghost use Rattle.md_nbd.specs.declared.task.Task.TheVariants.{Read as ReadTask, Write as WriteTask, Flush as FlushTask, Refuse as RefuseTask};
ghost use Rattle.md_streams.specs.Putting.{PutsOut};
ghost use Rattle.md_nbd.specs.SimpleReplies.{error_reply};
ghost use Rattle.md_nbd.specs.Server.Exchanges.{IsStoreFault};
ghost use Rattle.md_nbd.specs.Server.Refusals.{refused_for};
ghost use Rattle.md_nbd.specs.Server.Told.{TellsTaskOrFails};

use crate::reply::{ErrorCode, error_reply, success_reply};
use crate::request::Request;
use crate::server::client_watch::ClientWatch;
use crate::server::putting::put;
use crate::server::refusal::{RefusedRequest, RequestFault};
use crate::server::store::Store;
use md_streams::{Sink, SinkFault};

// Puts out the head of a reply, and the bytes after it.
fn put_with_bytes<O: Sink>(out: &mut O, head: &[u8], bytes: &[u8]) -> Result<(), SinkFault>
    ensures { MatchResult result
        (λ _. PutsOut O.Sink out.old out.new (head.now ++ bytes.now))
        (λ _. O.failed out.new ≡ true) }
{
    out.put(head)?;
    put(out, bytes)?;
    Ok(())
}

// Tells the watch of a request, and answers it with an error.
fn refuse<O: Sink, W: ClientWatch>(
    watch: &W,
    out: &mut O,
    request: &Request,
    fault: RequestFault,
    error: ErrorCode,
) -> Result<(), SinkFault>
    ensures told { W.has_refused watch.now (refused_for request.now fault) }
    ensures puts { MatchResult result
        (λ _. PutsOut O.Sink out.old out.new (error_reply error request.now.cookie))
        (λ _. O.failed out.new ≡ true) }
{
    watch.refuses(RefusedRequest {
        request: *request,
        fault,
    });
    put(out, &error_reply(error, request.cookie))
}

/// Reads sectors, as many as `buf` has room for, and answers with them.
pub(crate) fn do_read<M, S: Store<M>, W: ClientWatch, O: Sink>(
    store: &mut S,
    lent: &mut M,
    watch: &W,
    out: &mut O,
    request: &Request,
    sector: u64,
    buf: &mut [u8],
) -> Result<(), SinkFault>
    requires whole { length buf.old % 512 ≡ 0 }
    requires some { 0 < length buf.old }
    requires fits { sector + length buf.old / 512 ≤ S.sectors (store.old, lent.old) }
    requires sound { S.is_sound (store.old, lent.old) }
    ensures tells { TellsTaskOrFails S.Store O.Sink (W.has_refused watch.now) (ReadTask sector (length buf.old / 512)) request.now []
        (IsStoreFault (S.why_unread (store.old, lent.old) (store.new, lent.new) sector (length buf.old / 512)))
        (store.old, lent.old) (store.new, lent.new) out.old out.new result }
    ensures sound { S.is_sound (store.new, lent.new) }
    ensures size { S.sectors (store.new, lent.new) ≡ S.sectors (store.old, lent.old) }
{
    match store.read(lent, sector, buf) {
        Ok(()) => put_with_bytes(out, &success_reply(request.cookie), buf),
        Err(fault) => refuse(
            watch,
            out,
            request,
            RequestFault::Store(fault),
            ErrorCode::Io,
        ),
    }
}

/// What a request writes.
#[derive(Drop)]
pub(crate) struct SectorWrite<'a> {
    /// The first sector.
    pub(crate) sector: u64,
    pub(crate) bytes: &'a [u8],
    /// Whether it has to stand before the answer.
    pub(crate) through: bool,
}

/// Writes sectors.
pub(crate) fn do_write<M, S: Store<M>, W: ClientWatch, O: Sink>(
    store: &mut S,
    lent: &mut M,
    watch: &W,
    out: &mut O,
    request: &Request,
    asked: &SectorWrite<'_>,
) -> Result<(), SinkFault>
    requires whole { length asked.now.bytes.now % 512 ≡ 0 }
    requires some { 0 < length asked.now.bytes.now }
    requires fits { asked.now.sector + length asked.now.bytes.now / 512 ≤ S.sectors (store.old, lent.old) }
    requires sound { S.is_sound (store.old, lent.old) }
    ensures tells { TellsTaskOrFails S.Store O.Sink (W.has_refused watch.now)
        (WriteTask asked.now.sector (length asked.now.bytes.now / 512) asked.now.through) request.now asked.now.bytes.now
        (IsStoreFault (S.why_unwritten (store.old, lent.old) (store.new, lent.new) asked.now.sector asked.now.bytes.now))
        (store.old, lent.old) (store.new, lent.new) out.old out.new result }
    ensures sound { S.is_sound (store.new, lent.new) }
    ensures size { S.sectors (store.new, lent.new) ≡ S.sectors (store.old, lent.old) }
{
    match store.write(lent, asked.sector, asked.bytes, asked.through) {
        Ok(()) => put(out, &success_reply(request.cookie)),
        Err(fault) => refuse(
            watch,
            out,
            request,
            RequestFault::Store(fault),
            ErrorCode::Io,
        ),
    }
}

/// Makes what was written stand.
pub(crate) fn do_flush<M, S: Store<M>, W: ClientWatch, O: Sink>(
    store: &mut S,
    lent: &mut M,
    watch: &W,
    out: &mut O,
    request: &Request,
) -> Result<(), SinkFault>
    requires sound { S.is_sound (store.old, lent.old) }
    ensures tells { TellsTaskOrFails S.Store O.Sink (W.has_refused watch.now) FlushTask request.now []
        (IsStoreFault (S.why_unflushed (store.old, lent.old) (store.new, lent.new)))
        (store.old, lent.old) (store.new, lent.new) out.old out.new result }
    ensures sound { S.is_sound (store.new, lent.new) }
    ensures size { S.sectors (store.new, lent.new) ≡ S.sectors (store.old, lent.old) }
{
    match store.flush(lent) {
        Ok(()) => put(out, &success_reply(request.cookie)),
        Err(fault) => refuse(
            watch,
            out,
            request,
            RequestFault::Store(fault),
            ErrorCode::Io,
        ),
    }
}

/// Answers with an error, and does nothing.
pub(crate) fn do_refuse<M, S: Store<M>, W: ClientWatch, O: Sink>(
    _store: &S,
    _lent: &M,
    watch: &W,
    out: &mut O,
    request: &Request,
    fault: RequestFault,
    error: ErrorCode,
) -> Result<(), SinkFault>
    ensures tells { TellsTaskOrFails S.Store O.Sink (W.has_refused watch.now) (RefuseTask error) request.now [] (λ f. f ≡ fault)
        (_store.now, _lent.now) (_store.now, _lent.now) out.old out.new result }
{
    refuse(watch, out, request, fault, error)
}
