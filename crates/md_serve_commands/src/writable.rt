// The command that serves an array for writing.
ghost use Rattle.std.specs.Prelude.{◌≡◌, ◌≤◌, [], IfOk, MatchResult, length};
ghost use Rattle.md_inflight.specs.Requests.Pending.{PendingView};
ghost use Rattle.md_state.specs.Requests.{IsPending};
ghost use Rattle.md_array.specs.Consistency.{IsConsistent};
ghost use Rattle.md_serve_commands.specs.Waiting.{WaitsWithin};
ghost use Rattle.md_serve_commands.specs.Writable.{HasServed, IsReadyToServe, MayBeWritten, RefusesToMakeReady, RefusesToServe, ServesWritable};

use crate::writer::{ArrayWriter, room_to_wait};
use md_array::Mirror;
use md_commands::resync_if_needed;
use md_device::Device;
use md_metadata::stop;
use md_nbd::{ClientWatch, Export, Service, SessionFault, serve_client};
use md_read::UnreadFault;
use md_refusals::CommandFault;
use md_streams::{Sink, Source};
use std::alloc::{AllocError, Global};

// The room for requests at first: what a client's options need, and the requests of most clients.
const LEAST_ROOM: usize = 0x100000;

/// Serves an array to a client of the NBD protocol, which reads and writes it until it goes; and stops it then, however the client
/// went. A degraded array that is not resynced is resynced before the client is greeted.
///
/// Writes that lie together wait in memory, 16 MiB at most, and are written at once: on a flush, before a read and before any other
/// write, where one asks for it (FUA), and at the end. Bytes that were written are on stable storage of each member in sync. A flush
/// clears the marks now and then, as far as `stop` does, and so does a rest: where the watch says that the client was silent before a
/// request, what waits is written and the marks are cleared first. A request that is not done is answered with EIO, and the session goes on;
/// what waits then waits still. Once the mirror is halted no request is done any more. The watch is told of each request that is answered
/// with an error.
///
/// That the mirror is halted, or members in sync of an array that is not degraded may differ, is looked for before memory for
/// requests is taken, 1 MiB, and for what waits, and that before the array is resynced. That of requests grows with them, to 32 MiB
/// at most.
///
/// `Stop` says that the array is not stopped, whatever became of the client: with `Halted` where a request halted the mirror. Of one
/// that is stopped `Write` says that what waited at the end is not written. Else `InputFault` says that the input failed, or that the
/// client did not go between two messages, `OutputFault` that the output failed.
///
///     let mut input = Input::new(rt.stdin());
///     let mut out = Output::new(rt.stdout());
///     serve_writable(rt.alloc(), &mut mirror, &watch, &mut input, &mut out)?;
pub fn serve_writable<D: Device + Drop, W: ClientWatch, I: Source, S: Sink>(
    alloc: Global,
    mirror: &mut Mirror<D>,
    watch: &W,
    input: &mut I,
    out: &mut S,
) -> Result<(), CommandFault>
    requires sound { IsConsistent mirror.old }
    ensures gives { ServesWritable I.Source S.Sink mirror.old mirror.new input.old input.new
        out.old out.new result }
    ensures flushed { IfOk result (λ _. S.is_flushed out.new) }
    ensures sound { IsConsistent mirror.new }
    ensures pending { (p : PendingView) → IsPending mirror.old.array p → IsPending mirror.new.array p }
{
    let (mut room, run) = begin(alloc, mirror)?;
    let mut writer = ArrayWriter::new(run, mirror.chunks().size);
    let served = serve(alloc, mirror, &mut writer, watch, &mut room, input, out);
    let late = writer.write_waiting(mirror);
    stop(mirror).map_err(CommandFault::Stop)?;
    late.map_err(CommandFault::Write)?;
    served
}

// Takes room for requests and for what waits, and resyncs an array that needs it.
fn begin<D: Device + Drop>(
    alloc: Global,
    mirror: &mut Mirror<D>,
) -> Result<(Vec<u8>, Vec<u8>), CommandFault>
    requires sound { IsConsistent mirror.old }
    ensures gives { MatchResult result
        (λ _. IsReadyToServe mirror.old mirror.new)
        (RefusesToMakeReady mirror.old mirror.new) }
    ensures room { IfOk result (λ r. 65536 ≤ length r.0.items) }
    ensures none { IfOk result (λ r. r.1.items ≡ []) }
    ensures sound { IsConsistent mirror.new }
    ensures pending { (p : PendingView) → IsPending mirror.old.array p → IsPending mirror.new.array p }
{
    check_may_serve(mirror).map_err(CommandFault::Read)?;
    let rooms = take_rooms(alloc)?;
    make_ready(alloc, mirror)?;
    Ok(rooms)
}

// Room for requests, and for what waits.
fn take_rooms(alloc: Global) -> Result<(Vec<u8>, Vec<u8>), AllocError>
    ensures room { IfOk result (λ r. 65536 ≤ length r.0.items) }
    ensures none { IfOk result (λ r. r.1.items ≡ []) }
{
    let room = vec![in alloc; 0; LEAST_ROOM]?;
    let run = room_to_wait(alloc)?;
    Ok((room, run))
}

// Resyncs an array that needs it.
fn make_ready<D: Device + Drop>(alloc: Global, mirror: &mut Mirror<D>) -> Result<(), CommandFault>
    requires may { MayBeWritten mirror.old.array }
    requires sound { IsConsistent mirror.old }
    ensures gives { MatchResult result
        (λ _. IsReadyToServe mirror.old mirror.new)
        (RefusesToMakeReady mirror.old mirror.new) }
    ensures sound { IsConsistent mirror.new }
    ensures pending { (p : PendingView) → IsPending mirror.old.array p → IsPending mirror.new.array p }
{
    resync_if_needed(alloc, mirror).map_err(CommandFault::Resync)?;
    Ok(())
}

// Whether the mirror runs, and its sectors can be read, perhaps after a resync.
fn check_may_serve<D: Device + Drop>(mirror: &Mirror<D>) -> Result<(), UnreadFault>
    ensures { MatchResult result
        (λ _. MayBeWritten mirror.now.array)
        (RefusesToServe mirror.now mirror.now) }
{
    if mirror.halted() {
        return Err(UnreadFault::Halted);
    }
    if !mirror.resynced() && !mirror.degraded() {
        return Err(UnreadFault::NotResynced);
    }
    Ok(())
}

// Serves a client.
fn serve<D: Device + Drop, W: ClientWatch, I: Source, S: Sink>(
    alloc: Global,
    mirror: &mut Mirror<D>,
    writer: &mut ArrayWriter,
    watch: &W,
    room: &mut Vec<u8>,
    input: &mut I,
    out: &mut S,
) -> Result<(), CommandFault>
    requires room { 65536 ≤ length room.old.items }
    requires sound { IsConsistent mirror.old }
    requires waits { WaitsWithin writer.old }
    requires size { writer.old.sectors ≡ mirror.old.array.chunks.size }
    ensures gives { HasServed I.Source S.Sink writer.old writer.new mirror.old mirror.new input.old input.new
        out.old out.new result }
    ensures waits { WaitsWithin writer.new }
    ensures flushed { IfOk result (λ _. S.is_flushed out.new) }
    ensures sound { IsConsistent mirror.new }
    ensures pending { (p : PendingView) → IsPending mirror.old.array p → IsPending mirror.new.array p }
{
    let export = Export {
        size: 512 * mirror.chunks().size,
        readonly: false,
    };
    let service = Service {
        export: &export,
        watch: &*watch,
    };
    match serve_client(alloc, &service, writer, mirror, room, input, out) {
        Ok(end) if end.is_orderly() => {}
        Ok(_) => return Err(CommandFault::InputFault),
        Err(SessionFault::Source) => return Err(CommandFault::InputFault),
        Err(SessionFault::Sink) => return Err(CommandFault::OutputFault),
        Err(SessionFault::NoMemory) => return Err(CommandFault::NoPieceMemory),
    }
    out.flush()?;
    Ok(())
}
