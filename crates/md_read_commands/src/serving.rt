// The command that serves an array.
ghost use Rattle.std.specs.Prelude.{◌≡◌, ◌≤◌, IfOk, MatchResult, length};
ghost use Rattle.md_inflight.specs.Requests.Pending.{PendingView};
ghost use Rattle.md_state.specs.Requests.{IsPending};
ghost use Rattle.md_state.specs.Rests.{Rests};
ghost use Rattle.md_array.specs.Consistency.{IsConsistent};
ghost use Rattle.md_read_commands.specs.Serving.{HasServed, IsFreshReader, MayBeServed, RefusesToBegin, ServesArray};

use crate::buffer::buffer;
use crate::holes::Holes;
use crate::reader::ArrayReader;
use crate::reading::{first_gap, way_as_it_is};
use md_array::Mirror;
use md_device::Device;
use md_nbd::{ClientWatch, Export, MOST_BYTES, Service, SessionFault, serve_client};
use md_refusals::CommandFault;
use md_streams::{Gaps, Sink, Source};
use std::alloc::Global;

// The room for requests at first, in sectors: what a client's options need, and the requests of most clients.
const LEAST_SECTORS: u64 = 2048;

// The sectors of the longest request that is done.
const MOST_SECTORS: usize = MOST_BYTES as usize / 512;

/// Serves an array to a client of the NBD protocol until it goes, and writes nothing. Its sectors are those that
/// `read_array_readonly` puts out. A request of which a sector is not given is answered with EIO, and no other is; or, with
/// `fill`, with what another member has, or zeros, in the place of such sectors, as `read_array_filled` has them: they come back. They
/// take memory, and where there is none the answer is EIO. The watch is told of each request that is
/// answered with an error.
///
/// That the mirror is halted, or members in sync may differ, is looked for before memory for requests is taken, which is 1 MiB, with
/// `fill` 2 MiB more, and that before the client is greeted. It grows with a client's requests, to 32 MiB at most.
///
/// `InputFault` says that the input failed, or that the client did not go between two messages, `OutputFault` that the output
/// failed. `Read` with `Unreadable` says that sectors were filled so, and which was the first of them: the client has gone in order
/// then.
pub fn serve_array<D: Device + Drop, W: ClientWatch, I: Source, S: Sink>(
    alloc: Global,
    mirror: &mut Mirror<D>,
    fill: bool,
    watch: &W,
    input: &mut I,
    out: &mut S,
) -> (Gaps, Result<(), CommandFault>)
    requires sound { IsConsistent mirror.old }
    ensures gives { ServesArray I.Source S.Sink fill mirror.old mirror.new result.0
        input.old input.new out.old out.new result.1 }
    ensures flushed { IfOk result.1 (λ _. S.is_flushed out.new) }
    ensures rests { Rests mirror.old mirror.new }
    ensures sound { IsConsistent mirror.new }
    ensures pending { (p : PendingView) → IsPending mirror.old.array p → IsPending mirror.new.array p }
{
    match begin(alloc, mirror, fill) {
        Ok((mut reader, mut room)) => {
            let served = serve(alloc, mirror, &mut reader, watch, &mut room, input, out);
            (reader.gaps, served)
        }
        Err(fault) => (Gaps::none(alloc), Err(fault)),
    }
}

// A reader of the array, and room for the sectors of a request.
fn begin<D: Device + Drop>(
    alloc: Global,
    mirror: &Mirror<D>,
    fill: bool,
) -> Result<(ArrayReader, Vec<u8>), CommandFault>
    requires sound { IsConsistent mirror.now }
    ensures gives { MatchResult result
        (λ r. IsFreshReader fill mirror.now r.0)
        (RefusesToBegin mirror.now) }
    ensures may { IfOk result (λ r. MayBeServed r.0.way mirror.now) }
    ensures room { IfOk result (λ r. 65536 ≤ length r.1.items) }
{
    let way = way_as_it_is(mirror, 0, mirror.chunks().size)?;
    let room = buffer(alloc, LEAST_SECTORS)?;
    let most = if fill { MOST_SECTORS } else { 0 };
    let holes = Holes::with_capacity(alloc, most)?;
    let reader = ArrayReader {
        alloc,
        way,
        fill,
        gaps: Gaps::none(alloc),
        holes,
    };
    Ok((reader, room))
}

// Serves a client.
fn serve<D: Device + Drop, W: ClientWatch, I: Source, S: Sink>(
    alloc: Global,
    mirror: &mut Mirror<D>,
    reader: &mut ArrayReader,
    watch: &W,
    room: &mut Vec<u8>,
    input: &mut I,
    out: &mut S,
) -> Result<(), CommandFault>
    requires room { 65536 ≤ length room.old.items }
    requires may { MayBeServed reader.old.way mirror.old }
    ensures gives { HasServed I.Source S.Sink reader.old reader.new mirror.old mirror.new
        input.old input.new out.old out.new result }
    ensures flushed { IfOk result (λ _. S.is_flushed out.new) }
    ensures rests { Rests mirror.old mirror.new }
    ensures sound { IsConsistent mirror.new }
{
    let export = Export {
        size: 512 * mirror.chunks().size,
        readonly: true,
    };
    let service = Service {
        export: &export,
        watch: &*watch,
    };
    match serve_client(alloc, &service, reader, mirror, room, input, out) {
        Ok(end) if end.is_orderly() => {}
        Ok(_) => return Err(CommandFault::InputFault),
        Err(SessionFault::Source) => return Err(CommandFault::InputFault),
        Err(SessionFault::Sink) => return Err(CommandFault::OutputFault),
        Err(SessionFault::NoMemory) => return Err(CommandFault::NoPieceMemory),
    }
    out.flush()?;
    first_gap(&reader.gaps).map_err(CommandFault::Read)?;
    Ok(())
}
