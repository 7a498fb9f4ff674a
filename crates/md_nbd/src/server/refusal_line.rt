// The line that says which request was refused, and why. No line takes memory.
ghost use Rattle.std.specs.Prelude.{◌≡◌, ◌^◌, ◌<◌};
ghost use Rattle.md_streams.specs.Sink.{PutsOrFails};
ghost use Rattle.md_nbd.specs.Server.Refusals.{first_to_last_text, bytes_text, command_text, lacking_text, range_text, reason_text, refused_request_text, request_text, sector_range_text, store_text, transfer_text};

use crate::request::{CMD_FLUSH, CMD_READ, CMD_WRITE, Request};
use crate::server::refusal::{RefusedRequest, RequestFault};
use crate::server::store::StoreFault;
use crate::task::has_whole_sectors;
use md_streams::{Sink, SinkFault, number_after};

const CMD_TRIM: u16 = 4;

const CMD_CACHE: u16 = 5;

const CMD_WRITE_ZEROES: u16 = 6;

const CMD_BLOCK_STATUS: u16 = 7;

/// Says which request was answered with an error, and why. It takes no memory, and fails only where the sink has failed.
pub fn refused_line<S: Sink>(out: &mut S, refused: &RefusedRequest) -> Result<(), SinkFault>
    ensures { PutsOrFails S.contents S.failed out.old out.new (refused_request_text refused.now) result }
{
    out.put(b"mdcli: refused: ")?;
    put_request(out, &refused.request)?;
    put_reason(out, refused.fault)?;
    out.put(b"\n")?;
    Ok(())
}

// What a request asks for: a flush is of all sectors.
fn put_request<S: Sink>(out: &mut S, request: &Request) -> Result<(), SinkFault>
    ensures { PutsOrFails S.contents S.failed out.old out.new (request_text request.now) result }
{
    if request.kind == CMD_FLUSH {
        out.put(b"flush")
    } else {
        put_transfer(out, request)
    }
}

#[tactic(auto, unfolding(crate::specs::Server::Refusals::transfer_text), using(md_streams::proofs::Puts::puts_then))]
fn put_transfer<S: Sink>(out: &mut S, request: &Request) -> Result<(), SinkFault>
    ensures { PutsOrFails S.contents S.failed out.old out.new (transfer_text request.now) result }
{
    put_command(out, request.kind)?;
    put_range(out, request)?;
    Ok(())
}

fn put_command<S: Sink>(out: &mut S, kind: u16) -> Result<(), SinkFault>
    ensures { PutsOrFails S.contents S.failed out.old out.new (command_text kind) result }
{
    match kind {
        CMD_READ => out.put(b"read"),
        CMD_WRITE => out.put(b"write"),
        CMD_TRIM => out.put(b"trim"),
        CMD_CACHE => out.put(b"cache"),
        CMD_WRITE_ZEROES => out.put(b"write-zeroes"),
        CMD_BLOCK_STATUS => out.put(b"block-status"),
        _ => number_after(out, b"command ", kind),
    }
}

// Of which sectors, or of which bytes, where they are no whole sectors.
fn put_range<S: Sink>(out: &mut S, request: &Request) -> Result<(), SinkFault>
    ensures { PutsOrFails S.contents S.failed out.old out.new (range_text request.now) result }
{
    // Read first: their ranges are known once they are.
    let (offset, length) = (request.offset, request.length);
    if has_whole_sectors(request) {
        put_sectors(out, offset / 512, length / 512)
    } else {
        put_bytes(out, offset, length)
    }
}

fn put_sectors<S: Sink>(out: &mut S, first: u64, count: u32) -> Result<(), SinkFault>
    requires some { 0 < count }
    requires fits { first < 2 ^ 63 }
    ensures { PutsOrFails S.contents S.failed out.old out.new (sector_range_text first count) result }
{
    if count == 1 {
        number_after(out, b" of sector ", first)
    } else {
        put_first_to_last(out, first, first + u64::from(count) - 1)
    }
}

#[tactic(auto, unfolding(crate::specs::Server::Refusals::first_to_last_text), using(md_streams::proofs::Puts::puts_then))]
fn put_first_to_last<S: Sink>(out: &mut S, first: u64, last: u64) -> Result<(), SinkFault>
    ensures { PutsOrFails S.contents S.failed out.old out.new (first_to_last_text first last) result }
{
    number_after(out, b" of sectors ", first)?;
    number_after(out, b" to ", last)?;
    Ok(())
}

fn put_bytes<S: Sink>(out: &mut S, offset: u64, length: u32) -> Result<(), SinkFault>
    ensures { PutsOrFails S.contents S.failed out.old out.new (bytes_text offset length) result }
{
    number_after(out, b" of ", length)?;
    number_after(out, b" bytes from byte ", offset)?;
    Ok(())
}

// Why it was refused.
fn put_reason<S: Sink>(out: &mut S, fault: RequestFault) -> Result<(), SinkFault>
    ensures { PutsOrFails S.contents S.failed out.old out.new (reason_text fault) result }
{
    match fault {
        RequestFault::OnlyRead => out.put(b": the array is only read"),
        RequestFault::UnknownFlags => out.put(b": its flags are not known"),
        RequestFault::UnknownCommand => out.put(b": the server does no such request"),
        RequestFault::TooLong => out.put(b": longer than 32 MiB"),
        RequestFault::PastEnd => out.put(b": past the end of the array"),
        RequestFault::NotWholeSectors => out.put(b": empty, or not of whole sectors"),
        RequestFault::Store(fault) => put_fault(out, fault),
    }
}

fn put_lacking<S: Sink>(out: &mut S, sector: u64) -> Result<(), SinkFault>
    ensures { PutsOrFails S.contents S.failed out.old out.new (lacking_text sector) result }
{
    number_after(out, b": sector ", sector)?;
    out.put(b" can't be read")?;
    Ok(())
}

fn put_fault<S: Sink>(out: &mut S, fault: StoreFault) -> Result<(), SinkFault>
    ensures { PutsOrFails S.contents S.failed out.old out.new (store_text fault) result }
{
    match fault {
        StoreFault::Halted => out.put(b": the array is halted"),
        StoreFault::Lacks(sector) => put_lacking(out, sector),
        StoreFault::NoMemory => out.put(b": out of memory"),
        StoreFault::NotRead => out.put(b": the array gives no sector"),
        StoreFault::NotWritten => out.put(b": the array takes no write"),
    }
}
